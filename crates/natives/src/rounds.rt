//! The rounds of a renaming: its slots, what a round reads in them, and how it ends.

ghost use Rattle.std.specs.Prelude.{◌≡◌, ◌+◌, ◌-◌, ◌*◌, ◌<◌, ◌≤◌, [], ◌∷◌, true, length, replicate};
ghost use Rattle.natives.specs.Puts.{ArePut};
ghost use Rattle.regmodel.specs.declared.limits.TheConstants.{MOST_SLOTS, MOST_REGISTERS};
ghost use Rattle.natives.specs.declared.rounds.TheConstants.{LATER};
ghost use Rattle.natives.specs.declared.rounds.RoundStage.TheVariants.{Proposes};
ghost use Rattle.natives.specs.Rounds.{first_slot, after_slot, after_slots, number_from, reading_number, stage_after, later_after, proposal_after, seen_numbers};
ghost use Rattle.uses.specs.Uses.{use_fits};
ghost use Rattle.uses.specs.declared.kinds.Use.TheVariants.{Name};
ghost use Rattle.regmodel.specs.declared.accesses.Access.TheVariants.{Write};

use machine::{Told, put_sparse};
use regmodel::Access;
use regmodel::limits::MOST_TURNS;

/// How many rounds there are after the first.
const LATER: u8 = MOST_TURNS as u8 - 1;

/// The slots of a renaming, a register each for the proposal of its process.
#[derive(Clone, Copy)]
pub struct RoundSlots {
    /// The register of the first one.
    pub base: u8,
    /// How many there are.
    pub count: u8,
    /// The one of this process.
    pub own: u8,
    /// How many registers the program has.
    pub registers: u32,
    ghost few: { registers ≤ MOST_REGISTERS },
    ghost few_slots: { count ≤ MOST_SLOTS },
    ghost room: { base + count ≤ registers },
    ghost own_in: { own < count },
}

impl RoundSlots {
    /// Those of a use line that is within its limits.
    pub fn of(base: u32, slots: u32, slot: u32, registers: u32) -> RoundSlots
        requires { use_fits (Name base slots slot) registers ≡ true }
        ensures base { result.base ≡ base }
        ensures count { result.count ≡ slots }
        ensures own { result.own ≡ slot }
        ensures registers { result.registers ≡ registers }
    {
        RoundSlots {
            base: base as u8,
            count: slots as u8,
            own: slot as u8,
            registers,
        }
    }
}

/// Where a process stands in a round, with what it is about to look at where it looks.
#[derive(Clone, Copy)]
pub enum RoundStage<L> {
    /// It writes its proposal into its slot.
    Proposes,
    /// It looks at slots.
    Looks(L),
    /// No other slot held its proposal, which is its name.
    Named,
    /// It has no rounds left, or was ended.
    Over,
}

/// A round of a renaming, and where its process stands in it.
#[derive(Drop)]
pub struct Round<L> {
    /// The slots.
    pub slots: RoundSlots,
    /// Where the process stands.
    pub stage: RoundStage<L>,
    /// How many rounds there are after this one.
    pub later: u8,
    /// The name that the process proposes.
    pub proposal: u32,
    /// What the process last saw in each slot, 0 for its own.
    pub seen: [u32; 8],
    ghost eight: { length seen ≡ 8 },
}

impl<L: Copy> Round<L> {
    /// The first one, which proposes 1.
    pub fn first(slots: RoundSlots) -> Round<L>
        ensures slots { result.slots ≡ slots }
        ensures stage { result.stage ≡ Proposes }
        ensures later { result.later ≡ LATER }
        ensures proposal { result.proposal ≡ 1 }
        ensures seen { result.seen ≡ replicate 8 0 }
    {
        Round {
            slots,
            stage: RoundStage::Proposes,
            later: LATER,
            proposal: 1,
            seen: [0; 8],
        }
    }

    /// The write of the proposal into the own slot.
    pub fn write(&self) -> Access
        ensures { result ≡ Write (self.now.slots.base + self.now.slots.own) self.now.proposal }
    {
        Access::Write(self.slots.base + self.slots.own, self.proposal)
    }

    /// Ends the round: the proposal is the name of the process, or there is a new one for the next
    /// round, where one is left.
    pub fn finish(&mut self, reading: Reading)
        requires { 1 ≤ reading.rank }
        ensures slots { self.new.slots ≡ self.old.slots }
        ensures stage { self.new.stage ≡ stage_after reading.clash self.old.later }
        ensures later { self.new.later ≡ later_after reading.clash self.old.later }
        ensures proposal { self.new.proposal
            ≡ proposal_after reading.clash self.old.later self.old.slots.count reading.rank
            self.old.seen self.old.proposal }
        ensures seen { self.new.seen ≡ self.old.seen }
    {
        if !reading.clash {
            self.stage = RoundStage::Named;
        } else if self.later == 0 {
            self.stage = RoundStage::Over;
        } else {
            self.stage = RoundStage::Proposes;
            self.later -= 1;
            self.proposal = free_number(&self.seen[..usize::from(self.slots.count)], reading.rank);
        }
    }

    /// Puts behind the numbers that of a stage in the round, how many rounds there are after
    /// it, and the proposal.
    pub fn put_stage(&self, stage: u32, numbers: &mut Told) -> Option<()>
        ensures { ArePut (stage ∷ self.now.later ∷ self.now.proposal ∷ []) numbers.old numbers.new
            result }
    {
        numbers.put_all(&[stage, u32::from(self.later), self.proposal])
    }

    /// Puts what the slots held behind the numbers, where the process stands in the round.
    pub fn put_seen(&self, numbers: &mut Told) -> Option<()>
        ensures { ArePut (seen_numbers self.now.stage self.now.seen) numbers.old numbers.new
            result }
    {
        match self.stage {
            RoundStage::Proposes | RoundStage::Looks(_) => put_sparse(&self.seen, numbers),
            RoundStage::Named | RoundStage::Over => Some(()),
        }
    }
}

/// A slot that is read, and what the slots before it gave.
#[derive(Clone, Copy)]
pub struct Reading {
    /// The slot.
    pub at: u8,
    /// Whether one of them held the proposal.
    pub clash: bool,
    /// One more than the slots among them that are below the own one and hold something.
    pub rank: u8,
}

impl Reading {
    /// Before the first slot.
    pub fn first() -> Reading
        ensures { result ≡ first_slot }
    {
        Reading {
            at: 0,
            clash: false,
            rank: 1,
        }
    }

    /// The number that tells that a slot is read, by whether there is a clash.
    pub fn number(self) -> u32
        ensures { result ≡ reading_number self.clash }
    {
        if self.clash { 2 } else { 1 }
    }

    /// Past the slot, which held this much.
    pub fn after_slot(self, held: u32, proposal: u32, own: u8) -> Reading
        requires few { self.at ≤ MOST_SLOTS }
        requires small { self.rank ≤ self.at + 1 }
        ensures { result ≡ after_slot own proposal held self }
    {
        let higher = self.at < own && held != 0;
        Reading {
            at: self.at + 1,
            clash: self.clash || held == proposal,
            rank: if higher { self.rank + 1 } else { self.rank },
        }
    }

    /// Past all slots, which held so much.
    pub fn after_slots(held: &[u32], proposal: u32, own: u8) -> Reading
        requires { length held.now ≤ MOST_SLOTS }
        ensures value { result ≡ after_slots own proposal held.now first_slot }
        ensures some { 1 ≤ result.rank }
    {
        let mut reading = Reading::first();
        for value in held {
            reading = reading.after_slot(*value, proposal, own);
        }
        reading
    }
}

/// The number of this rank, from 1, among those that no slot holds, where the slots hold so much.
pub fn free_number(held: &[u32], rank: u8) -> u32
    requires slots { 0 < length held.now }
    requires few { length held.now ≤ MOST_SLOTS }
    requires some { 1 ≤ rank }
    ensures { result ≡ number_from held.now (2 * length held.now - 1) rank 0 }
{
    let end = 2 * held.len() as u32;
    let mut left = rank;
    for number in 1..end {
        if held.contains(&number) {
            continue;
        }
        left -= 1;
        if left == 0 {
            return number;
        }
    }
    end - 1
}

//! Renamings: a process proposes a name in its slot until no other slot holds it.

ghost use Rattle.std.specs.Prelude.{◌≡◌, ◌+◌, ◌≤◌, ◌∷◌, slice_index};
ghost use Rattle.uses.specs.declared.kinds.Use.TheVariants as kind;
ghost use Rattle.natives.specs.Makes.{IsMadeFor};
ghost use Rattle.natives.specs.declared.rounds.Reading.{Reading};
ghost use Rattle.natives.specs.declared.rounds.RoundStage.TheVariants.{Looks};
ghost use Rattle.natives.specs.Puts.{ArePut};
ghost use Rattle.natives.specs.NameSlots.{IsRead, name_numbers, reading_rest};
ghost use Rattle.natives.specs.Turns.{GoesOnAs};

use crate::MakeFault;
use crate::limits::check_fits;
use crate::numbers::{done, done_with};
use crate::rounds::{Reading, Round, RoundSlots, RoundStage};
use machine::{Machine, Told, value_of};
use regmodel::{Access, Pending};
use uses::Use;

/// A renaming in progress: a register a slot, for the proposal of its process. It keeps what it
/// last read in each slot, 0 for its own.
#[derive(Drop)]
pub struct NameSlots {
    round: Round<Reading>,
    ghost own_empty: { slice_index round.seen round.slots.own ≡ 0 },
    ghost reads: { (reading : Reading) → round.stage ≡ Looks reading
        → IsRead round.slots.count round.slots.own reading },
}

impl NameSlots {
    /// The renaming of a use line, at its start: BASE, SLOTS, SLOT, and how many registers there
    /// are. Fault 1 where a limit of the line is passed, which [`Use::fits`] tells; no other fault
    /// comes. It takes no memory.
    pub fn make(base: u32, slots: u32, slot: u32, registers: u32) -> Result<NameSlots, MakeFault>
        ensures { IsMadeFor (kind.Name base slots slot) registers
            ⟦<NameSlots as Machine>⟧.means result }
    {
        check_fits(Use::Name(base, slots, slot), registers)?;
        Ok(NameSlots {
            round: Round::first(RoundSlots::of(base, slots, slot, registers)),
        })
    }

    /// Goes on to a slot, past the own one; past the last one it ends the round.
    fn go_on(&mut self, reading: Reading)
        requires inside { reading.at ≤ self.old.round.slots.count }
        requires some { 1 ≤ reading.rank }
        requires small { reading.rank ≤ reading.at + 1 }
        ensures { GoesOnAs ⟦<NameSlots as Machine>⟧.means self.old self.new
            (reading_rest self.old.round reading) }
    {
        let next = if reading.at == self.round.slots.own {
            Reading {
                at: reading.at + 1,
                ..reading
            }
        } else {
            reading
        };
        if next.at < self.round.slots.count {
            self.round.stage = RoundStage::Looks(next);
        } else {
            self.round.finish(next);
        }
    }

    /// Takes what a slot holds, and goes on to the next one.
    fn take(&mut self, reading: Reading, reply: &[u32])
        requires read { IsRead self.old.round.slots.count self.old.round.slots.own reading }
        ensures { GoesOnAs ⟦<NameSlots as Machine>⟧.means self.old self.new
            (λ s. reading_rest self.old.round reading (reply.now ∷ s)) }
    {
        let held = value_of(reply);
        self.round.seen[usize::from(reading.at)] = held;
        self.go_on(reading.after_slot(held, self.round.proposal, self.round.slots.own));
    }

    /// Puts the stage behind the numbers, with the numbers that it holds, but not
    /// what the slots held.
    fn put_stage(&self, numbers: &mut Told) -> Option<()>
        ensures { ArePut
            (name_numbers self.now.round.later self.now.round.proposal self.now.round.stage)
            numbers.old numbers.new result }
    {
        match self.round.stage {
            RoundStage::Proposes => self.round.put_stage(0, numbers),
            RoundStage::Looks(reading) => {
                self.round.put_stage(reading.number(), numbers)?;
                numbers.put_all(&[u32::from(reading.at), u32::from(reading.rank)])
            }
            RoundStage::Named => numbers.put_all(&[3, self.round.proposal]),
            RoundStage::Over => numbers.put(4),
        }
    }
}

impl Machine for NameSlots {
    ghost use Rattle.uses.specs.declared.kinds.Use.TheVariants as kind;
    ghost use Rattle.uses.specs.Expansions.{expansion};
    ghost use Rattle.natives.specs.Rounds.{stage_rest};
    ghost use Rattle.natives.specs.NameSlots.{round_rest, reading_rest, name_resumed};

    ghost means = { λ m. record {
      program = expansion (kind.Name m.round.slots.base m.round.slots.count m.round.slots.own)
          m.round.slots.registers;
      rest = stage_rest (round_rest m.round) (reading_rest m.round) m.round.proposal m.round.stage;
      resumed = name_resumed m.round.slots.base m.round.slots.count m.round.slots.own
          m.round.slots.registers;
    } };

    fn reset(&mut self) {
        self.round = Round::first(self.round.slots);
    }

    fn pending(&self) -> Pending {
        match self.round.stage {
            RoundStage::Proposes => Pending::Wants(self.round.write()),
            RoundStage::Looks(reading) => Pending::Wants(Access::Read(
                reading.at + self.round.slots.base,
            )),
            RoundStage::Named => done_with(self.round.proposal),
            RoundStage::Over => done(),
        }
    }

    fn feed(&mut self, reply: &[u32]) {
        match self.round.stage {
            RoundStage::Proposes => self.go_on(Reading::first()),
            RoundStage::Looks(reading) => self.take(reading, reply),
            RoundStage::Named | RoundStage::Over => {}
        }
    }

    fn end(&mut self) {
        self.round.stage = RoundStage::Over;
    }

    fn tell(&self, numbers: &mut Told) -> bool {
        self.put_stage(numbers).is_some() && self.round.put_seen(numbers).is_some()
    }
}

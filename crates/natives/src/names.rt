//! Renamings that scan: a process proposes a name in its slot until no other slot holds it, where
//! it sees all slots at once.

ghost use Rattle.std.specs.Prelude.{◌≡◌, ◌∷◌, length};
ghost use Rattle.regmodel.specs.Reply.{one};
ghost use Rattle.uses.specs.declared.kinds.Use.TheVariants as kind;
ghost use Rattle.natives.specs.Makes.{IsMadeFor};
ghost use Rattle.natives.specs.Puts.{ArePut};
ghost use Rattle.natives.specs.Names.{scan_round_rest, names_numbers};
ghost use Rattle.natives.specs.Turns.{GoesOnAs};

use crate::MakeFault;
use crate::limits::check_fits;
use crate::numbers::{done, done_with};
use crate::rounds::{Reading, Round, RoundSlots, RoundStage};
use machine::{Machine, Told};
use regmodel::{Access, Pending};
use uses::Use;

/// The scan of all slots.
#[derive(Clone, Copy)]
struct Scan;

/// A renaming in progress: a register a slot, for the proposal of its process. It keeps what it
/// last saw in each slot, 0 for its own.
#[derive(Drop)]
pub struct Names {
    round: Round<Scan>,
}

impl Names {
    /// The renaming of a use line, at its start: BASE, SLOTS, SLOT, and how many registers there
    /// are. Fault 1 where a limit of the line is passed, which [`Use::fits`] tells; no other fault
    /// comes. It takes no memory.
    pub fn make(base: u32, slots: u32, slot: u32, registers: u32) -> Result<Names, MakeFault>
        ensures { IsMadeFor (kind.Names base slots slot) registers
            ⟦<Names as Machine>⟧.means result }
    {
        check_fits(Use::Names(base, slots, slot), registers)?;
        Ok(Names {
            round: Round::first(RoundSlots::of(base, slots, slot, registers)),
        })
    }

    /// Takes what a scan gave, of which the own slot counts as empty, and ends the round.
    fn take(&mut self, reply: &[u32])
        requires { length reply.now ≡ self.old.round.slots.count }
        ensures { GoesOnAs ⟦<Names as Machine>⟧.means self.old self.new
            (λ s. scan_round_rest self.old.round (one 0 ∷ reply.now ∷ s)) }
    {
        let slots = usize::from(self.round.slots.count);
        let own = usize::from(self.round.slots.own);
        let mut seen = self.round.seen;
        seen[..slots].copy_from_slice(reply);
        seen[own] = 0;
        self.round.seen = seen;
        let reading = Reading::after_slots(
            &seen[..slots],
            self.round.proposal,
            self.round.slots.own,
        );
        self.round.finish(reading);
    }

    /// Puts the stage behind the numbers, with the numbers that it holds, but not
    /// what the slots held.
    fn put_stage(&self, numbers: &mut Told) -> Option<()>
        ensures { ArePut
            (names_numbers self.now.round.later self.now.round.proposal self.now.round.stage)
            numbers.old numbers.new result }
    {
        match self.round.stage {
            RoundStage::Proposes => self.round.put_stage(0, numbers),
            RoundStage::Looks(_) => self.round.put_stage(1, numbers),
            RoundStage::Named => numbers.put_all(&[2, self.round.proposal]),
            RoundStage::Over => numbers.put(3),
        }
    }
}

impl Machine for Names {
    ghost use Rattle.uses.specs.declared.kinds.Use.TheVariants as kind;
    ghost use Rattle.uses.specs.Expansions.{expansion};
    ghost use Rattle.natives.specs.Rounds.{stage_rest};
    ghost use Rattle.natives.specs.Names.{scan_round_rest, scan_rest, names_resumed};

    ghost means = { λ m. record {
      program = expansion (kind.Names m.round.slots.base m.round.slots.count m.round.slots.own)
          m.round.slots.registers;
      rest = stage_rest (scan_round_rest m.round) (scan_rest m.round) m.round.proposal
          m.round.stage;
      resumed = names_resumed m.round.slots.base m.round.slots.count m.round.slots.own
          m.round.slots.registers;
    } };

    fn reset(&mut self) {
        self.round = Round::first(self.round.slots);
    }

    fn pending(&self) -> Pending {
        match self.round.stage {
            RoundStage::Proposes => Pending::Wants(self.round.write()),
            RoundStage::Looks(_) => Pending::Wants(Access::Scan(
                self.round.slots.base,
                self.round.slots.count,
            )),
            RoundStage::Named => done_with(self.round.proposal),
            RoundStage::Over => done(),
        }
    }

    fn feed(&mut self, reply: &[u32]) {
        match self.round.stage {
            RoundStage::Proposes => self.round.stage = RoundStage::Looks(Scan),
            RoundStage::Looks(_) => self.take(reply),
            RoundStage::Named | RoundStage::Over => {}
        }
    }

    fn end(&mut self) {
        self.round.stage = RoundStage::Over;
    }

    fn tell(&self, numbers: &mut Told) -> bool {
        self.put_stage(numbers).is_some() && self.round.put_seen(numbers).is_some()
    }
}

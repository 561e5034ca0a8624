//! Splitters: a process leaves its number, tries a door and closes it, and stops, goes right or
//! goes down by what it read.

ghost use Rattle.std.specs.Prelude.{◌≡◌, ◌+◌, ◌<◌, ◌≤◌, ℕ};
ghost use Rattle.std.specs.Int.{bit_at};
ghost use Rattle.uses.specs.declared.kinds.Use.TheVariants as kind;
ghost use Rattle.natives.specs.Makes.{IsMadeFor};
ghost use Rattle.regmodel.specs.declared.limits.TheConstants.{MOST_REGISTERS};
ghost use Rattle.natives.specs.Splits.{split_stage};

use crate::MakeFault;
use crate::limits::check_fits;
use crate::numbers::{done, done_with};
use crate::splitters::SplitterStep;
use machine::{Ahead, Machine, Told, value_of};
use regmodel::Pending;
use uses::Use;

/// Where a splitter stands.
#[derive(Clone, Copy)]
enum SplitStage {
    /// It is on its way.
    At(SplitterStep),
    /// It found itself last.
    Stopped,
    /// It found the door closed.
    Right,
    /// It found another one last.
    Down,
    /// It was ended.
    Ended,
}

impl SplitStage {
    /// The number that tells the stage.
    fn number(self) -> u32
        ensures { split_stage result ≡ self }
    {
        match self {
            SplitStage::At(step) => step.number(),
            SplitStage::Stopped => 4,
            SplitStage::Right => 5,
            SplitStage::Down => 6,
            SplitStage::Ended => 7,
        }
    }
}

/// A splitter in progress: register BASE tells who came last, the next one is the door,
/// 0 where it is open.
#[derive(Drop)]
pub struct Split {
    base: u8,
    id: u32,
    registers: u32,
    stage: SplitStage,
    ghost few: { registers ≤ MOST_REGISTERS },
    ghost room: { base + 2 ≤ registers },
}

impl Split {
    /// The splitter of a use line, at its start: BASE, ID, and how many registers there are.
    /// Fault 1 where a limit of the line is passed, which [`Use::fits`] tells; no other fault
    /// comes. It takes no memory.
    pub fn make(base: u32, id: u32, registers: u32) -> Result<Split, MakeFault>
        ensures { IsMadeFor (kind.Split base id) registers ⟦<Split as Machine>⟧.means result }
    {
        check_fits(Use::Split(base, id), registers)?;
        Ok(Split {
            base: base as u8,
            id,
            registers,
            stage: SplitStage::At(SplitterStep::Marks),
        })
    }
}

impl Machine for Split {
    ghost use Rattle.uses.specs.declared.kinds.Use.TheVariants as kind;
    ghost use Rattle.uses.specs.Expansions.{expansion};
    ghost use Rattle.natives.specs.Splits.{split_rest, split_resumed};

    ghost means = { λ m. record {
      program = expansion (kind.Split m.base m.id) m.registers;
      rest = split_rest (expansion (kind.Split m.base m.id) m.registers) m.stage;
      resumed = split_resumed (expansion (kind.Split m.base m.id) m.registers);
    } };

    fn reset(&mut self) {
        self.stage = SplitStage::At(SplitterStep::Marks);
    }

    fn pending(&self) -> Pending {
        match self.stage {
            SplitStage::At(step) => Pending::Wants(step.access(self.base, self.id)),
            SplitStage::Stopped => done_with(1),
            SplitStage::Right => done_with(2),
            SplitStage::Down => done_with(3),
            SplitStage::Ended => done(),
        }
    }

    fn feed(&mut self, reply: &[u32]) {
        let value = value_of(reply);
        self.stage = match self.stage {
            SplitStage::At(SplitterStep::Marks) => SplitStage::At(SplitterStep::Tries),
            SplitStage::At(SplitterStep::Tries) if value != 0 => SplitStage::Right,
            SplitStage::At(SplitterStep::Tries) => SplitStage::At(SplitterStep::Closes),
            SplitStage::At(SplitterStep::Closes) => SplitStage::At(SplitterStep::Looks),
            SplitStage::At(SplitterStep::Looks) if value == self.id => SplitStage::Stopped,
            SplitStage::At(SplitterStep::Looks) => SplitStage::Down,
            over => over,
        };
    }

    fn ahead(&self) -> Option<Ahead> {
        let last = mask_with(0, self.base);
        let door = mask_with(0, self.base + 1);
        let both = mask_with(last, self.base + 1);
        let (accesses, reads, writes) = match self.stage {
            SplitStage::At(SplitterStep::Marks) => (4, both, both),
            SplitStage::At(SplitterStep::Tries) => (3, both, door),
            SplitStage::At(SplitterStep::Closes) => (2, last, door),
            SplitStage::At(SplitterStep::Looks) => (1, last, 0),
            _ => (0, 0, 0),
        };
        Some(Ahead {
            accesses,
            reads,
            writes,
        })
    }

    fn end(&mut self) {
        self.stage = SplitStage::Ended;
    }

    fn tell(&self, numbers: &mut Told) -> bool {
        numbers.put(self.stage.number()).is_some()
    }
}

/// A mask of registers, with one more.
fn mask_with(mask: u64, register: u8) -> u64
    requires { register < 64 }
    ensures there { bit_at result register ≡ 1 }
    ensures kept { (r : ℕ) → bit_at mask r ≡ 1 → bit_at result r ≡ 1 }
{
    mask | 1 << register
}

//! What is drawn of a schedule.

ghost use Rattle.std.specs.Prelude.{◌≡◌, ◌≤◌, None, get_or, length};

use arrayvec::ArrayVec;
use machine::Stopped;
use regmodel::{Access, Outcome};
use std::marker::Model;

/// What a letter did.
#[derive(Clone, Copy, Default, PartialEq, Eq, Debug)]
pub enum Deed {
    /// Its process did this access. What it read is what the registers hold after it.
    Did(Access),
    /// Its process crashed. It is the default because `ArrayVec` asks for one.
    #[default]
    Crash,
}

impl Deed {
    ghost use Rattle.drawing.specs.Labels as labels;
    ghost use Rattle.drawing.specs.Layout as layout;

    /// Whether its process crashed.
    pub(crate) fn is_crash(self) -> bool
        ensures { result ≡ labels.is_crash self }
    {
        matches!(self, Deed::Crash)
    }

    /// Whether it wrote into a register.
    pub(crate) fn writes(self, register: usize) -> bool
        ensures { result ≡ layout.writes register self }
    {
        let Deed::Did(access) = self else {
            return false;
        };
        match access.footprint().writes {
            Some(write) => usize::from(write.register) == register,
            None => false,
        }
    }

    /// Whether it read a register.
    pub(crate) fn reads(self, register: usize) -> bool
        ensures { result ≡ layout.reads register self }
    {
        let Deed::Did(access) = self else {
            return false;
        };
        match access.footprint().reads {
            Some(range) => {
                let (first, count) = (usize::from(range.first), usize::from(range.count));
                first <= register && register < first + count
            }
            None => false,
        }
    }
}

/// What a register holds after a letter, and whether it held another value before it.
#[derive(Clone, Copy, Default, PartialEq, Eq, Debug)]
pub struct RegisterValue {
    /// The value.
    pub value: u32,
    /// Whether the letter changed it.
    pub changed: bool,
}

/// What is drawn of one letter.
#[derive(Default, Debug, Drop)]
pub struct LetterRow {
    /// Which letter it is, the first one 1.
    pub number: u8,
    /// The process whose letter it is.
    pub process: u8,
    /// What the letter did.
    pub deed: Deed,
    /// The number of the statement of the process's own text at which it stood before it, counted
    /// from 0; that of a use line is 0.
    pub statement: Option<usize>,
    /// What each register holds after it, registers from 0.
    pub registers: ArrayVec<RegisterValue, 64>,
}

/// What is drawn of a schedule: what each register holds before its first letter, a row a letter,
/// how each process stands after the last one, and where it stops in its own text then.
#[derive(Debug, Drop)]
pub struct Drawing {
    start: ArrayVec<RegisterValue, 64>,
    rows: ArrayVec<LetterRow, 64>,
    outcome: Outcome,
    stops: ArrayVec<Option<Stopped>, 8>,
}

impl Model for Drawing {
    ghost use Rattle.std.specs.Prelude.{◌≤◌, length};
    ghost use Rattle.regmodel.specs.declared.limits.TheConstants.{MOST_PROCESSES};
    ghost use Rattle.drawing.specs.Pictures.{Picture};

    ghost Value = { Picture };

    ghost view = { λ d. record {
      start = d.start.items;
      rows = d.rows.items;
      ends = d.outcome;
      stops = d.stops.items;
    } };

    ghost invariant = { λ d. length d.outcome ≤ MOST_PROCESSES };
}

impl Drawing {
    ghost use Rattle.regmodel.specs.declared.limits.TheConstants.{MOST_PROCESSES};

    /// The drawing of these parts.
    pub(crate) fn new(
        start: ArrayVec<RegisterValue, 64>,
        rows: ArrayVec<LetterRow, 64>,
        outcome: Outcome,
        stops: ArrayVec<Option<Stopped>, 8>,
    ) -> Drawing
        requires { length outcome ≤ MOST_PROCESSES }
        ensures { result ≡ record {
          start = start.items;
          rows = rows.items;
          ends = outcome;
          stops = stops.items;
        } }
    {
        Drawing {
            start,
            rows,
            outcome,
            stops,
        }
    }

    /// What each register holds before the first letter, registers from 0.
    pub(crate) fn start(&self) -> &ArrayVec<RegisterValue, 64>
        ensures { result.now.items ≡ self.now.start }
    {
        &self.start
    }

    /// What is drawn of each letter.
    pub(crate) fn rows(&self) -> &ArrayVec<LetterRow, 64>
        ensures { result.now.items ≡ self.now.rows }
    {
        &self.rows
    }

    /// How all processes stand at the end.
    pub fn outcome(&self) -> &Outcome
        ensures { result.now ≡ self.now.ends }
    {
        &self.outcome
    }

    /// Where a process stops in its own text at the end: at the statement that wants an access,
    /// halts or is at fault, or at its use line. None where it has come past its last statement, or
    /// is not there.
    pub fn stop_of(&self, p: u8) -> Option<Stopped>
        ensures { result ≡ get_or self.now.stops p None }
    {
        match self.stops.get(usize::from(p)) {
            Some(stop) => *stop,
            None => None,
        }
    }
}

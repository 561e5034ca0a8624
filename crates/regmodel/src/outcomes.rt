//! How processes end, and who judges it.

use crate::accesses::Numbers;
use arrayvec::ArrayVec;
use std::marker::Model;

/// How a process stands after a schedule, in the order of outcomes.
#[derive(Clone, Default, PartialEq, Eq, PartialOrd, Ord, Debug, Drop)]
pub enum End {
    /// Done with these numbers.
    Done(Numbers),
    /// At fault with this code.
    Fault(u8),
    /// It has crashed, whatever it wanted.
    Crashed,
    /// It still wants an access. It is the default because `ArrayVec` asks for one.
    #[default]
    Running,
}

/// One process of an outcome.
#[derive(Clone, Default, PartialEq, Eq, PartialOrd, Ord, Debug, Drop)]
pub struct ProcEnd {
    /// Whether the process took a step.
    pub started: bool,
    /// How it stands.
    pub fate: End,
}

/// How each process stands after a schedule, processes from 0. A clause sees the list of their
/// ends.
#[derive(Clone, PartialEq, Eq, PartialOrd, Ord, Debug, Drop)]
pub struct Outcome {
    ends: ArrayVec<ProcEnd, 8>,
}

impl Model for Outcome {
    ghost use Rattle.std.specs.Prelude.{List};
    ghost use Rattle.regmodel.specs.declared.outcomes.ProcEnd.{ProcEnd};

    ghost Value = { List ProcEnd };

    ghost view = { λ o. o.ends.items };

    ghost inverse = { λ ends. record { ends = record { items = ends } } };
}

impl Outcome {
    ghost use Rattle.std.specs.Prelude.{◌≡◌, ◌≤◌, length};
    ghost use Rattle.regmodel.specs.declared.limits.TheConstants.{MOST_PROCESSES};

    /// The outcome of these ends.
    pub fn new(ends: ArrayVec<ProcEnd, 8>) -> Outcome
        ensures { result ≡ ends.items }
    {
        Outcome { ends }
    }

    /// How each process stands; at most 8.
    pub fn ends(&self) -> &[ProcEnd]
        ensures value { result.now ≡ self.now }
        ensures few { length result.now ≤ MOST_PROCESSES }
    {
        self.ends.as_slice()
    }

    /// The same outcome. It takes no memory, which a clone might be refused.
    pub fn copy(&self) -> Outcome
        ensures { result ≡ self.now }
    {
        self.clone().unwrap()
    }
}

/// Says which outcomes are good. Its answer is a function of the outcome.
pub trait Judge: Sync {
    ghost use Rattle.std.specs.Prelude.{◌≡◌, Bool, IsTrue, List, true};
    ghost use Rattle.regmodel.specs.declared.outcomes.ProcEnd.{ProcEnd};

    /// Whether an outcome is good.
    ghost accepts: { Self → List ProcEnd → Bool };

    /// Whether this outcome is good.
    fn holds(&self, outcome: &Outcome) -> bool
        ensures { result ≡ accepts self.now outcome.now };

    /// Whether every outcome is known to be good, so that none need be shown to the judge. A judge
    /// that does not know answers false.
    fn holds_always(&self) -> bool
        ensures { IsTrue result → (ends : List ProcEnd) → accepts self.now ends ≡ true }
    {
        false
    }
}

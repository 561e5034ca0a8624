//! Patterns of outcomes.

use arrayvec::ArrayVec;
use regmodel::ProcEnd;
use std::marker::Model;

/// How a process may stand.
#[derive(Clone, Default, Debug, Drop)]
pub enum StandingPattern {
    /// In any way. It is the default because `ArrayVec` asks for one.
    #[default]
    Any,
    /// Done with any numbers, whether or not it took a step.
    Done,
    /// Done with this number among others, 0 to 1000000000, whether or not it took a step.
    Emitted(u32),
    /// Just so.
    Just(ProcEnd),
}

/// How each process may stand, processes from 0. A clause sees the list of their standings.
#[derive(Clone, Debug, Drop)]
pub struct Pattern {
    pub(crate) standings: ArrayVec<StandingPattern, 8>,
}

impl Model for Pattern {
    ghost use Rattle.std.specs.Prelude.{List};
    ghost use Rattle.patterns.specs.declared.patterns.StandingPattern.{StandingPattern};

    ghost Value = { List StandingPattern };

    ghost view = { λ p. p.standings.items };

    ghost inverse = { λ standings. record { standings = record { items = standings } } };
}

impl Pattern {
    ghost use Rattle.std.specs.Prelude.{◌≡◌, ◌≤◌, length};
    ghost use Rattle.regmodel.specs.declared.limits.TheConstants.{MOST_PROCESSES};

    /// How each process may stand; at most 8.
    pub fn standings(&self) -> &[StandingPattern]
        ensures value { result.now ≡ self.now }
        ensures few { length result.now ≤ MOST_PROCESSES }
    {
        self.standings.as_slice()
    }

    /// The same pattern. It takes no memory, which a clone might be refused.
    pub fn copy(&self) -> Pattern
        ensures { result ≡ self.now }
    {
        self.clone().unwrap()
    }
}

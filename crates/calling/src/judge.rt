//! A judge made by hand.

ghost use Rattle.std.specs.Prelude.{◌≡◌};
ghost use Rattle.std.specs.List.{list_any};
ghost use Rattle.calling.specs.Judging.{says_first};

use regmodel::{End, Judge, Outcome};

/// Refuses the outcomes in which a process is done with this number first.
#[derive(Drop)]
pub struct Without {
    pub number: u32,
}

impl Judge for Without {
    ghost use Rattle.std.specs.Prelude.{not};
    ghost use Rattle.std.specs.List.{list_any};
    ghost use Rattle.calling.specs.Judging.{says_first};

    /// Which lists of ends it accepts. The report's promise speaks of this.
    ghost accepts = { λ judge ends. not (list_any (λ end. says_first judge.number end.fate) ends) };

    fn holds(&self, outcome: &Outcome) -> bool {
        !is_said(outcome, self.number)
    }
}

/// Whether a process of an outcome is done with this number first.
fn is_said(outcome: &Outcome, number: u32) -> bool
    ensures { result ≡ list_any (λ end. says_first number end.fate) outcome.now }
{
    outcome
        .ends()
        .iter()
        .any(|end| is_said_first(&end.fate, number))
}

/// Whether a process stands so that it is done with this number first.
fn is_said_first(end: &End, number: u32) -> bool
    ensures { result ≡ says_first number end.now }
{
    match end {
        End::Done(numbers) => match numbers.as_slice().first() {
            Some(first) => *first == number,
            None => false,
        },
        _ => false,
    }
}

//! How much an exploration tried, in numbers.

ghost use Rattle.std.specs.Prelude.{◌≡◌};
ghost use Rattle.std.specs.List.{list_any};
ghost use Rattle.regmodel.specs.Judging.{is_running};
ghost use Rattle.verdict.specs.VerdictText as spec;

use regmodel::End;
use report::Exploration;
use tallies::{Ends, Outcomes};

/// How much was tried, and how far.
#[derive(Clone, Copy)]
pub struct Reach {
    /// How many schedules were tried.
    pub tried: u64,
    /// How many outcomes there are.
    pub outcomes: u64,
    /// How many letters a schedule had at most.
    pub length: u64,
    /// How many processes could crash.
    pub crashes: u64,
    /// Whether schedules were cut off: some process still runs at the end of one.
    pub cut_off: bool,
}

/// How much a report tells to be tried, and how far.
pub fn reach_of(report: &Exploration) -> Reach
    ensures { result ≡ spec.reach_of report.now }
{
    Reach {
        tried: report.tried(),
        outcomes: report.outcome_count() as u64,
        length: u64::from(report.length()),
        crashes: u64::from(report.crashes()),
        cut_off: is_cut_off(report.outcomes()),
    }
}

/// Whether a process still runs in one of these outcomes.
fn is_cut_off(outcomes: Outcomes<'_>) -> bool
    ensures { result ≡ list_any (λ ends. list_any is_running ends) outcomes.entry }
{
    for ends in outcomes {
        if some_running(ends) {
            return true;
        }
    }
    false
}

/// Whether a process of an outcome still runs.
fn some_running(ends: Ends<'_>) -> bool
    ensures { result ≡ list_any is_running ends.entry }
{
    for end in ends {
        if let End::Running = end.fate {
            return true;
        }
    }
    false
}

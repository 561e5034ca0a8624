//! What a check demands of an outcome, and what it looks for.

ghost use Rattle.std.specs.Prelude.{◌≡◌, false};
ghost use Rattle.std.specs.List.{list_any, position};
ghost use Rattle.regmodel.specs.Judging.{is_faulty, meets};
ghost use Rattle.verdict.specs.Demands.{asked_of, breaks, clauses_asked, named_at};

use arrayvec::ArrayVec;
use regmodel::{Clause, Clauses, End, Judge, Outcome};

/// What a check looks for.
#[derive(Clone, Copy, PartialEq, Eq, Debug)]
pub enum Asked {
    /// Nothing: there is no check line, and faults are allowed.
    Nothing,
    /// Faults alone: there is no check line.
    Faults,
    /// What the check lines ask.
    Checks,
}

/// How strictly a schedule is judged.
#[derive(Clone, Copy, PartialEq, Eq, Debug)]
pub struct Strictness {
    /// Whether `ended` is asked, where a check asks it.
    pub asks_ended: bool,
    /// Whether a process may be at fault.
    pub allows_faults: bool,
}

/// The judge of a check: an outcome is good where it meets all clauses, and no process is at fault
/// unless that is allowed.
#[derive(Clone, Copy, Debug)]
pub struct Demands<'a> {
    /// The clauses that are asked.
    pub clauses: &'a Clauses,
    /// Whether a process may be at fault.
    pub allows_faults: bool,
}

impl Judge for Demands<'_> {
    ghost use Rattle.verdict.specs.Demands.{meets_demands};

    ghost accepts = { λ judge ends. meets_demands judge.clauses.now judge.allows_faults ends };

    fn holds(&self, outcome: &Outcome) -> bool {
        self.clauses.holds(outcome) && (self.allows_faults || !some_faulty(outcome))
    }

    fn holds_always(&self) -> bool {
        self.clauses.holds_always() && self.allows_faults
    }
}

/// Whether a process of an outcome is at fault.
fn some_faulty(outcome: &Outcome) -> bool
    ensures { result ≡ list_any is_faulty outcome.now }
{
    outcome
        .ends()
        .iter()
        .any(|end| matches!(end.fate, End::Fault(_)))
}

/// These clauses without `ended`, which no schedule meets that is cut off with a process still
/// running.
pub fn without_ended(clauses: &Clauses) -> Clauses
    ensures { result ≡ clauses_asked false clauses.now }
{
    let mut asked: ArrayVec<Clause, 16> = ArrayVec::try_from(clauses.list()).unwrap();
    asked.retain(|clause| !matches!(clause, Clause::Ended));
    Clauses::new(asked)
}

/// The place of the clause that is named of those that are asked and that an outcome breaks,
/// counted from 0: the first one but `ended`. `ended` is named where there is no other, and no
/// process is at fault that may not be.
pub(crate) fn named_at(
    clauses: &[Clause],
    strictness: Strictness,
    outcome: &Outcome,
) -> Option<usize>
    ensures { result ≡ named_at strictness clauses.now outcome.now }
{
    if let Some(place) = first_broken(clauses, false, outcome) {
        return Some(place);
    }
    if !strictness.allows_faults && some_faulty(outcome) {
        return None;
    }
    first_broken(clauses, strictness.asks_ended, outcome)
}

/// The place of the first clause that is asked and that an outcome breaks, counted from 0; `ended`
/// may be left out.
fn first_broken(clauses: &[Clause], asks_ended: bool, outcome: &Outcome) -> Option<usize>
    ensures { result ≡ position (breaks asks_ended outcome.now) clauses.now }
{
    clauses
        .iter()
        .position(|clause| breaks(*clause, asks_ended, outcome))
}

/// Whether an outcome breaks a clause, and that clause is asked; `ended` may be left out.
fn breaks(clause: Clause, asks_ended: bool, outcome: &Outcome) -> bool
    ensures { result ≡ breaks asks_ended outcome.now clause }
{
    if !asks_ended && matches!(clause, Clause::Ended) {
        return false;
    }
    !meets(clause, outcome)
}

/// Whether an outcome meets a clause.
fn meets(clause: Clause, outcome: &Outcome) -> bool
    ensures { result ≡ meets clause outcome.now }
{
    let mut alone = ArrayVec::new();
    alone.push(clause);
    Clauses::new(alone).holds(outcome)
}

/// What a check with these clauses looks for.
pub fn asked_of(clauses: &[Clause], allows_faults: bool) -> Asked
    ensures { result ≡ asked_of clauses.now allows_faults }
{
    if !clauses.is_empty() {
        Asked::Checks
    } else if allows_faults {
        Asked::Nothing
    } else {
        Asked::Faults
    }
}

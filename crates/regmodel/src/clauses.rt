//! What can be asked of an outcome, and whether it holds.

ghost use Rattle.std.specs.Prelude.{◌≡◌, ◌≤◌, ◌+◌, ◌*◌, ◌==◌, ◌&&◌, length, count_by, nat_le};
ghost use Rattle.std.specs.List.{list_all, list_any};
ghost use Rattle.regmodel.specs.declared.limits.TheConstants.{MOST_PROCESSES};
ghost use Rattle.regmodel.specs.Judging.{are_different, has_if_done, is_faulty, is_running, meets, meets_all, name_of, names, see_themselves, count_started};

use crate::outcomes::{End, Judge, Outcome, ProcEnd};
use arrayvec::ArrayVec;
use std::marker::Model;

/// A property of outcomes. The name of a process is the first number of a process that is done.
#[derive(Clone, Copy, Default, PartialEq, Eq, Debug)]
pub enum Clause {
    /// The names are pairwise different.
    Distinct,
    /// At most so many processes, 0 to 8, have this name, 0 to 1000000000.
    AtMost(u32, u32),
    /// Each name is at least the first number and at most the second, both 0 to 1000000000.
    Within(u32, u32),
    /// Each name m is at least 1, and m + 1 at most twice the number of processes that took a step.
    Adaptive,
    /// Each name m is at least 1, and 2m at most k(k + 1), where k processes took a step.
    Triangle,
    /// Each process p that took a step and is done has p + 1 among its numbers.
    SelfSeen,
    /// No process is running.
    Ended,
    /// No process is at fault. It is the default because `ArrayVec` asks for one.
    #[default]
    NoFault,
}

/// The processes of which a clause speaks. An outcome that has none of them meets the clause.
#[derive(Clone, Copy, Default, PartialEq, Eq, Debug)]
pub enum Subject {
    /// Those that have a name. It is the default because `ArrayVec` asks for one.
    #[default]
    Named,
    /// Those that are done.
    Done,
}

/// At most 16 clauses, in their order. A contract sees their list.
#[derive(Clone, PartialEq, Eq, Debug, Drop)]
pub struct Clauses {
    list: ArrayVec<Clause, 16>,
}

impl Model for Clauses {
    ghost use Rattle.std.specs.Prelude.{List, ◌≤◌, length};
    ghost use Rattle.regmodel.specs.declared.clauses.Clause.{Clause};
    ghost use Rattle.regmodel.specs.declared.limits.TheConstants.{MOST_CHECKS};

    ghost Value = { List Clause };

    ghost view = { λ c. c.list.items };

    ghost invariant = { λ c. length c.list.items ≤ MOST_CHECKS };

    ghost inverse = { λ clauses. record { list = record { items = clauses } } };
}

impl Clauses {
    ghost use Rattle.std.specs.Prelude.{◌≡◌, ◌≤◌, length};
    ghost use Rattle.regmodel.specs.declared.limits.TheConstants.{MOST_CHECKS};

    /// These clauses.
    pub fn new(list: ArrayVec<Clause, 16>) -> Clauses
        ensures { result ≡ list.items }
    {
        Clauses { list }
    }

    /// The clauses, in their order; at most 16.
    pub fn list(&self) -> &[Clause]
        ensures value { result.now ≡ self.now }
        ensures few { length self.now ≤ MOST_CHECKS }
    {
        self.list.as_slice()
    }
}

/// The name of a process: the first number of a process that is done and has one.
fn name_of(end: &ProcEnd) -> Option<u32>
    ensures { result ≡ name_of end.now }
{
    match &end.fate {
        End::Done(numbers) => numbers.as_slice().first().copied(),
        _ => None,
    }
}

/// Whether a process has this name.
fn has_name(ends: &[ProcEnd], name: u32) -> bool
    ensures { result ≡ list_any (λ m. m == name) (names ends.now) }
{
    ends.iter().filter_map(name_of).any(|m| m == name)
}

/// Whether the names are pairwise different.
fn are_different(ends: &[ProcEnd]) -> bool
    ensures { result ≡ are_different (names ends.now) }
{
    let Some((end, more)) = ends.split_first() else {
        return true;
    };
    if let Some(name) = name_of(end)
        && has_name(more, name)
    {
        return false;
    }
    are_different(more)
}

/// How many processes have this name.
fn count_of(ends: &[ProcEnd], name: u32) -> usize
    ensures { result ≡ count_by (λ m. m == name) (names ends.now) }
{
    ends.iter()
        .filter_map(name_of)
        .filter(|m| *m == name)
        .count()
}

/// Whether each name is at least the first number and at most the second.
fn are_within(ends: &[ProcEnd], low: u32, high: u32) -> bool
    ensures { result ≡ list_all (λ m. nat_le low m && nat_le m high) (names ends.now) }
{
    ends.iter()
        .filter_map(name_of)
        .all(|m| low <= m && m <= high)
}

/// How many processes took a step.
fn count_started(ends: &[ProcEnd]) -> usize
    ensures value { result ≡ count_started ends.now }
    ensures few { result ≤ length ends.now }
{
    ends.iter().filter(|end| end.started).count()
}

/// Whether a number is among these.
fn is_among(numbers: &[u32], m: u32) -> bool
    ensures { result ≡ list_any (λ n. n == m) numbers.now }
{
    numbers.iter().any(|n| *n == m)
}

/// Whether a process that is done has this number among its own.
fn has_if_done(fate: &End, m: u32) -> bool
    ensures { result ≡ has_if_done m fate.now }
{
    match fate {
        End::Done(numbers) => is_among(numbers.as_slice(), m),
        _ => true,
    }
}

/// Whether each process that took a step and is done has its number and 1 among its numbers; the
/// first of these is process p.
fn see_themselves(p: usize, ends: &[ProcEnd]) -> bool
    requires { p + length ends.now ≤ MOST_PROCESSES }
    ensures { result ≡ see_themselves p ends.now }
{
    let Some((end, more)) = ends.split_first() else {
        return true;
    };
    if end.started && !has_if_done(&end.fate, p as u32 + 1) {
        return false;
    }
    see_themselves(p + 1, more)
}

/// Whether each name m is at least 1, and m + 1 at most twice the number of processes that took a
/// step.
fn are_adaptive(outcome: &Outcome) -> bool
    ensures { result
        ≡ list_all (λ m. nat_le 1 m && nat_le (m + 1) (2 * count_started outcome.now))
        (names outcome.now) }
{
    let ends = outcome.ends();
    let most = 2 * count_started(ends) as u32;
    are_within(ends, 1, most.saturating_sub(1))
}

/// Whether each name m is at least 1, and 2m at most k(k + 1), where k processes took a step.
fn are_in_triangle(outcome: &Outcome) -> bool
    ensures { result
        ≡ list_all
        (λ m. nat_le 1 m
        && nat_le (2 * m) (count_started outcome.now * (count_started outcome.now + 1)))
        (names outcome.now) }
{
    let ends = outcome.ends();
    let k = count_started(ends) as u32;
    are_within(ends, 1, k * (k + 1) / 2)
}

/// Whether a process still wants an access.
fn some_running(ends: &[ProcEnd]) -> bool
    ensures { result ≡ list_any is_running ends.now }
{
    ends.iter().any(|end| matches!(end.fate, End::Running))
}

/// Whether a process is at fault.
fn some_faulty(ends: &[ProcEnd]) -> bool
    ensures { result ≡ list_any is_faulty ends.now }
{
    ends.iter().any(|end| matches!(end.fate, End::Fault(_)))
}

/// Whether an outcome meets a clause.
fn meets(clause: &Clause, outcome: &Outcome) -> bool
    ensures { result ≡ meets clause.now outcome.now }
{
    let ends = outcome.ends();
    match *clause {
        Clause::Distinct => are_different(ends),
        Clause::AtMost(name, count) => count_of(ends, name) <= count as usize,
        Clause::Within(low, high) => are_within(ends, low, high),
        Clause::Adaptive => are_adaptive(outcome),
        Clause::Triangle => are_in_triangle(outcome),
        Clause::SelfSeen => see_themselves(0, ends),
        Clause::Ended => !some_running(ends),
        Clause::NoFault => !some_faulty(ends),
    }
}

impl Clause {
    ghost use Rattle.std.specs.Prelude.{◌≡◌};
    ghost use Rattle.regmodel.specs.Judging.{subject_of};

    /// The processes of which it speaks, where an outcome may have none of them.
    pub fn subject(&self) -> Option<Subject>
        ensures { result ≡ subject_of self.now }
    {
        match *self {
            Clause::Distinct
            | Clause::AtMost(_, _)
            | Clause::Within(_, _)
            | Clause::Adaptive
            | Clause::Triangle => Some(Subject::Named),
            Clause::SelfSeen => Some(Subject::Done),
            Clause::Ended | Clause::NoFault => None,
        }
    }
}

impl Subject {
    ghost use Rattle.std.specs.Prelude.{◌≡◌};
    ghost use Rattle.regmodel.specs.Judging as spec;

    /// Whether a process is one of these.
    pub fn includes(self, end: &ProcEnd) -> bool
        ensures { result ≡ spec.includes self end.now }
    {
        match self {
            Subject::Named => name_of(end).is_some(),
            Subject::Done => matches!(end.fate, End::Done(_)),
        }
    }
}

impl Judge for Clauses {
    ghost use Rattle.std.specs.Prelude.{◌≡◌, ◌↔◌, [], IsTrue, List, true};
    ghost use Rattle.regmodel.specs.declared.outcomes.ProcEnd.{ProcEnd};
    ghost use Rattle.regmodel.specs.Judging.{meets_all};

    ghost accepts = { λ clauses ends. meets_all clauses ends };

    fn holds(&self, outcome: &Outcome) -> bool {
        self.list().iter().all(|clause| meets(clause, outcome))
    }

    fn holds_always(&self) -> bool
        ensures good { IsTrue result → (ends : List ProcEnd) → meets_all self.now ends ≡ true }
        ensures exact { IsTrue result ↔ (self.now ≡ []) }
    {
        self.list().is_empty()
    }
}

//! Which outcomes match patterns. No call takes memory.

ghost use Rattle.std.specs.Prelude.{◌≡◌, ◌==◌, ◌<◌, IfSome, IsNone, length, true};
ghost use Rattle.std.specs.List.{list_any};
ghost use Rattle.patterns.specs.Matching as spec;
ghost use Rattle.patterns.specs.Matching.{IsFirstMatch};

use crate::patterns::{Pattern, StandingPattern};
use regmodel::{End, Judge, Outcome, ProcEnd};

impl Pattern {
    ghost use Rattle.std.specs.Prelude.{◌≡◌};
    ghost use Rattle.patterns.specs.Matching as spec;

    /// Whether an outcome has as many processes, and each stands as it may.
    pub fn matches(&self, outcome: &Outcome) -> bool
        ensures { result ≡ spec.matches self.now outcome.now }
    {
        may_stand(self.standings(), outcome.ends())
    }
}

/// Whether there are as many standings as processes, and each process stands as its standing says.
fn may_stand(standings: &[StandingPattern], ends: &[ProcEnd]) -> bool
    ensures { result ≡ spec.matches standings.now ends.now }
{
    let Some((standing, standings)) = standings.split_first() else {
        return ends.is_empty();
    };
    let Some((end, ends)) = ends.split_first() else {
        return false;
    };
    allows(standing, end) && may_stand(standings, ends)
}

/// Whether a process may stand so.
fn allows(standing: &StandingPattern, end: &ProcEnd) -> bool
    ensures { result ≡ spec.allows standing.now end.now }
{
    match standing {
        StandingPattern::Any => true,
        StandingPattern::Done => matches!(end.fate, End::Done(_)),
        StandingPattern::Emitted(number) => has_emitted(*number, &end.fate),
        StandingPattern::Just(own) => own == end,
    }
}

/// Whether a process is done with this number among others.
fn has_emitted(number: u32, fate: &End) -> bool
    ensures { result ≡ spec.has_emitted number fate.now }
{
    match fate {
        End::Done(numbers) => is_among(number, numbers.as_slice()),
        End::Fault(_) | End::Crashed | End::Running => false,
    }
}

/// Whether this is one of some numbers.
fn is_among(number: u32, numbers: &[u32]) -> bool
    ensures { result ≡ list_any (λ n. n == number) numbers.now }
{
    numbers.iter().any(|n| *n == number)
}

/// The judge that refuses the outcomes that match one of these patterns.
#[derive(Clone, Copy, Debug)]
pub struct NoneOf<'a> {
    /// The patterns.
    pub patterns: &'a [Pattern],
}

impl Judge for NoneOf<'_> {
    ghost use Rattle.patterns.specs.Matching.{matches_none};

    ghost accepts = { λ judge ends. matches_none judge.patterns.now ends };

    fn holds(&self, outcome: &Outcome) -> bool {
        none_matches(self.patterns, outcome)
    }
}

/// Whether an outcome matches none of these patterns.
fn none_matches(patterns: &[Pattern], outcome: &Outcome) -> bool
    ensures { result ≡ spec.matches_none patterns.now outcome.now }
{
    for pattern in patterns {
        if pattern.matches(outcome) {
            return false;
        }
    }
    true
}

/// A pattern that an outcome matches, of some.
#[derive(Debug, Drop)]
pub struct Match {
    /// Its number among them, counted from 1.
    pub number: u64,
    /// The pattern.
    pub pattern: Pattern,
}

/// The first of some patterns that an outcome matches. None where it matches none.
pub fn first_match(patterns: &[Pattern], outcome: &Outcome) -> Option<Match>
    ensures some { IfSome result (IsFirstMatch patterns.now outcome.now) }
    ensures none { IsNone result → spec.matches_none patterns.now outcome.now ≡ true }
{
    let Some(place) = first_place(patterns, outcome) else {
        return None;
    };
    Some(Match {
        number: (place + 1) as u64,
        pattern: patterns[place].copy(),
    })
}

/// The place of the first of some patterns that an outcome matches, counted from 0.
fn first_place(patterns: &[Pattern], outcome: &Outcome) -> Option<usize>
    ensures place { result ≡ spec.first_match patterns.now outcome.now }
    ensures within { IfSome result (λ place. place < length patterns.now) }
{
    patterns.iter().position(|pattern| pattern.matches(outcome))
}

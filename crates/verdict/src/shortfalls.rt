//! Patterns that ask for more numbers than a process emits. No call takes memory.

ghost use Rattle.std.specs.Prelude.{◌≡◌, ◌+◌, ◌≤◌, IfSome, length, map};
ghost use Rattle.regmodel.specs.declared.limits.TheConstants.{MOST_PROCESSES};
ghost use Rattle.reglang.specs.Sources.{source_programs};
ghost use Rattle.report.specs.PlainReport.{IsPlainLeast};
ghost use Rattle.patterns.specs.Matching.{matches_none};
ghost use Rattle.verdict.specs.Emissions.{most_emitted};
ghost use Rattle.verdict.specs.Shortfalls as spec;

use crate::laws::no_schedule_leads_in_vain;
use patterns::{Pattern, StandingPattern};
use reglang::Source;
use regmodel::{End, Settings};
use report::Least;

/// A pattern that asks for more numbers than a process emits: no outcome matches it.
#[derive(Clone, Copy, PartialEq, Eq, Debug)]
pub struct Shortfall {
    /// Its number among the patterns, counted from 1.
    pub pattern: u64,
    /// The first process of which it does, counted from 0.
    pub process: u64,
    /// How many numbers it asks for.
    pub asked: u64,
    /// How many the process emits at most.
    pub most: u64,
}

/// The first of these patterns that asks for more numbers than a process emits, where it is told
/// how many each of them emits at most.
pub(crate) fn first_shortfall(patterns: &[Pattern], most: &[usize]) -> Option<Shortfall>
    requires few { length most.now ≤ MOST_PROCESSES }
    ensures { result ≡ spec.first_shortfall 1 most.now patterns.now }
{
    for place in 0..patterns.len() {
        let number = place as u64 + 1;
        if let Some(found) = shortfall_in(number, 0, most, patterns[place].standings()) {
            return Some(found);
        }
    }
    None
}

/// What is found of a source where each of these patterns asks for more numbers than a process
/// emits: that no schedule leads there, which no search has to tell. None where one does not.
pub fn found_in_vain(
    source: &Source,
    settings: Settings,
    patterns: &[Pattern],
    most: &[usize],
) -> Option<Least>
    requires few { length most.now ≤ MOST_PROCESSES }
    requires known { most.now ≡ map most_emitted (source_programs source.now) }
    ensures { IfSome result
        (IsPlainLeast (source_programs source.now) settings.length settings.crashes
        (matches_none patterns.now)) }
{
    no_schedule_leads_in_vain();
    if !are_in_vain(patterns, most) {
        return None;
    }
    Some(Least::new(source.processes() as u32, settings, None))
}

/// Whether each of these patterns asks for more numbers than a process emits.
fn are_in_vain(patterns: &[Pattern], most: &[usize]) -> bool
    requires few { length most.now ≤ MOST_PROCESSES }
    ensures { result ≡ spec.are_in_vain most.now patterns.now }
{
    for pattern in patterns {
        if shortfall_in(1, 0, most, pattern.standings()).is_none() {
            return false;
        }
    }
    true
}

/// The first process of which a pattern with this number does, where its processes are told from
/// one on.
fn shortfall_in(
    pattern: u64,
    process: u64,
    most: &[usize],
    standings: &[StandingPattern],
) -> Option<Shortfall>
    requires few { process + length most.now ≤ MOST_PROCESSES }
    ensures { result ≡ spec.shortfall_in pattern process most.now standings.now }
{
    let (own, more) = most.split_first()?;
    let (standing, standings) = standings.split_first()?;
    let asked = asked_by(standing);
    if asked > *own {
        return Some(Shortfall {
            pattern,
            process,
            asked: asked as u64,
            most: *own as u64,
        });
    }
    shortfall_in(pattern, process + 1, more, standings)
}

/// How many numbers a process has at least that stands so.
fn asked_by(standing: &StandingPattern) -> usize
    ensures { result ≡ spec.asked_by standing.now }
{
    match standing {
        StandingPattern::Any | StandingPattern::Done => 0,
        StandingPattern::Emitted(_) => 1,
        StandingPattern::Just(end) => numbers_of(&end.fate),
    }
}

/// How many numbers a process is done with.
fn numbers_of(fate: &End) -> usize
    ensures { result ≡ spec.numbers_of fate.now }
{
    match fate {
        End::Done(numbers) => numbers.len(),
        End::Fault(_) | End::Crashed | End::Running => 0,
    }
}

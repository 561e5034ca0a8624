//! A schedule that leads to outcomes that were looked for.

ghost use Rattle.std.specs.Prelude.{◌≡◌, ◌+◌, ◌≤◌, false, length, option_map};
ghost use Rattle.report.specs.PlainReport.{IsPlainLeast};
ghost use Rattle.patterns.specs.Matching.{IsFirstMatch, matches_none};
ghost use Rattle.reglang.specs.Sources.{contents_of, source_programs};
ghost use Rattle.regmodel.specs.declared.limits.TheConstants.{MOST_PROCESSES};
ghost use Rattle.machine.specs.Meaning.{all_programs};
ghost use Rattle.verdict.specs.Excesses.{first_excess};
ghost use Rattle.verdict.specs.Shortfalls.{first_shortfall};
ghost use Rattle.verdict.specs.Witnesses.{IsWitnessFor};

use crate::excesses::first_excess;
use crate::shortfalls::{Shortfall, first_shortfall};
use crate::verdicts::drawing_of;
use drawing::Drawing;
use machine::Machine;
use patterns::{Match, Pattern, first_match};
use reglang::Source;
use regmodel::laws::the_first_refused_is_a_schedule;
use regmodel::{Outcome, Prefix, Settings};
use report::Least;
use world::World;

/// A schedule that leads to an outcome that was looked for.
#[derive(Debug, Drop)]
pub struct Witness {
    /// The schedule.
    pub schedule: Prefix,
    /// The outcome.
    pub outcome: Outcome,
    /// The first of the patterns that the outcome matches.
    pub matched: Match,
    /// What is drawn of the schedule.
    pub drawing: Drawing,
}

/// What was found where outcomes were looked for, and the least witness, where there is one.
#[derive(Drop)]
pub struct Discovery {
    /// The least schedule that leads there, which a judge refused, or that there is none.
    pub least: Least,
    /// How many patterns were looked for.
    pub sought: u64,
    /// The number of the first pattern in which more processes have crashed than may crash, counted
    /// from 1: no outcome matches it.
    pub excess: Option<u64>,
    /// The first pattern that asks for more numbers than a process emits: no outcome matches it.
    pub shortfall: Option<Shortfall>,
    /// That schedule, drawn.
    pub witness: Option<Witness>,
}

/// The least schedule of a source whose outcome matches one of these patterns, drawn, where there
/// is one, with the first of them that it matches. The machines, one a process, lead to its
/// drawing, and `most` tells how many numbers each process emits at most. Takes no memory.
pub fn discovery_on(
    source: &Source,
    machines: Vec<Box<dyn Machine + Send>>,
    settings: Settings,
    patterns: &[Pattern],
    most: &[usize],
    least: Least,
) -> Discovery
    requires few { length most.now ≤ MOST_PROCESSES }
    requires machines { all_programs means machines.items ≡ source_programs source.now }
    requires found { IsPlainLeast (source_programs source.now) settings.length settings.crashes
        (matches_none patterns.now) least }
    ensures least { result.least ≡ least }
    ensures sought { result.sought ≡ length patterns.now }
    ensures excess { result.excess
        ≡ option_map (λ place. place + 1) (first_excess settings.crashes patterns.now) }
    ensures shortfall { result.shortfall ≡ first_shortfall 1 most.now patterns.now }
    ensures witness { IsWitnessFor (contents_of source.now) patterns.now least.least
        result.witness }
{
    the_first_refused_is_a_schedule();
    let witness = match least.least() {
        Some((schedule, outcome)) => {
            let mut world = World::new(machines, source.registers(), settings.crashes());
            Some(Witness {
                schedule: schedule.copy(),
                outcome: outcome.copy(),
                matched: matched_in(patterns, outcome),
                drawing: drawing_of(&mut world, source, schedule),
            })
        }
        None => None,
    };
    let excess = match first_excess(patterns, settings.crashes()) {
        Some(place) => Some(place as u64 + 1),
        None => None,
    };
    Discovery {
        least,
        sought: patterns.len() as u64,
        excess,
        shortfall: first_shortfall(patterns, most),
        witness,
    }
}

/// The first of these patterns that an outcome matches, which there is.
fn matched_in(patterns: &[Pattern], outcome: &Outcome) -> Match
    requires { matches_none patterns.now outcome.now ≡ false }
    ensures { IsFirstMatch patterns.now outcome.now result }
{
    first_match(patterns, outcome).unwrap()
}

//! What a schedule that fails breaks.

ghost use Rattle.std.specs.Prelude.{◌≡◌, IfSome, IsNone, None, false, is_some, map, true};
ghost use Rattle.regmodel.specs.Prelude.{IsSchedule, program_of};
ghost use Rattle.machine.specs.Meaning.{all_programs};
ghost use Rattle.reglang.specs.Sources.{contents_of, source_programs};
ghost use Rattle.report.specs.PlainCheck.{IsPlainCheck};
ghost use Rattle.report.specs.PlainReport.{IsPlainLeast};
ghost use Rattle.verdict.specs.Breaches.{IsBreachOf, IsBrokenLine, IsCauseOf};
ghost use Rattle.verdict.specs.Demands.{demands_of, meets_demands, named_at};
ghost use Rattle.verdict.specs.Drawn.{IsDrawn};
ghost use Rattle.drawing.specs.Pictures.{IsWorldOf};
ghost use Rattle.verdict.specs.Verdicts.{IsVerdictFor};
ghost use Rattle.world.specs.Sound.{IsSoundWorld, budget_of, world_programs};

use crate::demands::{Asked, Strictness, asked_of, named_at};
use crate::empty_ranges::is_empty_at;
use crate::faults::{ProcessFault, first_fault};
use crate::gaps::{Gap, gaps_of};
use crate::onsets::onset_of;
use arrayvec::ArrayVec;
use drawing::{Drawing, draw};
use machine::Machine;
use reglang::{Source, Spelling};
use regmodel::laws::the_first_refused_is_a_schedule;
use regmodel::{Outcome, Prefix, Prog, Settings};
use report::{Checked, Exploration, Least};
use world::World;

/// Why a schedule fails.
#[derive(Clone, Copy, PartialEq, Eq, Debug)]
pub enum Cause {
    /// Its outcome breaks a check.
    Check {
        /// The line of the check that it breaks, counted from 1: of several the first one but
        /// `ended`.
        line: u64,
        /// Whether it is a check that each name breaks, since no number is in its range.
        is_empty: bool,
        /// The lowest process at fault, where there is one, also where that is allowed.
        fault: Option<ProcessFault>,
    },
    /// Its outcome breaks no check but `ended`, and a process is at fault that may not be: the
    /// lowest one.
    Fault(ProcessFault),
}

/// What a schedule that fails breaks.
#[derive(Debug, Drop)]
pub struct Breach {
    /// The schedule.
    pub schedule: Prefix,
    /// Why it fails.
    pub cause: Cause,
    /// From which letter on each of its beginnings breaks a check but `ended`, or has a process at
    /// fault where that is not allowed, counted from 1; 0 where that with no letter does. None
    /// where it does not so itself.
    pub onset: Option<u64>,
    /// What is drawn of it.
    pub drawing: Drawing,
}

/// A schedule that is cut off with a process still running, and fails for that alone.
#[derive(Debug, Drop)]
pub struct Cut {
    /// The schedule.
    pub schedule: Prefix,
    /// Why it fails: the line of `ended`.
    pub cause: Cause,
}

/// What is known where no schedule fails.
#[derive(Drop)]
pub struct Unbroken {
    /// What was found.
    pub exploration: Exploration,
    /// What was looked for.
    pub asked: Asked,
    /// The checks that no outcome could break.
    pub gaps: ArrayVec<Gap, 16>,
}

/// Whether a source holds.
#[derive(Drop)]
pub enum Verdict {
    /// A schedule fails: what the least one breaks; or what the least one breaks of those that fail
    /// otherwise than for being cut off, and beside it the least of all, which is cut off.
    Fails(Breach, Option<Cut>),
    /// None fails: what was found and looked for.
    Holds(Unbroken),
}

impl Verdict {
    ghost use Rattle.std.specs.Prelude.{◌≡◌};
    ghost use Rattle.verdict.specs.Verdicts.{cut_of, is_failing, with_cut};

    /// Whether a schedule fails.
    pub fn fails(&self) -> bool
        ensures { result ≡ is_failing self.now }
    {
        matches!(self, Verdict::Fails(_, _))
    }

    /// The schedule that fails, where it breaks `ended` alone: it is cut off.
    pub fn cut(&self) -> Option<Cut>
        ensures { result ≡ cut_of self.now }
    {
        match self {
            Verdict::Fails(breach, _) if breach.onset.is_none() => Some(Cut {
                schedule: breach.schedule.copy(),
                cause: breach.cause,
            }),
            _ => None,
        }
    }

    /// Tells of this cut as well, where a schedule fails.
    pub fn add_cut(&mut self, cut: Cut)
        ensures { self.new ≡ with_cut cut self.old }
    {
        if let Verdict::Fails(_, told) = self {
            *told = Some(cut);
        }
    }
}

/// Whether the source holds that a text spells, and what its least failing schedule breaks, where
/// one fails. The machines, one a process, lead to its drawing; the programs tell which checks no
/// outcome could break. Takes no memory.
pub fn verdict_on(
    spelling: &Spelling<'_>,
    machines: Vec<Box<dyn Machine + Send>>,
    settings: Settings,
    allows_faults: bool,
    programs: &[Prog],
    checked: Checked,
) -> Verdict
    requires machines { all_programs means machines.items
        ≡ source_programs spelling.now.source.now }
    requires programs { map program_of programs.now ≡ source_programs spelling.now.source.now }
    requires checked { IsPlainCheck (source_programs spelling.now.source.now)
        settings.length settings.crashes
        (meets_demands (contents_of spelling.now.source.now).clauses allows_faults) checked }
    ensures { IsVerdictFor spelling.now.text.now (contents_of spelling.now.source.now)
        allows_faults checked result }
{
    match checked {
        Checked::Fails(least) => {
            let strictness = Strictness {
                asks_ended: true,
                allows_faults,
            };
            let breach = breach_for(spelling, machines, settings, strictness, &least);
            Verdict::Fails(breach, None)
        }
        Checked::Holds(exploration) => {
            let clauses = spelling.source.clauses().list();
            Verdict::Holds(Unbroken {
                asked: asked_of(clauses, allows_faults),
                gaps: gaps_of(spelling, programs, &exploration),
                exploration,
            })
        }
    }
}

/// What the least schedule breaks that fails when judged so strictly, which there is. The machines,
/// one a process, lead to its drawing. Takes no memory.
pub fn breach_for(
    spelling: &Spelling<'_>,
    machines: Vec<Box<dyn Machine + Send>>,
    settings: Settings,
    strictness: Strictness,
    least: &Least,
) -> Breach
    requires machines { all_programs means machines.items
        ≡ source_programs spelling.now.source.now }
    requires least { IsPlainLeast (source_programs spelling.now.source.now)
        settings.length settings.crashes
        (demands_of strictness (contents_of spelling.now.source.now).clauses) least.now }
    requires fails { is_some least.now.least ≡ true }
    ensures { IfSome least.now.least
        (λ l. IsBreachOf spelling.now.text.now (contents_of spelling.now.source.now) strictness
        l.0 l.1 result) }
{
    the_first_refused_is_a_schedule();
    let (schedule, _) = least.least().unwrap();
    let source = spelling.source;
    let mut world = World::new(machines, source.registers(), settings.crashes());
    let drawing = drawing_of(&mut world, source, schedule);
    Breach {
        schedule: schedule.copy(),
        cause: cause_of(spelling, strictness, &drawing),
        onset: onset_of(&mut world, source.clauses(), strictness.allows_faults),
        drawing,
    }
}

/// Why a schedule that is drawn fails when judged so strictly.
fn cause_of(spelling: &Spelling<'_>, strictness: Strictness, drawing: &Drawing) -> Cause
    requires { demands_of strictness (contents_of spelling.now.source.now).clauses drawing.now.ends
        ≡ false }
    ensures { IsCauseOf spelling.now.text.now (contents_of spelling.now.source.now).clauses
        strictness drawing.now.stops drawing.now.ends result }
{
    let fault = first_fault(spelling.text, drawing);
    let outcome = drawing.outcome();
    if let Some((line, is_empty)) = broken_line(spelling, strictness, outcome) {
        return Cause::Check {
            line,
            is_empty,
            fault,
        };
    }
    let Some(fault) = fault else { unreachable!() };
    Cause::Fault(fault)
}

/// The line of the check of a source that is named of those that an outcome breaks, and whether
/// each name breaks it, since no number is in its range. None where none is named: it breaks none,
/// or `ended` alone beside a process at fault that may not be.
fn broken_line(
    spelling: &Spelling<'_>,
    strictness: Strictness,
    outcome: &Outcome,
) -> Option<(u64, bool)>
    ensures line { IfSome result (λ (line, is_empty). IsBrokenLine spelling.now.text.now
        (contents_of spelling.now.source.now).clauses strictness outcome.now line is_empty) }
    ensures none { IsNone result
        → named_at strictness (contents_of spelling.now.source.now).clauses outcome.now ≡ None }
{
    let clauses = spelling.source.clauses().list();
    let Some(place) = named_at(clauses, strictness, outcome) else {
        return None;
    };
    Some((spelling.check_line(place), is_empty_at(clauses, place)))
}

/// What is drawn of a schedule of a source. The world, which is one of its processes, stands there
/// then.
pub(crate) fn drawing_of(world: &mut World, source: &Source, schedule: &Prefix) -> Drawing
    requires at { IsSoundWorld means world.old }
    requires of { IsWorldOf means world.old (contents_of source.now) }
    requires schedule { IsSchedule (world_programs means world.old) (budget_of world.old)
        schedule.now }
    ensures { IsDrawn means (contents_of source.now) world.old world.new schedule.now result }
{
    match draw(world, source, schedule) {
        Ok(drawing) => drawing,
        Err(_) => unreachable!(),
    }
}

//! What the machines of a source are made for, and what is found with them.

ghost use Rattle.std.specs.Prelude.{◌≡◌, IfErr, IfOk};
ghost use Rattle.machine.specs.Meaning.{all_programs};
ghost use Rattle.reglang.specs.Sources.{source_programs};
ghost use Rattle.orders.specs.declared.tasks.Task.TheVariants as asked;
ghost use Rattle.orders.specs.Orders.{lists_of};
ghost use Rattle.cli.specs.Findings.{IsFirstFoundBy};
ghost use Rattle.cli.specs.Refusals.{Finds, IsRefusedBy};
ghost use Rattle.cli.specs.Runs.{IsReached, IsUnreached, lists_for};
ghost use Rattle.cli.specs.Understanding.{AreMade};

use crate::checks::{checked, failing};
use crate::cut_offs::cut_off;
use crate::explorations::explored;
use crate::faults::AnswerFault;
use crate::findings::Finding;
use crate::machines::{Run, last_of, machine_of};
use crate::searches::{discovered, matching};
use crate::standings::{drawing_after, standing_after};
use explorer::{Effort, Gate};
use machine::Machine;
use orders::Task;
use patterns::Pattern;
use regmodel::Prefix;
use std::sync::Wait;
use std::thread::Threads;

/// What is sought at one length after another.
#[derive(Clone, Copy)]
pub enum Quest<'a> {
    /// A schedule that fails, where `ended` is not asked.
    Failing { allows_faults: bool },
    /// A schedule whose outcome matches one of these patterns.
    Matching(&'a Vec<Pattern>),
}

/// What the machines of a source are made for.
#[derive(Drop)]
pub enum Aim<'a> {
    /// All that a task asks.
    Asked(&'a Task),
    /// What is sought, within this effort.
    Sought { effort: Effort, quest: Quest<'a> },
    /// A schedule that is cut off within this effort.
    CutOff { effort: Effort },
}

impl Aim<'_> {
    /// How many lists of machines it takes.
    pub fn lists(&self) -> u32
        ensures { result ≡ lists_for self.now }
    {
        match self {
            Aim::Asked(task) => task.lists(),
            Aim::Sought { effort, .. } => effort.settings.workers() + 1,
            Aim::CutOff { effort } => effort.settings.workers(),
        }
    }
}

/// What is found with the machines of a source, of which as many lists are made as the aim takes,
/// one machine a process. Of what is sought, and of a schedule that is cut off, there may be none.
pub fn reached<H: Threads + Wait + Sync, G: Gate>(
    run: &Run<'_, H, G>,
    aim: &Aim<'_>,
) -> Result<Option<Finding>, AnswerFault>
    ensures found { IfOk result (IsReached aim.now run.now.spelling.text.now) }
    ensures refused { IfErr result (IsUnreached aim.now run.now.spelling.text.now) }
{
    let (alloc, source) = (run.alloc, run.spelling.source);
    let mut lists: Vec<Vec<Box<dyn Machine + Send>>> = Vec::new(alloc);
    for _list in 0..aim.lists() {
        let mut machines: Vec<Box<dyn Machine + Send>> = Vec::new(alloc);
        for p in 0..source.processes() {
            let machine = machine_of(alloc, source, p, run.native)?;
            machines.push(Box::new(alloc, machine)?)?;
        }
        lists.push(machines)?;
    }
    match aim {
        Aim::Asked(task) => Ok(Some(found_by(run, task, lists)?)),
        Aim::Sought { effort, quest } => match *quest {
            Quest::Failing { allows_faults } => failing(run, *effort, allows_faults, lists),
            Quest::Matching(patterns) => matching(run, *effort, patterns, lists),
        },
        Aim::CutOff { effort } => cut_off(run, *effort, lists),
    }
}

/// What is found first of a source that a text spells, by these lists of its machines.
fn found_by<H: Threads + Wait + Sync, G: Gate>(
    run: &Run<'_, H, G>,
    task: &Task,
    mut lists: Vec<Vec<Box<dyn Machine + Send>>>,
) -> Result<Finding, AnswerFault>
    requires { AreMade means run.now.spelling.source.now run.now.native
        (lists_of task.now) lists.items }
    ensures found { IfOk result (IsFirstFoundBy task.now run.now.spelling.text.now) }
    ensures refused { IfErr result (IsRefusedBy task.now run.now.spelling.text.now) }
{
    run.spelling.spells();
    match task {
        Task::Check {
            effort,
            allows_faults,
            shortest,
            ..
        } => checked(run, *effort, *allows_faults, *shortest, lists),
        Task::Explore {
            effort,
            part,
            least_alone,
            ..
        } => explored(run, *effort, *part, *least_alone, lists),
        Task::Find {
            effort,
            patterns,
            shortest,
            ..
        } => {
            let discovery = discovered(run, *effort, patterns, lists)?;
            Ok(Finding::Discovery(discovery, *shortest))
        }
        Task::Replay { schedule } => {
            match standing_after(run.spelling.source, last_of(&mut lists), schedule) {
                Ok(standing) => Ok(Finding::Standing(standing)),
                Err(refused) => Err(AnswerFault::Letter(refused)),
            }
        }
        Task::Show { schedule } => shown(run, last_of(&mut lists), schedule),
    }
}

/// What is drawn of a schedule.
// In a frame of its own, which other orders do not touch: a drawing takes some 35 KB
// before it is boxed.
#[inline(never)]
fn shown<H, G>(
    run: &Run<'_, H, G>,
    own: Vec<Box<dyn Machine + Send>>,
    schedule: &Prefix,
) -> Result<Finding, AnswerFault>
    requires { all_programs means own.items ≡ source_programs run.now.spelling.source.now }
    ensures { Finds (asked.Show schedule.now) run.now.spelling.text.now result }
{
    run.spelling.spells();
    match drawing_after(run.spelling.source, own, schedule) {
        Ok(drawing) => Ok(Finding::Drawing(Box::new(run.alloc, drawing)?)),
        Err(refused) => Err(AnswerFault::Letter(refused)),
    }
}

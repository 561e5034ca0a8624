//! The explorations of a source, and of one part of it, which several runs share; or the least
//! failing schedule alone.

ghost use Rattle.std.specs.Prelude.{◌≡◌, Bool, IfOk, option_map};
ghost use Rattle.orders.specs.declared.tasks.Task.TheVariants as asked;
ghost use Rattle.cli.specs.Parts.{part_head};
ghost use Rattle.cli.specs.Refusals.{Finds};
ghost use Rattle.cli.specs.Understanding.{AreMade};

use crate::faults::AnswerFault;
use crate::findings::Finding;
use crate::machines::Run;
use explorer::{Effort, Gate, Job, Part, exploration_of, least_failing};
use machine::Machine;
use part_texts::PartHead;
use reglang::write_source;
use regmodel::{OutOfMemory, Settings};
use report::Yield;
use std::sync::Wait;
use std::thread::Threads;

/// The head of a part of the exploration of a source; None for the whole. A source whose text is
/// too long for one, which none within the limits is, is refused as one that memory does not hold.
fn head_for<H, G>(
    run: &Run<'_, H, G>,
    settings: Settings,
    part: Option<Part>,
) -> Result<Option<PartHead>, OutOfMemory>
    ensures { IfOk result
        (λ head. head ≡ option_map (part_head settings run.now.spelling.source.now) part) }
{
    let Some(part) = part else {
        return Ok(None);
    };
    let mut text = Vec::new(run.alloc);
    write_source(run.spelling.source, &mut text)?;
    match PartHead::new(part, run.spelling.source.processes() as u32, settings, text) {
        Some(head) => Ok(Some(head)),
        None => Err(OutOfMemory),
    }
}

/// What an exploration, or a part of it, finds, or its least failing schedule where that alone is
/// sought, by a list of the machines of its source for each worker.
// In a frame of its own, which other orders do not touch.
#[inline(never)]
pub fn explored<H: Threads + Wait + Sync, G: Gate>(
    run: &Run<'_, H, G>,
    effort: Effort,
    part: Option<Part>,
    least_alone: bool,
    lists: Vec<Vec<Box<dyn Machine + Send>>>,
) -> Result<Finding, AnswerFault>
    requires { AreMade means run.now.spelling.source.now run.now.native
        effort.settings.workers lists.items }
    ensures { (native : Bool)
        → Finds (asked.Explore effort native part least_alone) run.now.spelling.text.now result }
{
    run.spelling.spells();
    let head = head_for(run, effort.settings, part)?;
    let (rt, alloc, source, gate) = (run.rt, run.alloc, run.spelling.source, run.gate);
    let made = run.made();
    let job = Job {
        alloc,
        source,
        effort,
        part,
        judge: source.clauses(),
        gate,
        understanding: &made,
    };
    if least_alone {
        let least = match least_failing(rt, &job, lists) {
            Ok(least) => least,
            Err(fault) => return Err(AnswerFault::Run(fault)),
        };
        return match head {
            Some(head) => Ok(Finding::Part(head, Yield::Least(least))),
            None => Ok(Finding::Explored(Yield::Least(least))),
        };
    }
    let found = match exploration_of(rt, &job, lists) {
        Ok(found) => found,
        Err(fault) => return Err(AnswerFault::Run(fault)),
    };
    match head {
        Some(head) => Ok(Finding::Part(head, Yield::Report(found))),
        None => Ok(Finding::Explored(Yield::Report(found))),
    }
}

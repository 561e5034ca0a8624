//! What a check finds of a source, and the search for a schedule that fails by more than being cut
//! off.

ghost use Rattle.std.specs.Prelude.{◌+◌, Bool, IfErr, IfOk};
ghost use Rattle.orders.specs.declared.tasks.Task.TheVariants as asked;
ghost use Rattle.cli.specs.Findings.{IsFirstFoundBy};
ghost use Rattle.cli.specs.Runs.{IsCheckRefused, IsSought};
ghost use Rattle.cli.specs.declared.aims.Quest.TheVariants as quest;
ghost use Rattle.cli.specs.Understanding.{AreMade};

use crate::faults::AnswerFault;
use crate::findings::Finding;
use crate::machines::{Run, last_of};
use explorer::{Effort, Gate, Job, least_failing, run_check};
use machine::Machine;
use std::sync::Wait;
use std::thread::Threads;
use verdict::{Demands, Strictness, Verdict, breach_for, programs_of, verdict_on, without_ended};

/// What a check finds first of all schedules, as the last list of machines shows.
// In a frame of its own, which other orders do not touch: a verdict takes some 40 KB
// before it is boxed.
#[inline(never)]
pub fn checked<H: Threads + Wait + Sync, G: Gate>(
    run: &Run<'_, H, G>,
    effort: Effort,
    allows_faults: bool,
    shortest: bool,
    mut lists: Vec<Vec<Box<dyn Machine + Send>>>,
) -> Result<Finding, AnswerFault>
    requires { AreMade means run.now.spelling.source.now run.now.native
        (effort.settings.workers + 1) lists.items }
    ensures found { IfOk result (λ finding. (native lists : Bool)
        → IsFirstFoundBy (asked.Check effort native allows_faults shortest lists)
        run.now.spelling.text.now finding) }
    ensures refused { IfErr result (IsCheckRefused allows_faults run.now.spelling.text.now) }
{
    run.spelling.spells();
    let own = last_of(&mut lists);
    let source = run.spelling.source;
    let judge = Demands {
        clauses: source.clauses(),
        allows_faults,
    };
    let made = run.made();
    let job = Job::whole(run.alloc, source, effort, &judge, run.gate, &made);
    match run_check(run.rt, &job, lists) {
        Ok(found) => {
            let programs = programs_of(run.alloc, source)?;
            let verdict = verdict_on(
                &run.spelling,
                own,
                effort.settings,
                allows_faults,
                programs.as_slice(),
                found,
            );
            Ok(Finding::Verdict(Box::new(run.alloc, verdict)?, shortest))
        }
        Err(fault) => Err(AnswerFault::Run(fault)),
    }
}

/// The verdict on the least schedule of a source that fails within these settings, where `ended` is
/// not asked, by a list of its machines for each worker and one more, which shows what it breaks;
/// None where none fails. The gate is told of the pieces.
// In a frame of its own, which other orders do not touch: a verdict takes some 40 KB
// before it is boxed.
#[inline(never)]
pub fn failing<H: Threads + Wait + Sync, G: Gate>(
    run: &Run<'_, H, G>,
    effort: Effort,
    allows_faults: bool,
    mut lists: Vec<Vec<Box<dyn Machine + Send>>>,
) -> Result<Option<Finding>, AnswerFault>
    requires { AreMade means run.now.spelling.source.now run.now.native
        (effort.settings.workers + 1) lists.items }
    ensures found { IfOk result
        (IsSought (quest.Failing allows_faults) effort run.now.spelling.text.now) }
    ensures refused { IfErr result (IsCheckRefused allows_faults run.now.spelling.text.now) }
{
    run.spelling.spells();
    let (rt, alloc, source, gate) = (run.rt, run.alloc, run.spelling.source, run.gate);
    let own = last_of(&mut lists);
    let settings = effort.settings;
    let strictness = Strictness {
        asks_ended: false,
        allows_faults,
    };
    let asked = without_ended(source.clauses());
    let judge = Demands {
        clauses: &asked,
        allows_faults,
    };
    let made = run.made();
    let job = Job::whole(alloc, source, effort, &judge, gate, &made);
    let least = match least_failing(rt, &job, lists) {
        Ok(least) => least,
        Err(fault) => return Err(AnswerFault::Run(fault)),
    };
    match least.least() {
        Some(_) => {
            let breach = breach_for(&run.spelling, own, settings, strictness, &least);
            let verdict = Box::new(alloc, Verdict::Fails(breach, None))?;
            Ok(Some(Finding::Verdict(verdict, true)))
        }
        None => Ok(None),
    }
}

//! Whether schedules of a source are cut off.

ghost use Rattle.std.specs.Prelude.{◌≡◌, IfErr, IfOk};
ghost use Rattle.std.specs.List.{list_any};
ghost use Rattle.regmodel.specs.Judging.{is_running};
ghost use Rattle.cli.specs.CutOffs.{IsCutOffFound};
ghost use Rattle.cli.specs.Runs.{IsQuestRefused};
ghost use Rattle.cli.specs.declared.aims.Quest.{Quest};
ghost use Rattle.cli.specs.Understanding.{AreMade};

use crate::faults::AnswerFault;
use crate::findings::Finding;
use crate::machines::Run;
use explorer::{Effort, Gate, Job, least_failing};
use machine::Machine;
use regmodel::{End, Judge, Outcome};
use report::Yield;
use std::sync::Wait;
use std::thread::Threads;

/// The judge that refuses an outcome in which a process still runs.
#[derive(Clone, Copy, Debug)]
struct Ending;

impl Judge for Ending {
    ghost use Rattle.cli.specs.CutOffs.{has_ended};

    ghost accepts = { λ judge ends. has_ended ends };

    fn holds(&self, outcome: &Outcome) -> bool {
        !some_running(outcome)
    }
}

/// Whether a process of an outcome still runs.
fn some_running(outcome: &Outcome) -> bool
    ensures { result ≡ list_any is_running outcome.now }
{
    outcome
        .ends()
        .iter()
        .any(|end| matches!(end.fate, End::Running))
}

/// The least schedule of a source that is cut off within these settings, with a process
/// still running, by a list of its machines for each worker; None where none is. The gate is
/// told of the pieces.
pub fn cut_off<H: Threads + Wait + Sync, G: Gate>(
    run: &Run<'_, H, G>,
    effort: Effort,
    lists: Vec<Vec<Box<dyn Machine + Send>>>,
) -> Result<Option<Finding>, AnswerFault>
    requires { AreMade means run.now.spelling.source.now run.now.native
        effort.settings.workers lists.items }
    ensures found { IfOk result (IsCutOffFound effort run.now.spelling.text.now) }
    ensures refused { IfErr result (λ fault. (quest : Quest)
        → IsQuestRefused quest run.now.spelling.text.now fault) }
{
    run.spelling.spells();
    let judge = Ending;
    let made = run.made();
    let job = Job::whole(
        run.alloc,
        run.spelling.source,
        effort,
        &judge,
        run.gate,
        &made,
    );
    let least = match least_failing(run.rt, &job, lists) {
        Ok(least) => least,
        Err(fault) => return Err(AnswerFault::Run(fault)),
    };
    if least.least().is_some() {
        return Ok(Some(Finding::Explored(Yield::Least(least))));
    }
    Ok(None)
}

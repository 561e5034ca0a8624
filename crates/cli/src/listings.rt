//! A check with the list of all outcomes beside it.

ghost use Rattle.std.specs.Prelude.{Bool, IfErr, IfOk, true};
ghost use Rattle.orders.specs.declared.tasks.Task.TheVariants as asked;
ghost use Rattle.cli.specs.Findings.{AreListed};
ghost use Rattle.cli.specs.Refusals.{Finds};
ghost use Rattle.cli.specs.Reports.{IsReportOf};
ghost use Rattle.cli.specs.Runs.{IsCheckRefused};

use crate::aims::{Aim, reached};
use crate::conclusions::found_alone;
use crate::faults::AnswerFault;
use crate::findings::Finding;
use crate::machines::Run;
use crate::progress::Meter;
use explorer::{Effort, Exploration, Gate};
use orders::Task;
use report::Yield;
use std::sync::Wait;
use std::thread::Threads;
use verdict::Verdict;

/// What a check finds of a source, and all outcomes: where a schedule fails, it is explored
/// once more for them.
pub fn listed<H: Threads + Wait + Sync, G: Meter>(
    run: &Run<'_, H, G>,
    effort: &Effort,
    native: bool,
    allows_faults: bool,
    shortest: bool,
) -> Result<Finding, AnswerFault>
    ensures { Finds (asked.Check effort.now native allows_faults shortest true)
        run.now.spelling.text.now result }
{
    let alone = Task::Check {
        effort: *effort,
        native,
        allows_faults,
        shortest,
        lists: false,
    };
    let finding = found_alone(run, &alone)?;
    let Finding::Verdict(verdict, is_shortest) = finding else {
        unreachable!()
    };
    let explored = exploration_beside(run, &verdict, effort)?;
    Ok(Finding::Listing(verdict, is_shortest, explored))
}

/// The exploration whose outcomes are listed beside a verdict: none where no schedule fails, since
/// the verdict has its own.
fn exploration_beside<H: Threads + Wait + Sync, G: Gate>(
    run: &Run<'_, H, G>,
    verdict: &Verdict,
    effort: &Effort,
) -> Result<Option<Exploration>, AnswerFault>
    ensures found { IfOk result
        (AreListed effort.now.settings run.now.spelling.text.now verdict.now) }
    ensures refused { IfErr result (λ fault. (allows_faults : Bool)
        → IsCheckRefused allows_faults run.now.spelling.text.now fault) }
{
    match verdict {
        Verdict::Holds(_) => Ok(None),
        Verdict::Fails(_, _) => Ok(Some(explored_once_more(run, effort)?)),
    }
}

/// What an exploration of a source finds.
fn explored_once_more<H: Threads + Wait + Sync, G: Gate>(
    run: &Run<'_, H, G>,
    effort: &Effort,
) -> Result<Exploration, AnswerFault>
    ensures found { IfOk result (IsReportOf effort.now.settings run.now.spelling.text.now) }
    ensures refused { IfErr result (λ fault. (allows_faults : Bool)
        → IsCheckRefused allows_faults run.now.spelling.text.now fault) }
{
    let explore = Task::Explore {
        effort: *effort,
        native: run.native,
        part: None,
        least_alone: false,
    };
    match reached(run, &Aim::Asked(&explore))? {
        Some(Finding::Explored(Yield::Report(explored))) => Ok(explored),
        _ => unreachable!(),
    }
}

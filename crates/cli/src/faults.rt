//! Why there is no answer.

ghost use Rattle.std.specs.Prelude.{◌≡◌};
ghost use Rattle.orders.specs.declared.refusals.Refusal.TheVariants.{Memory};
ghost use Rattle.orders.specs.Reasons.{IsStatusOf};
ghost use Rattle.cli.specs.Statuses.{line_status, merge_status};
ghost use Rattle.cli.specs.declared.faults.AnswerFault.TheVariants.{Refused};

use crate::standings::RefusedLetter;
use explorer::{NO_MEMORY, NOT_STARTED, RunFault, TOO_MANY};
use merging::MergeFault;
use orders::{Reason, Refusal};
use part_texts::PartCause;
use reglang::Rejection;
use regmodel::{End, OutOfMemory};
use std::alloc::AllocFailed;
use std::io;
use std::io::Write;
use thiserror::Error;

/// Why there is no answer, in one line.
#[derive(Debug, Drop, Error)]
pub enum AnswerFault {
    /// The file cannot be read or is too long, or a request for memory was refused.
    #[error("{0}")]
    Refused(Refusal),
    /// A pattern that has not as many standings as the source has processes, by its place among
    /// the patterns from 0.
    #[error("pattern {0}")]
    Misfit(usize),
    /// A text that is no source.
    #[error("{0}")]
    Source(Rejection),
    /// A letter that is not possible where it stands.
    #[error("letter {}", .0.place)]
    Letter(RefusedLetter),
    /// Parts that could not be merged.
    #[error("merge")]
    Merge(MergeFault),
    /// An exploration without a report.
    #[error("run {}", .0.code)]
    Run(RunFault),
    /// A text that could not be written whole.
    #[error("write")]
    Write,
}

impl AnswerFault {
    ghost use Rattle.cli.specs.Statuses as statuses;

    /// Whether the text is no source.
    pub(crate) fn is_of_source(&self) -> bool
        ensures { result ≡ statuses.is_of_source self.now }
    {
        matches!(self, AnswerFault::Source(_))
    }
}

impl Reason for AnswerFault {
    ghost use Rattle.cli.specs.Statuses as statuses;

    ghost status_of = { statuses.status_of };

    fn status(&self) -> u8 {
        match self {
            AnswerFault::Refused(refusal) => refusal.status(),
            AnswerFault::Misfit(_) | AnswerFault::Source(_) | AnswerFault::Letter(_) => 2,
            AnswerFault::Merge(fault) => merge_status(fault),
            AnswerFault::Run(_) | AnswerFault::Write => 3,
        }
    }

    /// Nothing is written of a source, which is explained where it is read.
    fn write_words<E: Write>(&self, subject: &str, err: &mut E) -> io::Result<()> {
        match self {
            AnswerFault::Refused(refusal) => refusal.write_words(subject, err),
            AnswerFault::Misfit(place) => writeln!(
                err,
                "{subject}: pattern {} has not as many standings as the source has processes: write one for each process, parted by '; ', as 'done 1; *'",
                place.saturating_add(1)
            ),
            AnswerFault::Source(_) => Ok(()),
            AnswerFault::Letter(refused) => writeln!(
                err,
                "{subject}: letter {} of the schedule is not possible there: {}",
                refused.place.saturating_add(1),
                letter_reason(refused)
            ),
            AnswerFault::Merge(fault) => writeln!(err, "{subject}: {fault}"),
            AnswerFault::Run(fault) => writeln!(err, "{subject}: {}", run_reason(fault)),
            AnswerFault::Write => writeln!(err, "the answer could not be written"),
        }
    }
}

impl From<Refusal> for AnswerFault {
    ghost from_gives = { λ refusal fault. fault ≡ Refused refusal };

    fn from(refusal: Refusal) -> AnswerFault {
        AnswerFault::Refused(refusal)
    }
}

impl From<OutOfMemory> for AnswerFault {
    ghost from_gives = { λ _ fault. fault ≡ Refused Memory };

    fn from(_error: OutOfMemory) -> AnswerFault {
        AnswerFault::Refused(Refusal::Memory)
    }
}

impl<T: Drop> From<AllocFailed<T>> for AnswerFault {
    ghost from_gives = { λ _ fault. fault ≡ Refused Memory };

    fn from(_error: AllocFailed<T>) -> AnswerFault {
        AnswerFault::Refused(Refusal::Memory)
    }
}

/// The status where parts could not be merged: 3 where there is no memory for it or more schedules
/// than can be counted, else 2.
fn merge_status(fault: &MergeFault) -> u8
    ensures { IsStatusOf merge_status fault.now result }
{
    match fault {
        MergeFault::Text(bad) => line_status(bad.cause),
        MergeFault::TooMany | MergeFault::NoMemory => 3,
        MergeFault::Nothing
        | MergeFault::Misfit(_, _, _)
        | MergeFault::Sought
        | MergeFault::Twice(_)
        | MergeFault::Missing(_) => 2,
    }
}

/// The status where a line of a part was not read.
fn line_status(cause: PartCause) -> u8
    ensures { IsStatusOf line_status cause result }
{
    match cause {
        PartCause::NoMemory => 3,
        PartCause::Other
        | PartCause::OutOfRange
        | PartCause::NotRising
        | PartCause::Unfinished
        | PartCause::LongLine
        | PartCause::Unreadable => 2,
    }
}

/// Why a letter is not possible, by how its process stands.
fn letter_reason(refused: &RefusedLetter) -> &'static str {
    match &refused.fate {
        None => "the source has no such process",
        Some(End::Crashed) => "its process has crashed",
        Some(End::Done(_)) => "its process is done",
        Some(End::Fault(_)) => "its process is at fault",
        Some(End::Running) => "its process cannot take that letter",
    }
}

/// Why there is no report.
fn run_reason(fault: &RunFault) -> &'static str {
    match fault.code {
        NO_MEMORY => "memory ran out while exploring",
        TOO_MANY => "there are more schedules than can be counted",
        NOT_STARTED => "a worker's thread could not be started",
        _ => "the exploration has no report",
    }
}

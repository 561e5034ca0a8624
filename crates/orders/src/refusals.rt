//! What is refused of the words of the command line and of what they name.

ghost use Rattle.std.specs.Prelude.{◌≡◌};
ghost use Rattle.orders.specs.declared.refusals.Refusal.TheVariants.{Memory};

use crate::option_bounds::OptionBound;
use crate::reasons::Reason;
use crate::standing_forms::form_for;
use std::alloc::AllocFailed;
use std::io;
use std::io::{ErrorKind, Write};
use thiserror::Error;

/// How registers are written.
const REGISTERS: &str = "numbers from 0 to 63 and ranges of them, parted by commas, as 0,3-5";

/// How a schedule is written.
const LETTERS: &str = "write at most 64 letters parted by one space, each R or C and the number of \
    a process, 0 to 7, or . for none";

/// How a standing of a pattern is written.
const STANDINGS: &str = "write 1 to 8 of them, parted by '; ', each *, done *, done * 9 * or a \
    standing of a report, as done 1 20, fault 1, crashed or running, with idle behind it where the \
    process took no step";

/// Why a file gives no text.
#[derive(Clone, Copy, PartialEq, Eq, Debug)]
pub enum FileFault {
    /// It is not there.
    Missing,
    /// It is a folder.
    Folder,
    /// It may not be read.
    Forbidden,
    /// It cannot be read for another reason.
    Unreadable,
}

impl FileFault {
    /// Why there is an error of this kind.
    pub fn of(kind: ErrorKind) -> FileFault {
        match kind {
            ErrorKind::NotFound | ErrorKind::NotADirectory => FileFault::Missing,
            ErrorKind::IsADirectory => FileFault::Folder,
            ErrorKind::PermissionDenied => FileFault::Forbidden,
            _ => FileFault::Unreadable,
        }
    }

    /// The same in words, behind the name of the file.
    pub(crate) fn words(self) -> &'static str {
        match self {
            FileFault::Missing => ": there is no such file",
            FileFault::Folder => ": this is a folder, and no file",
            FileFault::Forbidden => ": this file may not be read",
            FileFault::Unreadable => ": the file cannot be read",
        }
    }
}

/// What is refused, in one line.
#[derive(Debug, Drop, Error)]
pub enum Refusal {
    /// A word of the command line that is not UTF-8.
    #[error("a word is not UTF-8")]
    Words,
    /// A setting past its limit, by its number.
    #[error("setting {0}")]
    Setting(u8),
    /// A bound whose text is no number, or not one that it takes.
    #[error("bound")]
    Bound(OptionBound),
    /// A text that tells no registers.
    #[error("registers")]
    Registers,
    /// A word that is the text of no schedule.
    #[error("schedule")]
    Schedule,
    /// A word that is the text of no pattern: its place among the patterns, and that of its first
    /// standing at fault, both from 0.
    #[error("pattern {0} standing {1}")]
    Pattern(usize, usize),
    /// A line of standard input that is the text of no pattern: its place from 0, and that of its
    /// first standing at fault.
    #[error("pattern {0} standing {1}")]
    PatternLine(usize, usize),
    /// Standard input named for the source and for the patterns.
    #[error("patterns")]
    TwiceStandard,
    /// A file that cannot be read.
    #[error("file")]
    File(FileFault),
    /// A file that is too long.
    #[error("file")]
    LongFile,
    /// A request for memory was refused.
    #[error("memory")]
    Memory,
}

impl Reason for Refusal {
    ghost use Rattle.orders.specs.Statuses as statuses;

    ghost status_of = { statuses.status_of };

    fn status(&self) -> u8 {
        match self {
            Refusal::Words
            | Refusal::Setting(_)
            | Refusal::Bound(_)
            | Refusal::Registers
            | Refusal::Schedule
            | Refusal::Pattern(_, _)
            | Refusal::PatternLine(_, _)
            | Refusal::TwiceStandard
            | Refusal::File(_)
            | Refusal::LongFile => 2,
            Refusal::Memory => 3,
        }
    }

    fn write_words<E: Write>(&self, subject: &str, err: &mut E) -> io::Result<()> {
        match self {
            Refusal::Words => write_line("", "a word of the command line is not UTF-8", err),
            Refusal::Setting(code) => writeln!(err, "setting {code} is past its limit"),
            Refusal::Bound(bound) => writeln!(
                err,
                "--{} takes a number from {} to {}, not '{subject}'",
                bound.name(),
                bound.least(),
                bound.most()
            ),
            Refusal::Registers => {
                writeln!(err, "--registers takes {REGISTERS}, not '{subject}'")
            }
            Refusal::Schedule => write_line("this is no schedule: ", LETTERS, err),
            Refusal::Pattern(place, standing) => writeln!(
                err,
                "pattern {}, standing {}: '{subject}' cannot be read: {}",
                place.saturating_add(1),
                standing.saturating_add(1),
                form_for(subject, *standing)
            ),
            Refusal::PatternLine(place, standing) => writeln!(
                err,
                "{subject}:{}: standing {}: this is no way in which a process can stand: \
                {STANDINGS}",
                place.saturating_add(1),
                standing.saturating_add(1)
            ),
            Refusal::TwiceStandard => write_line(
                subject,
                " stands for standard input, which cannot be both the source and the patterns",
                err,
            ),
            Refusal::File(why) => write_line(subject, why.words(), err),
            Refusal::LongFile => write_line(
                subject,
                ": the file is longer than 1048576 bytes",
                err,
            ),
            Refusal::Memory => write_line("", "memory ran out", err),
        }
    }
}

impl<T: Drop> From<AllocFailed<T>> for Refusal {
    ghost from_gives = { λ _ refusal. refusal ≡ Memory };

    fn from(_error: AllocFailed<T>) -> Refusal {
        Refusal::Memory
    }
}

/// Writes a line of a beginning and what is behind it.
fn write_line<E: Write>(beginning: &str, words: &str, err: &mut E) -> io::Result<()> {
    writeln!(err, "{beginning}{words}")
}

//! Why no part was read.

ghost use Rattle.std.specs.Prelude.{◌≡◌};
ghost use Rattle.part_texts.specs.declared.faults.PartCause.TheVariants.{Unreadable};

use texts::InputFault;
use thiserror::Error;

/// What is wrong with a line.
#[derive(Clone, Copy, PartialEq, Eq, Debug, Error)]
pub enum PartCause {
    /// No line of a part's text stands there as this one does.
    #[error("this is no line of a part that may stand here")]
    Other,
    /// A number is out of its range.
    #[error("a number is out of its range")]
    OutOfRange,
    /// An outcome does not come after the one before it.
    #[error("an outcome does not come after the one before it")]
    NotRising,
    /// The text ends in the midst of a part.
    #[error("the text ends in the midst of a part")]
    Unfinished,
    /// The line has more than 1024 bytes.
    #[error("the line is too long")]
    LongLine,
    /// A request for memory was refused.
    #[error("a request for memory was refused")]
    NoMemory,
    /// The reader answered an error.
    #[error("the text could not be read")]
    Unreadable,
}

impl From<InputFault> for PartCause {
    ghost from_gives = { λ _ cause. cause ≡ Unreadable };

    fn from(_fault: InputFault) -> PartCause {
        PartCause::Unreadable
    }
}

/// No part was read, because of a line.
#[derive(Clone, Copy, PartialEq, Eq, Debug, Error)]
#[error("line {line}: {cause}")]
pub struct BadPart {
    /// Which line of the stream, from 1 on.
    pub line: u64,
    /// What is wrong with it.
    pub cause: PartCause,
}

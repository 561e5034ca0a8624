//! Why parts could not be merged.

ghost use Rattle.std.specs.Prelude.{◌≡◌};
ghost use Rattle.merging.specs.declared.faults.MergeFault.TheVariants.{Text};

use crate::missing::Missing;
use part_texts::BadPart;
use thiserror::Error;

/// In what two parts differ that have to be the same.
#[derive(Clone, Copy, PartialEq, Eq, Debug, Error)]
pub enum Misfit {
    /// They are parts of different sources.
    #[error("are of different sources")]
    Source,
    /// They were explored up to different lengths or with different crashes.
    #[error("were explored by different bounds")]
    Bounds,
    /// The exploration was shared among different numbers of parts.
    #[error("are of different numbers of parts")]
    Count,
    /// The exploration was shared by different cuts.
    #[error("were cut at different lengths")]
    Cut,
}

/// Parts could not be merged.
#[derive(Debug, Drop, Error)]
pub enum MergeFault {
    /// A text is no part.
    #[error("{0}")]
    Text(BadPart),
    /// There is no part at all.
    #[error("there is no part")]
    Nothing,
    /// Two parts, by their numbers, do not fit together.
    #[error("parts {0} and {1} {2}")]
    Misfit(u32, u32, Misfit),
    /// Of one part the least failing schedule alone was sought, and of another one all.
    #[error("of some parts the least failing schedule alone was sought, and of others all")]
    Sought,
    /// The part with this number is there twice.
    #[error("part {0} is there twice")]
    Twice(u32),
    /// Parts are missing.
    #[error("missing: {0}")]
    Missing(Missing),
    /// More schedules were tried than the greatest u64.
    #[error("there are more schedules than can be counted")]
    TooMany,
    /// A request for memory was refused.
    #[error("memory ran out")]
    NoMemory,
}

impl From<BadPart> for MergeFault {
    ghost from_gives = { λ bad fault. fault ≡ Text bad };

    fn from(bad: BadPart) -> MergeFault {
        MergeFault::Text(bad)
    }
}

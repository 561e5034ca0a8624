//! The numbers that an option of a check, a search or a drawing takes.

use regmodel::limits::{MOST_CRASHES, MOST_LETTERS, MOST_WORKERS};

/// The most megabytes in which states are remembered.
pub const MOST_CACHE: u32 = 65536;

/// The most places that a line of a drawing may be asked to have.
pub const MOST_WIDTH: u32 = 65536;

/// What an option of a check, a search or a drawing bounds.
#[derive(Clone, Copy, PartialEq, Eq, Debug)]
pub enum OptionBound {
    /// The letters of a schedule.
    Length,
    /// The processes that crash.
    Crashes,
    /// The workers, at least one.
    Workers,
    /// The megabytes in which states are remembered.
    Cache,
    /// The places of a line of a drawing.
    Width,
}

impl OptionBound {
    ghost use Rattle.std.specs.Prelude.{◌≡◌};
    ghost use Rattle.orders.specs.Bounds as spec;

    /// The name of its option.
    pub fn name(self) -> &'static str
        ensures { result.now ≡ spec.name_of self }
    {
        match self {
            OptionBound::Length => "length",
            OptionBound::Crashes => "crashes",
            OptionBound::Workers => "workers",
            OptionBound::Cache => "cache",
            OptionBound::Width => "width",
        }
    }

    /// The least number that it takes.
    pub fn least(self) -> u32
        ensures { result ≡ spec.least_of self }
    {
        match self {
            OptionBound::Length | OptionBound::Crashes | OptionBound::Cache => 0,
            OptionBound::Workers | OptionBound::Width => 1,
        }
    }

    /// The greatest number that it takes.
    pub fn most(self) -> u32
        ensures { result ≡ spec.most_of self }
    {
        match self {
            OptionBound::Length => MOST_LETTERS,
            OptionBound::Crashes => MOST_CRASHES,
            OptionBound::Workers => MOST_WORKERS,
            OptionBound::Cache => MOST_CACHE,
            OptionBound::Width => MOST_WIDTH,
        }
    }
}

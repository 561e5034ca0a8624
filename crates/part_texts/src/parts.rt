//! What a part of an exploration tells.

use crate::heads::PartHead;
use regmodel::{Outcome, Prefix};
use tallies::Partial;

/// What was found of the schedules of a part.
#[derive(Debug, Drop)]
pub enum PartFound {
    /// How many were tried, their outcomes and the least one that failed.
    Explored(Partial),
    /// The least one that failed with its outcome, which alone was sought.
    Least(Option<(Prefix, Outcome)>),
}

/// What a part of an exploration tells: which part of which exploration it is, and what was found.
#[derive(Debug, Drop)]
pub struct PartReport {
    /// Which part of which exploration it is.
    pub head: PartHead,
    /// What was found.
    pub found: PartFound,
}

//! What a check found.

use crate::explored::Exploration;
use crate::least::Least;

/// What a check found.
#[derive(Drop)]
pub enum Checked {
    /// A schedule fails: the least one.
    Fails(Least),
    /// None fails: the whole exploration.
    Holds(Exploration),
}

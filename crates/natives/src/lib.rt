//! Native machines: the kinds of use lines as machines of their own, each with the
//! program of its line.
#![tactic(auto)]

mod grid;
mod limits;
mod name;
mod names;
mod numbers;
mod packing;
mod rounds;
mod split;
mod splitters;
mod trees;

pub use grid::Grid;
pub use name::NameSlots;
pub use names::Names;
pub use split::Split;
use thiserror::Error;
pub use trees::Tree;
pub use uses::PAST_LIMIT;

/// Why a native machine was not made.
#[derive(Clone, Copy, PartialEq, Eq, Debug, Error)]
#[error("no machine: code {code}")]
pub struct MakeFault {
    /// 1 where a limit of the use line is passed, as where it has no expansion. 2 is that of
    /// memory, which no machine here takes.
    pub code: u8,
}

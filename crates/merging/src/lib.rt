//! The parts of an exploration, merged into what the whole of it tells.
#![tactic(auto)]

mod faults;
mod merged_parts;
mod mergers;
mod missing;

pub use faults::{MergeFault, Misfit};
pub use mergers::Merger;
pub use missing::Missing;

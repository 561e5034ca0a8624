//! What an exploration found, and its text.
#![tactic(auto)]

mod bounds;
mod checked;
mod explored;
mod least;
mod writing;

pub use bounds::Bounds;
pub use checked::Checked;
pub use explored::{Exploration, Explored, Report, Tallied, Yield};
pub use least::Least;
pub use writing::{
    CodedLines, LeastLines, write_exploration, write_least, write_report, write_standing,
};

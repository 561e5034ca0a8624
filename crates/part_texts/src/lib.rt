//! The text of one part of an exploration, written and read back exactly, from a stream.
#![tactic(auto)]

mod faults;
mod heads;
pub mod laws;
mod lines;
mod outcomes;
mod parts;
mod ranges;
mod reading;
mod rising;
mod streams;
mod writing;

pub use faults::{BadPart, PartCause};
pub use heads::PartHead;
pub use parts::{PartFound, PartReport};
pub use streams::PartStream;
pub use writing::{write_explored_part, write_least_part};

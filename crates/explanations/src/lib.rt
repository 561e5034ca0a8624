//! What is wrong with a source that is refused, in words for a person; and its
//! lines, by their numbers.
#![tactic(auto)]

mod advice;
mod clause_forms;
mod hints;
mod idioms;
mod line_forms;
mod lines;
mod misfits;
mod misplaced;
mod named_registers;
mod nearest;
mod open_blocks;
mod origins;
mod passed_limits;
mod wording;
mod writing;

pub use lines::shown_line;
pub use origins::{Origin, origin_of};
pub use writing::write_explanation;

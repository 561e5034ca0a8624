//! Draws a schedule: what each of its letters did, and what the registers held after it.
#![tactic(auto)]

mod cell_bytes;
mod cells;
mod deeds;
mod drawings;
mod gaps;
mod labels;
mod layout;
mod names;
mod registers;
mod statement_lines;
mod stops;
mod tables;
mod writing;

pub use deeds::draw;
pub use drawings::{Deed, Drawing, LetterRow, RegisterValue};
pub use names::first_misnamed;
pub use statement_lines::statement_line;
pub use writing::Drawn;

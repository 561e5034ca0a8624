//! Sources: texts of the register language, read into programs.
#![tactic(auto)]

mod draft;
pub mod laws;
mod part_lines;
mod parts;
mod process_lines;
mod reader;
mod refusals;
mod source;
mod writer;

pub use reader::{ReadFault, Rejection, Spelling, read_source, read_text};
pub use refusals::LineRefusal;
pub use source::Source;
pub use uses::{ExpandFault, Use, expand};
pub use writer::write_source;

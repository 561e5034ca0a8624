//! What a line of the register language says: its words, which of them may follow which, and the
//! line that they make.
#![tactic(auto)]

mod arguments;
mod faults;
mod forms;
mod operands;
mod sorts;
mod vocabulary;
mod words;

pub use arguments::{Argument, Line, clause_parts, line_parts, use_parts};
pub use faults::LineFault;
pub use forms::{is_known, read_line, split_line, split_word, without_indent};
pub use operands::{argument_of, kind_of, number_in, operator_of, property_of, target_of};
pub use sorts::{Sort, Sorts, kind_sorts, property_sorts, sorts_after};
pub use vocabulary::{KEYWORDS, Keyword, Kind, PROPERTIES, Property, Spelled};
pub use words::{Word, enclosed, word_of};

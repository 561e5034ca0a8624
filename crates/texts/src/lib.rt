//! Texts: what can be written as one, its parts, blocks in which it goes to a writer; what gives
//! its bytes where it is read, where it is cut, and which numbers its words write.
#![tactic(auto)]

mod blocks;
mod cuts;
mod faults;
mod number_words;
mod outcomes;
mod readers;
mod schedules;
mod texts;

pub use blocks::Block;
pub use cuts::cut_at;
pub use faults::{ANSWERED_ERROR, InputFault, TOOK_NO_BYTE, WriteFault};
pub use number_words::{long_number_of, number_of};
pub use outcomes::OutcomeLine;
pub use readers::ByteReader;
pub use texts::{Either, Joined, Led, NumberLine, Text, When, write};

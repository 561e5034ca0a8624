//! The words of the command line, and the order that they give.
#![tactic(auto)]

mod bounds;
mod command_words;
mod inputs;
mod option_bounds;
mod orders;
mod patterns_told;
mod reasons;
mod refusals;
mod standing_forms;
mod tasks;
mod tips;
mod words;

pub use command_words::VERSION;
pub use inputs::{Input, Opener, Readable, bytes_of, input_of};
pub use option_bounds::OptionBound;
pub use orders::{Order, Request, command};
pub use reasons::{Reason, refuse, worse};
pub use refusals::{FileFault, Refusal};
pub use tasks::{Question, Task};
pub use words::words_of;

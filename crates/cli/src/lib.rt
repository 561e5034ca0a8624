//! What an order of the command line asks for, done, and the answer.
#![tactic(auto)]

mod aims;
mod answers;
mod checks;
mod conclusions;
mod cut_offs;
mod explorations;
mod faults;
mod findings;
mod first_letters;
mod listings;
mod machines;
mod merges;
mod outputs;
mod program;
mod progress;
mod searches;
mod standings;

pub use answers::answer;
pub use orders::{
    FileFault, Input, Opener, OptionBound, Order, Question, Reason, Refusal, Request, Task,
    command, input_of, refuse, words_of,
};
pub use outputs::{Output, Watched};
pub use program::perform;

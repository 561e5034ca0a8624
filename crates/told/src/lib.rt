//! Numbers told one behind another, of which most take one byte.
#![tactic(auto)]

mod bytes;
mod numbers;

pub use numbers::{MOST_BYTES, Told};

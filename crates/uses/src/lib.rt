//! Uses: processes that stand for a program of their kind, and these programs.
#![tactic(auto)]

mod expansions;
mod kinds;

pub use expansions::{ExpandFault, PAST_LIMIT, expand};
pub use kinds::{Use, vertices};

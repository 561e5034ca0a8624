//! Patterns of outcomes: which outcomes match them, and their texts.
#![tactic(auto)]

pub mod laws;
mod matching;
mod pattern_text;
mod patterns;
mod reading;

pub use matching::{Match, NoneOf, first_match};
pub use patterns::{Pattern, StandingPattern};
pub use reading::{BadPattern, read_pattern};

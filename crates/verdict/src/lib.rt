//! Whether a source holds, in words for a person: the schedule that fails, why and its drawing, or
//! how much was tried.
#![tactic(auto)]

mod counts;
mod demands;
mod emissions;
mod empty_ranges;
mod excesses;
mod faults;
mod gaps;
pub mod laws;
mod listings;
mod names;
mod onsets;
mod origin_text;
mod programs;
mod reach;
mod shell_words;
mod shortfalls;
mod show_commands;
mod single_repeats;
mod topics;
mod verdict_text;
mod verdicts;
mod witness_text;
mod witnesses;

pub use demands::{Asked, Demands, Strictness, without_ended};
pub use emissions::emissions_of;
pub use faults::{FaultLine, ProcessFault, first_fault};
pub use gaps::{Gap, Reason};
pub use listings::write_listing;
pub use programs::programs_of;
pub use shortfalls::{Shortfall, found_in_vain};
pub use topics::Topic;
pub use verdict_text::write_verdict;
pub use verdicts::{Breach, Cause, Cut, Unbroken, Verdict, breach_for, verdict_on};
pub use witness_text::write_discovery;
pub use witnesses::{Discovery, Witness, discovery_on};

//! The laws of parts of an exploration: what is found of one can be read back from its text, and
//! what all of them tell, merged, is what is found of the whole.
#![tactic(auto)]

pub mod laws;

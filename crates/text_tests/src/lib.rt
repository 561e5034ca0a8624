//! Tests of the crates that read sources and write texts: uses, reglang, natives, texts, report,
//! part_texts and drawing. They stand in a crate of their own, so that to prove them is not to
//! prove those crates a second time.
#![tactic(auto)]

#[cfg(test)]
mod tests;

//! What is said of lists by several crates: which have the same members, each as often; every n-th
//! element; and sums. It has no code: its definitions stand in `specs`, its lemmas in `proofs`.
#![tactic(auto)]

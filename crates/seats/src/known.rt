//! What a seat knows, and how its parts of the right to know all move.

ghost use Rattle.std.specs.Prelude.{ℕ};

use atomic_table::{Join, Split, TableRule};
use std::collections::LinkedList;

/// What a seat gave to the table and what it saw there, its parts of the right to know all, and
/// how many parts there are. No value of it is made.
pub struct Known<G, L> {
    /// How many parts of the right to know all it has.
    pub parts: u64,
    /// How many parts there are.
    pub whole: u64,
    /// What it gave, the first first.
    pub gave: LinkedList<G>,
    /// What it saw, the first first.
    pub saw: LinkedList<L>,
}

/// A rule of a table at which workers have seats, and how many words and slots such a table has.
pub trait SeatRule<S, G, L>: TableRule<S, Known<G, L>, u64> {
    /// How many words a slot of the table has.
    ghost words: { ℕ };

    /// How many slots the table has.
    ghost slots: { ℕ };
}

/// One part is cut off for another seat, or all that another seat has comes back.
pub struct PartSplit;

impl<G, L> Split<Known<G, L>> for PartSplit {
    ghost use Rattle.seats.specs.Parts.{less, newcomer};

    ghost left = { less };

    ghost right = { newcomer };
}

impl<G, L> Join<Known<G, L>> for PartSplit {
    ghost use Rattle.seats.specs.Parts.{joined, spent};

    ghost both = { joined };

    ghost spent = { spent };
}

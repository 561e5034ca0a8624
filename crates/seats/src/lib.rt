//! Seats of several workers at one table, with a rule on all that the seats gave and saw.
#![tactic(auto)]

mod gathering;
mod known;
mod opening;
mod seats;

pub use gathering::gather;
pub use known::{Known, PartSplit, SeatRule};
pub use opening::open;
pub use seats::{Seat, SeatTable, TableSeat};

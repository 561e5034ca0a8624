//! The codes of the faults at which a process ends.

/// A value is above the greatest one, or below 0.
pub const NO_VALUE: u8 = 1;

/// There is no register with this number, or no cell.
pub const NO_PLACE: u8 = 2;

/// A count of a `repeat` is above the most turns.
pub const TOO_MANY_TURNS: u8 = 3;

/// One number more is emitted than a process may.
pub const TOO_MANY_NUMBERS: u8 = 4;

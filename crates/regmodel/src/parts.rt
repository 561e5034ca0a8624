//! Which part of an exploration is explored, where it is shared among several runs.

ghost use Rattle.std.specs.Prelude.{◌≡◌, ◌≤◌, ◌↔◌, IfSome, IsSome};
ghost use Rattle.regmodel.specs.declared.limits.TheConstants.{MOST_PARTS};

use crate::limits::MOST_PARTS;

/// One of several parts of an exploration, by its number, counted from 1.
#[derive(Clone, Copy, PartialEq, Eq, Debug)]
pub struct Part {
    number: u32,
    count: u32,
    ghost some: { 1 ≤ number },
    ghost there: { number ≤ count },
    ghost few: { count ≤ MOST_PARTS },
}

impl Part {
    /// The part with this number, of so many. None where the number is 0 or past the count, and
    /// where there are more than 65536 parts.
    pub fn new(number: u32, count: u32) -> Option<Part>
        ensures value { IfSome result (λ part. (part.number ≡ number) × (part.count ≡ count)) }
        ensures fits { IsSome result ↔ (1 ≤ number) × (number ≤ count) × (count ≤ MOST_PARTS) }
    {
        if number == 0 || number > count || count > MOST_PARTS {
            return None;
        }
        Some(Part { number, count })
    }

    /// Its number, from 1 on.
    pub fn number(&self) -> u32
        ensures { result ≡ self.now.number }
    {
        self.number
    }

    /// How many parts there are, 1 to 65536.
    pub fn count(&self) -> u32
        ensures { result ≡ self.now.count }
    {
        self.count
    }
}

//! Sets of numbers below 64.

/// A set of numbers below 64: bit i is 1 where the number i is in it.
#[derive(Clone, Copy)]
pub(crate) struct NumberSet {
    bits: u64,
}

impl NumberSet {
    ghost use Rattle.std.specs.Prelude.{◌≡◌, ◌==◌, ◌||◌, ◌&&◌, ◌<◌, ◌≤◌, ℕ, false, nat_le, nat_lt, not};
    ghost use Rattle.std.specs.Int.{bit_at};
    ghost use Rattle.machine.specs.NumberSets.{has};

    /// No number.
    pub(crate) const fn none() -> NumberSet
        ensures { (i : ℕ) → has result i ≡ false }
    {
        NumberSet { bits: 0 }
    }

    /// This number alone.
    pub(crate) fn one(number: u8) -> NumberSet
        requires { number < 64 }
        ensures { (i : ℕ) → i < 64 → has result i ≡ (i == number) }
    {
        NumberSet { bits: 1 << number }
    }

    /// The numbers lower than this one; all from 64 on.
    pub(crate) fn below(end: u8) -> NumberSet
        ensures { (i : ℕ) → i < 64 → has result i ≡ nat_lt i end }
    {
        if end >= 64 {
            return NumberSet { bits: u64::MAX };
        }
        NumberSet {
            bits: (1 << end) - 1,
        }
    }

    /// The numbers from the first one on and lower than the end.
    pub(crate) fn range(first: u8, end: u8) -> NumberSet
        ensures { (i : ℕ) → i < 64 → has result i ≡ (nat_lt i end && not (nat_lt i first)) }
    {
        NumberSet::below(end).difference(NumberSet::below(first))
    }

    /// The set as a number, whose bit i is 1 where the number i is in it.
    pub(crate) fn bits(self) -> u64
        ensures { (i : ℕ) → has self i ≡ (bit_at result i == 1) }
    {
        self.bits
    }

    /// Whether a number is in the set; it is not from 64 on.
    pub(crate) fn has(self, number: u8) -> bool
        ensures { number < 64 → result ≡ has self number }
    {
        number < 64 && self.bits >> number & 1 == 1
    }

    /// The numbers that are in one of two sets.
    pub(crate) fn union(self, other: NumberSet) -> NumberSet
        ensures { (i : ℕ) → has result i ≡ (has self i || has other i) }
    {
        NumberSet {
            bits: self.bits | other.bits,
        }
    }

    /// The numbers that are in both sets.
    pub(crate) fn intersection(self, other: NumberSet) -> NumberSet
        ensures { (i : ℕ) → has result i ≡ (has self i && has other i) }
    {
        NumberSet {
            bits: self.bits & other.bits,
        }
    }

    /// The numbers that are in this set and not in the other.
    pub(crate) fn difference(self, other: NumberSet) -> NumberSet
        ensures { (i : ℕ) → i < 64 → has result i ≡ (has self i && not (has other i)) }
    {
        NumberSet {
            bits: self.bits & !other.bits,
        }
    }
}

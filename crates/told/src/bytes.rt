//! The bytes of a number, of which most share one with another.

ghost use Rattle.std.specs.Prelude.{◌≡◌, ◌<◌};
ghost use Rattle.told.specs.Bytes.{both_of, pair_of};
ghost use Rattle.told.specs.declared.bytes.TheConstants.{SMALL};

/// A number below it is small. Two small ones share a byte: 15 times the first, and the second.
pub(crate) const SMALL: u32 = 15;

/// The byte of the small number 0 that shares it with none; those of other small ones follow.
pub(crate) const ALONE: u32 = 225;

/// The first byte of numbers that have two: the upper one, from here on, and the lower one.
pub(crate) const TWO: u32 = 240;

/// The byte that says that the next four are a number: two for its lower half, and two for its
/// upper half.
pub(crate) const FOUR: u32 = 255;

/// The least number that has more than two bytes.
pub(crate) const LARGE: u32 = (FOUR - TWO) * 256;

/// The two bytes of a number below 65536, the lower one first.
pub(crate) fn pair(number: u32) -> [u8; 2]
    requires { number < 65536 }
    ensures { result ≡ pair_of number }
{
    [(number & 0xff) as u8, (number >> 8) as u8]
}

/// The byte of two small numbers.
pub(crate) fn both(first: u32, second: u32) -> u8
    requires small { first < SMALL }
    requires other { second < SMALL }
    ensures { result ≡ both_of first second }
{
    (first * SMALL + second) as u8
}

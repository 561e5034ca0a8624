//! The numbers that words write.

ghost use Rattle.std.specs.Prelude.{◌≡◌, ◌<◌, ◌≤◌, ◌^◌, ℕ, Some, decimal};
ghost use Rattle.texts.specs.NumberWords.{IsNumberIn};
ghost use Rattle.regmodel.specs.declared.limits.TheConstants.{GREATEST_VALUE};

use itoa::Buffer;
use regmodel::limits::GREATEST_VALUE;
use std::str;

/// The number 0 to 1000000000 that a word writes in decimal: without a sign, and without a 0 before
/// other digits. None for any other word.
pub fn number_of(word: &[u8]) -> Option<u32>
    ensures { IsNumberIn (λ n. n ≤ GREATEST_VALUE) word.now result }
{
    let number = long_number_of(word)?;
    if number > u64::from(GREATEST_VALUE) {
        return None;
    }
    Some(number as u32)
}

/// The number that a word writes so, below 2 to the 64. None for any other word.
pub fn long_number_of(word: &[u8]) -> Option<u64>
    ensures { IsNumberIn (λ n. n < 2 ^ 64) word.now result }
{
    let number = number_in(word)?;
    let mut buffer = Buffer::new();
    if buffer.format(number).as_bytes() != word {
        return None;
    }
    Some(number)
}

/// The number that a word is read as, also where it is not written so. None where it is
/// no number of 64 bits.
fn number_in(word: &[u8]) -> Option<u64>
    ensures { (n : ℕ) → n < 2 ^ 64 → decimal n ≡ word.now → result ≡ Some n }
{
    match str::from_utf8(word) {
        Ok(text) => text.parse::<u64>().ok(),
        Err(_) => None,
    }
}

//! The registers that a text tells: numbers and ranges of them, parted by commas.

ghost use Rattle.std.specs.Prelude.{◌≡◌, ◌<◌, ◌==◌, ◌∷◌, IfSome, length};
ghost use Rattle.std.specs.List.{position};
ghost use Rattle.breadths.specs.Choices as spec;

use reglines::{number_in, word_of};
use regmodel::limits::MOST_REGISTERS;

/// Whether a text tells registers: each of its parts, between commas, is the number of a register,
/// or two with a dash between them of which the second is no lower.
pub fn tells_registers(text: &[u8]) -> bool
    ensures { result ≡ spec.tells_registers text.now }
{
    let mut left = Some(text);
    while let Some(rest) = left {
        let (part, more) = split_part(rest);
        if range_in(part).is_none() {
            return false;
        }
        left = more;
    }
    true
}

/// Whether a text tells a register.
pub fn is_told(text: &[u8], register: usize) -> bool
    ensures { result ≡ spec.is_told text.now register }
{
    let mut left = Some(text);
    while let Some(rest) = left {
        let (part, more) = split_part(rest);
        if is_within(register, part) {
            return true;
        }
        left = more;
    }
    false
}

/// The first part of a text, and what follows the comma behind it, where there is one.
fn split_part(text: &[u8]) -> (&[u8], Option<&[u8]>)
    ensures parts { spec.parts text.now ≡ result.0.now ∷ spec.parts_left result.1 }
    ensures shorter { IfSome result.1 (λ rest. length rest.now < length text.now) }
{
    match place_of(text, b',') {
        Some(end) => (&text[..end], Some(&text[end + 1..])),
        None => (text, None),
    }
}

/// The place of the first byte of this value.
fn place_of(bytes: &[u8], byte: u8) -> Option<usize>
    ensures { result ≡ position (λ b. b == byte) bytes.now }
{
    bytes.iter().position(|b| *b == byte)
}

/// Whether a part of a text tells a register.
fn is_within(register: usize, part: &[u8]) -> bool
    ensures { result ≡ spec.is_within register part.now }
{
    match range_in(part) {
        Some((first, last)) => first as usize <= register && register <= last as usize,
        None => false,
    }
}

/// The range of registers that a part of a text tells, where it does.
fn range_in(part: &[u8]) -> Option<(u32, u32)>
    ensures { result ≡ spec.range_in part.now }
{
    let (front, back) = match place_of(part, b'-') {
        Some(at) => (&part[..at], &part[at + 1..]),
        None => (part, part),
    };
    let first = register_in(front)?;
    let last = register_in(back)?;
    if first <= last {
        Some((first, last))
    } else {
        None
    }
}

/// The number of a register that a word writes.
fn register_in(word: &[u8]) -> Option<u32>
    ensures { result ≡ spec.register_in word.now }
{
    match number_in(word_of(word)) {
        Some(number) if number < MOST_REGISTERS => Some(number),
        _ => None,
    }
}

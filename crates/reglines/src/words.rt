//! Words, by what they may stand for.

ghost use Rattle.std.specs.Prelude.{◌≡◌, IsTrue, map, option_copied};
ghost use Rattle.std.specs.List.{list_all};
ghost use Rattle.std.specs.Str.Parse.{digits_value};
ghost use Rattle.reglines.specs.Words as spec;

use crate::vocabulary::{KEYWORDS, KINDS, Keyword, Kind, OPERATORS, PROPERTIES, Property, Spelled};
use regmodel::limits::{CELLS, GREATEST_VALUE, VARIABLES};
use regmodel::{Op, Operand};

/// A word of a line, by what it may stand for.
#[derive(Clone, Copy, Default)]
pub enum Word {
    Keyword(Keyword),
    /// A number, a variable or a cell; the number 1000000001 stands for each past 1000000000.
    Operand(Operand),
    /// It begins with a digit and is no number word.
    NoNumber,
    Operator(Op),
    Kind(Kind),
    Property(Property),
    /// It begins with `#`.
    Comment,
    /// None of these.
    #[default]
    Other,
}

/// The one of these that is spelled so.
fn spelled_in<T: Spelled>(all: &[T], word: &[u8]) -> Option<T>
    ensures { result ≡ spec.spelled_in (map (λ one. (T.spelling one, one)) all.now) word.now }
{
    for one in all {
        if word == one.text() {
            return Some(*one);
        }
    }
    None
}

/// Whether there are only digits.
fn are_digits(bytes: &[u8]) -> bool
    ensures { result ≡ list_all spec.is_digit bytes.now }
{
    bytes.iter().all(|b| b.is_ascii_digit())
}

/// Whether a word is `0`, or digits that do not begin with a 0.
fn is_number(word: &[u8]) -> bool
    ensures { result ≡ spec.is_number word.now }
{
    let Some((first, digits)) = word.split_first() else {
        return false;
    };
    if *first == b'0' {
        return digits.is_empty();
    }
    are_digits(word)
}

/// The value of digits, however many; 1000000001 stands for each value past 1000000000.
fn value_of(digits: &[u8]) -> u32
    requires { IsTrue (list_all spec.is_digit digits.now) }
    ensures { result ≡ spec.up_to_limit (digits_value 10 digits.now) }
{
    let mut value = 0u32;
    for digit in digits {
        let more = u64::from(value) * 10 + u64::from(*digit - b'0');
        if more > u64::from(GREATEST_VALUE) {
            return GREATEST_VALUE + 1;
        }
        value = more as u32;
    }
    value
}

/// The value of a number word; 1000000001 stands for each value past 1000000000. None
/// for any other word.
fn number_of(word: &[u8]) -> Option<u32>
    ensures { result ≡ spec.number_of word.now }
{
    if !is_number(word) {
        return None;
    }
    Some(value_of(word))
}

/// The number if it is below the limit.
fn only_below(limit: u8, number: Option<u32>) -> Option<u8>
    ensures { result ≡ spec.only_below limit number }
{
    match number {
        Some(n) if n < u32::from(limit) => Some(n as u8),
        _ => None,
    }
}

/// The number of a variable, 0 to 15. None for any other word.
fn variable_of(word: &[u8]) -> Option<u8>
    ensures { result ≡ spec.variable_of word.now }
{
    match word {
        [b'v', index @ ..] => only_below(VARIABLES, number_of(index)),
        _ => None,
    }
}

/// What stands between these two bytes. None where they are not the ends of the word.
pub fn enclosed(word: &[u8], first: u8, last: u8) -> Option<&[u8]>
    ensures { option_copied result ≡ spec.enclosed first last word.now }
{
    let (begins, rest) = word.split_first()?;
    let (ends, inside) = rest.split_last()?;
    if *begins != first {
        return None;
    }
    if *ends != last {
        return None;
    }
    Some(inside)
}

/// What a word may stand for that is a cell, or none that is known.
fn cell_word(word: &[u8]) -> Word
    ensures { result ≡ spec.cell_word (spec.in_brackets word.now) }
{
    let Some(index) = enclosed(word, b'[', b']') else {
        return Word::Other;
    };
    if let Some(i) = only_below(CELLS, number_of(index)) {
        return Word::Operand(Operand::Cell(i));
    }
    match variable_of(index) {
        Some(i) => Word::Operand(Operand::CellOf(i)),
        None => Word::Other,
    }
}

/// What a word may stand for that is not spelled out.
fn value_word(word: &[u8]) -> Word
    ensures { result ≡ spec.value_word word.now }
{
    match word {
        [b'0'..=b'9', ..] => match number_of(word) {
            Some(n) => Word::Operand(Operand::Number(n)),
            None => Word::NoNumber,
        },
        [b'#', ..] => Word::Comment,
        _ => match variable_of(word) {
            Some(i) => Word::Operand(Operand::Var(i)),
            None => cell_word(word),
        },
    }
}

/// What a word may stand for.
pub fn word_of(word: &[u8]) -> Word
    ensures { result ≡ spec.word_of word.now }
{
    if let Some(key) = spelled_in(&KEYWORDS, word) {
        return Word::Keyword(key);
    }
    if let Some(op) = spelled_in(&OPERATORS, word) {
        return Word::Operator(op);
    }
    if let Some(kind) = spelled_in(&KINDS, word) {
        return Word::Kind(kind);
    }
    if let Some(property) = spelled_in(&PROPERTIES, word) {
        return Word::Property(property);
    }
    value_word(word)
}

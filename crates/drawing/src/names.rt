//! The names that the comments of a text give registers.

ghost use Rattle.std.specs.Prelude.{◌≡◌, ◌≤◌, length, map, option_map};
ghost use Rattle.std.specs.List.{list_all, list_any};
ghost use Rattle.reglines.specs.Lines.{lines, words};
ghost use Rattle.reglines.specs.Words.{is_digit};
ghost use Rattle.drawing.specs.RegisterNames as spec;
ghost use Rattle.drawing.specs.declared.names.TheConstants.{MOST_NAME_BYTES};

use crate::cell_bytes::Cell;
use arrayvec::ArrayVec;
use reglines::{split_line, split_word};
use std::marker::Model;

/// The most bytes of a name.
pub(crate) const MOST_NAME_BYTES: usize = 16;

/// The name of a register.
#[derive(Clone, Copy)]
pub(crate) struct Name<'a> {
    pub(crate) bytes: &'a [u8],
    ghost short: { length bytes.now ≤ MOST_NAME_BYTES },
}

/// A name for each register, where it has one, registers from 0; no two have the same.
#[derive(Drop)]
pub(crate) struct RegisterNames<'a> {
    names: ArrayVec<Option<Name<'a>>, 64>,
}

impl<'a> Model for RegisterNames<'a> {
    ghost use Rattle.std.specs.Prelude.{map, option_map};
    ghost use Rattle.drawing.specs.RegisterNames as spec;

    ghost Value = { spec.RegisterNames };

    ghost view = { λ n. map (option_map (λ name. name.bytes.now)) n.names.items };
}

impl<'a> RegisterNames<'a> {
    /// The names that a text gives so many registers.
    pub(crate) fn told(text: &'a [u8], count: usize) -> RegisterNames<'a>
        requires { count ≤ 64 }
        ensures { result ≡ spec.register_names text.now count }
    {
        let mut names = ArrayVec::new();
        for r in 0..count {
            let name = name_told(text, r as u32);
            names.push(unless_given(names.as_slice(), name));
        }
        RegisterNames { names }
    }

    /// The name of a register, where it has one.
    pub(crate) fn at(&self, r: usize) -> Option<Name<'a>>
        ensures { option_map (λ name. name.bytes.now) result ≡ spec.name_at self.now r }
    {
        match self.names.get(r) {
            Some(name) => *name,
            None => None,
        }
    }
}

/// The first of so many registers that a line of a text would name, and that has no name: the word
/// is too long, tells a register by its number, or is the name of another one.
pub fn first_misnamed(text: &[u8], count: usize) -> Option<usize>
    requires { count ≤ 64 }
    ensures { result ≡ spec.first_misnamed text.now count }
{
    let names = RegisterNames::told(text, count);
    (0..count).find(|r| is_called(text, *r as u32) && names.at(*r).is_none())
}

/// Whether a line of a text would name a register.
fn is_called(text: &[u8], r: u32) -> bool
    ensures { result ≡ spec.is_called text.now (spec.number_word r) }
{
    let number = Cell::new().with_number(r).with(b":");
    is_called_by(text, number.bytes().as_slice())
}

/// Whether a line of a text would name the register of this word.
fn is_called_by(text: &[u8], number: &[u8]) -> bool
    ensures { result ≡ spec.is_called text.now number.now }
{
    let mut rest = text;
    while let Some((line, after)) = split_line(rest) {
        if is_one_word(behind_register(line, number)) {
            return true;
        }
        rest = after;
    }
    false
}

/// Whether a line is a single word.
fn is_one_word(line: &[u8]) -> bool
    ensures { result ≡ spec.is_one_word (words line.now) }
{
    match split_word(line) {
        Some((_, rest)) => split_word(rest).is_none(),
        None => false,
    }
}

/// The name that a text gives a register, where it does.
fn name_told(text: &[u8], r: u32) -> Option<Name<'_>>
    ensures { option_map (λ name. name.bytes.now) result ≡ spec.name_told text.now r }
{
    let number = Cell::new().with_number(r).with(b":");
    first_name(text, number.bytes().as_slice())
}

/// The name that the first line of a text gives the register of this word which does.
fn first_name<'a>(text: &'a [u8], number: &[u8]) -> Option<Name<'a>>
    ensures { option_map (λ name. name.bytes.now) result
        ≡ spec.first_name number.now (lines text.now) }
{
    let mut rest = text;
    while let Some((line, after)) = split_line(rest) {
        if let Some(name) = name_in(line, number) {
            return Some(name);
        }
        rest = after;
    }
    None
}

/// The name that a line gives the register of this word, where it does.
fn name_in<'a>(line: &'a [u8], number: &[u8]) -> Option<Name<'a>>
    ensures { option_map (λ name. name.bytes.now) result ≡ spec.name_in number.now line.now }
{
    name_of(behind_register(line, number))
}

/// What a line tells behind `#`, `register` and the word of a register; else nothing.
fn behind_register<'a>(line: &'a [u8], number: &[u8]) -> &'a [u8]
    ensures { words result.now ≡ spec.behind_register number.now line.now }
{
    behind(behind(behind(line, b"#"), b"register"), number)
}

/// What follows the first word of a line, where it is this one; else nothing.
fn behind<'a>(line: &'a [u8], word: &[u8]) -> &'a [u8]
    ensures { words result.now ≡ spec.behind word.now (words line.now) }
{
    match split_word(line) {
        Some((first, rest)) if first == word => rest,
        _ => &[],
    }
}

/// The only word of a line, where it may be a name: it has at most 16 bytes, and tells no register
/// by its number.
fn name_of(line: &[u8]) -> Option<Name<'_>>
    ensures { option_map (λ name. name.bytes.now) result ≡ spec.name_of (words line.now) }
{
    let (bytes, rest) = split_word(line)?;
    if split_word(rest).is_some() {
        return None;
    }
    if bytes.len() > MOST_NAME_BYTES {
        return None;
    }
    if tells_number(bytes) {
        return None;
    }
    Some(Name { bytes })
}

/// Whether a word tells a register by its number, as `2` and `r2` do.
fn tells_number(word: &[u8]) -> bool
    ensures { result ≡ spec.tells_number word.now }
{
    match word.split_first() {
        Some((first, rest)) if *first == b'r' => is_digits(rest),
        _ => is_digits(word),
    }
}

/// Whether a word is digits alone, one at least.
fn is_digits(word: &[u8]) -> bool
    ensures { result ≡ spec.is_digits word.now }
{
    match word.split_first() {
        Some(_) => are_digits(word),
        None => false,
    }
}

/// Whether there are only digits.
fn are_digits(word: &[u8]) -> bool
    ensures { result ≡ list_all is_digit word.now }
{
    word.iter().all(|b| b.is_ascii_digit())
}

/// A name, where none of these registers has it.
fn unless_given<'a>(names: &[Option<Name<'a>>], told: Option<Name<'a>>) -> Option<Name<'a>>
    ensures { option_map (λ name. name.bytes.now) result
        ≡ spec.unless_given (map (option_map (λ name. name.bytes.now)) names.now)
        (option_map (λ name. name.bytes.now) told.entry) }
{
    let name = told?;
    if is_given(names, name.bytes) {
        return None;
    }
    Some(name)
}

/// Whether one of these registers has this name.
fn is_given(names: &[Option<Name<'_>>], name: &[u8]) -> bool
    ensures { result ≡ list_any
        (λ other. spec.is_name name.now (option_map (λ n. n.bytes.now) other)) names.now }
{
    names.iter().any(|other| is_name(name, other))
}

/// Whether this is the name of a register.
fn is_name(name: &[u8], told: &Option<Name<'_>>) -> bool
    ensures { result ≡ spec.is_name name.now (option_map (λ name. name.bytes.now) told.now) }
{
    match told {
        Some(other) => other.bytes == name,
        None => false,
    }
}

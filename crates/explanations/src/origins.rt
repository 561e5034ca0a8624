//! Where the lines of a text come from, as a tool tells that made it.

ghost use Rattle.std.specs.Prelude.{◌≡◌, ℕ, ◌+◌, ◌-◌, ◌^◌, ◌<◌, ◌≤◌, option_copied};
ghost use Rattle.explanations.specs.Origins as spec;
ghost use Rattle.reglines.specs.Lines.{words};

use reglines::{enclosed, number_in, split_line, split_word, word_of};

/// Where a line comes from: a file, and the number of the line there, counted from 1.
#[derive(Clone, Copy)]
pub struct Origin<'a> {
    pub path: &'a [u8],
    pub line: u64,
}

/// The number that the first word is.
fn first_number(line: &[u8]) -> Option<u32>
    ensures { result ≡ spec.first_number (words line.now) }
{
    let (word, _) = split_word(line)?;
    number_in(word_of(word))
}

/// The number that a line tells of the next one, where it tells one.
fn told_number(line: &[u8]) -> Option<u32>
    ensures { result ≡ spec.told_number (words line.now) }
{
    let (first, rest) = split_word(line)?;
    if first != b"#line".as_slice() {
        return None;
    }
    first_number(rest)
}

/// The file of which a line tells, in the quotes of its third word, where it tells one.
fn told_file(line: &[u8]) -> Option<&[u8]>
    ensures { option_copied result ≡ spec.told_file (words line.now) }
{
    let (_, rest) = split_word(line)?;
    let (_, rest) = split_word(rest)?;
    let (file, _) = split_word(rest)?;
    enclosed(file, b'"', b'"')
}

/// The file of the line behind this one, which is of this file.
fn path_past<'a>(line: &'a [u8], path: &'a [u8]) -> &'a [u8]
    ensures { result.now ≡ spec.path_past (words line.now) path.now }
{
    if told_number(line).is_none() {
        return path;
    }
    match told_file(line) {
        Some(file) => file,
        None => path,
    }
}

/// The number of the line behind this one, which has this number.
fn number_past(line: &[u8], number: u64) -> u64
    requires { number < 2 ^ 64 - 1 }
    ensures told { result ≡ spec.number_or_next (spec.told_number (words line.now)) number }
    ensures grown { (most : ℕ) → number ≤ most → 4294967295 ≤ most → result ≤ most + 1 }
{
    match told_number(line) {
        Some(told) => u64::from(told),
        None => number + 1,
    }
}

/// Where the line of a text with this number comes from, where the text is that of this file:
/// behind a line `#line N "FILE"` stands line N of FILE.
pub fn origin_of<'a>(path: &'a [u8], text: &'a [u8], number: u64) -> Origin<'a>
    ensures path { result.path.now ≡ spec.path_told path.now text.now number }
    ensures line { result.line ≡ spec.line_told text.now number }
{
    let mut origin = Origin { path, line: 1 };
    let mut before = number.saturating_sub(1);
    let mut rest = text;
    while let Some((line, after)) = split_line(rest) {
        if before == 0 {
            break;
        }
        before -= 1;
        origin = Origin {
            path: path_past(line, origin.path),
            line: number_past(line, origin.line),
        };
        rest = after;
    }
    origin
}

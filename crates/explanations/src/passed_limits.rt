//! Which limit a line may pass, in words.

ghost use Rattle.std.specs.Prelude.{◌≡◌};
ghost use Rattle.explanations.specs.PassedLimits as spec;
ghost use Rattle.reglines.specs.Lines.{words};

use crate::line_forms::first_of;
use reglines::{Keyword, Kind, Word, kind_of, split_word, word_of};

/// The limits of a use of this kind.
fn kind_limit(kind: Kind) -> &'static str
    ensures { result.now ≡ spec.kind_limit kind }
{
    match kind {
        Kind::Split => "ID is at least 1, and BASE + 2 at most the number of registers",
        Kind::Grid => {
            "SIDE is 1 to 7, ID at least 1, and BASE + SIDE * (SIDE + 1) at most the number of registers"
        }
        Kind::Tree => {
            "DEPTH is 1 to 4, ID and VALUE at least 1, and BASE + 4 * (2^DEPTH - 1) at most the number of registers"
        }
        Kind::Name | Kind::Names => {
            "SLOTS is 1 to 8, SLOT below SLOTS, and BASE + SLOTS at most the number of registers"
        }
    }
}

/// The limits of a line with a first word, and what follows it.
fn limit_after(first: Word, rest: &[u8]) -> &'static str
    ensures { result.now ≡ spec.limit_after first (words rest.now) }
{
    match first {
        Word::Keyword(Keyword::Registers) => "there are 1 to 64 registers",
        Word::Keyword(Keyword::Process) => "there are at most 8 processes",
        Word::Keyword(Keyword::Check) => "there are at most 16 checks",
        Word::Keyword(Keyword::Scan) => {
            "COUNT is 1 to 32, CELL + COUNT at most 32, REG + COUNT at most the number of registers, and a process has at most 200 statements"
        }
        Word::Keyword(Keyword::If) => {
            "a process has at most 200 statements, and 16 blocks may be open at a time"
        }
        Word::Keyword(Keyword::Repeat) => {
            "a process has at most 200 statements, and 16 blocks may be open at a time, 3 of them repeats"
        }
        Word::Keyword(Keyword::Use) => match kind_of(first_of(rest)) {
            Some(kind) => kind_limit(kind),
            None => "",
        },
        _ => "a process has at most 200 statements",
    }
}

/// The limits of a line that passes one.
pub(crate) fn limit_of(line: &[u8]) -> &'static str
    ensures { result.now ≡ spec.limit_of (words line.now) }
{
    match split_word(line) {
        Some((first, rest)) => limit_after(word_of(first), rest),
        None => "",
    }
}

//! The form of a line, in words, and lines as examples.

ghost use Rattle.std.specs.Prelude.{◌≡◌};
ghost use Rattle.explanations.specs.LineForms as spec;
ghost use Rattle.reglines.specs.Lines.{words};

use crate::clause_forms::CheckForm;
use reglines::{Keyword, Kind, Property, Spelled, Word, kind_of, property_of, split_word, word_of};
use std::io::Write;
use texts::{Block, Text, WriteFault};

/// The form of a line.
#[derive(Clone, Copy)]
pub(crate) enum Form {
    /// It is told in these words.
    Words(&'static str),
    /// This first word, and nothing behind it.
    Alone(Keyword),
    /// A check of this property, or of any one.
    Check(Option<Property>),
}

/// A form, in words.
impl Text for Form {
    ghost text = { spec.form_text };

    fn put<W: Write>(&self, out: &mut W, block: &mut Block) -> Result<(), WriteFault> {
        match *self {
            Form::Words(words) => words.put(out, block),
            Form::Alone(key) => (key.text(), ", and nothing behind it").put(out, block),
            Form::Check(property) => CheckForm(property).put(out, block),
        }
    }
}

/// With what it is told that a line is to have its form.
pub(crate) const FORM_LEAD: &str = "give the line its form: ";

/// The form of a line with this first word.
pub(crate) fn keyword_form(key: Keyword) -> Form
    ensures { spec.form_text result ≡ spec.keyword_form key }
{
    match key {
        Keyword::Registers => Form::Words("registers NUMBER"),
        Keyword::Set => Form::Words(
            "set TARGET EXPR; TARGET is a variable or a cell, EXPR is an operand, or two with + - * = or < between them, and an operand is a number, a variable or a cell",
        ),
        Keyword::Read => Form::Words(
            "read TARGET OPERAND; TARGET is the variable or cell that takes the value, and OPERAND the register, as a number, a variable or a cell",
        ),
        Keyword::Write => Form::Words(
            "write OPERAND EXPR; OPERAND is the register, as a number, a variable or a cell, and EXPR is such an operand, or two with + - * = or < between them",
        ),
        Keyword::Scan => Form::Words(
            "scan CELL REG COUNT with three numbers: the first cell, the first register, and how many",
        ),
        Keyword::If => Form::Words(
            "if EXPR; EXPR is an operand, or two with + - * = or < between them, and an operand is a number, a variable or a cell",
        ),
        Keyword::Repeat => Form::Words(
            "repeat EXPR; EXPR is an operand, or two with + - * = or < between them, and an operand is a number, a variable or a cell",
        ),
        Keyword::Emit => Form::Words(
            "emit EXPR; EXPR is an operand, or two with + - * = or < between them, and an operand is a number, a variable or a cell",
        ),
        Keyword::Use => Form::Words(
            "use KIND NUMBERS; the kinds are split, grid, tree, name and names",
        ),
        Keyword::Check => Form::Check(None),
        _ => Form::Alone(key),
    }
}

/// The form of a use of this kind.
fn kind_form(kind: Kind) -> &'static str
    ensures { result.now ≡ spec.kind_form kind }
{
    match kind {
        Kind::Split => "use split BASE ID with two numbers",
        Kind::Grid => "use grid BASE SIDE ID with three numbers",
        Kind::Tree => "use tree BASE DEPTH ID VALUE with four numbers",
        Kind::Name => "use name BASE SLOTS SLOT with three numbers",
        Kind::Names => "use names BASE SLOTS SLOT with three numbers",
    }
}

/// The first of some words; no word that is known where there is none.
pub(crate) fn first_of(line: &[u8]) -> Word
    ensures { result ≡ spec.first_of (words line.now) }
{
    match split_word(line) {
        Some((word, _)) => word_of(word),
        None => Word::Other,
    }
}

/// The form of a line with a first word, and what follows it.
fn form_after(first: Word, rest: &[u8]) -> Form
    ensures { spec.form_text result ≡ spec.form_after first (words rest.now) }
{
    match first {
        Word::Keyword(Keyword::Use) => match kind_of(first_of(rest)) {
            Some(kind) => Form::Words(kind_form(kind)),
            None => keyword_form(Keyword::Use),
        },
        Word::Keyword(Keyword::Check) => Form::Check(property_of(first_of(rest))),
        Word::Keyword(key) => keyword_form(key),
        _ => Form::Words(""),
    }
}

/// The form that a line is to have, by its first word, and by the second one
/// behind `use` and `check`.
pub(crate) fn form_of(line: &[u8]) -> Form
    ensures { spec.form_text result ≡ spec.form_of (words line.now) }
{
    match split_word(line) {
        Some((first, rest)) => form_after(word_of(first), rest),
        None => Form::Words(""),
    }
}

/// What to tell of a line with this first word: such a line, where more stands in it, or what
/// closes the block that it opens.
fn example(key: Keyword) -> &'static str
    ensures { result.now ≡ spec.example key }
{
    match key {
        Keyword::Registers => ": registers 2",
        Keyword::Process => ", and end closes it",
        Keyword::Set => ": set v0 v0 + 1",
        Keyword::Read => ": read v0 1",
        Keyword::Write => ": write 1 v0",
        Keyword::Scan => ": scan 0 1 2",
        Keyword::If => ": if v0 < 1, and fi closes it",
        Keyword::Repeat => ": repeat 2, and done closes it",
        Keyword::Emit => ": emit v0",
        Keyword::Use => ": use split 0 1",
        Keyword::Check => ": check distinct",
        _ => "",
    }
}

/// That a line begins with this word.
#[derive(Clone, Copy)]
pub(crate) struct OwnLine(pub(crate) Keyword);

impl Text for OwnLine {
    ghost text = { λ line. spec.own_line_text line.0 };

    fn put<W: Write>(&self, out: &mut W, block: &mut Block) -> Result<(), WriteFault> {
        (self.0.text(), " is a line of its own", example(self.0)).put(out, block)
    }
}

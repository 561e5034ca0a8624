//! In words, what is at fault in a refused source, what is wrong with it, and what to change.

ghost use Rattle.std.specs.Prelude.{◌≡◌};
ghost use Rattle.explanations.specs.Wording.{fault_words, wrong_text};

use crate::line_forms::{FORM_LEAD, Form, OwnLine};
use crate::misplaced::MisplacedLine;
use crate::named_registers::NamedRegister;
use crate::nearest::Meant;
use reglang::LineRefusal;
use reglines::LineFault;
use std::io::Write;
use texts::{Block, Text, WriteFault};

/// What is at fault in a refused text.
#[derive(Clone, Copy, PartialEq, Eq, Debug)]
pub(crate) enum TextCulprit {
    /// A word of the line.
    Word,
    /// The line, and none of its words.
    Line,
    /// The end of the text.
    End,
}

impl TextCulprit {
    ghost use Rattle.explanations.specs.Wording as spec;

    /// Whether it is a word.
    fn is_word(self) -> bool
        ensures { result ≡ spec.is_word self }
    {
        matches!(self, TextCulprit::Word)
    }

    /// Whether it is the line.
    pub(crate) fn is_line(self) -> bool
        ensures { result ≡ spec.is_line self }
    {
        matches!(self, TextCulprit::Line)
    }

    /// Whether it is the end of the text.
    pub(crate) fn is_end(self) -> bool
        ensures { result ≡ spec.is_end self }
    {
        matches!(self, TextCulprit::End)
    }
}

/// What to change in a refused line.
#[derive(Clone, Copy)]
pub(crate) enum Change {
    /// These words tell it.
    Words(&'static str),
    /// The line is to have this form.
    Form(Form),
    /// A word of it begins a line.
    Own(OwnLine),
    /// This first word may be meant.
    Meant(Meant),
    /// This register has the name that stands there.
    Register(NamedRegister),
    /// It cannot stand where it is.
    Move(MisplacedLine),
}

impl Text for Change {
    ghost use Rattle.explanations.specs.Wording.{told_text};

    ghost text = { told_text };

    fn put<W: Write>(&self, out: &mut W, block: &mut Block) -> Result<(), WriteFault> {
        match *self {
            Change::Words(words) => words.put(out, block),
            Change::Form(form) => (FORM_LEAD, form).put(out, block),
            Change::Own(line) => line.put(out, block),
            Change::Meant(meant) => meant.put(out, block),
            Change::Register(register) => register.put(out, block),
            Change::Move(place) => place.put(out, block),
        }
    }
}

/// What is wrong with a text that is refused so.
pub(crate) fn what_is_wrong(refusal: LineRefusal, culprit: TextCulprit) -> &'static str
    ensures { result.now ≡ wrong_text refusal culprit }
{
    match refusal {
        LineRefusal::Fault(fault) => fault_words(fault, culprit),
        LineRefusal::Memory => "memory ran out at this line",
    }
}

/// What is wrong with a line or an end that has this fault.
fn fault_words(fault: LineFault, culprit: TextCulprit) -> &'static str
    ensures { result.now ≡ fault_words fault culprit }
{
    let named = culprit.is_word();
    let ended = culprit.is_end();
    match fault {
        LineFault::NotPrintable => {
            "a byte that is not printable ASCII, such as a tab or the carriage return of a Windows line end"
        }
        LineFault::UnknownWord => "an unknown word",
        LineFault::NoNumber => "a word that begins with a digit and is no number",
        LineFault::NoForm if named => "a word that has no place here",
        LineFault::NoForm => "a word is missing at the end",
        LineFault::Misplaced if ended => "the text ends within a process",
        LineFault::Misplaced => "the line cannot stand here",
        LineFault::PastLimit if ended => "the text has no process",
        LineFault::PastLimit => "a limit is passed",
        LineFault::NoRegisters if ended => "the text has no registers line",
        LineFault::NoRegisters => "no registers line comes first",
        LineFault::NoClause if named => "a word that no clause has here",
        LineFault::NoClause => "a word is missing at the end of the clause",
    }
}

//! What to change in a refused line.

ghost use Rattle.std.specs.Prelude.{◌≡◌, option_copied};
ghost use Rattle.explanations.specs.Advice as spec;
ghost use Rattle.explanations.specs.Wording.{told_text};
ghost use Rattle.explanations.specs.Misplaced.{place_text};
ghost use Rattle.reglines.specs.Lines.{words};

use crate::hints::hint_of;
use crate::idioms::idiom_of;
use crate::line_forms::{first_of, form_of};
use crate::misplaced::{MisplacedLine, end_place, place_of};
use crate::named_registers::NamedRegister;
use crate::open_blocks::Opened;
use crate::passed_limits::limit_of;
use crate::wording::{Change, TextCulprit};
use reglang::LineRefusal;
use reglines::{LineFault, Word, split_word};
use std::io::Write;
use texts::{Block, Text, WriteFault};

/// What to change where the end of a text is misplaced, or a line with this first word.
fn move_of(culprit: TextCulprit, first: Word, opened: Option<Opened>) -> MisplacedLine
    ensures { place_text result ≡ spec.move_words culprit first opened }
{
    if culprit.is_end() {
        end_place(opened)
    } else {
        place_of(first, opened)
    }
}

/// What to change where a limit is passed.
fn stay_words(culprit: TextCulprit, line: &[u8]) -> &'static str
    ensures { result.now ≡ spec.stay_words culprit (words line.now) }
{
    if culprit.is_line() {
        return limit_of(line);
    }
    if culprit.is_end() {
        return "write at least one process";
    }
    "write a number up to 1000000000"
}

/// How what the second word of a line says is written here, where it is one of another language.
fn second_idiom(line: &[u8]) -> Option<&'static str>
    ensures { option_copied result ≡ spec.second_idiom (words line.now) }
{
    let (_, rest) = split_word(line)?;
    let (word, _) = split_word(rest)?;
    idiom_of(word)
}

/// What to change in a check line that asks for no property that there is.
fn check_change(line: &[u8]) -> Change
    ensures { told_text result ≡ spec.check_advice (words line.now) }
{
    match second_idiom(line) {
        Some(here) => Change::Words(here),
        None => Change::Form(form_of(line)),
    }
}

/// What to write in place of the unknown word of a line, where it is the name of this register, or
/// of none.
fn unknown_change(line: &[u8], named: Option<u32>) -> Change
    ensures { told_text result ≡ spec.unknown_advice (words line.now) named }
{
    match named {
        Some(register) => Change::Register(NamedRegister(register)),
        None => hint_of(line),
    }
}

/// What to change in a line that is refused so, where this is at fault, this block is open, and the
/// word at fault is the name of this register.
#[derive(Clone, Copy)]
pub(crate) struct Advice<'a> {
    pub(crate) refusal: LineRefusal,
    pub(crate) culprit: TextCulprit,
    pub(crate) line: &'a [u8],
    pub(crate) opened: Option<Opened>,
    pub(crate) named: Option<u32>,
}

impl Advice<'_> {
    ghost use Rattle.std.specs.Prelude.{◌≡◌};
    ghost use Rattle.explanations.specs.Advice as spec;
    ghost use Rattle.explanations.specs.Wording.{told_text};
    ghost use Rattle.reglines.specs.Lines.{words};

    /// What to change.
    fn change(&self) -> Change
        ensures { told_text result
            ≡ spec.advice_words self.now.refusal self.now.culprit (words self.now.line.now)
            self.now.opened self.now.named }
    {
        let line = self.line;
        let LineRefusal::Fault(fault) = self.refusal else {
            return Change::Words("try again with more memory");
        };
        match fault {
            LineFault::NotPrintable => Change::Words(
                "use spaces, and no other bytes than those from space to ~; end each line with a line feed alone",
            ),
            LineFault::UnknownWord => unknown_change(line, self.named),
            LineFault::NoNumber => Change::Words(
                "write a number with digits alone, and without a 0 before others",
            ),
            LineFault::NoForm => Change::Form(form_of(line)),
            LineFault::NoClause => check_change(line),
            LineFault::Misplaced => {
                Change::Move(move_of(self.culprit, first_of(line), self.opened))
            }
            LineFault::PastLimit => Change::Words(stay_words(self.culprit, line)),
            LineFault::NoRegisters => Change::Words("begin with a line registers NUMBER"),
        }
    }
}

impl Text for Advice<'_> {
    ghost text = { λ a. spec.advice_text a.refusal a.culprit a.line.now a.opened a.named };

    fn put<W: Write>(&self, out: &mut W, block: &mut Block) -> Result<(), WriteFault> {
        self.change().put(out, block)
    }
}

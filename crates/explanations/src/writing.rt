//! The whole explanation of a source that is refused, line by line. No call takes memory.

ghost use Rattle.std.specs.Prelude.{◌≡◌, ◌<◌, IfSome, length, not};
ghost use Rattle.std.specs.List.{position};
ghost use Rattle.texts.specs.Appending.{Wrote};
ghost use Rattle.explanations.specs.ExplanationText as spec;
ghost use Rattle.explanations.specs.ExplanationText.{explained, line_explained, word_text};
ghost use Rattle.explanations.specs.Origins as origins;
ghost use Rattle.explanations.specs.Shown.{is_shown, printable, printable_text};

use crate::advice::Advice;
use crate::lines::shown_line;
use crate::misfits::word_at_fault;
use crate::named_registers::register_named;
use crate::open_blocks::{Opened, open_block};
use crate::origins::origin_of;
use crate::wording::{TextCulprit, what_is_wrong};
use reglang::{LineRefusal, Rejection};
use reglines::LineFault;
use std::io::Write;
use texts::{Block, Text, WriteFault, write};

/// Writes what is wrong with the text in the file of this path, which was refused so: the number of
/// the line and what is wrong, with the word or byte at fault where there is one, the line itself,
/// a question mark for each byte that is not printable ASCII, and what to change. Where a line
/// `#line N "FILE"` tells where the next ones come from, those numbers are told, and that file.
/// After a fault of the writer it has taken a beginning of that.
pub fn write_explanation<W: Write>(
    path: &[u8],
    text: &[u8],
    rejection: &Rejection,
    out: &mut W,
) -> Result<(), WriteFault>
    ensures { Wrote W.contents out.old out.new (explained path.now text.now rejection.now) result }
{
    let line = shown_line(text, rejection.line);
    let opened = block_told(text, open_block(text, lines_before(rejection)));
    let named = register_at_fault(text, line, rejection.refusal);
    let origin = origin_of(path, text, rejection.line);
    let explanation = Explanation {
        path: origin.path,
        number: origin.line,
        rejection,
        line,
        opened,
        named,
    };
    write(&explanation, out)
}

/// How many lines stand before the fault: all where the end of the text is at fault.
fn lines_before(rejection: &Rejection) -> u64
    ensures { result ≡ spec.lines_before rejection.now }
{
    let line = rejection.line;
    if rejection.is_of_end {
        line
    } else {
        line.saturating_sub(1)
    }
}

/// The number that is told of a line of a text.
fn line_told(text: &[u8], line: u64) -> u64
    ensures { result ≡ origins.line_told text.now line }
{
    origin_of(&[], text, line).line
}

/// A block of a text, with the numbers that are told of its lines.
fn block_told(text: &[u8], opened: Option<Opened>) -> Option<Opened>
    ensures { result ≡ spec.block_told text.now opened }
{
    match opened {
        Some(opened) => Some(Opened {
            block: opened.block,
            line: line_told(text, opened.line),
            else_line: opened.else_line.map(|line| line_told(text, line)),
        }),
        None => None,
    }
}

/// The register whose name the word at fault of a line is, where the comments of the text tell one.
fn register_at_fault(text: &[u8], line: &[u8], refusal: LineRefusal) -> Option<u32>
    ensures { result ≡ spec.register_at_fault text.now refusal line.now }
{
    register_named(text, word_at_fault(line, refusal)?)
}

/// What is wrong with a text, the file and the number of the line that are told, the line, the
/// block that is open there, the register whose name is at fault, and what to change.
#[derive(Clone, Copy)]
struct Explanation<'a> {
    path: &'a [u8],
    number: u64,
    rejection: &'a Rejection,
    line: &'a [u8],
    opened: Option<Opened>,
    named: Option<u32>,
}

impl Text for Explanation<'_> {
    ghost text = { λ e. line_explained e.path.now e.number e.rejection.now e.line.now e.opened
        e.named };

    fn put<W: Write>(&self, out: &mut W, block: &mut Block) -> Result<(), WriteFault> {
        let refusal = self.rejection.refusal;
        let culprit = culprit_of(self.rejection, self.line);
        let wrong = what_is_wrong(refusal, culprit);
        let advice = Advice {
            refusal,
            culprit,
            line: self.line,
            opened: self.opened,
            named: self.named,
        };
        let word = WordAtFault {
            rejection: self.rejection,
            line: self.line,
        };
        let place = (self.path, ":", self.number, ": ");
        let heading = (place, (wrong, word), "\n");
        (heading, Shown(self.line), "\n", advice, "\n").put(out, block)
    }
}

/// The word or byte of a line that is at fault, where there is one and the end of the
/// text is not at fault.
#[derive(Clone, Copy)]
struct WordAtFault<'a> {
    rejection: &'a Rejection,
    line: &'a [u8],
}

impl Text for WordAtFault<'_> {
    ghost text = { λ w. word_text w.rejection.now w.line.now };

    fn put<W: Write>(&self, out: &mut W, block: &mut Block) -> Result<(), WriteFault> {
        if self.rejection.is_of_end {
            return Ok(());
        }
        if let LineRefusal::Fault(LineFault::NotPrintable) = self.rejection.refusal {
            return ByteAtFault(self.line).put(out, block);
        }
        match word_at_fault(self.line, self.rejection.refusal) {
            Some(word) => (": ", word).put(out, block),
            None => Ok(()),
        }
    }
}

/// The first byte of a line that is not printable ASCII, and its column, counted from 1.
#[derive(Clone, Copy)]
struct ByteAtFault<'a>(&'a [u8]);

impl Text for ByteAtFault<'_> {
    ghost text = { λ b. spec.byte_text b.0.now };

    fn put<W: Write>(&self, out: &mut W, block: &mut Block) -> Result<(), WriteFault> {
        let Some(place) = first_unshown(self.0) else {
            return Ok(());
        };
        let column = place as u64 + 1;
        (": byte ", self.0[place], " in column ", column).put(out, block)
    }
}

/// The place of the first byte of a line that is not printable ASCII.
fn first_unshown(line: &[u8]) -> Option<usize>
    ensures place { result ≡ position (λ b. not (is_shown b)) line.now }
    ensures within { IfSome result (λ place. place < length line.now) }
{
    line.iter().position(|b| !is_shown(*b))
}

/// What is at fault: the end of the text where it is told to be, else a word of the line where
/// there is one, else the line.
fn culprit_of(rejection: &Rejection, line: &[u8]) -> TextCulprit
    ensures { result ≡ spec.culprit_of rejection.now line.now }
{
    if rejection.is_of_end {
        return TextCulprit::End;
    }
    match word_at_fault(line, rejection.refusal) {
        Some(_) => TextCulprit::Word,
        None => TextCulprit::Line,
    }
}

/// Bytes, each as a printable one.
#[derive(Clone, Copy)]
struct Shown<'a>(&'a [u8]);

impl Text for Shown<'_> {
    ghost text = { λ p. printable_text p.0.now };

    fn put<W: Write>(&self, out: &mut W, block: &mut Block) -> Result<(), WriteFault> {
        for byte in self.0 {
            block.put_byte(out, printable(*byte))?;
        }
        Ok(())
    }
}

/// Whether a byte is printable ASCII.
fn is_shown(byte: u8) -> bool
    ensures { result ≡ is_shown byte }
{
    (b' '..=b'~').contains(&byte)
}

/// A byte of printable ASCII; a question mark for any other.
fn printable(byte: u8) -> u8
    ensures { result ≡ printable byte }
{
    if is_shown(byte) { byte } else { b'?' }
}

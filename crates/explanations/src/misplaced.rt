//! What to change in a line that cannot stand where it is, and where a text ends within a process.

ghost use Rattle.std.specs.Prelude.{◌≡◌};
ghost use Rattle.explanations.specs.Misplaced as spec;

use crate::open_blocks::{BlockKind, Opened};
use reglines::{Keyword, Spelled, Word};
use std::io::Write;
use texts::{Block, Text, WriteFault};

/// What to change in a line that cannot stand where it is.
#[derive(Clone, Copy)]
pub(crate) enum MisplacedLine {
    /// These words tell it.
    Words(&'static str),
    /// This block is to be closed.
    Close(Opened),
    /// No such block is open.
    NoBlock(BlockKind),
    /// The if has its else at the line with this number.
    SecondElse(u64),
}

/// The first words of the lines that open a block and close it.
fn ends_of(block: BlockKind) -> (Keyword, Keyword)
    ensures { result ≡ (spec.opener block, spec.closer block) }
{
    match block {
        BlockKind::Process => (Keyword::Process, Keyword::End),
        BlockKind::If => (Keyword::If, Keyword::Fi),
        BlockKind::Repeat => (Keyword::Repeat, Keyword::Done),
    }
}

/// That a block is open.
impl Text for Opened {
    ghost text = { spec.open_text };

    fn put<W: Write>(&self, out: &mut W, block: &mut Block) -> Result<(), WriteFault> {
        let (opener, closer) = ends_of(self.block);
        let which = ("the ", opener.text(), " of line ", self.line);
        let closes = (closer.text(), " closes it");
        (which, " is open here, and ", closes).put(out, block)
    }
}

impl Text for MisplacedLine {
    ghost text = { spec.place_text };

    fn put<W: Write>(&self, out: &mut W, block: &mut Block) -> Result<(), WriteFault> {
        match *self {
            MisplacedLine::Words(words) => words.put(out, block),
            MisplacedLine::Close(opened) => opened.put(out, block),
            MisplacedLine::NoBlock(inside) => {
                let (opener, _) = ends_of(inside);
                ("no ", opener.text(), " is open here").put(out, block)
            }
            MisplacedLine::SecondElse(line) => ("this if has its else at line ", line).put(
                out, block,
            ),
        }
    }
}

/// What to change in a line that closes such a block, or parts it, where this block is open.
fn closing_in(closed: BlockKind, opened: Opened) -> MisplacedLine
    ensures { spec.place_text result ≡ spec.closing_in closed opened.block opened }
{
    match (closed, opened.block) {
        (BlockKind::If, BlockKind::If) => match opened.else_line {
            Some(line) => MisplacedLine::SecondElse(line),
            None => MisplacedLine::Words(""),
        },
        (BlockKind::If | BlockKind::Repeat, BlockKind::Process) => MisplacedLine::NoBlock(closed),
        _ => MisplacedLine::Close(opened),
    }
}

/// The same where this block is open, or none is.
fn closing(closed: BlockKind, opened: Option<Opened>) -> MisplacedLine
    ensures { spec.place_text result ≡ spec.closing_words closed opened }
{
    match opened {
        Some(opened) => closing_in(closed, opened),
        None => MisplacedLine::NoBlock(closed),
    }
}

/// What to change in a line with this first word.
pub(crate) fn place_of(first: Word, opened: Option<Opened>) -> MisplacedLine
    ensures { spec.place_text result ≡ spec.place_words first opened }
{
    match (first, opened) {
        (Word::Keyword(Keyword::Registers), _) => {
            MisplacedLine::Words("write the registers line once, before all others")
        }
        (Word::Keyword(Keyword::End), _) => closing(BlockKind::Process, opened),
        (Word::Keyword(Keyword::Else | Keyword::Fi), _) => closing(BlockKind::If, opened),
        (Word::Keyword(Keyword::Done), _) => closing(BlockKind::Repeat, opened),
        (Word::Keyword(Keyword::Process | Keyword::Check), Some(opened)) => MisplacedLine::Close(
            opened,
        ),
        (_, Some(_)) => MisplacedLine::Words("a use line stands alone between process and end"),
        (_, None) => MisplacedLine::Words("write the line between process and end"),
    }
}

/// What to change where the text ends.
pub(crate) fn end_place(opened: Option<Opened>) -> MisplacedLine
    ensures { spec.place_text result ≡ spec.end_words opened }
{
    match opened {
        Some(opened) => MisplacedLine::Close(opened),
        None => MisplacedLine::Words(""),
    }
}

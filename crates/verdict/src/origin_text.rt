//! Where a line of a text comes from, in words.

ghost use Rattle.verdict.specs.OriginText as spec;

use explanations::{origin_of, shown_line};
use reglines::without_indent;
use std::io::Write;
use texts::{Block, Text, WriteFault};

/// A line of a text, by its number, counted from 1: as it is told, with the file that it comes from
/// where a line before it tells another one than that of the text.
#[derive(Clone, Copy)]
pub(crate) struct LineOrigin<'a> {
    pub(crate) text: &'a [u8],
    pub(crate) line: u64,
}

impl Text for LineOrigin<'_> {
    ghost text = { λ o. spec.origin_text o.text.now o.line };

    fn put<W: Write>(&self, out: &mut W, block: &mut Block) -> Result<(), WriteFault> {
        let origin = origin_of(&[], self.text, self.line);
        ("line ", origin.line, OfFile(origin.path)).put(out, block)
    }
}

/// The file that a line comes from, where a line before it tells another one than that of the text.
#[derive(Clone, Copy)]
struct OfFile<'a>(&'a [u8]);

impl Text for OfFile<'_> {
    ghost text = { λ file. spec.of_file_text file.0.now };

    fn put<W: Write>(&self, out: &mut W, block: &mut Block) -> Result<(), WriteFault> {
        if self.0.is_empty() {
            return Ok(());
        }
        (" of ", self.0).put(out, block)
    }
}

/// A line of a text without its indent, and where it comes from.
#[derive(Clone, Copy)]
pub(crate) struct LineTold<'a>(pub(crate) LineOrigin<'a>);

impl Text for LineTold<'_> {
    ghost text = { λ l. spec.line_text l.0.text.now l.0.line };

    fn put<W: Write>(&self, out: &mut W, block: &mut Block) -> Result<(), WriteFault> {
        let shown = without_indent(shown_line(self.0.text, self.0.line));
        (shown, " (", self.0, ")").put(out, block)
    }
}

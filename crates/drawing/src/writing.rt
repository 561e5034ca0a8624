//! The text of a drawing. No call takes memory.

ghost use Rattle.drawing.specs.DrawingText.{drawing_text};

use crate::drawings::Drawing;
use crate::labels::Labels;
use crate::layout::{columns_shown, widths_of};
use crate::tables::Table;
use breadths::Breadth;
use std::io::Write;
use texts::{Block, Text, WriteFault};

/// The text of a drawing: a header, a line with what each register holds at the start, a line a
/// letter, and a line with how each process stands at the end. A line is as long as it may be at
/// most, as far as leaving out registers can bring that about, first of those that no letter reads
/// or writes, then of those that are only read, then of those that are only written, and each time
/// the last one; a last line says how many are left out, and how many of those a letter writes.
#[derive(Clone, Copy)]
pub struct Drawn<'a> {
    /// The drawing.
    pub drawing: &'a Drawing,
    /// The text of the source, whose comments may give its registers names, and whose lines may be
    /// told.
    pub text: &'a [u8],
    /// How broad it may be, and which columns it has.
    pub breadth: Breadth<'a>,
}

impl Text for Drawn<'_> {
    ghost text = { λ d. drawing_text d.breadth d.text.now d.drawing.now };

    fn put<W: Write>(&self, out: &mut W, block: &mut Block) -> Result<(), WriteFault> {
        let Breadth { room, lines } = self.breadth;
        let labels = Labels::told(self.text, self.drawing.start().len(), lines);
        let widths = widths_of(&labels, self.drawing);
        let columns = columns_shown(self.drawing, &widths, room);
        let table = Table {
            labels: &labels,
            drawing: self.drawing,
            widths: widths.as_slice(),
            columns: columns.as_slice(),
        };
        table.put(out, block)
    }
}

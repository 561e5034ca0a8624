//! The lines of a drawing, in columns, and its last line: how many registers are left out.

ghost use Rattle.std.specs.Prelude.{◌≤◌, ◌<◌, All, length};
ghost use Rattle.drawing.specs.DrawingText.{left_out_text, table_line, table_lines, table_text, written_text};
ghost use Rattle.drawing.specs.declared.cells.TheConstants.{MOST_COLUMNS};

use crate::cells::MOST_COLUMNS;
use crate::drawings::Drawing;
use crate::gaps::{Placed, gap_past};
use crate::labels::Labels;
use crate::layout::written_left_out;
use std::io::Write;
use texts::{Block, Text, WriteFault};

/// A drawing in these columns, rising, each of its width.
#[derive(Clone, Copy)]
pub(crate) struct Table<'a> {
    pub(crate) labels: &'a Labels<'a>,
    pub(crate) drawing: &'a Drawing,
    pub(crate) widths: &'a [u16],
    pub(crate) columns: &'a [u8],
    ghost few: { length columns.now ≤ MOST_COLUMNS },
    ghost wide: { length widths.now ≤ MOST_COLUMNS },
    ghost there: { All (λ column. column < length widths.now) columns.now },
}

/// The lines, and how many registers are left out.
impl Text for Table<'_> {
    ghost text = { λ t. table_text t.labels.now t.drawing.now t.widths.now t.columns.now };

    fn put<W: Write>(&self, out: &mut W, block: &mut Block) -> Result<(), WriteFault> {
        let left_out = LeftOut {
            left: self.widths.len().saturating_sub(self.columns.len()),
            registers: self.drawing.start().len(),
            written: written_left_out(self.drawing, self.columns),
        };
        (Lines(*self), left_out).put(out, block)
    }
}

/// How many of the registers are left out, where some are, and how many of those are written.
#[derive(Clone, Copy)]
struct LeftOut {
    left: usize,
    registers: usize,
    written: usize,
}

impl Text for LeftOut {
    ghost text = { λ l. left_out_text l.left l.registers l.written };

    fn put<W: Write>(&self, out: &mut W, block: &mut Block) -> Result<(), WriteFault> {
        if self.left == 0 {
            return Ok(());
        }
        let (left, registers) = (self.left as u64, self.registers as u64);
        let how_many = ("left out: ", left, " of ", registers, " registers");
        (how_many, Written(self.written), "; --all draws all\n").put(out, block)
    }
}

/// How many of the registers that are left out are written, where some are.
#[derive(Clone, Copy)]
struct Written(usize);

impl Text for Written {
    ghost text = { λ w. written_text w.0 };

    fn put<W: Write>(&self, out: &mut W, block: &mut Block) -> Result<(), WriteFault> {
        if self.0 == 0 {
            return Ok(());
        }
        (", ", self.0 as u64, " of them written").put(out, block)
    }
}

/// The lines of a table.
#[derive(Clone, Copy)]
struct Lines<'a>(Table<'a>);

impl Text for Lines<'_> {
    ghost text = { λ l. table_lines l.0.labels.now l.0.drawing.now l.0.widths.now l.0.columns.now };

    fn put<W: Write>(&self, out: &mut W, block: &mut Block) -> Result<(), WriteFault> {
        let table = self.0;
        for line in 0..table.drawing.lines() {
            TableLine { table, line }.put(out, block)?;
        }
        Ok(())
    }
}

/// A line of a table.
#[derive(Clone, Copy)]
struct TableLine<'a> {
    table: Table<'a>,
    line: usize,
}

impl Text for TableLine<'_> {
    ghost text = { λ l. table_line l.table.labels.now l.table.drawing.now l.table.widths.now
        l.table.columns.now l.line };

    fn put<W: Write>(&self, out: &mut W, block: &mut Block) -> Result<(), WriteFault> {
        let table = self.table;
        let widths = table.widths;
        let mut gap = 0;
        for place in 0..table.columns.len() {
            let column = table.columns[place];
            let cell = table.drawing.cell(table.labels, self.line, column);
            Placed { gap, cell: &cell }.put(out, block)?;
            gap = gap_past(gap, widths[usize::from(column)], &cell);
        }
        block.put_byte(out, b'\n')
    }
}

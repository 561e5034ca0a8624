//! Cells behind the spaces that are due before them.

ghost use Rattle.std.specs.Prelude.{◌≡◌, ◌≤◌, ◌*◌};
ghost use Rattle.drawing.specs.DrawingText as texts;
ghost use Rattle.drawing.specs.DrawingText.{placed, spaces};

use crate::cell_bytes::Cell;
use crate::cells::MOST_COLUMNS;
use crate::layout::PARTING;
use std::io::Write;
use texts::{Block, Text, WriteFault};

/// A cell's text behind so many spaces; nothing where it is empty.
#[derive(Clone, Copy)]
pub(crate) struct Placed<'a> {
    pub(crate) gap: usize,
    pub(crate) cell: &'a Cell,
}

impl Text for Placed<'_> {
    ghost text = { λ p. placed p.gap p.cell.now };

    fn put<W: Write>(&self, out: &mut W, block: &mut Block) -> Result<(), WriteFault> {
        let bytes = self.cell.bytes().as_slice();
        if bytes.is_empty() {
            return Ok(());
        }
        (Spaces(self.gap), bytes).put(out, block)
    }
}

/// So many spaces.
#[derive(Clone, Copy)]
struct Spaces(usize);

impl Text for Spaces {
    ghost text = { λ s. spaces s.0 };

    fn put<W: Write>(&self, out: &mut W, block: &mut Block) -> Result<(), WriteFault> {
        for _space in 0..self.0 {
            block.put_byte(out, b' ')?;
        }
        Ok(())
    }
}

/// How many spaces are due before a further text, where so many were due before this cell of a
/// column of this width.
pub(crate) fn gap_past(gap: usize, width: u16, cell: &Cell) -> usize
    requires { gap ≤ 65537 * MOST_COLUMNS }
    ensures { result ≡ texts.gap_past gap width cell.now }
{
    let long = cell.bytes().len();
    let width = usize::from(width);
    if long == 0 {
        gap + width + PARTING
    } else {
        width.saturating_sub(long) + PARTING
    }
}

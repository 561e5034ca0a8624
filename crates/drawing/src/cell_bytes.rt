//! The bytes of a cell of a drawing.

ghost use Rattle.std.specs.Prelude.{◌≡◌, ◌≤◌, ◌+◌, ◌++◌, [], decimal, length};

use arrayvec::ArrayVec;
use itoa::Buffer;
use std::marker::Model;

/// The most bytes of a cell: those of a scan of 64 numbers of ten digits from a register with a
/// name to another one, by which its process is done with eight of them.
pub(crate) const MOST_CELL_BYTES: usize = 848;

/// The most bytes of a number.
const MOST_DIGITS: usize = 10;

/// The most bytes of the number of a line.
const MOST_LINE_DIGITS: usize = 20;

/// The text of a cell. A clause sees its bytes.
#[derive(Drop)]
pub(crate) struct Cell {
    bytes: ArrayVec<u8, MOST_CELL_BYTES>,
}

impl Model for Cell {
    ghost use Rattle.std.specs.Prelude.{List, ℕ};

    ghost Value = { List ℕ };

    ghost view = { λ cell. cell.bytes.items };
}

impl Cell {
    /// An empty cell.
    pub(crate) fn new() -> Cell
        ensures { result ≡ [] }
    {
        Cell {
            bytes: ArrayVec::new(),
        }
    }

    /// The bytes.
    pub(crate) fn bytes(&self) -> &ArrayVec<u8, MOST_CELL_BYTES>
        ensures { result.now.items ≡ self.now }
    {
        &self.bytes
    }

    /// The same with these bytes last.
    pub(crate) fn with(self, bytes: &[u8]) -> Cell
        requires { length self + length bytes.now ≤ MOST_CELL_BYTES }
        ensures text { result ≡ self ++ bytes.now }
        ensures long { length result ≡ length self + length bytes.now }
    {
        let mut cell = self;
        let _ = cell.bytes.try_extend_from_slice(bytes);
        cell
    }

    /// The same with the digits of a number last.
    pub(crate) fn with_number(self, number: u32) -> Cell
        requires { length self + MOST_DIGITS ≤ MOST_CELL_BYTES }
        ensures text { result ≡ self ++ decimal number }
        ensures long { length result ≤ length self + MOST_DIGITS }
    {
        let mut buffer = Buffer::new();
        self.with(buffer.format(number).as_bytes())
    }

    /// The same with the digits of the number of a line last.
    pub(crate) fn with_line(self, line: u64) -> Cell
        requires { length self + MOST_LINE_DIGITS ≤ MOST_CELL_BYTES }
        ensures { result ≡ self ++ decimal line }
    {
        let mut buffer = Buffer::new();
        self.with(buffer.format(line).as_bytes())
    }
}

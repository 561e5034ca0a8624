//! Uses: processes that stand for a program of their kind, and the limits of their numbers.

ghost use Rattle.std.specs.Prelude.{◌≡◌, ◌^◌, ◌-◌, ◌≤◌, IsTrue};
ghost use Rattle.regmodel.specs.declared.limits.TheConstants.{MOST_LEVELS};
ghost use Rattle.uses.specs.Uses as spec;

use regmodel::limits::{GREATEST_VALUE, MOST_LEVELS, MOST_REGISTERS, MOST_ROWS, MOST_SLOTS};

/// What a use line says: a kind, and its numbers in the order of the line.
///
/// BASE is the first register that the kind takes. ID is the number by which the
/// process is known there.
#[derive(Clone, Copy, PartialEq, Eq, Debug)]
pub enum Use {
    /// A splitter: BASE, ID. It takes 2 registers.
    Split(u32, u32),
    /// A grid of splitters: BASE; SIDE, 1 to 7 rows and columns; ID. It takes SIDE *
    /// (SIDE + 1) registers.
    Grid(u32, u32, u32),
    /// A binary tree of splitters: BASE; DEPTH, 1 to 4 levels; ID; VALUE, what the process leaves
    /// where it stops. It takes 4 * (2^DEPTH - 1) registers.
    Tree(u32, u32, u32, u32),
    /// A renaming: BASE; SLOTS, 1 to 8; SLOT, that of the process, below SLOTS. It
    /// takes SLOTS registers.
    Name(u32, u32, u32),
    /// A renaming that scans its slots at once: BASE, SLOTS, SLOT, as those of a renaming. It
    /// takes SLOTS registers.
    Names(u32, u32, u32),
}

impl Use {
    ghost use Rattle.uses.specs.Uses.{use_fits};

    /// Whether the use line is within its limits over so many registers: they are 1 to 64,
    /// those of the kind are among them, ID and VALUE are 1 to 1000000000, and the other
    /// numbers are as the kind says.
    pub fn fits(&self, registers: u32) -> bool
        ensures { result ≡ use_fits self.now registers }
    {
        if !is_between(1, MOST_REGISTERS, registers) {
            return false;
        }
        if !numbers_fit(self) {
            return false;
        }
        registers_end(self) <= u64::from(registers)
    }
}

/// Whether a number is at least the first and at most the last.
fn is_between(first: u32, last: u32, n: u32) -> bool
    ensures { result ≡ spec.is_between first last n }
{
    first <= n && n <= last
}

/// Whether a number can be seen in a register: it is not 0, and within the limit of values.
fn is_mark(n: u32) -> bool
    ensures { result ≡ spec.is_mark n }
{
    is_between(1, GREATEST_VALUE, n)
}

/// Whether the numbers after BASE are within the limits of their kind.
fn numbers_fit(kind: &Use) -> bool
    ensures { result ≡ spec.numbers_fit kind.now }
{
    match *kind {
        Use::Split(_, id) => is_mark(id),
        Use::Grid(_, side, id) => is_between(1, MOST_ROWS, side) && is_mark(id),
        Use::Tree(_, depth, id, value) => {
            is_between(1, MOST_LEVELS, depth) && is_mark(id) && is_mark(value)
        }
        Use::Name(_, slots, slot) | Use::Names(_, slots, slot) => {
            is_between(1, MOST_SLOTS, slots) && slot < slots
        }
    }
}

/// The first register past those of the kind.
fn registers_end(kind: &Use) -> u64
    requires { IsTrue (spec.numbers_fit kind.now) }
    ensures { result ≡ spec.registers_end kind.now }
{
    match *kind {
        Use::Split(base, _) => u64::from(base) + 2,
        Use::Grid(base, side, _) => u64::from(base) + u64::from(side * (side + 1)),
        Use::Tree(base, depth, _, _) => u64::from(base) + u64::from(4 * vertices(depth)),
        Use::Name(base, slots, _) | Use::Names(base, slots, _) => {
            u64::from(base) + u64::from(slots)
        }
    }
}

/// How many vertices a binary tree of this depth has, at most 15.
pub fn vertices(depth: u32) -> u32
    requires { depth ≤ MOST_LEVELS }
    ensures value { result ≡ 2 ^ depth - 1 }
    ensures few { result ≤ 15 }
{
    (1 << depth) - 1
}

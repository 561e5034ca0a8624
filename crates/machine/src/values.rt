//! What a program holds, its variables, its cells and the numbers that it has emitted, and what its
//! expressions are worth.

ghost use Rattle.std.specs.Prelude.{◌≡◌, ◌+◌, ◌≤◌, ℕ, if◌then◌else◌, length, replicate, slice_index, slice_set};
ghost use Rattle.regmodel.specs.Kept.{values_in};
ghost use Rattle.regmodel.specs.Values.{within, below_or_fault, operand_value, expr_value, apply_op, target_place, store, store_from, InCell};
ghost use Rattle.regmodel.specs.declared.limits.TheConstants.{CELLS, MOST_NUMBERS};
ghost use Rattle.machine.specs.NumberSets.{has};
ghost use Rattle.machine.specs.Sparse.{sparse};
ghost use Rattle.machine.specs.Stores.{env_of, as_place, as_place_or_fault, reply_stored, values_of};

use crate::sets::NumberSet;
use crate::value_of;
use regmodel::faults::{NO_PLACE, NO_VALUE};
use regmodel::limits::{CELLS, GREATEST_VALUE, MOST_NUMBERS};
use regmodel::{Expr, Few, Numbers, Op, Operand, Target};

/// N values, as a plain value. Places from the count on are not looked at: the values there are 0.
#[derive(Clone, Copy)]
pub struct Row<const N: usize> {
    places: [u32; N],
    count: usize,
}

impl<const N: usize> Row<N> {
    /// Values that all are 0.
    pub fn zeros() -> Row<N>
        ensures { values_of result ≡ replicate N 0 }
    {
        Row {
            places: [0; N],
            count: 0,
        }
    }

    /// A value; 0 where there is none with this number.
    pub fn get(&self, i: usize) -> u32
        ensures { result ≡ slice_index (values_of self.now) i }
    {
        if i < self.count && i < N {
            self.places[i]
        } else {
            0
        }
    }

    /// Puts a value at its place; nowhere where there is no such place.
    pub fn put(&mut self, i: usize, value: u32)
        ensures { values_of self.new ≡ slice_set (values_of self.old) i value }
    {
        if i < N {
            while self.count <= i {
                self.places[self.count] = 0;
                self.count += 1;
            }
            self.places[i] = value;
        }
    }

    /// The values whose numbers are in a set, in which the first one has this number, and 0 in
    /// place of each other one.
    pub(crate) fn kept(&self, live: NumberSet, first: u8) -> Row<N>
        requires { first + N ≤ 64 }
        ensures long { length (values_of result) ≡ length (values_of self.now) }
        ensures values { (i : ℕ) → slice_index (values_of result) i
            ≡ (if has live (first + i) then slice_index (values_of self.now) i else 0) }
    {
        let mut row = Row::zeros();
        for i in 0..N {
            if !live.has(first + i as u8) {
                continue;
            }
            row.put(i, self.get(i));
        }
        row
    }

    /// The first values, behind which all are 0.
    pub fn first(&self) -> &[u32]
        ensures told { sparse result.now ≡ sparse (values_of self.now) }
        ensures short { length result.now ≤ N }
    {
        &self.places[..self.count.min(N)]
    }
}

/// The numbers that a program emitted, as a plain value: at most 8.
pub type Emitted = Few<MOST_NUMBERS>;

/// The numbers emitted, as they are told.
pub fn numbers_emitted(emitted: &Emitted) -> Numbers
    ensures { result.items ≡ values_in emitted.now }
{
    let mut numbers = Numbers::new();
    let _ = numbers.try_extend_from_slice(emitted.values());
    numbers
}

/// The variables, the cells and the numbers emitted so far.
#[derive(Clone, Copy)]
pub struct Store {
    pub vars: Row<16>,
    pub cells: Row<32>,
    pub emitted: Emitted,
}

/// Where a value is stored: in the variable or the cell with this number.
#[derive(Clone, Copy)]
pub enum Place {
    Var(u8),
    Cell(u8),
}

/// Where the reply to an access is stored.
#[derive(Clone, Copy)]
pub enum Destination {
    Nowhere,
    InPlace(Place),
    /// In the cells from this one on.
    InCells(u8),
}

/// The value of an operator; a fault above the greatest value or below 0.
pub fn apply(op: Op, a: u32, b: u32) -> Result<u32, u8>
    ensures { result ≡ apply_op op a b }
{
    match op {
        Op::Add => bounded(a as u64 + b as u64),
        Op::Sub => a.checked_sub(b).ok_or(NO_VALUE),
        Op::Mul => bounded(a as u64 * b as u64),
        Op::Equal => Ok((a == b) as u32),
        Op::Less => Ok((a < b) as u32),
    }
}

/// A value up to the greatest one; a fault above it.
fn bounded(n: u64) -> Result<u32, u8>
    ensures { result ≡ within n }
{
    if n <= u64::from(GREATEST_VALUE) {
        Ok(n as u32)
    } else {
        Err(NO_VALUE)
    }
}

impl Store {
    /// The value of a variable; 0 where there is none with this number.
    pub fn var(&self, i: u8) -> u32
        ensures { result ≡ slice_index (values_of self.now.vars) i }
    {
        self.vars.get(usize::from(i))
    }

    /// The value of a cell; 0 where there is none with this number.
    fn cell(&self, i: u8) -> u32
        ensures { result ≡ slice_index (values_of self.now.cells) i }
    {
        self.cells.get(usize::from(i))
    }

    /// The number of the cell that a variable names; a fault where there is no such cell.
    fn named_cell(&self, i: u8) -> Result<u8, u8>
        ensures { result ≡ below_or_fault CELLS (slice_index (values_of self.now.vars) i) }
    {
        let number = self.var(i);
        if number < u32::from(CELLS) {
            Ok(number as u8)
        } else {
            Err(NO_PLACE)
        }
    }

    /// The value of an operand; a fault where it names a cell that is not there.
    pub fn operand(&self, a: Operand) -> Result<u32, u8>
        ensures { result ≡ operand_value (env_of self.now) a }
    {
        match a {
            Operand::Number(n) => Ok(n),
            Operand::Var(i) => Ok(self.var(i)),
            Operand::Cell(i) => Ok(self.cell(i)),
            Operand::CellOf(i) => Ok(self.cell(self.named_cell(i)?)),
        }
    }

    /// The value of an expression, operands from left to right.
    pub fn expr(&self, e: &Expr) -> Result<u32, u8>
        ensures { result ≡ expr_value (env_of self.now) e.now }
    {
        match e {
            Expr::One(a) => self.operand(*a),
            Expr::Two(a, op, b) => {
                let x = self.operand(*a)?;
                let y = self.operand(*b)?;
                apply(*op, x, y)
            }
        }
    }

    /// Where a target is stored; a fault where it names a cell that is not there.
    pub fn place(&self, t: Target) -> Result<Place, u8>
        ensures { as_place_or_fault result ≡ target_place (env_of self.now) t }
    {
        match t {
            Target::Var(i) => Ok(Place::Var(i)),
            Target::Cell(i) => Ok(Place::Cell(i)),
            Target::CellOf(i) => Ok(Place::Cell(self.named_cell(i)?)),
        }
    }

    /// Stores a value; nowhere where there is no such variable or cell.
    pub fn put(&mut self, place: Place, value: u32)
        ensures { env_of self.new ≡ store (env_of self.old) (as_place place) value }
    {
        match place {
            Place::Var(i) => self.vars.put(usize::from(i), value),
            Place::Cell(i) => self.put_cell(usize::from(i), value),
        }
    }

    /// Stores a value in a cell; nowhere where there is none with this number.
    fn put_cell(&mut self, i: usize, value: u32)
        ensures { env_of self.new ≡ store (env_of self.old) (InCell i) value }
    {
        self.cells.put(i, value);
    }

    /// Stores a reply: its value in a place, or its values in cells.
    pub fn put_reply(&mut self, destination: Destination, reply: &[u32])
        ensures { env_of self.new ≡ reply_stored destination (env_of self.old) reply.now }
    {
        match destination {
            Destination::Nowhere => {}
            Destination::InPlace(place) => self.put(place, value_of(reply)),
            Destination::InCells(cell) => self.put_from(cell, reply),
        }
    }

    /// Stores values in the cells from one on.
    fn put_from(&mut self, cell: u8, values: &[u32])
        ensures { env_of self.new ≡ store_from (env_of self.old) cell values.now }
    {
        for (offset, value) in values.iter().enumerate() {
            self.put_cell(usize::from(cell) + offset, *value);
        }
    }
}

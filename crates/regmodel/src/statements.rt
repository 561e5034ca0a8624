//! Statements, and what they compute with.

ghost use Rattle.std.specs.Prelude.{◌≡◌};

use crate::limits::{CELLS, GREATEST_VALUE, VARIABLES};

/// Where a value is stored.
#[derive(Clone, Copy, PartialEq, Eq, Debug)]
pub enum Target {
    /// The variable with this number, 0 to 15.
    Var(u8),
    /// The cell with this number, 0 to 31.
    Cell(u8),
    /// The cell whose number is the value of this variable.
    CellOf(u8),
}

/// A value to compute with.
#[derive(Clone, Copy, PartialEq, Eq, Debug)]
pub enum Operand {
    /// A number, 0 to 1000000000.
    Number(u32),
    /// The variable with this number, 0 to 15.
    Var(u8),
    /// The cell with this number, 0 to 31.
    Cell(u8),
    /// The cell whose number is the value of this variable.
    CellOf(u8),
}

/// An operator; the comparisons give 1 or 0.
#[derive(Clone, Copy, PartialEq, Eq, Debug)]
pub enum Op {
    Add,
    Sub,
    Mul,
    Equal,
    Less,
}

/// One operand, or two with an operator between them.
#[derive(Clone, Copy, PartialEq, Eq, Debug)]
pub enum Expr {
    One(Operand),
    Two(Operand, Op, Operand),
}

impl Target {
    ghost use Rattle.regmodel.specs.Limits.{target_fits};

    /// Whether the variable's number is below 16, or the cell's below 32.
    pub fn fits(&self) -> bool
        ensures { result ≡ target_fits self.now }
    {
        match self {
            Target::Var(i) => *i < VARIABLES,
            Target::Cell(i) => *i < CELLS,
            Target::CellOf(i) => *i < VARIABLES,
        }
    }
}

impl Operand {
    ghost use Rattle.regmodel.specs.Limits.{operand_fits};

    /// Whether the number is at most 1000000000, the variable's number below 16, or the cell's
    /// below 32.
    pub fn fits(&self) -> bool
        ensures { result ≡ operand_fits self.now }
    {
        match self {
            Operand::Number(n) => *n <= GREATEST_VALUE,
            Operand::Var(i) => *i < VARIABLES,
            Operand::Cell(i) => *i < CELLS,
            Operand::CellOf(i) => *i < VARIABLES,
        }
    }
}

impl Expr {
    ghost use Rattle.regmodel.specs.Limits.{expr_fits};

    /// Whether each operand is within its limit.
    pub fn fits(&self) -> bool
        ensures { result ≡ expr_fits self.now }
    {
        match self {
            Expr::One(a) => a.fits(),
            Expr::Two(a, _, b) => a.fits() && b.fits(),
        }
    }
}

/// A statement of the register language.
#[derive(Debug, Drop)]
pub enum Stmt {
    /// Evaluates the expression, then stores its value.
    Assign(Target, Expr),
    /// Reads the register with the operand's number into the target.
    Read(Target, Operand),
    /// Writes the expression's value into the register with the operand's number.
    Write(Operand, Expr),
    /// Runs the first block where the value is not 0, else the second.
    If(Expr, Vec<Stmt>, Vec<Stmt>),
    /// Runs the block as often as the value says, which is taken once.
    Repeat(Expr, Vec<Stmt>),
    /// Reads at once the registers from the second number on, as many as the third says, into the
    /// cells from the first on.
    Scan(u32, u32, u32),
    /// Appends the value to the numbers of the process.
    Emit(Expr),
    /// Ends the process with its numbers.
    Halt,
}

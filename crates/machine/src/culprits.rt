//! What is out of range where a program is at fault.

ghost use Rattle.std.specs.Prelude.{◌≡◌};
ghost use Rattle.regmodel.specs.Prelude.{with_stmt};
ghost use Rattle.regmodel.specs.Program.{Stop};
ghost use Rattle.machine.specs.Culprits as spec;
ghost use Rattle.machine.specs.Stores.{env_of};

use crate::values::{Store, apply};
use regmodel::limits::{CELLS, MOST_TURNS};
use regmodel::{Expr, Op, Operand, Stmt, Target};

/// What is out of range where a program is at fault.
#[derive(Clone, Copy, PartialEq, Eq, Debug)]
pub enum Culprit {
    /// A register with this number, where there are so many.
    Register(u32, u32),
    /// A cell with this number: there is none.
    Cell(u32),
    /// What an operator makes of two values: below 0, or above the greatest value.
    Value(u32, Op, u32),
    /// So many turns of a `repeat`: more than there may be.
    Turns(u32),
}

/// What is out of range in a statement that is about to run, if anything. A ninth number that is
/// emitted is not: it may be any.
pub(crate) fn culprit_of(stmt: &Stmt, registers: u32, store: &Store) -> Option<Culprit>
    ensures { result ≡ spec.culprit_of (with_stmt stmt.now Stop) registers (env_of store.now) }
{
    match stmt {
        Stmt::Assign(to, value) => expr_culprit(value, store).or(target_culprit(*to, store)),
        Stmt::Read(to, from) => {
            register_culprit(*from, registers, store).or(target_culprit(*to, store))
        }
        Stmt::Write(to, value) => {
            register_culprit(*to, registers, store).or(expr_culprit(value, store))
        }
        Stmt::If(test, _, _) => expr_culprit(test, store),
        Stmt::Repeat(count, _) => turns_culprit(count, store),
        Stmt::Emit(value) => expr_culprit(value, store),
        Stmt::Scan(_, _, _) | Stmt::Halt => None,
    }
}

/// The cell that a variable names, where it is not there.
fn named_culprit(i: u8, store: &Store) -> Option<Culprit>
    ensures { result ≡ spec.named_culprit (env_of store.now) i }
{
    let number = store.var(i);
    if number < u32::from(CELLS) {
        return None;
    }
    Some(Culprit::Cell(number))
}

/// The cell of an operand, where it is not there.
fn operand_culprit(a: Operand, store: &Store) -> Option<Culprit>
    ensures { result ≡ spec.operand_culprit (env_of store.now) a }
{
    match a {
        Operand::CellOf(i) => named_culprit(i, store),
        Operand::Number(_) | Operand::Var(_) | Operand::Cell(_) => None,
    }
}

/// The cell of a target, where it is not there.
fn target_culprit(t: Target, store: &Store) -> Option<Culprit>
    ensures { result ≡ spec.target_culprit (env_of store.now) t }
{
    match t {
        Target::CellOf(i) => named_culprit(i, store),
        Target::Var(_) | Target::Cell(_) => None,
    }
}

/// What an operator makes of two values, where they are known and it is out of range.
fn op_culprit(op: Op, first: Result<u32, u8>, second: Result<u32, u8>) -> Option<Culprit>
    ensures { result ≡ spec.of_value first (λ a. spec.of_value second (spec.op_culprit op a)) }
{
    let (Ok(a), Ok(b)) = (first, second) else {
        return None;
    };
    match apply(op, a, b) {
        Ok(_) => None,
        Err(_) => Some(Culprit::Value(a, op, b)),
    }
}

/// The first cell of an expression that is not there, or else its value where it is out of range.
fn expr_culprit(e: &Expr, store: &Store) -> Option<Culprit>
    ensures { result ≡ spec.expr_culprit (env_of store.now) e.now }
{
    match e {
        Expr::One(a) => operand_culprit(*a, store),
        Expr::Two(a, op, b) => {
            let cell = operand_culprit(*a, store).or(operand_culprit(*b, store));
            cell.or(op_culprit(*op, store.operand(*a), store.operand(*b)))
        }
    }
}

/// The cell of an operand that names a register, or else the register, where it is not there.
fn register_culprit(a: Operand, registers: u32, store: &Store) -> Option<Culprit>
    ensures { result ≡ spec.register_culprit registers (env_of store.now) a }
{
    let register = match store.operand(a) {
        Ok(number) if number >= registers => Some(Culprit::Register(number, registers)),
        Ok(_) | Err(_) => None,
    };
    operand_culprit(a, store).or(register)
}

/// What is out of range in the count of a `repeat`, or else the count where it is too large.
fn turns_culprit(count: &Expr, store: &Store) -> Option<Culprit>
    ensures { result ≡ spec.turns_culprit (env_of store.now) count.now }
{
    let turns = match store.expr(count) {
        Ok(turns) if turns > MOST_TURNS => Some(Culprit::Turns(turns)),
        Ok(_) | Err(_) => None,
    };
    expr_culprit(count, store).or(turns)
}

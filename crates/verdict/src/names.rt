//! Which numbers a process may emit, by its text.

ghost use Rattle.std.specs.Prelude.{◌≡◌, ◌≤◌, Bool, length, map};
ghost use Rattle.regmodel.specs.declared.limits.TheConstants.{MOST_PROCESSES};
ghost use Rattle.regmodel.specs.Prelude.{block_of, with_stmt, program_of, Block};
ghost use Rattle.verdict.specs.Names as spec;

use regmodel::{Expr, Operand, Prog, Stmt};

/// A number that is sought among those that a process emits.
#[derive(Clone, Copy, PartialEq, Eq, Debug)]
pub struct Sought {
    /// The number.
    pub number: u32,
    /// Whether it is sought as the first one, which is the name of the process, or as any.
    pub as_name: bool,
}

/// How many of these programs may emit what is sought.
pub(crate) fn emitters(sought: Sought, programs: &[Prog]) -> u32
    requires { length programs.now ≤ MOST_PROCESSES }
    ensures value { result ≡ spec.emitters sought (map program_of programs.now) }
    ensures few { result ≤ length programs.now }
{
    let Some((program, more)) = programs.split_first() else {
        return 0;
    };
    if may_emit_from(sought, program.body(), false) {
        return emitters(sought, more) + 1;
    }
    emitters(sought, more)
}

/// Whether what is sought may be emitted from a block on, where it may after it or not.
#[cycle(names)]
fn may_emit_from(sought: Sought, block: &[Stmt], after: bool) -> bool
    ensures { result ≡ spec.may_emit_from sought (block_of block.now) after }
{
    let (mut left, mut may) = (block.len(), after);
    while left > 0 {
        left -= 1;
        may = may_emit_with(sought, &block[left], may);
    }
    may
}

/// The same of a statement, where it may be emitted behind it or not.
#[cycle(names)]
fn may_emit_with(sought: Sought, stmt: &Stmt, behind: bool) -> bool
    ensures { (rest : Block) (after : Bool) → behind ≡ spec.may_emit_from sought rest after
        → result ≡ spec.may_emit_from sought (with_stmt stmt.now rest) after }
{
    match stmt {
        Stmt::Assign(_, _) | Stmt::Read(_, _) | Stmt::Write(_, _) | Stmt::Scan(_, _, _) => behind,
        Stmt::If(_, first, second) => {
            let first = may_emit_from(sought, first.as_slice(), behind);
            let second = may_emit_from(sought, second.as_slice(), behind);
            first || second
        }
        Stmt::Repeat(_, body) => {
            let turned = may_emit_from(sought, body.as_slice(), behind);
            behind || turned
        }
        Stmt::Emit(value) => may_be(sought.number, value) || (!sought.as_name && behind),
        Stmt::Halt => false,
    }
}

/// Whether an expression may have this value.
fn may_be(number: u32, value: &Expr) -> bool
    ensures { result ≡ spec.may_be number value.now }
{
    match value {
        Expr::One(Operand::Number(own)) => *own == number,
        _ => true,
    }
}

//! The numbers of statements, in the order of a program's text.

ghost use Rattle.std.specs.Prelude.{◌≡◌, ◌+◌, ◌≤◌};
ghost use Rattle.regmodel.specs.Program.{Stop};
ghost use Rattle.regmodel.specs.Prelude.{block_of, with_stmt};
ghost use Rattle.regmodel.specs.Limits.{statements};
ghost use Rattle.regmodel.specs.declared.limits.TheConstants.{MOST_STATEMENTS};

use regmodel::Stmt;

/// The number behind a block whose first statement has this one, and in which the statements of
/// inner blocks are numbered, too.
#[cycle(numbers)]
pub fn behind(block: &[Stmt], number: usize) -> usize
    requires { number + statements (block_of block.now) ≤ MOST_STATEMENTS }
    ensures { result ≡ number + statements (block_of block.now) }
{
    let mut next = number;
    for stmt in block {
        next = behind_stmt(stmt, next);
    }
    next
}

/// The number behind a statement with this one.
#[cycle(numbers)]
pub fn behind_stmt(stmt: &Stmt, number: usize) -> usize
    requires { number + statements (with_stmt stmt.now Stop) ≤ MOST_STATEMENTS }
    ensures { result ≡ number + statements (with_stmt stmt.now Stop) }
{
    match stmt {
        Stmt::If(_, first, second) => {
            let second_at = behind(first.as_slice(), number + 1);
            behind(second.as_slice(), second_at)
        }
        Stmt::Repeat(_, body) => behind(body.as_slice(), number + 1),
        Stmt::Assign(_, _)
        | Stmt::Read(_, _)
        | Stmt::Write(_, _)
        | Stmt::Scan(_, _, _)
        | Stmt::Emit(_)
        | Stmt::Halt => number + 1,
    }
}

//! The expansion of a grid.

ghost use Rattle.std.specs.Prelude.{◌≡◌, IfOk};
ghost use Rattle.regmodel.specs.Prelude.{block_of};
ghost use Rattle.uses.specs.Expansions.{grid_body, grid_visit, grid_down};

use regmodel::Expr::{One, Two};
use regmodel::Op::{Add, Equal, Mul, Sub};
use regmodel::Operand::{Number, Var};
use regmodel::Stmt::{Assign, Emit, Halt, If, Read, Repeat, Write};
use regmodel::{OutOfMemory, Stmt, Target};
use std::alloc::Global;

/// The statements of a grid whose registers begin at `base`, for the process with this number.
pub fn grid_block(alloc: Global, base: u32, side: u32, id: u32) -> Result<Vec<Stmt>, OutOfMemory>
    ensures { IfOk result (λ block. block_of block.items ≡ grid_body base side id) }
{
    let visit = visit(alloc, base, id)?;
    Ok(vec![in alloc;
        Assign(Target::Var(0), One(Number(0))),
        Assign(Target::Var(1), One(Number(1))),
        Repeat(One(Number(side)), visit),
    ]?)
}

/// The splitter of one vertex; to the right of it where the door is closed.
fn visit(alloc: Global, base: u32, id: u32) -> Result<Vec<Stmt>, OutOfMemory>
    ensures { IfOk result (λ block. block_of block.items ≡ grid_visit base id) }
{
    let right = vec![in alloc;
        Assign(Target::Var(1), Two(Var(1), Add, Var(0))),
        Assign(Target::Var(1), Two(Var(1), Add, Number(2))),
    ]?;
    let down = down(alloc, id)?;
    Ok(vec![in alloc;
        Assign(Target::Var(2), Two(Var(1), Mul, Number(2))),
        Assign(Target::Var(2), Two(Var(2), Add, Number(base))),
        Assign(Target::Var(2), Two(Var(2), Sub, Number(2))),
        Assign(Target::Var(3), Two(Var(2), Add, Number(1))),
        Write(Var(2), One(Number(id))),
        Read(Target::Var(4), Var(3)),
        If(One(Var(4)), right, down),
        Assign(Target::Var(0), Two(Var(0), Add, Number(1))),
    ]?)
}

/// Stops at a vertex, or from it to the one below.
fn down(alloc: Global, id: u32) -> Result<Vec<Stmt>, OutOfMemory>
    ensures { IfOk result (λ block. block_of block.items ≡ grid_down id) }
{
    let stop = vec![in alloc; Emit(One(Var(1))), Halt]?;
    Ok(vec![in alloc;
        Write(Var(3), One(Number(1))),
        Read(Target::Var(4), Var(2)),
        If(Two(Var(4), Equal, Number(id)), stop, Vec::new(alloc)),
        Assign(Target::Var(1), Two(Var(1), Add, Var(0))),
        Assign(Target::Var(1), Two(Var(1), Add, Number(1))),
    ]?)
}

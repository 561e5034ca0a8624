//! The expansion of a tree.

ghost use Rattle.std.specs.Prelude.{◌≡◌, ◌≤◌, IfOk};
ghost use Rattle.regmodel.specs.declared.limits.TheConstants.{MOST_LEVELS};
ghost use Rattle.regmodel.specs.Prelude.{block_of};
ghost use Rattle.uses.specs.Expansions.{tree_body, tree_descend, tree_visit, tree_down, tree_collect, tree_look, tree_marked};

use crate::kinds::vertices;
use regmodel::Expr::{One, Two};
use regmodel::Op::{Add, Equal, Mul, Sub};
use regmodel::Operand::{CellOf, Number, Var};
use regmodel::Stmt::{Assign, Emit, Halt, If, Read, Repeat, Write};
use regmodel::{OutOfMemory, Stmt, Target};
use std::alloc::Global;

/// The statements of a tree whose registers begin at `base`, for the process with this
/// number and this value.
pub fn tree_block(
    alloc: Global,
    base: u32,
    depth: u32,
    id: u32,
    value: u32,
) -> Result<Vec<Stmt>, OutOfMemory>
    requires { depth ≤ MOST_LEVELS }
    ensures { IfOk result (λ block. block_of block.items ≡ tree_body base depth id value) }
{
    let descend = descend(alloc, base, id)?;
    let leave = vec![in alloc; Halt]?;
    let collect = collect(alloc, base)?;
    Ok(vec![in alloc;
        Assign(Target::Var(0), One(Number(1))),
        Assign(Target::Var(1), One(Number(0))),
        Repeat(One(Number(depth)), descend),
        If(Two(Var(1), Equal, Number(0)), leave, Vec::new(alloc)),
        Assign(Target::Var(2), Two(Var(2), Add, Number(3))),
        Write(Var(2), One(Number(value))),
        Assign(Target::Cell(1), One(Number(1))),
        Assign(Target::Var(0), One(Number(0))),
        Repeat(One(Number(vertices(depth))), collect),
    ]?)
}

/// The next vertex on the way down, unless the process stopped.
fn descend(alloc: Global, base: u32, id: u32) -> Result<Vec<Stmt>, OutOfMemory>
    ensures { IfOk result (λ block. block_of block.items ≡ tree_descend base id) }
{
    let visit = visit(alloc, base, id)?;
    Ok(vec![in alloc; If(Two(Var(1), Equal, Number(0)), visit, Vec::new(alloc))]?)
}

/// Marks a vertex, then its splitter; to its right child where the door is closed.
fn visit(alloc: Global, base: u32, id: u32) -> Result<Vec<Stmt>, OutOfMemory>
    ensures { IfOk result (λ block. block_of block.items ≡ tree_visit base id) }
{
    let down = down(alloc, id)?;
    let right = vec![in alloc;
        Assign(Target::Var(0), Two(Var(0), Mul, Number(2))),
        Assign(Target::Var(0), Two(Var(0), Add, Number(1))),
    ]?;
    Ok(vec![in alloc;
        Assign(Target::Var(2), Two(Var(0), Sub, Number(1))),
        Assign(Target::Var(2), Two(Var(2), Mul, Number(4))),
        Assign(Target::Var(2), Two(Var(2), Add, Number(base))),
        Assign(Target::Var(3), Two(Var(2), Add, Number(1))),
        Assign(Target::Var(4), Two(Var(2), Add, Number(2))),
        Write(Var(2), One(Number(1))),
        Write(Var(3), One(Number(id))),
        Read(Target::Var(5), Var(4)),
        If(One(Var(5)), right, down),
    ]?)
}

/// Stops at a vertex, or from it to its left child.
fn down(alloc: Global, id: u32) -> Result<Vec<Stmt>, OutOfMemory>
    ensures { IfOk result (λ block. block_of block.items ≡ tree_down id) }
{
    let stop = vec![in alloc; Assign(Target::Var(1), One(Number(1)))]?;
    let left = vec![in alloc; Assign(Target::Var(0), Two(Var(0), Mul, Number(2)))]?;
    Ok(vec![in alloc;
        Write(Var(4), One(Number(1))),
        Read(Target::Var(5), Var(3)),
        If(Two(Var(5), Equal, Number(id)), stop, left),
    ]?)
}

/// The next vertex of the collect.
fn collect(alloc: Global, base: u32) -> Result<Vec<Stmt>, OutOfMemory>
    ensures { IfOk result (λ block. block_of block.items ≡ tree_collect base) }
{
    let look = look(alloc, base)?;
    Ok(vec![in alloc;
        Assign(Target::Var(0), Two(Var(0), Add, Number(1))),
        If(One(CellOf(0)), look, Vec::new(alloc)),
    ]?)
}

/// Reads the mark of a vertex whose parent was seen marked.
fn look(alloc: Global, base: u32) -> Result<Vec<Stmt>, OutOfMemory>
    ensures { IfOk result (λ block. block_of block.items ≡ tree_look base) }
{
    let marked = marked(alloc)?;
    Ok(vec![in alloc;
        Assign(Target::Var(2), Two(Var(0), Mul, Number(4))),
        Assign(Target::Var(2), Two(Var(2), Add, Number(base))),
        Assign(Target::Var(2), Two(Var(2), Sub, Number(4))),
        Read(Target::Var(3), Var(2)),
        If(One(Var(3)), marked, Vec::new(alloc)),
    ]?)
}

/// Emits the value of a marked vertex, and tells its children that it is marked.
fn marked(alloc: Global) -> Result<Vec<Stmt>, OutOfMemory>
    ensures { IfOk result (λ block. block_of block.items ≡ tree_marked) }
{
    let emit = vec![in alloc; Emit(One(Var(3)))]?;
    Ok(vec![in alloc;
        Assign(Target::Var(2), Two(Var(2), Add, Number(3))),
        Read(Target::Var(3), Var(2)),
        If(One(Var(3)), emit, Vec::new(alloc)),
        Assign(Target::Var(3), Two(Var(0), Mul, Number(2))),
        Assign(Target::CellOf(3), One(Number(1))),
        Assign(Target::Var(3), Two(Var(3), Add, Number(1))),
        Assign(Target::CellOf(3), One(Number(1))),
    ]?)
}

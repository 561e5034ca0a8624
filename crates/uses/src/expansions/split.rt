//! The expansion of a splitter.

ghost use Rattle.std.specs.Prelude.{◌≡◌, ◌≤◌, IfOk};
ghost use Rattle.regmodel.specs.declared.limits.TheConstants.{MOST_REGISTERS};
ghost use Rattle.regmodel.specs.Prelude.{block_of};
ghost use Rattle.uses.specs.Expansions.{split_right, split_body};

use regmodel::Expr::{One, Two};
use regmodel::Op::Equal;
use regmodel::Operand::{Number, Var};
use regmodel::Stmt::{Emit, Halt, If, Read, Write};
use regmodel::{OutOfMemory, Stmt, Target};
use std::alloc::Global;

/// The statements of a splitter whose registers are `base` and the next, for the
/// process with this number.
pub fn split_block(alloc: Global, base: u32, id: u32) -> Result<Vec<Stmt>, OutOfMemory>
    requires { base ≤ MOST_REGISTERS }
    ensures { IfOk result (λ block. block_of block.items ≡ split_body base id) }
{
    let door = base + 1;
    let closed = right(alloc)?;
    let stop = vec![in alloc; Emit(One(Number(1)))]?;
    let down = vec![in alloc; Emit(One(Number(3)))]?;
    Ok(vec![in alloc;
        Write(Number(base), One(Number(id))),
        Read(Target::Var(0), Number(door)),
        If(One(Var(0)), closed, Vec::new(alloc)),
        Write(Number(door), One(Number(1))),
        Read(Target::Var(0), Number(base)),
        If(Two(Var(0), Equal, Number(id)), stop, down),
    ]?)
}

/// Where the door is closed.
fn right(alloc: Global) -> Result<Vec<Stmt>, OutOfMemory>
    ensures { IfOk result (λ block. block_of block.items ≡ split_right) }
{
    Ok(vec![in alloc; Emit(One(Number(2))), Halt]?)
}

//! The expansion of a renaming that scans its slots at once.

ghost use Rattle.std.specs.Prelude.{◌≡◌, IfOk};
ghost use Rattle.regmodel.specs.Prelude.{block_of};
ghost use Rattle.uses.specs.Expansions.{names_body, names_slot};

use super::name::{Slots, looked, rank, rounds};
use regmodel::Expr::{One, Two};
use regmodel::Op::{Add, Equal, Less};
use regmodel::Operand::{CellOf, Number, Var};
use regmodel::Stmt::{Assign, If, Scan, Write};
use regmodel::{OutOfMemory, Stmt, Target};
use std::alloc::Global;

/// The statements of a renaming with these slots, which scans them.
pub fn names_block(alloc: Global, slots: Slots) -> Result<Vec<Stmt>, OutOfMemory>
    ensures { IfOk result
        (λ block. block_of block.items ≡ names_body slots.base slots.count slots.own) }
{
    let look = look(alloc, slots.own)?;
    let mut round = vec![in alloc;
        Write(Number(slots.base + slots.own), One(Var(0))),
        Scan(0, slots.base, slots.count),
        Assign(Target::Cell(slots.own as u8), One(Number(0))),
    ]?;
    round.append(&mut looked(alloc, slots, look)?)?;
    rounds(alloc, round)
}

/// One slot: a clash where it held the proposal, a higher rank where it is smaller
/// and held something.
fn look(alloc: Global, slot: u32) -> Result<Vec<Stmt>, OutOfMemory>
    ensures { IfOk result (λ block. block_of block.items ≡ names_slot slot) }
{
    let clash = vec![in alloc; Assign(Target::Var(1), One(Number(1)))]?;
    let rank = rank(alloc)?;
    Ok(vec![in alloc;
        If(Two(CellOf(3), Equal, Var(0)), clash, Vec::new(alloc)),
        If(Two(Var(3), Less, Number(slot)), rank, Vec::new(alloc)),
        Assign(Target::Var(3), Two(Var(3), Add, Number(1))),
    ]?)
}

//! The expansion of a renaming.

ghost use Rattle.std.specs.Prelude.{◌≡◌, ◌≤◌, ◌<◌, IfOk};
ghost use Rattle.regmodel.specs.Prelude.{block_of};
ghost use Rattle.regmodel.specs.declared.limits.TheConstants.{MOST_SLOTS, MOST_REGISTERS};
ghost use Rattle.uses.specs.Expansions.{name_body, name_rounds, name_looked, name_slot, name_other, name_rank, name_turn, name_next, name_held};

use regmodel::Expr::{One, Two};
use regmodel::Op::{Add, Equal, Less, Sub};
use regmodel::Operand::{CellOf, Number, Var};
use regmodel::Stmt::{Assign, Emit, Halt, If, Read, Repeat, Write};
use regmodel::limits::MOST_TURNS;
use regmodel::{OutOfMemory, Stmt, Target};
use std::alloc::Global;

/// The slots of a renaming, a register each for the proposal of its process.
#[derive(Clone, Copy)]
pub struct Slots {
    /// The register of the first one.
    pub base: u32,
    /// How many there are.
    pub count: u32,
    /// The one of this process.
    pub own: u32,
    ghost low: { base ≤ MOST_REGISTERS },
    ghost few: { count ≤ MOST_SLOTS },
    ghost own_in: { own < count },
}

/// The statements of a renaming with these slots.
pub fn name_block(alloc: Global, slots: Slots) -> Result<Vec<Stmt>, OutOfMemory>
    ensures { IfOk result
        (λ block. block_of block.items ≡ name_body slots.base slots.count slots.own) }
{
    let look = visit(alloc, slots.base, slots.own)?;
    let mut round = vec![in alloc; Write(Number(slots.base + slots.own), One(Var(0)))]?;
    round.append(&mut looked(alloc, slots, look)?)?;
    rounds(alloc, round)
}

/// As many rounds as there may be, from the first proposal on.
pub(super) fn rounds(alloc: Global, round: Vec<Stmt>) -> Result<Vec<Stmt>, OutOfMemory>
    ensures { IfOk result (λ block. block_of block.items ≡ name_rounds (block_of round.items)) }
{
    Ok(vec![in alloc;
        Assign(Target::Var(0), One(Number(1))),
        Repeat(One(Number(MOST_TURNS)), round),
    ]?)
}

/// Looks at each slot so, and keeps the proposal or makes the next one.
pub(super) fn looked(alloc: Global, slots: Slots, look: Vec<Stmt>) -> Result<Vec<Stmt>, OutOfMemory>
    ensures { IfOk result
        (λ block. block_of block.items ≡ name_looked slots.count (block_of look.items)) }
{
    let keep = vec![in alloc; Emit(One(Var(0))), Halt]?;
    let turn = turn(alloc, slots.count)?;
    Ok(vec![in alloc;
        Assign(Target::Var(1), One(Number(0))),
        Assign(Target::Var(2), One(Number(1))),
        Assign(Target::Var(3), One(Number(0))),
        Repeat(One(Number(slots.count)), look),
        If(Two(Var(1), Equal, Number(0)), keep, Vec::new(alloc)),
        Assign(Target::Var(4), One(Number(0))),
        Repeat(One(Number(2 * slots.count - 1)), turn),
        Assign(Target::Var(0), One(Var(4))),
    ]?)
}

/// One slot; the own one counts as empty.
fn visit(alloc: Global, base: u32, slot: u32) -> Result<Vec<Stmt>, OutOfMemory>
    ensures { IfOk result (λ block. block_of block.items ≡ name_slot base slot) }
{
    let own = vec![in alloc; Assign(Target::CellOf(3), One(Number(0)))]?;
    let other = other(alloc, base, slot)?;
    Ok(vec![in alloc;
        If(Two(Var(3), Equal, Number(slot)), own, other),
        Assign(Target::Var(3), Two(Var(3), Add, Number(1))),
    ]?)
}

/// Reads another slot: a clash where it holds the proposal, a higher rank where it is smaller
/// and holds something.
fn other(alloc: Global, base: u32, slot: u32) -> Result<Vec<Stmt>, OutOfMemory>
    ensures { IfOk result (λ block. block_of block.items ≡ name_other base slot) }
{
    let clash = vec![in alloc; Assign(Target::Var(1), One(Number(1)))]?;
    let rank = rank(alloc)?;
    Ok(vec![in alloc;
        Assign(Target::Var(4), Two(Var(3), Add, Number(base))),
        Read(Target::CellOf(3), Var(4)),
        If(Two(CellOf(3), Equal, Var(0)), clash, Vec::new(alloc)),
        If(Two(Var(3), Less, Number(slot)), rank, Vec::new(alloc)),
    ]?)
}

/// A higher rank where a smaller slot holds something.
pub(super) fn rank(alloc: Global) -> Result<Vec<Stmt>, OutOfMemory>
    ensures { IfOk result (λ block. block_of block.items ≡ name_rank) }
{
    let higher = vec![in alloc; Assign(Target::Var(2), Two(Var(2), Add, Number(1)))]?;
    Ok(vec![in alloc; If(One(CellOf(3)), higher, Vec::new(alloc))]?)
}

/// The next number, until the rank is used up.
fn turn(alloc: Global, slots: u32) -> Result<Vec<Stmt>, OutOfMemory>
    ensures { IfOk result (λ block. block_of block.items ≡ name_turn slots) }
{
    let next = next(alloc, slots)?;
    Ok(vec![in alloc; If(One(Var(2)), next, Vec::new(alloc))]?)
}

/// The next number; the rank falls where no other slot holds it.
fn next(alloc: Global, slots: u32) -> Result<Vec<Stmt>, OutOfMemory>
    ensures { IfOk result (λ block. block_of block.items ≡ name_next slots) }
{
    let held = held(alloc)?;
    let lower = vec![in alloc; Assign(Target::Var(2), Two(Var(2), Sub, Number(1)))]?;
    Ok(vec![in alloc;
        Assign(Target::Var(4), Two(Var(4), Add, Number(1))),
        Assign(Target::Var(5), One(Number(0))),
        Assign(Target::Var(3), One(Number(0))),
        Repeat(One(Number(slots)), held),
        If(Two(Var(5), Equal, Number(0)), lower, Vec::new(alloc)),
    ]?)
}

/// Whether a slot holds the number.
fn held(alloc: Global) -> Result<Vec<Stmt>, OutOfMemory>
    ensures { IfOk result (λ block. block_of block.items ≡ name_held) }
{
    let found = vec![in alloc; Assign(Target::Var(5), One(Number(1)))]?;
    Ok(vec![in alloc;
        If(Two(CellOf(3), Equal, Var(4)), found, Vec::new(alloc)),
        Assign(Target::Var(3), Two(Var(3), Add, Number(1))),
    ]?)
}

//! Whether statements are within the limits of a program.

ghost use Rattle.std.specs.Prelude.{◌≡◌, ◌+◌, ◌<◌, ◌≤◌, ◌↔◌, IsTrue, MatchOption};
ghost use Rattle.regmodel.specs.Program.{Stop};
ghost use Rattle.regmodel.specs.Blocks.{block_of, with_stmt};
ghost use Rattle.regmodel.specs.Limits as spec;

use crate::limits::CELLS;
use crate::statements::Stmt;

/// Whether each target, operand and scan of a block is within its limit, where there are so many
/// registers.
#[cycle(fits)]
pub fn operands_fit(registers: u32, block: &[Stmt]) -> bool
    ensures { result ≡ spec.operands_fit registers (block_of block.now) }
{
    for stmt in block {
        if !stmt_fits(registers, stmt) {
            return false;
        }
    }
    true
}

/// The same of one statement.
#[cycle(fits)]
fn stmt_fits(registers: u32, stmt: &Stmt) -> bool
    ensures { result ≡ spec.operands_fit registers (with_stmt stmt.now Stop) }
{
    match stmt {
        Stmt::Assign(target, expr) => target.fits() && expr.fits(),
        Stmt::Read(target, operand) => target.fits() && operand.fits(),
        Stmt::Write(operand, expr) => operand.fits() && expr.fits(),
        Stmt::If(expr, first, second) => {
            if !expr.fits() {
                return false;
            }
            if !operands_fit(registers, first.as_slice()) {
                return false;
            }
            operands_fit(registers, second.as_slice())
        }
        Stmt::Repeat(expr, body) => {
            if !expr.fits() {
                return false;
            }
            operands_fit(registers, body.as_slice())
        }
        Stmt::Scan(cell, first, count) => scan_fits(registers, *cell, *first, *count),
        Stmt::Emit(expr) => expr.fits(),
        Stmt::Halt => true,
    }
}

/// Whether a scan reads at least one register, and only such as are there, into cells that are
/// there.
pub fn scan_fits(registers: u32, cell: u32, first: u32, count: u32) -> bool
    ensures { result ≡ spec.scan_fits registers cell first count }
{
    count > 0
        && u64::from(cell) + u64::from(count) <= u64::from(CELLS)
        && u64::from(first) + u64::from(count) <= u64::from(registers)
}

/// Whether `if` and `repeat` are nested at most so deep in a block, and `repeat` alone at most so
/// deep.
#[cycle(nests)]
pub fn nests_within(block: &[Stmt], blocks: u32, repeats: u32) -> bool
    ensures { IsTrue result
        ↔
        ((spec.open_blocks (block_of block.now) ≤ blocks)
        × (spec.open_repeats (block_of block.now) ≤ repeats)) }
{
    for stmt in block {
        if !stmt_nests_within(stmt, blocks, repeats) {
            return false;
        }
    }
    true
}

/// The same of one statement.
#[cycle(nests)]
fn stmt_nests_within(stmt: &Stmt, blocks: u32, repeats: u32) -> bool
    ensures { IsTrue result
        ↔
        ((spec.open_blocks (with_stmt stmt.now Stop) ≤ blocks)
        × (spec.open_repeats (with_stmt stmt.now Stop) ≤ repeats)) }
{
    match stmt {
        Stmt::If(_, first, second) => {
            if blocks == 0 {
                return false;
            }
            if !nests_within(first.as_slice(), blocks - 1, repeats) {
                return false;
            }
            nests_within(second.as_slice(), blocks - 1, repeats)
        }
        Stmt::Repeat(_, body) => {
            if blocks == 0 || repeats == 0 {
                return false;
            }
            nests_within(body.as_slice(), blocks - 1, repeats - 1)
        }
        Stmt::Assign(_, _)
        | Stmt::Read(_, _)
        | Stmt::Write(_, _)
        | Stmt::Scan(_, _, _)
        | Stmt::Emit(_)
        | Stmt::Halt => true,
    }
}

/// What is left of a number after the statements of a block are taken from it, those of inner
/// blocks counted. None where they are more.
#[cycle(counts)]
pub fn room_after(block: &[Stmt], room: u32) -> Option<u32>
    ensures { MatchOption result (room < spec.statements (block_of block.now))
        (λ left. left + spec.statements (block_of block.now) ≡ room) }
{
    let mut left = room;
    for stmt in block {
        match room_after_stmt(stmt, left) {
            Some(fewer) => left = fewer,
            None => return None,
        }
    }
    Some(left)
}

/// The same of one statement.
#[cycle(counts)]
fn room_after_stmt(stmt: &Stmt, room: u32) -> Option<u32>
    ensures { MatchOption result (room < spec.statements (with_stmt stmt.now Stop))
        (λ left. left + spec.statements (with_stmt stmt.now Stop) ≡ room) }
{
    if room == 0 {
        return None;
    }
    let inner = room - 1;
    match stmt {
        Stmt::If(_, first, second) => match room_after(first.as_slice(), inner) {
            Some(left) => room_after(second.as_slice(), left),
            None => None,
        },
        Stmt::Repeat(_, body) => room_after(body.as_slice(), inner),
        Stmt::Assign(_, _)
        | Stmt::Read(_, _)
        | Stmt::Write(_, _)
        | Stmt::Scan(_, _, _)
        | Stmt::Emit(_)
        | Stmt::Halt => Some(inner),
    }
}

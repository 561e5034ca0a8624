//! Runs statements up to the next access or the end, and keeps the place where they stop.

ghost use Rattle.std.specs.Prelude.{◌≡◌, ℕ, ◌+◌, ◌≤◌, IsTrue, List, Ok, drop};
ghost use Rattle.regmodel.specs.declared.statements.Expr.{Expr};
ghost use Rattle.regmodel.specs.declared.limits.TheConstants.{MOST_REGISTERS};
ghost use Rattle.regmodel.specs.Prelude.{Block, with_stmt, block_of, exec, Env};
ghost use Rattle.regmodel.specs.Program.{Stop, Do, Assign, Read, Write, Scan, Repeat, Emit};
ghost use Rattle.regmodel.specs.Values.{operand_value, and_then, below_or_fault};
ghost use Rattle.regmodel.specs.Limits.{scan_fits};
ghost use Rattle.machine.specs.declared.run.Frame.{Frame};
ghost use Rattle.machine.specs.declared.run.StmtPart.TheVariants.{At};
ghost use Rattle.machine.specs.declared.run.StmtExit.TheVariants.{Wants};
ghost use Rattle.machine.specs.Stores.{env_of};
ghost use Rattle.machine.specs.Paths.{of_arm, arm_at};
ghost use Rattle.machine.specs.Exits.{exit_through, times_then};
ghost use Rattle.machine.specs.Runs.{CanRun, ComesTo, StmtRuns, StmtRunsTo, BlockRunsTo};

use crate::values::{Destination, Store};
use regmodel::faults::{NO_PLACE, TOO_MANY_NUMBERS, TOO_MANY_TURNS};
use regmodel::limits::MOST_TURNS;
use regmodel::{Access, Expr, Operand, Stmt, Target};

/// One of the two blocks of an `if`.
#[derive(Clone, Copy)]
pub enum Arm {
    First,
    Second,
}

/// The part of a statement in which a program stands. What a statement found before its access is
/// kept.
#[derive(Clone, Copy)]
pub enum StmtPart {
    /// At an access, whose reply is stored there.
    At(Access, Destination),
    /// In an arm of an `if`.
    Within(Arm),
    /// In a turn of a `repeat`, with so many turns left after it.
    Turn(u32),
}

/// The place in a block at which a program stands: a statement's number and its part.
#[derive(Clone, Copy)]
pub struct Frame {
    pub at: usize,
    pub part: StmtPart,
}

/// How many registers there are, and how deep in the program a block or a statement lies.
#[derive(Clone, Copy)]
pub struct Level {
    pub registers: u32,
    pub depth: usize,
}

/// How a statement was left without a fault: past it, at an access within its part, or at the end
/// of the program.
#[derive(Clone, Copy)]
pub enum StmtExit {
    GoesOn,
    Wants(Access, StmtPart),
    Halts,
}

/// How a block was left without a fault: past it, at an access, or at the end of the program.
#[derive(Clone, Copy)]
pub enum BlockExit {
    GoesOn,
    Wants(Access),
    Halts,
}

/// Evaluates the expression, then stores its value.
pub fn assign(target: Target, value: &Expr, store: &mut Store) -> Result<StmtExit, u8>
    ensures { (n : ℕ) (fs : List Frame)
        → StmtRuns result n fs (Do (Assign target value.now)) (env_of store.old)
        (env_of store.new) }
{
    let number = store.expr(value)?;
    let place = store.place(target)?;
    store.put(place, number);
    Ok(StmtExit::GoesOn)
}

/// The number of a register; a fault where there is no such register.
fn register(operand: Operand, registers: u32, store: &Store) -> Result<u8, u8>
    requires { registers ≤ MOST_REGISTERS }
    ensures { result
        ≡ and_then (operand_value (env_of store.now) operand) (below_or_fault registers) }
{
    let number = store.operand(operand)?;
    if number < registers {
        Ok(number as u8)
    } else {
        Err(NO_PLACE)
    }
}

/// Wants this access, whose reply is stored there.
fn wants(access: Access, destination: Destination) -> StmtExit
    ensures { result ≡ Wants access (At access destination) }
{
    StmtExit::Wants(access, StmtPart::At(access, destination))
}

/// A read up to its access: first the register, then the place where the reply is to be stored.
pub fn read(to: Target, from: Operand, registers: u32, store: &Store) -> Result<StmtExit, u8>
    requires { registers ≤ MOST_REGISTERS }
    ensures { ComesTo result registers (Read to from) (env_of store.now) }
{
    let register = register(from, registers, store)?;
    let place = store.place(to)?;
    Ok(wants(Access::Read(register), Destination::InPlace(place)))
}

/// A write up to its access: first the register, then the value.
pub fn write(to: Operand, value: &Expr, registers: u32, store: &Store) -> Result<StmtExit, u8>
    requires { registers ≤ MOST_REGISTERS }
    ensures { ComesTo result registers (Write to value.now) (env_of store.now) }
{
    let register = register(to, registers, store)?;
    let number = store.expr(value)?;
    Ok(wants(Access::Write(register, number), Destination::Nowhere))
}

/// A scan up to its access.
pub fn scan(cell: u32, first: u32, count: u32, registers: u32) -> StmtExit
    requires small { registers ≤ MOST_REGISTERS }
    requires fits { IsTrue (scan_fits registers cell first count) }
    ensures { (env : Env) → ComesTo (Ok result) registers (Scan cell first count) env }
{
    let access = Access::Scan(first as u8, count as u8);
    wants(access, Destination::InCells(cell as u8))
}

/// Appends a number to those of the process; a fault where there are as many as may be.
pub fn emit(value: &Expr, store: &mut Store) -> Result<StmtExit, u8>
    ensures { (n : ℕ) (fs : List Frame)
        → StmtRuns result n fs (Do (Emit value.now)) (env_of store.old) (env_of store.new) }
{
    let number = store.expr(value)?;
    if store.emitted.is_full() {
        return Err(TOO_MANY_NUMBERS);
    }
    store.emitted.push(number);
    Ok(StmtExit::GoesOn)
}

/// The arm that is taken at this value.
fn arm_at(value: u32) -> Arm
    ensures { result ≡ arm_at value }
{
    if value == 0 { Arm::Second } else { Arm::First }
}

/// The block of an arm.
pub fn block_of_arm<'a>(arm: Arm, first: &'a [Stmt], second: &'a [Stmt]) -> &'a [Stmt]
    ensures { result.now ≡ of_arm arm first.now second.now }
{
    match arm {
        Arm::First => first,
        Arm::Second => second,
    }
}

/// How a statement is left whose part was left so.
pub fn stmt_exit(exit: Result<BlockExit, u8>, part: StmtPart) -> Result<StmtExit, u8>
    ensures { result ≡ exit_through exit part }
{
    match exit? {
        BlockExit::GoesOn => Ok(StmtExit::GoesOn),
        BlockExit::Wants(access) => Ok(StmtExit::Wants(access, part)),
        BlockExit::Halts => Ok(StmtExit::Halts),
    }
}

/// Runs one statement; a fault at a count above the most turns. Where it stops, it tells its part,
/// and the path further down lies in the frames above the depth.
#[cycle(run)]
fn run_stmt(
    stmt: &Stmt,
    level: Level,
    store: &mut Store,
    frames: &mut [Frame],
) -> Result<StmtExit, u8>
    requires { CanRun level.registers level.depth (with_stmt stmt.now Stop) frames.old }
    ensures { StmtRuns result level.registers (drop (level.depth + 1) frames.new)
        (with_stmt stmt.now) (env_of store.old) (env_of store.new) }
{
    let inner = Level {
        depth: level.depth + 1,
        ..level
    };
    match stmt {
        Stmt::Assign(target, value) => assign(*target, value, store),
        Stmt::Read(to, from) => read(*to, *from, level.registers, store),
        Stmt::Write(to, value) => write(*to, value, level.registers, store),
        Stmt::Scan(cell, first, count) => Ok(scan(*cell, *first, *count, level.registers)),
        Stmt::If(test, first, second) => {
            let arm = arm_at(store.expr(test)?);
            let block = block_of_arm(arm, first.as_slice(), second.as_slice());
            let exit = run_block(block, 0, inner, store, frames);
            stmt_exit(exit, StmtPart::Within(arm))
        }
        Stmt::Repeat(count, body) => {
            let turns = store.expr(count)?;
            if turns > MOST_TURNS {
                return Err(TOO_MANY_TURNS);
            }
            run_turns(body.as_slice(), turns, level, store, frames)
        }
        Stmt::Emit(value) => emit(value, store),
        Stmt::Halt => Ok(StmtExit::Halts),
    }
}

/// Runs the body of a `repeat` so many times. Where it stops, the turn tells how many are left.
#[cycle(run)]
pub fn run_turns(
    body: &[Stmt],
    turns: u32,
    level: Level,
    store: &mut Store,
    frames: &mut [Frame],
) -> Result<StmtExit, u8>
    requires { CanRun level.registers (level.depth + 1) (block_of body.now) frames.old }
    ensures { (e : Expr) (rest : Block)
        → StmtRunsTo
        (times_then turns level.registers (block_of body.now) rest (env_of store.old)) result
        level.registers (drop (level.depth + 1) frames.new) (Repeat e (block_of body.now) rest) rest
        (env_of store.new) }
{
    let inner = Level {
        depth: level.depth + 1,
        ..level
    };
    let mut left = turns;
    while left > 0 {
        left -= 1;
        match run_block(body, 0, inner, store, frames)? {
            BlockExit::GoesOn => {}
            BlockExit::Wants(access) => return Ok(StmtExit::Wants(access, StmtPart::Turn(left))),
            BlockExit::Halts => return Ok(StmtExit::Halts),
        }
    }
    Ok(StmtExit::GoesOn)
}

/// Runs a block from the statement with this number on. Where it stops, the path to that place lies
/// in the frames from the depth on.
#[cycle(run)]
pub fn run_block(
    block: &[Stmt],
    start: usize,
    level: Level,
    store: &mut Store,
    frames: &mut [Frame],
) -> Result<BlockExit, u8>
    requires { CanRun level.registers level.depth (block_of block.now) frames.old }
    ensures { BlockRunsTo
        (exec (block_of (drop start block.now)) level.registers (env_of store.old)) result
        level.registers (drop level.depth frames.new) (block_of block.now) (env_of store.new) }
{
    for at in start..block.len() {
        match run_stmt(&block[at], level, store, frames)? {
            StmtExit::GoesOn => {}
            StmtExit::Wants(access, part) => {
                frames[level.depth] = Frame { at, part };
                return Ok(BlockExit::Wants(access));
            }
            StmtExit::Halts => return Ok(BlockExit::Halts),
        }
    }
    Ok(BlockExit::GoesOn)
}

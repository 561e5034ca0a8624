//! At which statement a program stops.

ghost use Rattle.std.specs.Prelude.{◌≡◌, ℕ, map};
ghost use Rattle.regmodel.specs.Prelude.{program_of, block_of, with_stmt};
ghost use Rattle.regmodel.specs.Kept.{values_in};
ghost use Rattle.regmodel.specs.Program.{Simple, Stop, Do, If, Repeat};
ghost use Rattle.machine.specs.Stops.{stopped_at, stops_at};
ghost use Rattle.machine.specs.Stores.{env_of};
ghost use Rattle.machine.specs.Walks.{CanWalk, AccessWalks, BlockWalks, ExitWalks, StopsSo};

use crate::culprits::{Culprit, culprit_of};
use crate::numbering::{behind, behind_stmt};
use crate::run::{StmtExit, StmtPart, assign, emit, read, scan, write};
use crate::states::empty_store;
use crate::values::Store;
use regmodel::limits::MOST_TURNS;
use regmodel::{Expr, Prog, Reply, Stmt};

/// Where a program stops.
#[derive(Clone, Copy, PartialEq, Eq, Debug)]
pub struct Stopped {
    /// The number of the statement, counted from 0.
    pub at: usize,
    /// What is out of range there, where it is at fault for that.
    pub culprit: Option<Culprit>,
}

/// A program on its way through its statements: its values, and the replies that are left.
#[derive(Drop)]
struct Walk<'a> {
    store: Store,
    replies: &'a [Reply],
}

/// Where a program stops on these replies: at the statement that wants an access and finds no reply
/// left, halts or is at fault. None where the program goes on past its last statement.
///
/// Statements are numbered from 0 as the lines of a text stand: an `if` or a `repeat`, then its
/// blocks, then what follows. Any replies may come: one of no number counts as 0 where it is read,
/// and those that are left where the program stops tell nothing.
pub fn stops_at(prog: &Prog, replies: &[Reply]) -> Option<Stopped>
    ensures { result ≡ stops_at (program_of prog.now) (map values_in replies.now) }
{
    let mut walk = Walk {
        store: empty_store(),
        replies,
    };
    past_block(prog.body(), 0, prog.registers(), &mut walk).err()
}

/// So a program stops at a statement with this number that is about to run, if it does.
fn stopped_at(stmt: &Stmt, number: usize, registers: u32, store: &Store) -> Stopped
    ensures { result
        ≡ stopped_at (with_stmt stmt.now Stop) registers number (env_of store.now) }
{
    Stopped {
        at: number,
        culprit: culprit_of(stmt, registers, store),
    }
}

/// Goes on past a block whose first statement has this number; an error is where it stops.
#[cycle(walk)]
fn past_block(block: &[Stmt], number: usize, registers: u32, walk: &mut Walk) -> Result<(), Stopped>
    requires { CanWalk registers number (block_of block.now) }
    ensures { BlockWalks result registers number (block_of block.now) walk.old walk.new }
{
    let mut at = number;
    for stmt in block {
        past_stmt(stmt, at, registers, walk)?;
        at = behind_stmt(stmt, at);
    }
    Ok(())
}

/// Goes on past a statement with this number.
#[cycle(walk)]
fn past_stmt(stmt: &Stmt, number: usize, registers: u32, walk: &mut Walk) -> Result<(), Stopped>
    requires { CanWalk registers number (with_stmt stmt.now Stop) }
    ensures { BlockWalks result registers number (with_stmt stmt.now Stop) walk.old walk.new }
{
    let stopped = stopped_at(stmt, number, registers, &walk.store);
    match stmt {
        Stmt::Assign(target, value) => {
            let exit = assign(*target, value, &mut walk.store);
            past_exit(exit, stopped, walk)
        }
        Stmt::Read(to, from) => {
            let exit = read(*to, *from, registers, &walk.store);
            past_exit(exit, stopped, walk)
        }
        Stmt::Write(to, value) => {
            let exit = write(*to, value, registers, &walk.store);
            past_exit(exit, stopped, walk)
        }
        Stmt::Scan(cell, first, count) => {
            let exit = scan(*cell, *first, *count, registers);
            past_exit(Ok(exit), stopped, walk)
        }
        Stmt::If(test, first, second) => {
            let (first, second) = (first.as_slice(), second.as_slice());
            past_if(test, first, second, stopped, registers, walk)
        }
        Stmt::Repeat(count, body) => past_repeat(count, body.as_slice(), stopped, registers, walk),
        Stmt::Emit(value) => {
            let exit = emit(value, &mut walk.store);
            past_exit(exit, stopped, walk)
        }
        Stmt::Halt => Err(stopped),
    }
}

/// Goes on past an `if`, or stops there so.
#[cycle(walk)]
fn past_if(
    test: &Expr,
    first: &[Stmt],
    second: &[Stmt],
    stopped: Stopped,
    registers: u32,
    walk: &mut Walk,
) -> Result<(), Stopped>
    requires few { CanWalk registers stopped.at
        (If test.now (block_of first.now) (block_of second.now) Stop) }
    requires at { StopsSo stopped registers
        (If test.now (block_of first.now) (block_of second.now) Stop) walk.old }
    ensures { BlockWalks result registers stopped.at
        (If test.now (block_of first.now) (block_of second.now) Stop) walk.old walk.new }
{
    let Ok(value) = walk.store.expr(test) else {
        return Err(stopped);
    };
    let number = stopped.at + 1;
    if value == 0 {
        past_block(second, behind(first, number), registers, walk)
    } else {
        past_block(first, number, registers, walk)
    }
}

/// Goes on past a `repeat`, or stops there so.
#[cycle(walk)]
fn past_repeat(
    count: &Expr,
    body: &[Stmt],
    stopped: Stopped,
    registers: u32,
    walk: &mut Walk,
) -> Result<(), Stopped>
    requires few { CanWalk registers stopped.at (Repeat count.now (block_of body.now) Stop) }
    requires at { StopsSo stopped registers (Repeat count.now (block_of body.now) Stop) walk.old }
    ensures { BlockWalks result registers stopped.at (Repeat count.now (block_of body.now) Stop)
        walk.old walk.new }
{
    let Ok(turns) = walk.store.expr(count) else {
        return Err(stopped);
    };
    if turns > MOST_TURNS {
        return Err(stopped);
    }
    for _ in 0..turns {
        past_block(body, stopped.at + 1, registers, walk)?;
    }
    Ok(())
}

/// Goes on past a statement that was left so, or stops there so.
fn past_exit(exit: Result<StmtExit, u8>, stopped: Stopped, walk: &mut Walk) -> Result<(), Stopped>
    ensures { (s : Simple) (n : ℕ)
        → ExitWalks result exit n stopped (Do s Stop) walk.old walk.new }
{
    match exit {
        Ok(StmtExit::GoesOn) => Ok(()),
        Ok(StmtExit::Wants(_, part)) => past_access(part, stopped, walk),
        Ok(StmtExit::Halts) | Err(_) => Err(stopped),
    }
}

/// Goes on past an access, where a reply is left for it, or stops there so. To a block comes none.
fn past_access(part: StmtPart, stopped: Stopped, walk: &mut Walk) -> Result<(), Stopped>
    ensures { (s : Simple) (n : ℕ)
        → AccessWalks result part n stopped (Do s Stop) walk.old walk.new }
{
    let Some((reply, others)) = walk.replies.split_first() else {
        return Err(stopped);
    };
    match part {
        StmtPart::At(_, destination) => walk.store.put_reply(destination, reply.values()),
        StmtPart::Within(_) | StmtPart::Turn(_) => return Err(stopped),
    }
    walk.replies = others;
    Ok(())
}

//! Goes on past a reply from the place where a program stopped.

ghost use Rattle.std.specs.Prelude.{◌≡◌, ◌+◌, [], ◌∷◌, drop, length};
ghost use Rattle.regmodel.specs.Prelude.{Block, with_stmt, block_of};
ghost use Rattle.regmodel.specs.Program.{Stop};
ghost use Rattle.machine.specs.Stores.{env_of};
ghost use Rattle.machine.specs.Paths.{resume, part_flow};
ghost use Rattle.machine.specs.Exits.{IsWanting};
ghost use Rattle.machine.specs.Runs.{CanRun, StmtRunsTo, BlockRunsTo};

use crate::run::{
    BlockExit, Frame, Level, StmtExit, StmtPart, block_of_arm, run_block, run_turns, stmt_exit,
};
use crate::values::Store;
use regmodel::Stmt;

/// A reply, and the frames that lead to the access to which it came.
#[derive(Clone, Copy)]
pub struct ReplyPath<'a> {
    pub reply: &'a [u32],
    pub frames: &'a [Frame],
}

/// Goes on with a statement from its part past the reply. The path further down lies in the reply's
/// frames above the depth; where it stops again, the one to that place lies in the other frames.
#[cycle(resume)]
fn resume_stmt(
    stmt: &Stmt,
    part: StmtPart,
    answer: &ReplyPath,
    level: Level,
    store: &mut Store,
    frames: &mut [Frame],
) -> Result<StmtExit, u8>
    requires runs { CanRun level.registers level.depth (with_stmt stmt.now Stop) frames.old }
    requires room { length answer.now.frames.now ≡ length frames.old }
    requires wanting { (rest : Block)
        × IsWanting
        (part_flow part level.registers (with_stmt stmt.now rest)
        (resume level.registers (drop (level.depth + 1) answer.now.frames.now))
        (env_of store.old) []) }
    ensures { (rest : Block)
        → StmtRunsTo
        (λ s. part_flow part level.registers (with_stmt stmt.now rest)
        (resume level.registers (drop (level.depth + 1) answer.now.frames.now)) (env_of store.old)
        (answer.now.reply.now ∷ s)) result level.registers (drop (level.depth + 1) frames.new)
        (with_stmt stmt.now rest) rest (env_of store.new) }
{
    let inner = Level {
        depth: level.depth + 1,
        ..level
    };
    match part {
        StmtPart::At(_, destination) => {
            store.put_reply(destination, answer.reply);
            Ok(StmtExit::GoesOn)
        }
        StmtPart::Within(arm) => {
            let Stmt::If(_, first, second) = stmt else {
                unreachable!()
            };
            let block = block_of_arm(arm, first.as_slice(), second.as_slice());
            let exit = resume_block(block, answer, inner, store, frames);
            stmt_exit(exit, part)
        }
        StmtPart::Turn(turns) => {
            let Stmt::Repeat(_, body) = stmt else {
                unreachable!()
            };
            let block = body.as_slice();
            match resume_block(block, answer, inner, store, frames)? {
                BlockExit::GoesOn => run_turns(block, turns, level, store, frames),
                BlockExit::Wants(access) => Ok(StmtExit::Wants(access, part)),
                BlockExit::Halts => Ok(StmtExit::Halts),
            }
        }
    }
}

/// Goes on past the reply with a block, from the place to which its frames from the depth on lead.
/// Where it stops again, the other frames lead there.
#[cycle(resume)]
pub fn resume_block(
    block: &[Stmt],
    answer: &ReplyPath,
    level: Level,
    store: &mut Store,
    frames: &mut [Frame],
) -> Result<BlockExit, u8>
    requires runs { CanRun level.registers level.depth (block_of block.now) frames.old }
    requires room { length answer.now.frames.now ≡ length frames.old }
    requires wanting { IsWanting
        (resume level.registers (drop level.depth answer.now.frames.now) (block_of block.now)
        (env_of store.old) []) }
    ensures { BlockRunsTo
        (λ s. resume level.registers (drop level.depth answer.now.frames.now) (block_of block.now)
        (env_of store.old) (answer.now.reply.now ∷ s)) result level.registers
        (drop level.depth frames.new) (block_of block.now) (env_of store.new) }
{
    let Frame { at, part } = answer.frames[level.depth];
    if at >= block.len() {
        unreachable!();
    }
    match resume_stmt(&block[at], part, answer, level, store, frames)? {
        StmtExit::GoesOn => run_block(block, at + 1, level, store, frames),
        StmtExit::Wants(access, part) => {
            frames[level.depth] = Frame { at, part };
            Ok(BlockExit::Wants(access))
        }
        StmtExit::Halts => Ok(BlockExit::Halts),
    }
}

//! How many numbers a process can emit at most, by its text.

ghost use Rattle.std.specs.Prelude.{◌≡◌, ℕ, IfOk, map};
ghost use Rattle.regmodel.specs.Prelude.{block_of, with_stmt, program_of, Block};
ghost use Rattle.reglang.specs.Sources.{source_programs};
ghost use Rattle.verdict.specs.Emissions as spec;

use arrayvec::ArrayVec;
use reglang::Source;
use regmodel::limits::{MOST_NUMBERS, MOST_TURNS};
use regmodel::{Expr, Operand, OutOfMemory, Prog, Stmt};
use std::alloc::Global;

/// The most numbers that each process of a source emits, from process 0. An error where a request
/// for memory was refused.
pub fn emissions_of(alloc: Global, source: &Source) -> Result<ArrayVec<usize, 8>, OutOfMemory>
    ensures { IfOk result
        (λ most. most.items ≡ map spec.most_emitted (source_programs source.now)) }
{
    let mut most = ArrayVec::new();
    for p in 0..source.processes() {
        let prog = source.prog(alloc, p)?;
        most.push(most_emitted(&prog));
    }
    Ok(most)
}

/// The most numbers that a program emits.
fn most_emitted(prog: &Prog) -> usize
    ensures { result ≡ spec.most_emitted (program_of prog.now) }
{
    most_from(prog.body(), 0)
}

/// The most numbers that are emitted from a block on, where after it at most so many are.
#[cycle(emissions)]
fn most_from(block: &[Stmt], after: usize) -> usize
    ensures { result ≡ spec.most_from (block_of block.now) after }
{
    let (mut left, mut most) = (block.len(), after);
    while left > 0 {
        left -= 1;
        most = most_with(&block[left], most);
    }
    most
}

/// The same of a statement, where behind it at most so many are emitted.
#[cycle(emissions)]
fn most_with(stmt: &Stmt, behind: usize) -> usize
    ensures { (rest : Block) (after : ℕ) → behind ≡ spec.most_from rest after
        → result ≡ spec.most_from (with_stmt stmt.now rest) after }
{
    match stmt {
        Stmt::Assign(_, _) | Stmt::Read(_, _) | Stmt::Write(_, _) | Stmt::Scan(_, _, _) => behind,
        Stmt::If(_, first, second) => {
            let first = most_from(first.as_slice(), behind);
            let second = most_from(second.as_slice(), behind);
            first.max(second)
        }
        Stmt::Repeat(count, body) => most_before(body.as_slice(), most_turns(count), behind),
        Stmt::Emit(_) => MOST_NUMBERS.min(behind.saturating_add(1)),
        Stmt::Halt => 0,
    }
}

/// The most numbers before so many turns of a block, where after them at most so many are emitted.
/// Once a turn more adds none, no further one does.
#[cycle(emissions)]
fn most_before(body: &[Stmt], turns: u32, after: usize) -> usize
    ensures { result ≡ spec.most_before (spec.most_from (block_of body.now)) turns after }
{
    let mut most = after;
    for _turn in 0..turns {
        let more = most.max(most_from(body, most));
        if more == most {
            return most;
        }
        most = more;
    }
    most
}

/// How often a block is run at most that an expression has repeated.
fn most_turns(count: &Expr) -> u32
    ensures { result ≡ spec.most_turns count.now }
{
    match count {
        Expr::One(Operand::Number(number)) => MOST_TURNS.min(*number),
        _ => MOST_TURNS,
    }
}

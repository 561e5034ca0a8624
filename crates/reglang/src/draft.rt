//! The part of a text that was read so far, with the process that is open, and what the next line
//! makes of it.

ghost use Rattle.std.specs.Prelude.{◌≡◌, [], count_by, false};
ghost use Rattle.regmodel.specs.Program.{Stop};
ghost use Rattle.reglang.specs.Drafts as spec;
ghost use Rattle.reglang.specs.Drafts.{AnswersAtEnd, AnswersLine, Inside, ReadingFits, contents_before, inside_of, is_turn, may_enter, reading_of, take_line};
ghost use Rattle.reglang.specs.Faults.{may_ask};

use crate::parts::Parts;
use crate::refusals::LineRefusal;
use crate::source::Source;
use arrayvec::ArrayVec;
use reglines::{Line, LineFault};
use regmodel::limits::{MOST_OPEN_BLOCKS, MOST_REGISTERS, MOST_STATEMENTS};
use regmodel::{Expr, Stmt};
use std::alloc::Global;
use uses::Use;

/// A block that is open, with the statements before it in the block around it.
#[derive(Drop)]
pub enum Open {
    /// An `if` without its `else` so far: its test, and what stands before it.
    First(Expr, Vec<Stmt>),
    /// An `if` whose `else` came: its test, its first part, and what stands before it.
    Second(Expr, Vec<Stmt>, Vec<Stmt>),
    /// A `repeat`: its count, and what stands before it.
    Turn(Expr, Vec<Stmt>),
}

/// A process without its `end`, and what stands before it in the text.
#[derive(Drop)]
pub struct OpenProcess {
    pub(crate) before: Parts,
    /// The open blocks, the innermost last.
    pub(crate) blocks: Vec<Open>,
    /// The statements of the innermost block.
    pub(crate) block: Vec<Stmt>,
    /// How many statements there are so far in all blocks.
    pub(crate) statements: u32,
}

impl Open {
    /// Whether it is a `repeat`.
    fn is_turn(&self) -> bool
        ensures { result ≡ is_turn self.now }
    {
        matches!(self, Open::Turn(_, _))
    }
}

impl OpenProcess {
    /// A process without statements so far.
    pub fn new(alloc: Global, before: Parts) -> OpenProcess
        ensures { inside_of result ≡ Inside (contents_before before) [] Stop 0 }
    {
        OpenProcess {
            before,
            blocks: Vec::new(alloc),
            block: Vec::new(alloc),
            statements: 0,
        }
    }

    /// Whether there is room for one more statement, and for one more block.
    pub(crate) fn may_enter(&self) -> bool
        ensures { result ≡ may_enter self.now }
    {
        self.statements < MOST_STATEMENTS && self.blocks.len() < MOST_OPEN_BLOCKS as usize
    }
}

/// How many repeats there are among open blocks.
pub(crate) fn open_repeats(blocks: &[Open]) -> usize
    ensures { result ≡ count_by is_turn blocks.now }
{
    blocks.iter().filter(|open| open.is_turn()).count()
}

/// What was read so far.
#[derive(Drop)]
pub enum Draft {
    /// No `registers` line.
    Empty,
    /// No process is open.
    Between(Parts),
    /// A process is open.
    Inside(OpenProcess),
    /// A process is open that has a use line.
    Used(Parts, Use),
}

impl Draft {
    /// The source that was read, at the end of the text, whose checks stand on these lines;
    /// or the end's fault.
    pub fn finish(self, check_lines: ArrayVec<u64, 16>) -> Result<Source, LineFault>
        requires { ReadingFits (reading_of self) }
        ensures { AnswersAtEnd (reading_of self) check_lines.items result }
    {
        match self {
            Draft::Empty => Err(LineFault::NoRegisters),
            Draft::Between(parts) => parts.finish(check_lines),
            Draft::Inside(_) | Draft::Used(_, _) => Err(LineFault::Misplaced),
        }
    }

    /// Takes the next line of the text.
    pub fn take(self, alloc: Global, line: Line) -> Result<Draft, LineRefusal>
        requires { ReadingFits (reading_of self) }
        ensures { AnswersLine (may_ask line) (take_line (reading_of self) line) result }
    {
        match self {
            Draft::Empty => begin(alloc, line),
            Draft::Between(parts) => parts.take(alloc, line),
            Draft::Inside(process) => process.take(alloc, line),
            Draft::Used(parts, kind) => parts.take_used(kind, line),
        }
    }
}

/// Takes the first line of the text.
fn begin(alloc: Global, line: Line) -> Result<Draft, LineRefusal>
    ensures { AnswersLine false (spec.begin line) result }
{
    match line {
        Line::Registers(n) => {
            if n == 0 || n > MOST_REGISTERS {
                return Err(LineRefusal::Fault(LineFault::PastLimit));
            }
            Ok(Draft::Between(Parts::new(alloc, n)))
        }
        Line::Process => Err(LineRefusal::Fault(LineFault::NoRegisters)),
        Line::Check(_) => Err(LineRefusal::Fault(LineFault::NoRegisters)),
        _ => Err(LineRefusal::Fault(LineFault::Misplaced)),
    }
}

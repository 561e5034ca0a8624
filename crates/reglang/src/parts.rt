//! Whole processes and checks of a text.

ghost use Rattle.std.specs.Prelude.{◌≡◌, All, true};
ghost use Rattle.reglang.specs.Bodies.{is_over};

use crate::source::{Process, Source};
use arrayvec::ArrayVec;
use reglines::LineFault;
use regmodel::{Clause, Clauses};
use std::alloc::Global;

/// The registers, and the whole processes and checks so far.
#[derive(Drop)]
pub struct Parts {
    pub(crate) registers: u32,
    pub(crate) processes: Vec<Process>,
    pub(crate) clauses: ArrayVec<Clause, 16>,
    ghost fit: { All (λ p. is_over registers p ≡ true) processes.items },
}

impl Parts {
    ghost use Rattle.std.specs.Prelude.{◌≡◌};
    ghost use Rattle.reglang.specs.Drafts.{AnswersAtEnd, Between, ReadingFits, begun, contents_before};

    /// So many registers, and nothing else so far.
    pub fn new(alloc: Global, registers: u32) -> Parts
        ensures { contents_before result ≡ begun registers }
    {
        Parts {
            registers,
            processes: Vec::new(alloc),
            clauses: ArrayVec::new(),
        }
    }

    /// How many registers there are.
    pub fn registers(&self) -> u32
        ensures { result ≡ (contents_before self.now).registers }
    {
        self.registers
    }

    /// The source of these parts, whose checks stand on these lines.
    pub fn finish(self, check_lines: ArrayVec<u64, 16>) -> Result<Source, LineFault>
        requires { ReadingFits (Between (contents_before self)) }
        ensures { AnswersAtEnd (Between (contents_before self)) check_lines.items result }
    {
        let Parts {
            registers,
            processes,
            clauses,
        } = self;
        if processes.is_empty() {
            return Err(LineFault::PastLimit);
        }
        Ok(Source::new(registers, processes, Clauses::new(clauses), check_lines))
    }
}

//! Sources: 1 to 8 processes over the same registers, and the properties asked of their outcomes;
//! and copies of the statements of a process.

ghost use Rattle.std.specs.Prelude.{◌≡◌, ◌<◌, ◌≤◌, All, length, true, IfOk};
ghost use Rattle.regmodel.specs.Prelude.{Block, block_of, with_stmt};
ghost use Rattle.regmodel.specs.declared.limits.TheConstants.{MOST_CHECKS, MOST_PROCESSES, MOST_REGISTERS};
ghost use Rattle.reglang.specs.Contents.{clause_fits};
ghost use Rattle.reglang.specs.Bodies.{is_over};

use arrayvec::ArrayVec;
use regmodel::{Clauses, OutOfMemory, Prog, Stmt};
use std::alloc::Global;
use uses::{Use, expand};

/// What a process runs.
#[derive(Debug, Drop)]
pub enum Process {
    /// Its own statements.
    Text(Prog),
    /// The expansion of a kind.
    Use(Use),
}

impl Process {
    ghost use Rattle.std.specs.Prelude.{IfOk};
    ghost use Rattle.regmodel.specs.Prelude.{program_of};
    ghost use Rattle.reglang.specs.Contents.{program_over};
    ghost use Rattle.reglang.specs.Bodies.{body_of};

    /// What it runs: a copy of its own program, or its expansion. An error where a request for
    /// memory was refused.
    fn prog(&self, alloc: Global, registers: u32) -> Result<Prog, OutOfMemory>
        requires { is_over registers self.now ≡ true }
        ensures { IfOk result (λ p. program_of p ≡ program_over registers (body_of self.now)) }
    {
        match self {
            Process::Text(prog) => {
                let body = copy_block(alloc, prog.body())?;
                Ok(Prog::of(prog.registers(), body))
            }
            Process::Use(kind) => match expand(alloc, kind, registers) {
                Ok(prog) => Ok(prog),
                Err(_) => Err(OutOfMemory),
            },
        }
    }
}

/// 1 to 8 processes, all over the same 1 to 64 registers, and at most 16 clauses;
/// always within the limits.
#[derive(Debug, Drop)]
pub struct Source {
    registers: u32,
    processes: Vec<Process>,
    clauses: Clauses,
    /// The line of each clause in the text that was read.
    check_lines: ArrayVec<u64, 16>,
    ghost some_register: { 0 < registers },
    ghost few_registers: { registers ≤ MOST_REGISTERS },
    ghost some_process: { 0 < length processes.items },
    ghost few_processes: { length processes.items ≤ MOST_PROCESSES },
    ghost few_clauses: { length clauses ≤ MOST_CHECKS },
    ghost clauses_fit: { All (λ clause. clause_fits clause ≡ true) clauses },
    ghost fit: { All (λ p. is_over registers p ≡ true) processes.items },
}

impl Source {
    ghost use Rattle.std.specs.Prelude.{Some, IfOk, slice_get};
    ghost use Rattle.regmodel.specs.Prelude.{program_of, IsWithin};
    ghost use Rattle.std.specs.Prelude.{map, option_map};
    ghost use Rattle.reglang.specs.Contents.{IsSourceWithin};
    ghost use Rattle.reglang.specs.Bodies.{body_of};
    ghost use Rattle.reglang.specs.Sources.{IsUseOf, body_at, check_lines_of, contents_of, contents_with, own_program_at, registers_of};
    ghost use Rattle.reglang.specs.Sources.{source_programs};

    /// The source of these processes and clauses, which stand on these lines.
    pub(crate) fn new(
        registers: u32,
        processes: Vec<Process>,
        clauses: Clauses,
        check_lines: ArrayVec<u64, 16>,
    ) -> Source
        requires some_register { 0 < registers }
        requires few_registers { registers ≤ MOST_REGISTERS }
        requires some { 0 < length processes.items }
        requires few { length processes.items ≤ MOST_PROCESSES }
        requires few_clauses { length clauses ≤ MOST_CHECKS }
        requires clauses_fit { All (λ clause. clause_fits clause ≡ true) clauses }
        requires fit { All (λ p. is_over registers p ≡ true) processes.items }
        ensures contents { contents_of result
            ≡ contents_with registers processes.items clauses }
        ensures lines { check_lines_of result ≡ check_lines.items }
    {
        Source {
            registers,
            processes,
            clauses,
            check_lines,
        }
    }

    /// How many registers there are, 1 to 64.
    pub fn registers(&self) -> u32
        ensures value { result ≡ registers_of self.now }
        ensures programs { All (λ p. IsWithin p × (p.registers ≡ result))
            (source_programs self.now) }
        ensures some { 0 < length (source_programs self.now) }
        ensures few { length (source_programs self.now) ≤ MOST_PROCESSES }
    {
        self.registers
    }

    /// How many processes there are, 1 to 8.
    pub fn processes(&self) -> usize
        ensures value { length (source_programs self.now) ≡ result }
        ensures some { 0 < result }
        ensures few { result ≤ MOST_PROCESSES }
    {
        self.processes.len()
    }

    /// The processes, from process 0.
    pub(crate) fn bodies(&self) -> &[Process]
        ensures { map body_of result.now ≡ (contents_of self.now).processes }
    {
        self.processes.as_slice()
    }

    /// The clauses, in the order of their lines.
    pub fn clauses(&self) -> &Clauses
        ensures value { result.now ≡ (contents_of self.now).clauses }
        ensures within { IsSourceWithin (contents_of self.now) }
    {
        &self.clauses
    }

    /// The numbers of the lines that are the checks of the text that was read, counted from 1: that
    /// of each clause, in their order.
    pub fn check_lines(&self) -> &[u64]
        ensures { result.now ≡ check_lines_of self.now }
    {
        self.check_lines.as_slice()
    }

    /// The use line of process p, counted from 0. None where it has statements of its own.
    pub fn use_of(&self, p: usize) -> Option<&Use>
        requires { p < length (source_programs self.now) }
        ensures { IsUseOf (body_at self.now p) result }
    {
        match &self.processes[p] {
            Process::Use(kind) => Some(kind),
            Process::Text(_) => None,
        }
    }

    /// The program of process p, counted from 0, where it has statements of its own. None where it
    /// is a use line, or not there.
    pub fn own_prog(&self, p: usize) -> Option<&Prog>
        ensures { option_map (λ prog. program_of prog.now) result
            ≡ own_program_at (contents_of self.now) p }
    {
        match self.processes.as_slice().get(p) {
            Some(Process::Text(prog)) => Some(prog),
            Some(Process::Use(_)) | None => None,
        }
    }

    /// The program of process p, counted from 0: a copy of its own, or its expansion.
    /// An error where a request for memory was refused.
    pub fn prog(&self, alloc: Global, p: usize) -> Result<Prog, OutOfMemory>
        requires { p < length (source_programs self.now) }
        ensures { IfOk result (λ q. slice_get (source_programs self.now) p ≡ Some (program_of q)) }
    {
        self.processes[p].prog(alloc, self.registers())
    }
}

/// A copy of a block. An error where a request for memory was refused.
#[cycle(copies)]
pub fn copy_block(alloc: Global, block: &[Stmt]) -> Result<Vec<Stmt>, OutOfMemory>
    ensures { IfOk result (λ copy. block_of copy.items ≡ block_of block.now) }
{
    let mut copy = Vec::new(alloc);
    for stmt in block {
        let stmt = copy_stmt(alloc, stmt)?;
        copy.push(stmt)?;
    }
    Ok(copy)
}

/// A copy of a statement.
#[cycle(copies)]
fn copy_stmt(alloc: Global, stmt: &Stmt) -> Result<Stmt, OutOfMemory>
    ensures { IfOk result (λ copy. (rest : Block) → with_stmt copy rest ≡ with_stmt stmt.now rest) }
{
    match stmt {
        Stmt::Assign(target, expr) => Ok(Stmt::Assign(*target, *expr)),
        Stmt::Read(target, operand) => Ok(Stmt::Read(*target, *operand)),
        Stmt::Write(operand, expr) => Ok(Stmt::Write(*operand, *expr)),
        Stmt::Scan(cell, first, count) => Ok(Stmt::Scan(*cell, *first, *count)),
        Stmt::If(expr, first, second) => {
            let first = copy_block(alloc, first.as_slice())?;
            let second = copy_block(alloc, second.as_slice())?;
            Ok(Stmt::If(*expr, first, second))
        }
        Stmt::Repeat(expr, body) => {
            let body = copy_block(alloc, body.as_slice())?;
            Ok(Stmt::Repeat(*expr, body))
        }
        Stmt::Emit(expr) => Ok(Stmt::Emit(*expr)),
        Stmt::Halt => Ok(Stmt::Halt),
    }
}

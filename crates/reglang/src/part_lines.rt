//! Lines between processes, and behind a use line.

ghost use Rattle.std.specs.Prelude.{◌≡◌, Ok, false, true};
ghost use Rattle.reglang.specs.Bodies.{body_of, is_over};
ghost use Rattle.reglang.specs.Drafts as spec;
ghost use Rattle.reglang.specs.Drafts.{Answers, AnswersLine, Between, contents_before, with_body};
ghost use Rattle.reglang.specs.Faults.{may_ask};
ghost use Rattle.reglines.specs.declared.arguments.Line.TheVariants as line;
ghost use Rattle.reglang.specs.declared.source.Process.TheVariants as process;

use crate::draft::{Draft, OpenProcess};
use crate::parts::Parts;
use crate::refusals::LineRefusal;
use crate::source::Process;
use reglines::{Line, LineFault};
use regmodel::Clause;
use regmodel::limits::MOST_PROCESSES;
use std::alloc::Global;
use uses::Use;

impl Parts {
    /// Takes a line between processes.
    pub fn take(self, alloc: Global, line: Line) -> Result<Draft, LineRefusal>
        ensures { AnswersLine false (spec.take_between (contents_before self) line) result }
    {
        match line {
            Line::Process => self.begin_process(alloc),
            Line::Check(clause) => self.add_clause(clause),
            _ => Err(LineRefusal::Fault(LineFault::Misplaced)),
        }
    }

    /// Begins a process.
    fn begin_process(self, alloc: Global) -> Result<Draft, LineRefusal>
        ensures { AnswersLine false (spec.take_between (contents_before self) line.Process) result }
    {
        if self.processes.len() >= MOST_PROCESSES {
            return Err(LineRefusal::Fault(LineFault::PastLimit));
        }
        Ok(Draft::Inside(OpenProcess::new(alloc, self)))
    }

    /// Adds the clause of a check line.
    fn add_clause(mut self, clause: Option<Clause>) -> Result<Draft, LineRefusal>
        ensures { AnswersLine false (spec.add_clause (contents_before self) clause) result }
    {
        if self.clauses.is_full() {
            return Err(LineRefusal::Fault(LineFault::PastLimit));
        }
        let Some(clause) = clause else {
            return Err(LineRefusal::Fault(LineFault::NoClause));
        };
        self.clauses.push(clause);
        Ok(Draft::Between(self))
    }

    /// Adds a process that is read to its end.
    pub fn add_process(mut self, process: Process) -> Result<Draft, LineRefusal>
        requires { is_over self.registers process ≡ true }
        ensures { Answers
            (Ok (Between (with_body (contents_before self) (body_of process)))) result }
    {
        self.processes.push(process)?;
        Ok(Draft::Between(self))
    }

    /// Takes a line after a use line.
    pub fn take_used(self, kind: Use, line: Line) -> Result<Draft, LineRefusal>
        requires { is_over self.registers (process.Use kind) ≡ true }
        ensures { AnswersLine (may_ask line)
            (spec.take_used (contents_before self) kind line) result }
    {
        match line {
            Line::End => self.add_process(Process::Use(kind)),
            _ => Err(LineRefusal::Fault(LineFault::Misplaced)),
        }
    }
}

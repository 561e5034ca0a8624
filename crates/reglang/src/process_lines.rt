//! Lines of a process, up to its end.

ghost use Rattle.std.specs.Prelude.{◌≡◌, ◌<◌, [], Ok, false};
ghost use Rattle.reglang.specs.Drafts.{Answers, AnswersLine, ReadingFits, add_to, entered, inside_of, open_with, pushed, take_line};
ghost use Rattle.reglang.specs.Faults.{may_ask};
ghost use Rattle.reglines.specs.declared.arguments.Line.TheVariants as line;

use crate::draft::{Draft, Open, OpenProcess, open_repeats};
use crate::refusals::LineRefusal;
use crate::source::Process;
use reglines::{Line, LineFault};
use regmodel::limits::{MOST_OPEN_REPEATS, MOST_STATEMENTS};
use regmodel::{Expr, Prog, Stmt, scan_fits};
use std::alloc::Global;
use std::mem::replace;
use uses::Use;

impl OpenProcess {
    /// Takes a line of the process.
    pub fn take(self, alloc: Global, line: Line) -> Result<Draft, LineRefusal>
        requires { ReadingFits (inside_of self) }
        ensures { AnswersLine (may_ask line) (take_line (inside_of self) line) result }
    {
        match line {
            Line::Set(to, value) => self.add(to.fits() && value.fits(), Stmt::Assign(to, value)),
            Line::Read(to, from) => self.add(to.fits() && from.fits(), Stmt::Read(to, from)),
            Line::Write(to, value) => self.add(to.fits() && value.fits(), Stmt::Write(to, value)),
            Line::Scan(cell, first, count) => self.add_scan(cell, first, count),
            Line::Emit(value) => self.add(value.fits(), Stmt::Emit(value)),
            Line::Halt => self.add(true, Stmt::Halt),
            Line::If(test) => self.enter_if(alloc, test),
            Line::Repeat(count) => self.enter_repeat(alloc, count),
            Line::Else => self.enter_else(alloc),
            Line::Fi => self.leave_if(alloc),
            Line::Done => self.leave_repeat(),
            Line::End => {
                if !self.blocks.is_empty() {
                    return Err(LineRefusal::Fault(LineFault::Misplaced));
                }
                let prog = Prog::of(self.before.registers(), self.block);
                self.before.add_process(Process::Text(prog))
            }
            Line::Use(kind) => self.stand_for(kind),
            Line::Registers(_) | Line::Process | Line::Check(_) => Err(LineRefusal::Fault(
                LineFault::Misplaced,
            )),
        }
    }

    /// Adds a statement, where its operands are within their limits.
    fn add(mut self, fits: bool, stmt: Stmt) -> Result<Draft, LineRefusal>
        ensures { Answers (add_to self fits stmt) result }
    {
        if self.statements >= MOST_STATEMENTS || !fits {
            return Err(LineRefusal::Fault(LineFault::PastLimit));
        }
        self.block.push(stmt)?;
        self.statements += 1;
        Ok(Draft::Inside(self))
    }

    /// Adds a scan, where it reads only registers that are there into cells that are there.
    fn add_scan(self, cell: u32, first: u32, count: u32) -> Result<Draft, LineRefusal>
        ensures { Answers (take_line (inside_of self) (line.Scan cell first count)) result }
    {
        let fits = scan_fits(self.before.registers(), cell, first, count);
        self.add(fits, Stmt::Scan(cell, first, count))
    }

    /// Begins an `if`.
    fn enter_if(mut self, alloc: Global, test: Expr) -> Result<Draft, LineRefusal>
        ensures { Answers (take_line (inside_of self) (line.If test)) result }
    {
        if !self.may_enter() || !test.fits() {
            return Err(LineRefusal::Fault(LineFault::PastLimit));
        }
        let outer = replace(&mut self.block, Vec::new(alloc));
        self.enter(Open::First(test, outer))
    }

    /// Begins a `repeat`.
    fn enter_repeat(mut self, alloc: Global, count: Expr) -> Result<Draft, LineRefusal>
        ensures { Answers (take_line (inside_of self) (line.Repeat count)) result }
    {
        if !self.may_enter() || !count.fits() {
            return Err(LineRefusal::Fault(LineFault::PastLimit));
        }
        if open_repeats(self.blocks.as_slice()) >= MOST_OPEN_REPEATS as usize {
            return Err(LineRefusal::Fault(LineFault::PastLimit));
        }
        let outer = replace(&mut self.block, Vec::new(alloc));
        self.enter(Open::Turn(count, outer))
    }

    /// Goes into a block, whose statements come from now on.
    fn enter(mut self, opened: Open) -> Result<Draft, LineRefusal>
        requires room { self.statements < MOST_STATEMENTS }
        requires none { self.block.items ≡ [] }
        ensures { Answers
            (Ok (entered self.before opened self.blocks.items self.statements)) result }
    {
        self.blocks.push(opened)?;
        self.statements += 1;
        Ok(Draft::Inside(self))
    }

    /// Begins the second part of the innermost `if`.
    fn enter_else(mut self, alloc: Global) -> Result<Draft, LineRefusal>
        ensures { Answers (take_line (inside_of self) line.Else) result }
    {
        let Some(Open::First(test, outer)) = self.blocks.pop() else {
            return Err(LineRefusal::Fault(LineFault::Misplaced));
        };
        let first = replace(&mut self.block, Vec::new(alloc));
        self.blocks.push(Open::Second(test, first, outer))?;
        Ok(Draft::Inside(self))
    }

    /// Ends the innermost block, an `if`.
    fn leave_if(mut self, alloc: Global) -> Result<Draft, LineRefusal>
        ensures { Answers (take_line (inside_of self) line.Fi) result }
    {
        match self.blocks.pop() {
            Some(Open::First(test, outer)) => {
                let first = replace(&mut self.block, outer);
                self.leave(Stmt::If(test, first, Vec::new(alloc)))
            }
            Some(Open::Second(test, first, outer)) => {
                let second = replace(&mut self.block, outer);
                self.leave(Stmt::If(test, first, second))
            }
            _ => Err(LineRefusal::Fault(LineFault::Misplaced)),
        }
    }

    /// Ends the innermost block, a `repeat`.
    fn leave_repeat(mut self) -> Result<Draft, LineRefusal>
        ensures { Answers (take_line (inside_of self) line.Done) result }
    {
        match self.blocks.pop() {
            Some(Open::Turn(count, outer)) => {
                let body = replace(&mut self.block, outer);
                self.leave(Stmt::Repeat(count, body))
            }
            _ => Err(LineRefusal::Fault(LineFault::Misplaced)),
        }
    }

    /// Adds a block that has ended to the statements around it.
    fn leave(mut self, stmt: Stmt) -> Result<Draft, LineRefusal>
        ensures { Answers
            (Ok (open_with self.before self.blocks.items (pushed self.block.items stmt)
            self.statements)) result }
    {
        self.block.push(stmt)?;
        Ok(Draft::Inside(self))
    }

    /// Lets the process be what a use line stands for.
    fn stand_for(self, kind: Use) -> Result<Draft, LineRefusal>
        ensures { AnswersLine false (take_line (inside_of self) (line.Use kind)) result }
    {
        if self.statements > 0 {
            return Err(LineRefusal::Fault(LineFault::Misplaced));
        }
        if !kind.fits(self.before.registers()) {
            return Err(LineRefusal::Fault(LineFault::PastLimit));
        }
        Ok(Draft::Used(self.before, kind))
    }
}

//! The writer of texts.

ghost use Rattle.std.specs.Prelude.{◌≡◌, ◌++◌, OnOk, OnErr};
ghost use Rattle.reglang.specs.Grammar.{Spells};
ghost use Rattle.reglang.specs.Sources.{contents_of};
ghost use Rattle.reglang.specs.Writing.{GrowsBy, body_text, checks_text, else_text};
ghost use Rattle.reglang.specs.Writing.{process_text, processes_text, stmts_text, text_of};

mod lines;
mod words;

use crate::source::{Process, Source};
use lines::push_line;
use reglines::Line;
use regmodel::{Clause, OutOfMemory, Stmt};

/// Appends the one text that is written of a source: its `registers` line, its processes and its
/// checks in their order, words parted by one space, `else` only before a second part that is not
/// empty, each line ended by a byte 10. `read_source` reads the source from it again. After an
/// error, a request for memory that was refused, `out` is as before.
pub fn write_source(source: &Source, out: &mut Vec<u8>) -> Result<(), OutOfMemory>
    ensures text { OnOk result (out.new.items ≡ out.old.items ++ text_of source.now) }
    ensures spells { OnOk result (Spells (text_of source.now) (contents_of source.now)) }
    ensures err { OnErr result (out.new.items ≡ out.old.items) }
{
    let mut text = Vec::new(*out.allocator());
    push_line(&mut text, Line::Registers(source.registers()))?;
    push_processes(&mut text, source.bodies())?;
    push_checks(&mut text, source.clauses().list())?;
    out.extend_from_slice(text.as_slice())?;
    Ok(())
}

/// Appends the lines of processes.
fn push_processes(text: &mut Vec<u8>, processes: &[Process]) -> Result<(), OutOfMemory>
    ensures { OnOk result (text.new.items ≡ text.old.items ++ processes_text processes.now) }
{
    for process in processes {
        push_process(text, process)?;
    }
    Ok(())
}

/// Appends the lines of a process.
fn push_process(text: &mut Vec<u8>, process: &Process) -> Result<(), OutOfMemory>
    ensures { OnOk result (text.new.items ≡ text.old.items ++ process_text process.now) }
{
    push_line(text, Line::Process)?;
    push_body(text, process)?;
    push_line(text, Line::End)
}

/// Appends the lines of what a process runs.
fn push_body(text: &mut Vec<u8>, process: &Process) -> Result<(), OutOfMemory>
    ensures { OnOk result (text.new.items ≡ text.old.items ++ body_text process.now) }
{
    match process {
        Process::Text(prog) => push_block(text, prog.body()),
        Process::Use(kind) => push_line(text, Line::Use(*kind)),
    }
}

/// Appends the lines of a block.
#[cycle(writing)]
fn push_block(text: &mut Vec<u8>, block: &[Stmt]) -> Result<(), OutOfMemory>
    ensures { OnOk result (text.new.items ≡ text.old.items ++ stmts_text block.now) }
{
    for stmt in block {
        push_stmt(text, stmt)?;
    }
    Ok(())
}

/// Appends the lines of a statement.
#[cycle(writing)]
fn push_stmt(text: &mut Vec<u8>, stmt: &Stmt) -> Result<(), OutOfMemory>
    ensures { OnOk result (GrowsBy stmt.now text.old.items text.new.items) }
{
    match stmt {
        Stmt::Assign(to, value) => push_line(text, Line::Set(*to, *value)),
        Stmt::Read(to, from) => push_line(text, Line::Read(*to, *from)),
        Stmt::Write(to, value) => push_line(text, Line::Write(*to, *value)),
        Stmt::Scan(cell, first, count) => push_line(text, Line::Scan(*cell, *first, *count)),
        Stmt::If(test, first, second) => {
            push_line(text, Line::If(*test))?;
            push_block(text, first.as_slice())?;
            push_second(text, second.as_slice())?;
            push_line(text, Line::Fi)
        }
        Stmt::Repeat(count, body) => {
            push_line(text, Line::Repeat(*count))?;
            push_block(text, body.as_slice())?;
            push_line(text, Line::Done)
        }
        Stmt::Emit(value) => push_line(text, Line::Emit(*value)),
        Stmt::Halt => push_line(text, Line::Halt),
    }
}

/// Appends an `else` and the lines of the second part of an `if`, or nothing where
/// that part is empty.
#[cycle(writing)]
fn push_second(text: &mut Vec<u8>, second: &[Stmt]) -> Result<(), OutOfMemory>
    ensures { OnOk result (text.new.items ≡ text.old.items ++ else_text second.now) }
{
    if second.is_empty() {
        return Ok(());
    }
    push_line(text, Line::Else)?;
    push_block(text, second)
}

/// Appends the lines of clauses.
fn push_checks(text: &mut Vec<u8>, clauses: &[Clause]) -> Result<(), OutOfMemory>
    ensures { OnOk result (text.new.items ≡ text.old.items ++ checks_text clauses.now) }
{
    for clause in clauses {
        push_line(text, Line::Check(Some(*clause)))?;
    }
    Ok(())
}

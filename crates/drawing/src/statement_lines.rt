//! On which line of a text a process has a statement.

ghost use Rattle.std.specs.Prelude.{◌≡◌, ◌<◌, ◌+◌, ◌-◌, ◌^◌, ◌==◌, ◌≤◌, ◌&&◌};
ghost use Rattle.drawing.specs.StatementLines as spec;
ghost use Rattle.reglines.specs.Forms as forms;

use reglines::{Line, read_line, split_line};

/// The number of the line of a text on which process p, counted from 0, has the statement with this
/// number, counted from 0 as well; a use line counts as the only one of its process. None where it
/// has not so many.
pub fn statement_line(text: &[u8], p: u8, statement: usize) -> Option<u64>
    ensures { result ≡ spec.statement_line text.now p statement }
{
    let mut number = 0u64;
    let mut begun = 0u64;
    let mut before = statement;
    let mut rest = text;
    while let Some((line, after)) = split_line(rest) {
        number += 1;
        if is_statement_of(p, begun, line) {
            if before == 0 {
                return Some(number);
            }
            before -= 1;
        }
        begun = begun_with(line, begun);
        rest = after;
    }
    None
}

/// Whether a line is a statement of process p, where so many processes have begun before it.
fn is_statement_of(p: u8, begun: u64, line: &[u8]) -> bool
    ensures { result ≡ (spec.says_statement (forms.read_line line.now) && begun == p + 1) }
{
    says_statement(line) && begun == u64::from(p) + 1
}

/// Whether a line says a statement, or is a use line.
fn says_statement(line: &[u8]) -> bool
    ensures { result ≡ spec.says_statement (forms.read_line line.now) }
{
    match read_line(line) {
        Ok(Some(said)) => is_statement(said),
        Ok(None) | Err(_) => false,
    }
}

/// Whether a line is a statement, or the use line that stands for all of them.
fn is_statement(line: Line) -> bool
    ensures { result ≡ spec.is_statement line }
{
    match line {
        Line::Registers(_) | Line::Check(_) | Line::Process | Line::End => false,
        Line::Else | Line::Fi | Line::Done => false,
        _ => true,
    }
}

/// How many processes have begun with a line, where so many had before it.
fn begun_with(line: &[u8], begun: u64) -> u64
    requires { begun < 2 ^ 64 - 1 }
    ensures value { result ≡ spec.begun_with (forms.read_line line.now) begun }
    ensures few { result ≤ begun + 1 }
{
    match read_line(line) {
        Ok(Some(Line::Process)) => begun + 1,
        _ => begun,
    }
}

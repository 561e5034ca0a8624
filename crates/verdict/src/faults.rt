//! Which process is at fault at the end of a schedule, why, and on which line of the text.

ghost use Rattle.std.specs.Prelude.{◌≡◌, ◌≤◌, ◌+◌, length};
ghost use Rattle.regmodel.specs.declared.limits.TheConstants.{MOST_PROCESSES};
ghost use Rattle.verdict.specs.FaultText as spec;
ghost use Rattle.verdict.specs.Faults as faults;

use crate::origin_text::LineOrigin;
use drawing::{Drawing, statement_line};
use machine::Culprit;
use reglines::Spelled;
use regmodel::faults::{NO_PLACE, NO_VALUE, TOO_MANY_TURNS};
use regmodel::limits::CELLS;
use regmodel::{End, ProcEnd};
use std::io::Write;
use texts::{Block, Text, WriteFault};

/// A process at fault.
#[derive(Clone, Copy, PartialEq, Eq, Debug)]
pub struct ProcessFault {
    /// The process, 0 to 7.
    pub process: u64,
    /// The code of its fault, 1 to 4.
    pub code: u8,
    /// The number of the line with the statement that is at fault, counted from 1; that of its use
    /// line where it has one. None where the text has no such statement.
    pub line: Option<u64>,
    /// What is out of range in that statement. None where no number is: a ninth one that it emits
    /// may be any.
    pub culprit: Option<Culprit>,
}

/// That a process of the source that a text spells is at fault, where and why.
#[derive(Clone, Copy)]
pub(crate) struct FaultTold<'a>(pub(crate) &'a [u8], pub(crate) ProcessFault);

impl Text for FaultTold<'_> {
    ghost text = { λ told. spec.fault_text told.0.now told.1 };

    fn put<W: Write>(&self, out: &mut W, block: &mut Block) -> Result<(), WriteFault> {
        let FaultTold(text, fault) = *self;
        let head = ("process ", fault.process, " is at fault");
        let place = match fault.line {
            Some(line) => Some((" at ", LineOrigin { text, line })),
            None => None,
        };
        let culprit = match fault.culprit {
            Some(culprit) => Some(CulpritTold(culprit)),
            None => None,
        };
        (head, place, ": ", reason_of(fault.code), culprit).put(out, block)
    }
}

/// The process at fault at the end of a schedule, where there is one, of the source that a text
/// spells.
#[derive(Clone, Copy)]
pub struct FaultLine<'a> {
    /// The text.
    pub text: &'a [u8],
    /// The process at fault.
    pub fault: Option<ProcessFault>,
}

impl Text for FaultLine<'_> {
    ghost text = { λ line. spec.fault_line line.text.now line.fault };

    fn put<W: Write>(&self, out: &mut W, block: &mut Block) -> Result<(), WriteFault> {
        let text = self.text;
        match self.fault {
            Some(fault) => ("At its end ", FaultTold(text, fault), ".\n").put(out, block),
            None => Ok(()),
        }
    }
}

/// What is out of range.
#[derive(Clone, Copy)]
struct CulpritTold(Culprit);

impl Text for CulpritTold {
    ghost text = { λ told. spec.culprit_text told.0 };

    fn put<W: Write>(&self, out: &mut W, block: &mut Block) -> Result<(), WriteFault> {
        match self.0 {
            Culprit::Register(number, count) => {
                (": register ", number, " of ", count).put(out, block)
            }
            Culprit::Cell(number) => (": cell ", number, " of ", CELLS).put(out, block),
            Culprit::Value(a, op, b) => ((": ", a, " "), op.text(), " ", b).put(out, block),
            Culprit::Turns(count) => (": ", count, " times").put(out, block),
        }
    }
}

/// Why a process is at fault with this code.
fn reason_of(code: u8) -> &'static str
    ensures { result.now ≡ spec.reason_text code }
{
    if code == NO_VALUE {
        "a value is below 0 or above 1000000000"
    } else if code == NO_PLACE {
        "it names a register or a cell that is not there"
    } else if code == TOO_MANY_TURNS {
        "it repeats more than 99 times"
    } else {
        "it emits a ninth number"
    }
}

/// The lowest process that is at fault at the end of a schedule that is drawn, the line of the text
/// at which it is, and what is out of range there: the text spells the source of the schedule.
pub fn first_fault(text: &[u8], drawing: &Drawing) -> Option<ProcessFault>
    ensures { result ≡ faults.fault_drawn text.now drawing.now }
{
    first_fault_from(text, drawing, 0, drawing.outcome().ends())
}

/// The lowest process at fault; the first of these is process p.
fn first_fault_from(text: &[u8], drawing: &Drawing, p: u8, ends: &[ProcEnd]) -> Option<ProcessFault>
    requires { p + length ends.now ≤ MOST_PROCESSES }
    ensures { result ≡ faults.first_fault_from text.now drawing.now.stops p ends.now }
{
    let Some((end, more)) = ends.split_first() else {
        return None;
    };
    if let End::Fault(code) = end.fate {
        return Some(ProcessFault {
            process: u64::from(p),
            code,
            line: stop_line(text, drawing, p),
            culprit: stop_culprit(drawing, p),
        });
    }
    first_fault_from(text, drawing, p + 1, more)
}

/// The number of the line of a text on which the statement stands at which a process stops.
fn stop_line(text: &[u8], drawing: &Drawing, p: u8) -> Option<u64>
    ensures { result ≡ faults.stop_line text.now drawing.now.stops p }
{
    statement_line(text, p, drawing.stop_of(p)?.at)
}

/// What is out of range where a process stops.
fn stop_culprit(drawing: &Drawing, p: u8) -> Option<Culprit>
    ensures { result ≡ faults.stop_culprit drawing.now.stops p }
{
    drawing.stop_of(p)?.culprit
}

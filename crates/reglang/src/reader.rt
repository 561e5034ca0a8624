//! The reader of texts, and a text with the source that was read from it.

ghost use Rattle.std.specs.Prelude.{◌≡◌, ◌<◌, ◌≤◌, ◌++◌, IfErr, IfOk, Some, length, slice_get};
ghost use Rattle.reglang.specs.Checks.{AreChecksOf, check_lines, number_of_check};
ghost use Rattle.reglang.specs.Drafts.{AnswersLine, ReadingFits, checks_in, reading_of, take_if_said};
ghost use Rattle.reglang.specs.Faults.{HasNoneBefore, IsFirst, IsUnspelled, TellsEnd, TellsMemory, WantsMemory, asks, last_line};
ghost use Rattle.reglines.specs.Forms as forms;
ghost use Rattle.reglang.specs.Grammar.{Spells};
ghost use Rattle.reglang.specs.Refusals.{fault_of};
ghost use Rattle.reglang.specs.Sources.{check_lines_of, contents_of};

use crate::draft::Draft;
use crate::laws::{each_check_is_that_of_its_clause, what_is_spelled_is_known};
use crate::refusals::LineRefusal;
use crate::source::Source;
use arrayvec::ArrayVec;
use reglines::{Line, read_line, split_line};
use std::alloc::Global;
use std::fmt;
use thiserror::Error;

/// Why a text was not read.
#[derive(Clone, Copy, PartialEq, Eq, Debug, Error)]
#[error("line {line} code {code}")]
pub struct ReadFault {
    /// The line that was refused, counted from 1; at the end of the text the last one, or 1
    /// where there is none.
    pub line: u64,
    /// Of the first fault of the text: 1 a byte not in 32 to 126, 2 an unknown word, 3 no number
    /// word, 4 no form of its first word, 5 a line that cannot stand there, 6 a limit, 7 a
    /// `process` or `check` before `registers`, 8 no clause; or 9 where a request for memory was
    /// refused.
    pub code: u8,
}

/// Why a text was not read, and whether its end is at fault in place of a line.
#[derive(Clone, Copy, PartialEq, Eq, Debug)]
pub struct Rejection {
    /// The line that was refused, as in a `ReadFault`.
    pub line: u64,
    /// Why it was refused.
    pub refusal: LineRefusal,
    /// Whether no line has a fault, but the text ends too early.
    pub is_of_end: bool,
}

/// As its fault.
impl fmt::Display for Rejection {
    ghost use Rattle.std.specs.Prelude.{None};

    ghost output = { λ _. None };

    fn fmt<W: fmt::Write>(&self, f: &mut fmt::Formatter<W>) -> fmt::Result {
        write!(f, "{}", self.fault())
    }
}

impl Rejection {
    /// The line and the code of the refusal.
    pub fn fault(&self) -> ReadFault
        ensures { result ≡ fault_of self.now }
    {
        ReadFault {
            line: self.line,
            code: self.refusal.code(),
        }
    }
}

/// Reads the source of a text, in one pass. A refused text has the code of its first fault, 1 to 8,
/// and its line; code 9 is answered only where a request for memory was refused, with the line then
/// being read: a statement, or a line that parts or ends a block or ends a process. Neither it nor
/// a line before it has a fault then.
pub fn read_source(alloc: Global, text: &[u8]) -> Result<Source, ReadFault>
    ensures spelled { IfOk result (λ source. Spells text.now (contents_of source)) }
    ensures lines { IfOk result (λ source. check_lines_of source ≡ check_lines text.now) }
    ensures first_fault { IfErr result (IsFirst text.now) }
    ensures not_spelled { IfErr result (IsUnspelled text.now) }
    ensures no_fault_before { IfErr result (HasNoneBefore text.now) }
    ensures first_line { IfErr result (λ fault. 0 < fault.line) }
    ensures last_line { IfErr result (λ fault. fault.line ≤ last_line text.now) }
    ensures memory { IfErr result (WantsMemory text.now) }
{
    match read_text(alloc, text) {
        Ok(source) => Ok(source),
        Err(rejection) => Err(rejection.fault()),
    }
}

/// Reads the source of a text as `read_source` does, and tells of a refused text, too, whether
/// its first fault is that of its end. The end is at fault where no line is; it never is where
/// memory was refused.
pub fn read_text(alloc: Global, text: &[u8]) -> Result<Source, Rejection>
    ensures spelled { IfOk result (λ source. Spells text.now (contents_of source)) }
    ensures lines { IfOk result (λ source. check_lines_of source ≡ check_lines text.now) }
    ensures first_fault { IfErr result (λ rejection. IsFirst text.now (fault_of rejection)) }
    ensures not_spelled { IfErr result (λ rejection. IsUnspelled text.now (fault_of rejection)) }
    ensures no_fault_before { IfErr result
        (λ rejection. HasNoneBefore text.now (fault_of rejection)) }
    ensures first_line { IfErr result (λ rejection. 0 < rejection.line) }
    ensures last_line { IfErr result (λ rejection. rejection.line ≤ last_line text.now) }
    ensures of_end { IfErr result (TellsEnd text.now) }
    ensures of_memory { IfErr result TellsMemory }
    ensures memory { IfErr result (λ rejection. WantsMemory text.now (fault_of rejection)) }
{
    let mut draft = Draft::Empty;
    let mut check_lines = ArrayVec::new();
    let mut rest = text;
    let mut line = 0u64;
    while let Some((bytes, after)) = split_line(rest) {
        line += 1;
        draft = match next(alloc, draft, bytes, line, &mut check_lines) {
            Ok(draft) => draft,
            Err(refusal) => {
                return Err(Rejection {
                    line,
                    refusal,
                    is_of_end: false,
                });
            }
        };
        rest = after;
    }
    match draft.finish(check_lines) {
        Ok(source) => Ok(source),
        Err(fault) => Err(Rejection {
            line: line.max(1),
            refusal: LineRefusal::Fault(fault),
            is_of_end: true,
        }),
    }
}

/// Takes the next line of the text, and keeps its number where it is a check.
fn next(
    alloc: Global,
    draft: Draft,
    line: &[u8],
    number: u64,
    check_lines: &mut ArrayVec<u64, 16>,
) -> Result<Draft, LineRefusal>
    requires fits { ReadingFits (reading_of draft) }
    requires counted { length check_lines.old.items ≡ checks_in (reading_of draft) }
    ensures taken { AnswersLine (asks (forms.read_line line.now))
        (take_if_said (reading_of draft) (forms.read_line line.now)) result }
    ensures kept { IfOk result
        (λ _. check_lines.new.items
        ≡ check_lines.old.items ++ number_of_check number (forms.read_line line.now)) }
{
    match read_line(line) {
        Ok(Some(Line::Check(clause))) => {
            let draft = draft.take(alloc, Line::Check(clause))?;
            check_lines.push(number);
            Ok(draft)
        }
        Ok(Some(line)) => draft.take(alloc, line),
        Ok(None) => Ok(draft),
        Err(fault) => Err(LineRefusal::Fault(fault)),
    }
}

/// A text and the source that it spells and that was read from it.
#[derive(Clone, Copy)]
pub struct Spelling<'a> {
    /// The text.
    pub text: &'a [u8],
    /// The source.
    pub source: &'a Source,
    ghost spelled: { ∥ Spells text.now (contents_of source.now) ∥₁ },
    ghost lines: { check_lines_of source.now ≡ check_lines text.now },
}

impl Spelling<'_> {
    /// A law: the text spells the source.
    pub fn spells(&self)
        ensures { Spells self.now.text.now (contents_of self.now.source.now) }
    {
        what_is_spelled_is_known();
    }

    /// The number of the line that is the check of clause i, counted from 1.
    pub fn check_line(&self, i: usize) -> u64
        requires there { i < length (contents_of self.now.source.now).clauses }
        ensures number { slice_get (check_lines self.now.text.now) i ≡ Some result }
        ensures checks { AreChecksOf self.now.text.now (contents_of self.now.source.now).clauses }
    {
        self.spells();
        each_check_is_that_of_its_clause();
        let Some(line) = self.source.check_lines().get(i) else {
            unreachable!()
        };
        *line
    }
}

//! Whether a source holds, in words. No call takes memory.

ghost use Rattle.std.specs.Prelude.{◌≡◌};
ghost use Rattle.texts.specs.Appending.{Wrote};
ghost use Rattle.verdict.specs.VerdictText as spec;
ghost use Rattle.verdict.specs.VerdictText.{verdict_text};

use crate::counts::{Counted, Letters, UpTo};
use crate::demands::Asked;
use crate::faults::{FaultLine, FaultTold};
use crate::gaps::{Gap, Reason};
use crate::origin_text::{LineOrigin, LineTold};
use crate::reach::{Reach, reach_of};
use crate::show_commands::ShowCommand;
use crate::single_repeats::SingleRepeat;
use crate::topics::Topic;
use crate::verdicts::{Breach, Cause, Cut, Verdict};
use drawing::Drawn;
use regmodel::Subject;
use regmodel::limits::MOST_LETTERS;
use std::io::Write;
use texts::{Block, Either, Text, When, WriteFault, write};

/// Writes whether the source holds that the text of this topic spells: the schedule that
/// fails, the check that it breaks and the process at fault, its drawing and the command that draws
/// it again; or how much was tried, what was looked for where there is no check line, which checks
/// no outcome could break, and whether schedules were cut off. Where the shortest one was asked
/// for, that no shorter one fails. Of either, which line repeats once or not at all. After a fault
/// the writer has taken a beginning of it.
pub fn write_verdict<W: Write>(
    topic: Topic<'_>,
    verdict: &Verdict,
    is_shortest: bool,
    out: &mut W,
) -> Result<(), WriteFault>
    ensures { Wrote W.contents out.old out.new
        (verdict_text topic.entry.program.now topic.entry.path.now topic.entry.text.now
        topic.entry.breadth is_shortest verdict.now) result }
{
    let told = Judged {
        topic,
        verdict,
        is_shortest,
    };
    write(&told, out)
}

/// Whether a source holds, as it is told of the file of a path.
#[derive(Clone, Copy)]
pub(crate) struct Judged<'a> {
    pub(crate) topic: Topic<'a>,
    pub(crate) verdict: &'a Verdict,
    pub(crate) is_shortest: bool,
}

impl Text for Judged<'_> {
    ghost text = { λ t. spec.verdict_text t.topic.program.now t.topic.path.now t.topic.text.now
        t.topic.breadth t.is_shortest t.verdict.now };

    fn put<W: Write>(&self, out: &mut W, block: &mut Block) -> Result<(), WriteFault> {
        let Topic { path, text, .. } = self.topic;
        match self.verdict {
            Verdict::Fails(breach, cut) => {
                let failing = Failing {
                    topic: self.topic,
                    breach,
                    is_shortest: self.is_shortest,
                };
                let beside = Beside {
                    topic: self.topic,
                    cut,
                };
                (failing, beside).put(out, block)
            }
            Verdict::Holds(held) => {
                let reach = reach_of(&held.exploration);
                let gaps = GapLines {
                    text,
                    gaps: held.gaps.as_slice(),
                };
                let holding = HoldingText { path, reach };
                let repeat = SingleRepeat(text);
                let caution = When(reach.cut_off, CutOff(reach.length));
                (holding, held.asked, gaps, repeat, caution).put(out, block)
            }
        }
    }
}

/// What a schedule that fails breaks.
#[derive(Clone, Copy)]
struct Failing<'a> {
    topic: Topic<'a>,
    breach: &'a Breach,
    is_shortest: bool,
}

impl Text for Failing<'_> {
    ghost text = { λ f. spec.breach_text f.topic.program.now f.topic.path.now f.topic.text.now
        f.topic.breadth f.is_shortest f.breach.now };

    fn put<W: Write>(&self, out: &mut W, block: &mut Block) -> Result<(), WriteFault> {
        let Topic {
            program,
            path,
            text,
            breadth,
        } = self.topic;
        let breach = self.breach;
        let length = breach.schedule.letters().len() as u64;
        let cause = Caused {
            text,
            cause: &breach.cause,
        };
        let drawing = Drawn {
            drawing: &breach.drawing,
            text,
            breadth,
        };
        let fails = Either(self.is_shortest, " fails, and no shorter one: ", " fails: ");
        let failing = (path, ": a schedule of ", Letters(length), fails);
        let show = ShowCommand {
            program,
            path,
            breadth,
            schedule: &breach.schedule,
        };
        let onset = Onset {
            length,
            onset: breach.onset,
        };
        let told = (failing, cause, onset, SingleRepeat(text), "\n");
        (told, drawing, show).put(out, block)
    }
}

/// Why a schedule fails.
#[derive(Clone, Copy)]
struct Caused<'a> {
    text: &'a [u8],
    cause: &'a Cause,
}

impl Text for Caused<'_> {
    ghost text = { λ c. spec.cause_text c.text.now c.cause.now };

    fn put<W: Write>(&self, out: &mut W, block: &mut Block) -> Result<(), WriteFault> {
        let text = self.text;
        match *self.cause {
            Cause::Check {
                line,
                is_empty,
                fault,
            } => {
                let check = LineTold(LineOrigin { text, line });
                let empty = "No number is in that range: each name breaks it.\n";
                let beside = FaultLine { text, fault };
                (check, "\n", When(is_empty, empty), beside).put(out, block)
            }
            Cause::Fault(fault) => (FaultTold(text, fault), "\n").put(out, block),
        }
    }
}

/// From which letter on each beginning of a schedule of this length fails, where that comes about
/// by a letter; or that it is cut off, and none fails otherwise.
#[derive(Clone, Copy)]
struct Onset {
    length: u64,
    onset: Option<u64>,
}

impl Text for Onset {
    ghost text = { λ onset. spec.onset_text onset.length onset.onset };

    fn put<W: Write>(&self, out: &mut W, block: &mut Block) -> Result<(), WriteFault> {
        match self.onset {
            Some(0) => Ok(()),
            Some(letter) => ("It fails from step ", letter, " on.\n").put(out, block),
            None => {
                let cut = "It is cut off with a process still running";
                let otherwise = "; up to this length none fails otherwise.\n";
                let beyond = When(self.length == MOST_LETTERS as u64, WITHOUT_BOUND);
                (cut, otherwise, beyond).put(out, block)
            }
        }
    }
}

/// What has no bound of letters.
const WITHOUT_BOUND: &str =
    "64 letters are the most: ./promela makes a model for SPIN, which has no \
    such bound (docs/RECIPES.md).\n";

/// A schedule that is cut off, where one is told beside another schedule that fails: what it
/// breaks, and the command that draws it.
#[derive(Clone, Copy)]
struct Beside<'a> {
    topic: Topic<'a>,
    cut: &'a Option<Cut>,
}

impl Text for Beside<'_> {
    ghost text = { λ b. spec.beside_text b.topic.program.now b.topic.path.now b.topic.text.now
        b.topic.breadth b.cut.now };

    fn put<W: Write>(&self, out: &mut W, block: &mut Block) -> Result<(), WriteFault> {
        let Some(cut) = self.cut else {
            return Ok(());
        };
        let letters = Letters(cut.schedule.letters().len() as u64);
        let cause = Caused {
            text: self.topic.text,
            cause: &cut.cause,
        };
        let show = ShowCommand {
            program: self.topic.program,
            path: self.topic.path,
            breadth: self.topic.breadth,
            schedule: &cut.schedule,
        };
        let running = " is cut off, with a process still running: ";
        ("\nA schedule of ", letters, running, cause, show).put(out, block)
    }
}

/// What was looked for, where there is no check line.
impl Text for Asked {
    ghost text = { spec.asked_text };

    fn put<W: Write>(&self, out: &mut W, block: &mut Block) -> Result<(), WriteFault> {
        match self {
            Asked::Nothing => "No check line: nothing was looked for.\n".put(out, block),
            Asked::Faults => "No check line: only faults were looked for.\n".put(out, block),
            Asked::Checks => Ok(()),
        }
    }
}

/// The checks of a text that no outcome could break, one a line, each with what is wanting.
#[derive(Clone, Copy)]
struct GapLines<'a> {
    text: &'a [u8],
    gaps: &'a [Gap],
}

impl Text for GapLines<'_> {
    ghost text = { λ lines. spec.gaps_text lines.text.now lines.gaps.now };

    fn put<W: Write>(&self, out: &mut W, block: &mut Block) -> Result<(), WriteFault> {
        for gap in self.gaps {
            let check = LineTold(LineOrigin {
                text: self.text,
                line: gap.line,
            });
            (check, ReasonTold(gap.reason)).put(out, block)?;
        }
        Ok(())
    }
}

/// Why no outcome could break a check.
#[derive(Clone, Copy)]
struct ReasonTold(Reason);

impl Text for ReasonTold {
    ghost text = { λ told. spec.why_text told.0 };

    fn put<W: Write>(&self, out: &mut W, block: &mut Block) -> Result<(), WriteFault> {
        let emits = ": no process emits ";
        match self.0 {
            Reason::Unemitted(number) => (emits, number, ".\n").put(out, block),
            Reason::NoName(number) => {
                let first = " as its first number, which is its name.\n";
                (emits, number, first).put(out, block)
            }
            Reason::FewNamed(count) => {
                let most = Counted(u64::from(count), "process", "es");
                (": at most ", most, " can have this name.\n").put(out, block)
            }
            Reason::EachNumber => ": each number is in this range.\n".put(out, block),
            Reason::Wanting(want) => wanting(want).put(out, block),
        }
    }
}

/// What no outcome has of which a check speaks.
fn wanting(want: Subject) -> &'static str
    ensures { result.now ≡ spec.want_text want }
{
    match want {
        Subject::Named => ": no process ever had a name.\n",
        Subject::Done => ": no process was ever done.\n",
    }
}

/// That no schedule fails, and how much was tried.
#[derive(Clone, Copy)]
struct HoldingText<'a> {
    path: &'a [u8],
    reach: Reach,
}

impl Text for HoldingText<'_> {
    ghost text = { λ h. spec.holding_text h.path.now h.reach };

    fn put<W: Write>(&self, out: &mut W, block: &mut Block) -> Result<(), WriteFault> {
        let reach = self.reach;
        let tried = Counted(reach.tried, "schedule", "s");
        let outcomes = Counted(reach.outcomes, "outcome", "s");
        let tried = (tried, " tried, ", outcomes);
        let bounds = UpTo {
            length: reach.length,
            crashes: reach.crashes,
        };
        (self.path, ": no schedule fails: ", tried, bounds).put(out, block)
    }
}

/// That schedules of this length were cut off, and what can be done about it.
#[derive(Clone, Copy)]
struct CutOff(u64);

impl Text for CutOff {
    ghost text = { λ c. spec.cut_off_text c.0 };

    fn put<W: Write>(&self, out: &mut W, block: &mut Block) -> Result<(), WriteFault> {
        let cut_off = ("Some schedules were cut off at ", Letters(self.0));
        let running = ", with a process still running; longer ones were not tried";
        let advice = Either(
            self.0 == MOST_LETTERS as u64,
            ", and 64 letters are the most.\n",
            ": give a greater --length, up to 64.\n",
        );
        (cut_off, running, advice).put(out, block)
    }
}

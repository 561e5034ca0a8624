//! The text of a part, written. No call takes memory.

ghost use Rattle.part_texts.specs.PartText.{part_bounds_text, explored_part, head_text, least_part, part_text};
ghost use Rattle.texts.specs.Appending.{Wrote};

use crate::heads::PartHead;
use report::{CodedLines, Exploration, Least, LeastLines};
use std::io::Write;
use texts::{Block, NumberLine, Text, WriteFault, write};

/// The last line of a part.
const END: &str = "end\n";

/// Writes the text of a part of which the whole was sought: its head and what was found. After a
/// fault the writer has taken a beginning of it.
pub fn write_explored_part<W: Write>(
    head: &PartHead,
    exploration: &Exploration,
    out: &mut W,
) -> Result<(), WriteFault>
    ensures { Wrote W.contents out.old out.new
        (part_text (explored_part head.now exploration.now)) result }
{
    let tried = NumberLine::new("tried", exploration.tried());
    let outcomes = NumberLine::new("outcomes", exploration.outcome_count() as u64);
    let least = LeastLines(exploration.least());
    let found = (tried, outcomes, CodedLines(exploration), least);
    write(&(head, found, END), out)
}

/// Writes the text of a part of which the least failing schedule alone was sought: its head and
/// that schedule. After a fault the writer has taken a beginning of it.
pub fn write_least_part<W: Write>(
    head: &PartHead,
    least: &Least,
    out: &mut W,
) -> Result<(), WriteFault>
    ensures { Wrote W.contents out.old out.new (part_text (least_part head.now least.now)) result }
{
    write(&(head, LeastLines(least.least()), END), out)
}

impl Text for PartHead {
    ghost text = { head_text };

    fn put<W: Write>(&self, out: &mut W, block: &mut Block) -> Result<(), WriteFault> {
        let part = self.part();
        let part = ("part ", part.number(), " of ", part.count(), "\n");
        let source = NumberLine::new("source", self.source().len() as u64);
        (part, BoundsOf(self), source, self.source()).put(out, block)
    }
}

/// How far is explored.
#[derive(Clone, Copy)]
struct BoundsOf<'a>(&'a PartHead);

impl Text for BoundsOf<'_> {
    ghost text = { λ bounds. let head = bounds.0.now in
        part_bounds_text head.processes head.length head.crashes head.cut };

    fn put<W: Write>(&self, out: &mut W, block: &mut Block) -> Result<(), WriteFault> {
        let settings = self.0.settings();
        let processes = NumberLine::new("processes", u64::from(self.0.processes()));
        let length = NumberLine::new("length", u64::from(settings.length()));
        let crashes = NumberLine::new("crashes", u64::from(settings.crashes()));
        let cut = NumberLine::new("cut", u64::from(settings.cut()));
        (processes, length, crashes, cut).put(out, block)
    }
}

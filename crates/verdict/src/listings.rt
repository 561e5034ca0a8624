//! Whether a source holds, in words, and the list of its outcomes. No call takes memory.

ghost use Rattle.std.specs.Prelude.{option_map};
ghost use Rattle.texts.specs.Appending.{Wrote};
ghost use Rattle.verdict.specs.Listings as spec;
ghost use Rattle.verdict.specs.Listings.{listed_text};

use crate::topics::Topic;
use crate::verdict_text::Judged;
use crate::verdicts::Verdict;
use report::{CodedLines, Exploration};
use std::io::Write;
use texts::{Block, NumberLine, Text, WriteFault, write};

/// The outcomes of an exploration, behind an empty line: how many they are, and a line for each.
#[derive(Clone, Copy)]
struct OutcomeList<'a>(&'a Exploration);

impl Text for OutcomeList<'_> {
    ghost text = { λ list. spec.outcome_list list.0.now.found.outcomes };

    fn put<W: Write>(&self, out: &mut W, block: &mut Block) -> Result<(), WriteFault> {
        let count = NumberLine::new("outcomes", self.0.outcome_count() as u64);
        ("\n", count, CodedLines(self.0)).put(out, block)
    }
}

/// Writes what `write_verdict` writes, and then the outcomes, one a line: where no schedule fails
/// those that were found, else those of the exploration beside it. After a fault the writer has
/// taken a beginning of it.
pub fn write_listing<W: Write>(
    topic: Topic<'_>,
    verdict: &Verdict,
    is_shortest: bool,
    explored: Option<&Exploration>,
    out: &mut W,
) -> Result<(), WriteFault>
    ensures { Wrote W.contents out.old out.new
        (listed_text topic.entry.program.now topic.entry.path.now topic.entry.text.now
        topic.entry.breadth is_shortest verdict.now (option_map (λ e. e.now) explored.entry))
        result }
{
    let told = Judged {
        topic,
        verdict,
        is_shortest,
    };
    match verdict {
        Verdict::Holds(held) => write(&(told, OutcomeList(&held.exploration)), out),
        Verdict::Fails(_, _) => match explored {
            Some(explored) => write(&(told, OutcomeList(explored)), out),
            None => write(&told, out),
        },
    }
}

//! Which schedule leads to outcomes that were looked for, in words. No call takes memory.

ghost use Rattle.std.specs.Prelude.{length};
ghost use Rattle.texts.specs.Appending.{Wrote};
ghost use Rattle.verdict.specs.WitnessText as spec;
ghost use Rattle.verdict.specs.WitnessText.{discovery_text};

use crate::counts::{Counted, Letters, UpTo};
use crate::shortfalls::Shortfall;
use crate::show_commands::ShowCommand;
use crate::topics::Topic;
use crate::witnesses::{Discovery, Witness};
use drawing::Drawn;
use patterns::Match;
use std::io::Write;
use texts::{Block, Either, Text, When, WriteFault, write};

/// That the schedule of a witness leads to its outcome.
#[derive(Clone, Copy)]
struct Leads<'a> {
    path: &'a [u8],
    witness: &'a Witness,
}

impl Text for Leads<'_> {
    ghost text = { λ l. spec.leading_text l.path.now (length l.witness.now.schedule)
        l.witness.now.outcome };

    fn put<W: Write>(&self, out: &mut W, block: &mut Block) -> Result<(), WriteFault> {
        let letters = Letters(self.witness.schedule.letters().len() as u64);
        let schedule = (self.path, ": a schedule of ", letters, " leads to ");
        (schedule, &self.witness.outcome, "\n").put(out, block)
    }
}

/// Which pattern an outcome matches, of so many that were looked for; nothing where there is but
/// one.
#[derive(Clone, Copy)]
struct Matched<'a> {
    sought: u64,
    found: &'a Match,
}

impl Text for Matched<'_> {
    ghost text = { λ m. spec.match_text m.sought m.found.now };

    fn put<W: Write>(&self, out: &mut W, block: &mut Block) -> Result<(), WriteFault> {
        if self.sought == 1 {
            return Ok(());
        }
        let pattern = (
            "It matches pattern ",
            self.found.number,
            " of ",
            self.sought,
        );
        (pattern, ": ", &self.found.pattern, "\n").put(out, block)
    }
}

/// Where no schedule leads, of so many patterns.
#[derive(Clone, Copy)]
struct Nowhere(u64);

impl Text for Nowhere {
    ghost text = { λ n. spec.nowhere n.0 };

    fn put<W: Write>(&self, out: &mut W, block: &mut Block) -> Result<(), WriteFault> {
        Either(self.0 == 1, "there", ("to any of ", self.0, " patterns")).put(out, block)
    }
}

/// A pattern of so many, by its number; the only one without.
#[derive(Clone, Copy)]
struct Numbered(u64, u64);

impl Text for Numbered {
    ghost text = { λ n. spec.pattern_told n.0 n.1 };

    fn put<W: Write>(&self, out: &mut W, block: &mut Block) -> Result<(), WriteFault> {
        Either(self.0 == 1, "The pattern", ("Pattern ", self.1)).put(out, block)
    }
}

/// Which of so many patterns asks for more numbers than a process emits.
#[derive(Clone, Copy)]
struct InVain(u64, Shortfall);

impl Text for InVain {
    ghost text = { λ v. spec.shortfall_text v.0 v.1 };

    fn put<W: Write>(&self, out: &mut W, block: &mut Block) -> Result<(), WriteFault> {
        let shortfall = self.1;
        let pattern = Numbered(self.0, shortfall.pattern);
        let asked = Counted(shortfall.asked, "number", "s");
        let asks = (
            pattern,
            " cannot match: it asks for ",
            asked,
            " of process ",
        );
        let most = Either(shortfall.most == 0, "none", ("at most ", shortfall.most));
        (asks, shortfall.process, ", which emits ", most, ".\n").put(out, block)
    }
}

/// Which of the patterns that were looked for asks for more crashes than there may be, or for more
/// numbers than a process emits, where one does.
#[derive(Clone, Copy)]
struct Unmatched<'a>(&'a Discovery);

impl Text for Unmatched<'_> {
    ghost text = { λ u. spec.unmatched_text u.0.now };

    fn put<W: Write>(&self, out: &mut W, block: &mut Block) -> Result<(), WriteFault> {
        let sought = self.0.sought;
        let asks = " asks for more crashes than there may be: give a greater --crashes.\n";
        let excess = match self.0.excess {
            Some(number) => Some((Numbered(sought, number), asks)),
            None => None,
        };
        let shortfall = match self.0.shortfall {
            Some(shortfall) => Some(InVain(sought, shortfall)),
            None => None,
        };
        (excess, shortfall).put(out, block)
    }
}

/// Writes what was found of the source in the file of a path: the least schedule that leads to
/// an outcome that was looked for, which of several patterns it matches, its drawing and the
/// command that draws it again; or that none does, how far was looked, and whether a pattern asks
/// for more crashes than there may be, or for more numbers than a process emits. Where the shortest
/// one was asked for, that no shorter one does. After a fault the writer has taken a beginning of
/// it.
pub fn write_discovery<W: Write>(
    topic: Topic<'_>,
    discovery: &Discovery,
    is_shortest: bool,
    out: &mut W,
) -> Result<(), WriteFault>
    ensures { Wrote W.contents out.old out.new
        (discovery_text topic.entry.program.now topic.entry.path.now topic.entry.text.now
        topic.entry.breadth discovery.now is_shortest) result }
{
    let Topic {
        program,
        path,
        text,
        breadth,
    } = topic;
    let sought = discovery.sought;
    match &discovery.witness {
        Some(witness) => {
            let leads = Leads { path, witness };
            let matched = Matched {
                sought,
                found: &witness.matched,
            };
            let no_shorter = ("No shorter one leads ", Nowhere(sought), ".\n");
            let matched = (matched, When(is_shortest, no_shorter));
            let drawing = Drawn {
                drawing: &witness.drawing,
                text,
                breadth,
            };
            let show = ShowCommand {
                program,
                path,
                breadth,
                schedule: &witness.schedule,
            };
            write(&(leads, matched, "\n", drawing, show), out)
        }
        None => {
            let bounds = UpTo {
                length: u64::from(discovery.least.length()),
                crashes: u64::from(discovery.least.crashes()),
            };
            let nowhere = (path, ": no schedule leads ", Nowhere(sought), bounds);
            write(&(nowhere, Unmatched(discovery)), out)
        }
    }
}

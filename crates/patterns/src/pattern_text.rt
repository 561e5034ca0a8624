//! The texts of patterns. No call takes memory.

ghost use Rattle.patterns.specs.PatternText.{pattern_text, standing_text};

use crate::patterns::{Pattern, StandingPattern};
use std::io::Write;
use texts::{Block, Joined, Text, WriteFault};

/// How a process may stand.
impl Text for StandingPattern {
    ghost text = { standing_text };

    fn put<W: Write>(&self, out: &mut W, block: &mut Block) -> Result<(), WriteFault> {
        match self {
            StandingPattern::Any => "*".put(out, block),
            StandingPattern::Done => "done *".put(out, block),
            StandingPattern::Emitted(number) => ("done * ", *number, " *").put(out, block),
            StandingPattern::Just(end) => end.put(out, block),
        }
    }
}

/// How each process may stand, parted by `; `.
impl Text for Pattern {
    ghost text = { pattern_text };

    fn put<W: Write>(&self, out: &mut W, block: &mut Block) -> Result<(), WriteFault> {
        let items = self.standings();
        Joined { items, by: "; " }.put(out, block)
    }
}

//! Numbers of things, in words, and how far was explored.

ghost use Rattle.verdict.specs.VerdictText as spec;

use std::io::Write;
use texts::{Block, Either, Text, WriteFault};

/// A number of things: so many of what the noun says, with its ending, which is left out for one
/// thing.
#[derive(Clone, Copy)]
pub struct Counted<'a>(pub u64, pub &'a str, pub &'a str);

impl Text for Counted<'_> {
    ghost text = { λ c. spec.counted c.0 c.1.now c.2.now };

    fn put<W: Write>(&self, out: &mut W, block: &mut Block) -> Result<(), WriteFault> {
        let Counted(number, noun, ending) = *self;
        let ending = if number == 1 { "" } else { ending };
        (number, " ", noun, ending).put(out, block)
    }
}

/// A number of letters.
#[derive(Clone, Copy)]
pub struct Letters(pub u64);

impl Text for Letters {
    ghost text = { λ l. spec.letters_text l.0 };

    fn put<W: Write>(&self, out: &mut W, block: &mut Block) -> Result<(), WriteFault> {
        Counted(self.0, "letter", "s").put(out, block)
    }
}

/// How many letters a schedule had at most, and how many processes could crash, behind what is said
/// of them.
#[derive(Clone, Copy)]
pub struct UpTo {
    /// The number of letters.
    pub length: u64,
    /// The number of processes.
    pub crashes: u64,
}

impl Text for UpTo {
    ghost text = { λ b. spec.up_to_text b.length b.crashes };

    fn put<W: Write>(&self, out: &mut W, block: &mut Block) -> Result<(), WriteFault> {
        let length = Letters(self.length);
        let some = Counted(self.crashes, "crash", "es");
        let crashes = Either(self.crashes == 0, "no crashes", some);
        (", up to ", length, " and ", crashes, "\n").put(out, block)
    }
}

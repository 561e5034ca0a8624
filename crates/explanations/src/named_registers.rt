//! Which register a name stands for, as the comments of a text tell for drawings.

ghost use Rattle.std.specs.Prelude.{◌≡◌, option_copied};
ghost use Rattle.explanations.specs.NamedRegisters as spec;
ghost use Rattle.reglines.specs.Lines.{lines, words};

use reglines::{number_in, split_line, split_word, word_of};
use std::io::Write;
use texts::{Block, Text, WriteFault};

/// What stands before the colon with which a word ends.
fn before_colon(word: &[u8]) -> Option<&[u8]>
    ensures { option_copied result ≡ spec.before_colon word.now }
{
    let (last, before) = word.split_last()?;
    if *last != b':' {
        return None;
    }
    Some(before)
}

/// The number that stands with a colon before this name, where there are just these two words.
fn number_before(name: &[u8], line: &[u8]) -> Option<u32>
    ensures { result ≡ spec.number_before name.now (words line.now) }
{
    let (number, rest) = split_word(line)?;
    let (called, rest) = split_word(rest)?;
    if split_word(rest).is_some() {
        return None;
    }
    if called != name {
        return None;
    }
    number_in(word_of(before_colon(number)?))
}

/// The register to which a line gives this name, where it does: `# register N: NAME`.
fn register_in(name: &[u8], line: &[u8]) -> Option<u32>
    ensures { result ≡ spec.register_in name.now (words line.now) }
{
    let (first, rest) = split_word(line)?;
    let (second, rest) = split_word(rest)?;
    if first != b"#".as_slice() {
        return None;
    }
    if second != b"register".as_slice() {
        return None;
    }
    number_before(name, rest)
}

/// The register to which the first line of a text gives this name that gives it to one.
pub(crate) fn register_named(text: &[u8], name: &[u8]) -> Option<u32>
    ensures { result ≡ spec.first_named name.now (lines text.now) }
{
    let mut rest = text;
    while let Some((line, after)) = split_line(rest) {
        if let Some(register) = register_in(name, line) {
            return Some(register);
        }
        rest = after;
    }
    None
}

/// That a name stands for the register with this number.
#[derive(Clone, Copy)]
pub(crate) struct NamedRegister(pub(crate) u32);

impl Text for NamedRegister {
    ghost text = { λ register. spec.register_text register.0 };

    fn put<W: Write>(&self, out: &mut W, block: &mut Block) -> Result<(), WriteFault> {
        let names = "names stand in drawings alone: write the number of the register, ";
        (names, self.0).put(out, block)
    }
}

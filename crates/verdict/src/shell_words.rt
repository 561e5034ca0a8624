//! Words as a POSIX shell takes them.

ghost use Rattle.std.specs.Prelude.{◌≡◌};
ghost use Rattle.std.specs.List.{list_all};
ghost use Rattle.verdict.specs.ShellWords as spec;

use std::io::Write;
use texts::{Block, Text, WriteFault};

/// A file's path as it is to be typed in a POSIX shell, behind a program that takes options:
/// between quotes where it has a byte of which a shell makes something else, and behind `--` where
/// it begins with a dash. One dash alone stands for standard input, and is typed so.
#[derive(Clone, Copy)]
pub struct ShellPath<'a>(pub &'a [u8]);

impl Text for ShellPath<'_> {
    ghost text = { λ path. spec.operand_text path.0.now };

    fn put<W: Write>(&self, out: &mut W, block: &mut Block) -> Result<(), WriteFault> {
        let mark = quote_mark(self.0);
        let word = (mark, Quoted(self.0), mark);
        (option_guard(self.0), word).put(out, block)
    }
}

/// Bytes between quotes.
#[derive(Clone, Copy)]
struct Quoted<'a>(&'a [u8]);

impl Text for Quoted<'_> {
    ghost text = { λ word. spec.quoted_text word.0.now };

    fn put<W: Write>(&self, out: &mut W, block: &mut Block) -> Result<(), WriteFault> {
        for byte in self.0 {
            QuotedByte(*byte).put(out, block)?;
        }
        Ok(())
    }
}

/// A byte between quotes.
#[derive(Clone, Copy)]
struct QuotedByte(u8);

impl Text for QuotedByte {
    ghost text = { λ byte. spec.quoted_byte byte.0 };

    fn put<W: Write>(&self, out: &mut W, block: &mut Block) -> Result<(), WriteFault> {
        if self.0 == b'\'' {
            return "'\\''".put(out, block);
        }
        block.put_byte(out, self.0)
    }
}

/// What stands around a word, so that a shell takes its bytes as they are.
fn quote_mark(word: &[u8]) -> &'static str
    ensures { result.now ≡ spec.quote_mark word.now }
{
    if is_plain(word) { "" } else { "'" }
}

/// Whether a shell takes a word as it stands.
fn is_plain(word: &[u8]) -> bool
    ensures { result ≡ spec.is_plain word.now }
{
    !word.is_empty() && are_plain(word)
}

/// Whether a shell takes each of some bytes as it stands.
fn are_plain(bytes: &[u8]) -> bool
    ensures { result ≡ list_all spec.is_plain_byte bytes.now }
{
    bytes.iter().all(|byte| is_plain_byte(*byte))
}

/// Whether a shell takes a byte as it stands.
fn is_plain_byte(byte: u8) -> bool
    ensures { result ≡ spec.is_plain_byte byte }
{
    byte.is_ascii_alphanumeric() || b"%+,-./:@_".contains(&byte)
}

/// What stands before a word, so that a program takes it for no option.
fn option_guard(word: &[u8]) -> &'static str
    ensures { result.now ≡ spec.option_guard word.now }
{
    if is_option_like(word) { "-- " } else { "" }
}

/// Whether a program would take a word for an option: it begins with a dash, and is not one alone.
fn is_option_like(word: &[u8]) -> bool
    ensures { result ≡ spec.is_option_like word.now }
{
    match word {
        [first, _, ..] => *first == b'-',
        _ => false,
    }
}

//! Words, as they are written.

ghost use Rattle.std.specs.Prelude.{◌≡◌, ◌++◌, OnOk, decimal};
ghost use Rattle.reglang.specs.Writing as spec;
ghost use Rattle.reglang.specs.Writing.{between};

use itoa::Buffer;
use reglines::{Spelled, Word};
use regmodel::{Operand, OutOfMemory};

/// Appends the digits of a number.
fn push_number(text: &mut Vec<u8>, n: u32) -> Result<(), OutOfMemory>
    ensures { OnOk result (text.new.items ≡ text.old.items ++ decimal n) }
{
    let mut buffer = Buffer::new();
    text.extend_from_slice(buffer.format(n).as_bytes())?;
    Ok(())
}

/// Appends a number between two pieces of text.
fn push_between(text: &mut Vec<u8>, before: &[u8], n: u32, after: &[u8]) -> Result<(), OutOfMemory>
    ensures { OnOk result (text.new.items ≡ text.old.items ++ between before.now n after.now) }
{
    text.extend_from_slice(before)?;
    push_number(text, n)?;
    text.extend_from_slice(after)?;
    Ok(())
}

/// Appends an operand.
fn push_operand(text: &mut Vec<u8>, operand: Operand) -> Result<(), OutOfMemory>
    ensures { OnOk result (text.new.items ≡ text.old.items ++ spec.operand_text operand) }
{
    match operand {
        Operand::Number(n) => push_number(text, n),
        Operand::Var(i) => push_between(text, b"v", u32::from(i), b""),
        Operand::Cell(i) => push_between(text, b"[", u32::from(i), b"]"),
        Operand::CellOf(i) => push_between(text, b"[v", u32::from(i), b"]"),
    }
}

/// Appends a piece of text.
fn push_piece(text: &mut Vec<u8>, piece: &[u8]) -> Result<(), OutOfMemory>
    ensures { OnOk result (text.new.items ≡ text.old.items ++ piece.now) }
{
    text.extend_from_slice(piece)?;
    Ok(())
}

/// Appends a word. A word that no line has leaves the text as it is. An error where a request for
/// memory was refused.
pub fn push_word(text: &mut Vec<u8>, word: Word) -> Result<(), OutOfMemory>
    ensures { OnOk result (text.new.items ≡ text.old.items ++ spec.word_text word) }
{
    match word {
        Word::Keyword(key) => push_piece(text, key.text()),
        Word::Operand(operand) => push_operand(text, operand),
        Word::Operator(op) => push_piece(text, op.text()),
        Word::Kind(kind) => push_piece(text, kind.text()),
        Word::Property(property) => push_piece(text, property.text()),
        Word::NoNumber | Word::Comment | Word::Other => Ok(()),
    }
}

//! What can be written as a text, its parts, and texts one after another. No call takes memory.

ghost use Rattle.texts.specs.Appending.{Adds, Wrote};
ghost use Rattle.std.specs.Prelude.{◌++◌, [], Some, None, decimal, if◌then◌else◌};
ghost use Rattle.std.specs.List.{flat_map, join_by};
ghost use Rattle.texts.specs.NumberText.{number_line};

use crate::blocks::Block;
use crate::faults::WriteFault;
use itoa::Buffer;
use std::io::Write;

/// What can be written as a text.
pub trait Text {
    ghost use Rattle.std.specs.Prelude.{ℕ, List};

    /// The bytes of its text.
    ghost text: { Self → List ℕ };

    /// Puts its text behind the bytes that are kept back.
    fn put<W: Write>(&self, out: &mut W, block: &mut Block) -> Result<(), WriteFault>
        ensures { Adds W.contents out.old block.old out.new block.new (text self.now) result };
}

/// Writes a text: the writer is called once for many bytes. After a fault it has taken a
/// beginning of the text.
pub fn write<T: Text, W: Write>(text: &T, out: &mut W) -> Result<(), WriteFault>
    ensures { Wrote W.contents out.old out.new (T.text text.now) result }
{
    let mut block = Block::new();
    text.put(out, &mut block)?;
    block.flush(out)
}

impl<T: Text> Text for &T {
    ghost text = { λ x. T.text x.now };

    fn put<W: Write>(&self, out: &mut W, block: &mut Block) -> Result<(), WriteFault> {
        (**self).put(out, block)
    }
}

impl Text for &[u8] {
    ghost text = { λ bytes. bytes.now };

    fn put<W: Write>(&self, out: &mut W, block: &mut Block) -> Result<(), WriteFault> {
        block.put(out, self)
    }
}

impl Text for &str {
    ghost text = { λ s. s.now };

    fn put<W: Write>(&self, out: &mut W, block: &mut Block) -> Result<(), WriteFault> {
        let bytes = self.as_bytes();
        if let [byte] = bytes {
            // One byte, as between two words, is not copied as many are.
            return block.put_byte(out, *byte);
        }
        block.put(out, bytes)
    }
}

/// The digits of a number.
impl Text for u64 {
    ghost text = { decimal };

    fn put<W: Write>(&self, out: &mut W, block: &mut Block) -> Result<(), WriteFault> {
        if *self < 10 {
            // One digit, as names and small values have, needs no buffer.
            return block.put_byte(out, b'0' + *self as u8);
        }
        let mut buffer = Buffer::new();
        block.put(out, buffer.format(*self).as_bytes())
    }
}

/// The digits of a number.
impl Text for u32 {
    ghost text = { decimal };

    fn put<W: Write>(&self, out: &mut W, block: &mut Block) -> Result<(), WriteFault> {
        u64::from(*self).put(out, block)
    }
}

/// The digits of a number.
impl Text for u8 {
    ghost text = { decimal };

    fn put<W: Write>(&self, out: &mut W, block: &mut Block) -> Result<(), WriteFault> {
        u64::from(*self).put(out, block)
    }
}

/// One text after the other.
impl<A: Text, B: Text> Text for (A, B) {
    ghost text = { λ t. A.text t.0 ++ B.text t.1 };

    fn put<W: Write>(&self, out: &mut W, block: &mut Block) -> Result<(), WriteFault> {
        self.0.put(out, block)?;
        self.1.put(out, block)
    }
}

impl<A: Text, B: Text, C: Text> Text for (A, B, C) {
    ghost text = { λ t. A.text t.0 ++ B.text t.1 ++ C.text t.2 };

    fn put<W: Write>(&self, out: &mut W, block: &mut Block) -> Result<(), WriteFault> {
        ((&self.0, &self.1), &self.2).put(out, block)
    }
}

impl<A: Text, B: Text, C: Text, D: Text> Text for (A, B, C, D) {
    ghost text = { λ t. A.text t.0 ++ B.text t.1 ++ C.text t.2 ++ D.text t.3 };

    fn put<W: Write>(&self, out: &mut W, block: &mut Block) -> Result<(), WriteFault> {
        ((&self.0, &self.1, &self.2), &self.3).put(out, block)
    }
}

impl<A: Text, B: Text, C: Text, D: Text, E: Text> Text for (A, B, C, D, E) {
    ghost text = { λ t. A.text t.0 ++ B.text t.1 ++ C.text t.2 ++ D.text t.3 ++ E.text t.4 };

    fn put<W: Write>(&self, out: &mut W, block: &mut Block) -> Result<(), WriteFault> {
        ((&self.0, &self.1, &self.2, &self.3), &self.4).put(out, block)
    }
}

/// The text where there is one.
impl<T: Text> Text for Option<T> {
    ghost text = { elim [ Some x ↦ T.text x | None ↦ [] ] };

    fn put<W: Write>(&self, out: &mut W, block: &mut Block) -> Result<(), WriteFault> {
        match self {
            Some(text) => text.put(out, block),
            None => Ok(()),
        }
    }
}

/// A text where something is so, else none.
#[derive(Clone, Copy)]
pub struct When<T>(pub bool, pub T);

impl<T: Text> Text for When<T> {
    ghost text = { λ t. if t.0 then T.text t.1 else [] };

    fn put<W: Write>(&self, out: &mut W, block: &mut Block) -> Result<(), WriteFault> {
        if self.0 {
            self.1.put(out, block)
        } else {
            Ok(())
        }
    }
}

/// One text where something is so, else another.
#[derive(Clone, Copy)]
pub struct Either<A, B>(pub bool, pub A, pub B);

impl<A: Text, B: Text> Text for Either<A, B> {
    ghost text = { λ t. if t.0 then A.text t.1 else B.text t.2 };

    fn put<W: Write>(&self, out: &mut W, block: &mut Block) -> Result<(), WriteFault> {
        if self.0 {
            self.1.put(out, block)
        } else {
            self.2.put(out, block)
        }
    }
}

/// Some texts, one after another, each behind the same bytes.
#[derive(Clone, Copy)]
pub struct Led<'a, T> {
    /// The bytes.
    pub by: &'a str,
    /// The texts.
    pub items: &'a [T],
}

impl<T: Text> Text for Led<'_, T> {
    ghost text = { λ row. flat_map (λ item. row.by.now ++ T.text item) row.items.now };

    fn put<W: Write>(&self, out: &mut W, block: &mut Block) -> Result<(), WriteFault> {
        for item in self.items {
            (self.by, item).put(out, block)?;
        }
        Ok(())
    }
}

/// Some texts, one after another, parted by the same bytes.
#[derive(Clone, Copy)]
pub struct Joined<'a, T> {
    /// The texts.
    pub items: &'a [T],
    /// The bytes.
    pub by: &'a str,
}

impl<T: Text> Text for Joined<'_, T> {
    ghost text = { λ row. join_by T.text row.by.now row.items.now };

    fn put<W: Write>(&self, out: &mut W, block: &mut Block) -> Result<(), WriteFault> {
        match self.items {
            [] => Ok(()),
            [first, items @ ..] => (first, Led { by: self.by, items }).put(out, block),
        }
    }
}

/// A word and a number on a line.
#[derive(Clone, Copy)]
pub struct NumberLine<'a> {
    /// The word.
    pub word: &'a str,
    /// The number.
    pub number: u64,
}

impl<'a> NumberLine<'a> {
    ghost use Rattle.std.specs.Prelude.{◌≡◌};

    /// The line of this word and this number.
    pub fn new(word: &'a str, number: u64) -> NumberLine<'a>
        ensures word { result.word.now ≡ word.now }
        ensures number { result.number ≡ number }
    {
        NumberLine { word, number }
    }
}

impl Text for NumberLine<'_> {
    ghost text = { λ line. number_line line.word.now line.number };

    fn put<W: Write>(&self, out: &mut W, block: &mut Block) -> Result<(), WriteFault> {
        (self.word, " ", self.number, "\n").put(out, block)
    }
}

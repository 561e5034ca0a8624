//! The lines of a stream of parts. No call takes memory.

use crate::faults::PartCause;
use arrayvec::ArrayVec;
use texts::ByteReader;

/// The most bytes of a line, without its line feed. The longest one, an outcome of 8 processes with
/// 8 numbers each, has 798.
pub(crate) const MOST_LINE_BYTES: usize = 1024;

/// Parts that are read one after another. It holds one line at a time.
#[derive(Drop)]
pub struct PartStream<R> {
    pub(crate) reader: R,
    /// The line that was read last, without its line feed.
    pub(crate) line: ArrayVec<u8, MOST_LINE_BYTES>,
    /// Which line of the stream that is, from 1 on; 0 before the first.
    pub(crate) number: u64,
}

impl<R: ByteReader> PartStream<R> {
    ghost use Rattle.std.specs.Prelude.{◌≡◌, ◌∷◌, [], ◌++◌, IfErr, IfOk, OnOk, Some, true, false};
    ghost use Rattle.part_texts.specs.declared.faults.PartCause.TheVariants.{Unreadable};
    ghost use Rattle.std.specs.Io.KnownBytes.{Consumes, IsAtEnd};
    ghost use Rattle.texts.specs.Cuts.{has_no};
    ghost use Rattle.part_texts.specs.Causes.{IsOutwardAt, IsUnreadOnlyIf};
    ghost use Rattle.part_texts.specs.Streams.{FitsLine, left_of, line_text};

    /// The parts that this reader tells.
    pub fn new(reader: R) -> PartStream<R>
        ensures { left_of R.left result ≡ R.left reader }
    {
        PartStream {
            reader,
            line: ArrayVec::new(),
            number: 0,
        }
    }

    /// Reads one line. False where nothing is left; then the only error is that the
    /// reader answered one.
    pub(crate) fn next_line(&mut self) -> Result<bool, PartCause>
        ensures line { IfOk result (λ there. there ≡ true
            → Consumes (left_of R.left self.old) (left_of R.left self.new)
            (self.new.line.items ++ 10 ∷ [])) }
        ensures one { IfOk result (λ there. there ≡ true → has_no 10 self.new.line.items ≡ true) }
        ensures before { IfOk result
            (λ there. there ≡ false → IsAtEnd (left_of R.left self.old)) }
        ensures end { IfOk result
            (λ there. there ≡ false → IsAtEnd (left_of R.left self.new)) }
        ensures err { IfErr result
            (λ cause. left_of R.left self.old ≡ Some [] → cause ≡ Unreadable) }
        ensures whole { IfErr result
            (IsOutwardAt FitsLine line_text (left_of R.left self.old)) }
        ensures unread { IfErr result (IsUnreadOnlyIf R.may_fail) }
    {
        self.number = self.number.saturating_add(1);
        self.line.clear();
        loop {
            match self.reader.next_byte()? {
                Some(b'\n') => return Ok(true),
                Some(byte) => self.line.try_push(byte).map_err(|_| PartCause::LongLine)?,
                None if self.line.is_empty() => return Ok(false),
                None => return Err(PartCause::Unfinished),
            }
        }
    }

    /// Reads one line, where the text may not end before it.
    pub(crate) fn wanted_line(&mut self) -> Result<(), PartCause>
        ensures line { OnOk result
            (Consumes (left_of R.left self.old) (left_of R.left self.new)
            (self.new.line.items ++ 10 ∷ [])) }
        ensures one { OnOk result (has_no 10 self.new.line.items ≡ true) }
        ensures whole { IfErr result
            (IsOutwardAt FitsLine line_text (left_of R.left self.old)) }
        ensures unread { IfErr result (IsUnreadOnlyIf R.may_fail) }
    {
        if self.next_line()? {
            Ok(())
        } else {
            Err(PartCause::Unfinished)
        }
    }
}

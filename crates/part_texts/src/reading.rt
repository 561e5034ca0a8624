//! A part, read from a stream.

use crate::faults::{BadPart, PartCause};
use crate::heads::PartHead;
use crate::lines::{after, number_after, outcome_after, part_in};
use crate::parts::{PartFound, PartReport};
use crate::ranges::{narrow, part_of, settings_of};
use crate::rising::comes_last;
use crate::streams::PartStream;
use regmodel::limits::MOST_SOURCE_BYTES;
use regmodel::{Outcome, Prefix, Settings, read_schedule};
use std::alloc::Global;
use tallies::Partial;
use texts::ByteReader;

impl<R: ByteReader> PartStream<R> {
    ghost use Rattle.std.specs.Prelude.{◌≡◌, ◌++◌, ◌^◌, ◌<◌, ◌≤◌, ℕ, [], IfErr, IfOk, List, OnOk, Some, length};
    ghost use Rattle.std.specs.Io.KnownBytes.{Consumes};
    ghost use Rattle.regmodel.specs.declared.limits.TheConstants.{MOST_SOURCE_BYTES};
    ghost use Rattle.report.specs.ReportText.{least_text};
    ghost use Rattle.texts.specs.NumberText.{number_line};
    ghost use Rattle.part_texts.specs.declared.faults.PartCause.TheVariants.{Unreadable};
    ghost use Rattle.part_texts.specs.Causes.{IsOutward, IsOutwardAt, IsOutwardBehind, IsUnreadOnlyIf};
    ghost use Rattle.part_texts.specs.FitsPart.{FitsFound, FitsLeast, FitsNumber, FitsOutcome, FitsOutcomeBehind, FitsOutcomes, FitsPart, IsProcessCount};
    ghost use Rattle.part_texts.specs.NextParts.{IsNextPart};
    ghost use Rattle.part_texts.specs.PlainHead.{FitsHead};
    ghost use Rattle.part_texts.specs.PartText.{bounds_in, part_bounds_text, end_text, found_text, head_text, outcome_behind, outcomes_text, part_text, source_text};
    ghost use Rattle.part_texts.specs.Streams.{Reads, ReadsBehind, left_of};

    /// The next part; None where nothing is left. An error names the line at fault, and says
    /// what is wrong with it, that a request for memory was refused, or that the reader
    /// answered an error, as only one of a type that may fail does. Where what is left begins
    /// with the text of a part, it is one of the last two; where nothing is left, it is the last
    /// one. After an error the stream stands in the midst of a text.
    pub fn next_part(&mut self, alloc: Global) -> Result<Option<PartReport>, BadPart>
        ensures next { IfOk result
            (IsNextPart (left_of R.left self.old) (left_of R.left self.new)) }
        ensures err { IfErr result
            (λ bad. left_of R.left self.old ≡ Some [] → bad.cause ≡ Unreadable) }
        ensures whole { IfErr result
            (λ bad. IsOutwardAt FitsPart part_text (left_of R.left self.old) bad.cause) }
        ensures unread { IfErr result (λ bad. IsUnreadOnlyIf R.may_fail bad.cause) }
        ensures line { IfErr result (λ bad. bad.line ≡ self.new.number) }
    {
        match self.next_line() {
            Ok(true) => {}
            Ok(false) => return Ok(None),
            Err(cause) => {
                return Err(BadPart {
                    line: self.number,
                    cause,
                });
            }
        }
        match self.part(alloc) {
            Ok(part) => Ok(Some(part)),
            Err(cause) => Err(BadPart {
                line: self.number,
                cause,
            }),
        }
    }

    /// The part whose first line is read.
    fn part(&mut self, alloc: Global) -> Result<PartReport, PartCause>
        ensures text { IfOk result (ReadsBehind R.left part_text self.old self.new) }
        ensures fits { IfOk result FitsPart }
        ensures whole { IfErr result (IsOutwardBehind R.left FitsPart part_text self.old) }
        ensures unread { IfErr result (IsUnreadOnlyIf R.may_fail) }
    {
        let head = self.head(alloc)?;
        let found = self.found(alloc, head.processes())?;
        self.end()?;
        Ok(PartReport { head, found })
    }

    /// Reads the last line of a part.
    fn end(&mut self) -> Result<(), PartCause>
        ensures text { OnOk result
            (Consumes (left_of R.left self.old) (left_of R.left self.new) end_text) }
        ensures whole { IfErr result (λ cause. (rest : List ℕ)
            → left_of R.left self.old ≡ Some (end_text ++ rest) → IsOutward cause) }
        ensures unread { IfErr result (IsUnreadOnlyIf R.may_fail) }
    {
        self.wanted_line()?;
        if self.line.as_slice() == b"end".as_slice() {
            Ok(())
        } else {
            Err(PartCause::Other)
        }
    }

    /// The head whose first line is read.
    fn head(&mut self, alloc: Global) -> Result<PartHead, PartCause>
        ensures text { IfOk result (ReadsBehind R.left head_text self.old self.new) }
        ensures fits { IfOk result FitsHead }
        ensures whole { IfErr result (IsOutwardBehind R.left FitsHead head_text self.old) }
        ensures unread { IfErr result (IsUnreadOnlyIf R.may_fail) }
    {
        let (number, count) = part_in(self.line.as_slice()).ok_or(PartCause::Other)?;
        let part = part_of(number, count)?;
        let (processes, settings) = self.bounds()?;
        let source = self.source(alloc)?;
        match PartHead::new(part, processes, settings, source) {
            Some(head) => Ok(head),
            None => Err(PartCause::OutOfRange),
        }
    }

    /// How many processes there are, and how far is explored.
    fn bounds(&mut self) -> Result<(u32, Settings), PartCause>
        ensures text { IfOk result
            (λ (processes, settings). Consumes (left_of R.left self.old)
            (left_of R.left self.new)
            (part_bounds_text processes settings.length settings.crashes settings.cut)) }
        ensures small { IfOk result
            (λ (processes, settings). (processes < 2 ^ 64) × (settings.length < 2 ^ 64)
            × (settings.crashes < 2 ^ 64) × (settings.cut < 2 ^ 64)) }
        ensures whole { IfErr result
            (IsOutwardAt FitsHead bounds_in (left_of R.left self.old)) }
        ensures unread { IfErr result (IsUnreadOnlyIf R.may_fail) }
    {
        let processes = self.number_behind(b"processes")?;
        let length = self.number_behind(b"length")?;
        let crashes = self.number_behind(b"crashes")?;
        let cut = self.number_behind(b"cut")?;
        Ok((narrow(processes)?, settings_of(length, crashes, cut)?))
    }

    /// The number behind a word on the next line.
    fn number_behind(&mut self, word: &[u8]) -> Result<u64, PartCause>
        ensures text { IfOk result
            (Reads R.left (number_line word.now) self.old self.new) }
        ensures whole { IfErr result
            (IsOutwardAt (FitsNumber word.now) (number_line word.now)
            (left_of R.left self.old)) }
        ensures unread { IfErr result (IsUnreadOnlyIf R.may_fail) }
    {
        self.wanted_line()?;
        number_after(self.line.as_slice(), word).ok_or(PartCause::Other)
    }

    /// The source, behind a line with the number of its bytes.
    fn source(&mut self, alloc: Global) -> Result<Vec<u8>, PartCause>
        ensures text { IfOk result
            (λ source. Reads R.left source_text self.old self.new source.items) }
        ensures few { IfOk result (λ source. length source.items ≤ MOST_SOURCE_BYTES) }
        ensures whole { IfErr result
            (IsOutwardAt (λ source. length source ≤ MOST_SOURCE_BYTES) source_text
            (left_of R.left self.old)) }
        ensures unread { IfErr result (IsUnreadOnlyIf R.may_fail) }
    {
        let count = self.number_behind(b"source")?;
        if count > MOST_SOURCE_BYTES as u64 {
            return Err(PartCause::OutOfRange);
        }
        self.bytes(alloc, count as usize)
    }

    /// So many bytes.
    fn bytes(&mut self, alloc: Global, count: usize) -> Result<Vec<u8>, PartCause>
        ensures text { IfOk result
            (λ bytes. Consumes (left_of R.left self.old) (left_of R.left self.new)
            bytes.items) }
        ensures count { IfOk result (λ bytes. length bytes.items ≡ count) }
        ensures whole { IfErr result (λ cause. (text : List ℕ) → count ≤ length text
            → left_of R.left self.old ≡ Some text → IsOutward cause) }
        ensures unread { IfErr result (IsUnreadOnlyIf R.may_fail) }
    {
        let mut bytes = Vec::with_capacity(alloc, count).map_err(|_| PartCause::NoMemory)?;
        for _ in 0..count {
            let byte = self.reader.next_byte()?.ok_or(PartCause::Unfinished)?;
            if byte == b'\n' {
                self.number = self.number.saturating_add(1);
            }
            bytes.push(byte).map_err(|_| PartCause::NoMemory)?;
        }
        Ok(bytes)
    }

    /// What was found: all, or the least failing schedule alone.
    fn found(&mut self, alloc: Global, processes: u32) -> Result<PartFound, PartCause>
        ensures text { IfOk result (Reads R.left found_text self.old self.new) }
        ensures fits { IfOk result (FitsFound processes) }
        ensures whole { IsProcessCount processes → IfErr result
            (IsOutwardAt (FitsFound processes) found_text (left_of R.left self.old)) }
        ensures unread { IfErr result (IsUnreadOnlyIf R.may_fail) }
    {
        self.wanted_line()?;
        let Some(tried) = number_after(self.line.as_slice(), b"tried") else {
            return Ok(PartFound::Least(self.least(processes)?));
        };
        let outcomes = self.outcomes(alloc, processes)?;
        self.wanted_line()?;
        let least = self.least(processes)?;
        Ok(PartFound::Explored(Partial::of(tried, outcomes, least)))
    }

    /// The outcomes, rising, behind a line with their number.
    fn outcomes(&mut self, alloc: Global, processes: u32) -> Result<Vec<Outcome>, PartCause>
        ensures text { IfOk result
            (λ outcomes. Reads R.left outcomes_text self.old self.new outcomes.items) }
        ensures fits { IfOk result (λ outcomes. FitsOutcomes processes outcomes.items) }
        ensures whole { IsProcessCount processes → IfErr result
            (IsOutwardAt (FitsOutcomes processes) outcomes_text (left_of R.left self.old)) }
        ensures unread { IfErr result (IsUnreadOnlyIf R.may_fail) }
    {
        let count = self.number_behind(b"outcomes")?;
        let mut outcomes = Vec::new(alloc);
        for _ in 0..count {
            let outcome = self.outcome_behind(b"outcome ", processes)?;
            if !comes_last(outcomes.as_slice(), &outcome) {
                return Err(PartCause::NotRising);
            }
            outcomes.push(outcome).map_err(|_| PartCause::NoMemory)?;
        }
        Ok(outcomes)
    }

    /// The outcome of so many processes behind a word on the next line.
    fn outcome_behind(&mut self, word: &[u8], processes: u32) -> Result<Outcome, PartCause>
        ensures text { IfOk result
            (Reads R.left (outcome_behind word.now) self.old self.new) }
        ensures fits { IfOk result (FitsOutcome processes) }
        ensures whole { IsProcessCount processes → IfErr result
            (IsOutwardAt (FitsOutcomeBehind word.now processes) (outcome_behind word.now)
            (left_of R.left self.old)) }
        ensures unread { IfErr result (IsUnreadOnlyIf R.may_fail) }
    {
        self.wanted_line()?;
        outcome_after(self.line.as_slice(), word, processes).ok_or(PartCause::Other)
    }

    /// The least failing schedule with its outcome, whose first line is read;
    /// None where none fails.
    fn least(&mut self, processes: u32) -> Result<Option<(Prefix, Outcome)>, PartCause>
        ensures text { IfOk result (ReadsBehind R.left least_text self.old self.new) }
        ensures fits { IfOk result (FitsLeast processes) }
        ensures whole { IsProcessCount processes → IfErr result
            (IsOutwardBehind R.left (FitsLeast processes) least_text self.old) }
        ensures unread { IfErr result (IsUnreadOnlyIf R.may_fail) }
    {
        let word = after(self.line.as_slice(), b"least ").ok_or(PartCause::Other)?;
        if word == b"none".as_slice() {
            return Ok(None);
        }
        let schedule = read_schedule(word).ok_or(PartCause::Other)?;
        let _letters = schedule.letters();
        let outcome = self.outcome_behind(b"fails ", processes)?;
        Ok(Some((schedule, outcome)))
    }
}

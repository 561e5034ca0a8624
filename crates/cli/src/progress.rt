//! How far a run has come, told on a writer while workers run: how many pieces are done and how
//! many are known, with how many first letters it is through, how many schedules were counted; and
//! which length is searched next. It tells by its own counts and by no clock.

ghost use Rattle.std.specs.Prelude.{◌≡◌, ◌<◌};
ghost use Rattle.cli.specs.Progress as spec;
ghost use Rattle.cli.specs.Progress.{is_power_times, is_round, length_line, progress_text, schedules_text};

use crate::first_letters::FirstLetters;
use explorer::Gate;
use regmodel::Prefix;
use std::io::Write;
use std::sync::{Mutex, Wait};
use texts::{Block, Either, Text, When, WriteFault, write};

/// A gate that is told, besides, which length is searched next.
pub trait Meter: Gate {
    /// The schedules of up to so many letters are searched next.
    fn length(&self, letters: u32);
}

/// How many pieces are done, how many are known, and how many schedules were counted, each up to
/// the greatest u64; and the first letters of the pieces.
#[derive(Drop)]
struct Counts {
    done: u64,
    known: u64,
    schedules: u64,
    letters: FirstLetters,
}

impl Counts {
    /// No piece is known.
    fn none() -> Counts
        ensures { result ≡ spec.no_counts }
    {
        Counts {
            done: 0,
            known: 0,
            schedules: 0,
            letters: FirstLetters::none(),
        }
    }

    /// One first piece more is known.
    fn begin(&mut self, piece: &Prefix)
        ensures { self.new ≡ spec.with_first_piece self.old piece.now }
    {
        self.known = self.known.saturating_add(1);
        self.letters.begin(piece);
    }

    /// So many parts of a piece are known.
    fn split(&mut self, piece: &Prefix, count: usize)
        ensures { self.new ≡ spec.with_split self.old piece.now count }
    {
        self.known = self.known.saturating_add(count as u64);
        self.letters.split(piece, count);
    }

    /// A piece is done.
    fn end(&mut self, piece: &Prefix)
        ensures { self.new ≡ spec.with_done self.old piece.now }
    {
        self.done = self.done.saturating_add(1);
        self.letters.end(piece);
    }

    /// So many schedules more were counted.
    fn count(&mut self, schedules: u64)
        ensures { self.new ≡ spec.with_schedules self.old schedules }
    {
        self.schedules = self.schedules.saturating_add(schedules);
    }
}

/// Counts, and the writer on which they are told.
#[derive(Drop)]
struct ProgressWriter<'a, E> {
    counts: Counts,
    err: &'a mut E,
}

impl<E: Write> ProgressWriter<'_, E> {
    /// A piece is done. What the writer does not take of the line is left out.
    fn end(&mut self, piece: &Prefix)
        ensures { self.new.counts ≡ spec.with_done self.old.counts piece.now }
    {
        self.counts.end(piece);
        let _ = write(&self.counts, self.err);
    }

    /// The schedules of up to so many letters are searched next, of which no piece is known yet.
    /// What the writer does not take of the line is left out.
    fn begin(&mut self, letters: u32)
        ensures { self.new.counts ≡ spec.no_counts }
    {
        self.counts = Counts::none();
        let _ = write(&LengthLine { letters }, self.err);
    }
}

/// A gate that tells on a writer how far a run has come, where that is asked for: a line each time
/// that the number of pieces done is 1, 3, 5 or 7 times a power of two. Where one length is
/// searched after another, it tells each, and counts anew. Else it does nothing.
#[derive(Drop)]
pub struct Progress<'a, H, E> {
    rt: &'a H,
    telling: Option<Mutex<ProgressWriter<'a, E>>>,
}

impl<'a, H, E> Progress<'a, H, E> {
    /// It tells on this writer. No piece is known.
    pub fn telling(rt: &'a H, err: &'a mut E) -> Progress<'a, H, E> {
        let counts = Counts::none();
        Progress {
            rt,
            telling: Some(Mutex::new(ProgressWriter { counts, err })),
        }
    }

    /// It tells nothing.
    pub fn silent(rt: &'a H) -> Progress<'a, H, E> {
        Progress { rt, telling: None }
    }
}

impl<H: Wait + Sync, E: Write + Send> Gate for Progress<'_, H, E> {
    fn piece(&self, _worker: usize, _prefix: &Prefix) {}

    fn first(&self, pieces: &[Prefix]) {
        if let Some(telling) = &self.telling {
            for piece in pieces {
                telling.lock(self.rt).counts.begin(piece);
            }
        }
    }

    fn split(&self, piece: &Prefix, count: usize) {
        if let Some(telling) = &self.telling {
            telling.lock(self.rt).counts.split(piece, count);
        }
    }

    fn done(&self, piece: &Prefix) {
        if let Some(telling) = &self.telling {
            telling.lock(self.rt).end(piece);
        }
    }

    fn counted(&self, schedules: u64) {
        if let Some(telling) = &self.telling {
            telling.lock(self.rt).counts.count(schedules);
        }
    }
}

impl<H: Wait + Sync, E: Write + Send> Meter for Progress<'_, H, E> {
    fn length(&self, letters: u32) {
        if let Some(telling) = &self.telling {
            telling.lock(self.rt).begin(letters);
        }
    }
}

/// Whether a number is so many times a power of two.
fn is_power_times(factor: u64, number: u64) -> bool
    requires { 0 < factor }
    ensures { result ≡ is_power_times factor number }
{
    number % factor == 0 && (number / factor).is_power_of_two()
}

/// Whether a number is 1, 3, 5 or 7 times a power of two.
fn is_round(number: u64) -> bool
    ensures { result ≡ is_round number }
{
    [1, 3, 5, 7].iter().any(
        |factor|
            requires { 0 < factor.now }
        { is_power_times(*factor, number) },
    )
}

/// The line of these counts, where the number of pieces done is round.
impl Text for Counts {
    ghost text = { progress_text };

    fn put<W: Write>(&self, out: &mut W, block: &mut Block) -> Result<(), WriteFault> {
        if !is_round(self.done) {
            return Ok(());
        }
        let pieces = (self.done, " of ", self.known, " pieces known so far and ");
        let schedules = ScheduleCount(self.schedules);
        ("regtry: done are ", pieces, &self.letters, schedules).put(out, block)
    }
}

/// How many schedules were counted, where any were, and the end of the line.
#[derive(Drop)]
struct ScheduleCount(u64);

impl Text for ScheduleCount {
    ghost text = { λ count. schedules_text count.0 };

    fn put<W: Write>(&self, out: &mut W, block: &mut Block) -> Result<(), WriteFault> {
        let count = self.0;
        let counted = Either(count == 1, " schedule counted", " schedules counted");
        (When(count != 0, ("; ", count, counted)), "\n").put(out, block)
    }
}

/// The line that tells how many letters the schedules have at most that are searched next.
#[derive(Drop)]
struct LengthLine {
    letters: u32,
}

impl Text for LengthLine {
    ghost text = { λ line. length_line line.letters };

    fn put<W: Write>(&self, out: &mut W, block: &mut Block) -> Result<(), WriteFault> {
        ("regtry: length ", self.letters, "\n").put(out, block)
    }
}

//! With which letters schedules begin, and with how many of these letters a run is through.
//!
//! Of each first letter it is counted how many pieces are known and not done. A run is through with
//! a letter where there are none any more. A piece that is split is done once its parts are known.

ghost use Rattle.std.specs.Prelude.{◌≡◌, ◌<◌};
ghost use Rattle.cli.specs.FirstLetters as spec;
ghost use Rattle.cli.specs.declared.first_letters.TheConstants.{PLACES};

use regmodel::limits::LAST_PROCESS;
use regmodel::{Letter, Prefix};
use std::io::Write;
use texts::{Block, Text, WriteFault};

/// How many places there are: one for each letter, and one for the empty schedule.
const PLACES: usize = 17;

/// The place of the crash of process 0, behind those of all runs.
const FIRST_CRASH: u8 = 8;

/// The place of the empty schedule.
const NO_LETTER: u8 = 16;

/// The place of a schedule, that of its first letter.
fn place_of(schedule: &Prefix) -> usize
    ensures place { result ≡ spec.place_of schedule.now }
    ensures low { result < PLACES }
{
    let place = match schedule.letters().first() {
        Some(Letter::Run(process)) => (*process).min(LAST_PROCESS),
        Some(Letter::Crash(process)) => FIRST_CRASH + (*process).min(LAST_PROCESS),
        None => NO_LETTER,
    };
    usize::from(place)
}

/// How many pieces are known and not done, by the place of their first letter; how many letters are
/// first ones, and with how many of these the run is through. Each stops at the greatest u64.
#[derive(Drop)]
pub struct FirstLetters {
    left: [u64; PLACES],
    all: u64,
    through: u64,
}

impl FirstLetters {
    ghost use Rattle.std.specs.Prelude.{◌≡◌};
    ghost use Rattle.cli.specs.FirstLetters as spec;

    /// No piece is known.
    pub fn none() -> FirstLetters
        ensures { result ≡ spec.no_letters }
    {
        FirstLetters {
            left: [0; PLACES],
            all: 0,
            through: 0,
        }
    }

    /// A first piece is known.
    pub fn begin(&mut self, piece: &Prefix)
        ensures { self.new ≡ spec.with_first self.old (spec.place_of piece.now) }
    {
        let place = place_of(piece);
        if self.left[place] == 0 {
            self.all = self.all.saturating_add(1);
        }
        self.left[place] = self.left[place].saturating_add(1);
    }

    /// So many parts of a piece are known.
    pub fn split(&mut self, piece: &Prefix, count: usize)
        ensures { self.new ≡ spec.with_parts self.old (spec.place_of piece.now) count }
    {
        let place = place_of(piece);
        self.left[place] = self.left[place].saturating_add(count as u64);
    }

    /// A piece is done.
    pub fn end(&mut self, piece: &Prefix)
        ensures { self.new ≡ spec.without_one self.old (spec.place_of piece.now) }
    {
        let place = place_of(piece);
        self.left[place] = self.left[place].saturating_sub(1);
        if self.left[place] == 0 {
            self.through = self.through.saturating_add(1);
        }
    }
}

/// With how many first letters the run is through.
impl Text for FirstLetters {
    ghost use Rattle.cli.specs.FirstLetters as spec;

    ghost text = { spec.through_text };

    fn put<W: Write>(&self, out: &mut W, block: &mut Block) -> Result<(), WriteFault> {
        (self.through, " of ", self.all, " first letters").put(out, block)
    }
}

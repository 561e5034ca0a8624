//! Where one schedule leads, and what it does on its way.

ghost use Rattle.std.specs.Prelude.{◌≡◌, ◌<◌, length};
ghost use Rattle.machine.specs.Meaning.{all_programs};
ghost use Rattle.reglang.specs.Sources.{contents_of, registers_of, source_programs};
ghost use Rattle.drawing.specs.Pictures.{IsPictureOf};
ghost use Rattle.cli.specs.Standings.{IsFollowed, IsHindranceAt, IsStandingAfter};

use arrayvec::ArrayVec;
use drawing::{Drawing, draw};
use machine::Machine;
use reglang::Source;
use regmodel::limits::MOST_CRASHES;
use regmodel::{End, Outcome, Prefix};
use world::{BadLetter, World};

/// Where a schedule leads.
#[derive(Drop)]
pub struct Standing {
    /// How each process stands.
    pub outcome: Outcome,
    /// What each register holds, registers from 0.
    pub registers: ArrayVec<u32, 64>,
}

/// A letter that is not possible where it stands.
#[derive(Debug, Drop)]
pub struct RefusedLetter {
    /// Its place in the schedule, from 0.
    pub place: usize,
    /// Its process.
    pub process: u8,
    /// How that process stands there; None where the source has no such process.
    pub fate: Option<End>,
}

/// Where a schedule leads the machines of a source, one a process; any number of processes may
/// crash. The first letter that is not possible is refused. Each machine is ended and dropped once,
/// also then. Takes no memory.
// In a frame of its own, which other orders do not touch.
#[inline(never)]
pub fn standing_after(
    source: &Source,
    machines: Vec<Box<dyn Machine + Send>>,
    schedule: &Prefix,
) -> Result<Standing, RefusedLetter>
    requires { all_programs means machines.items ≡ source_programs source.now }
    ensures { IsFollowed (source_programs source.now) schedule.now
        (IsStandingAfter (source_programs source.now) (registers_of source.now) schedule.now)
        result }
{
    let mut world = World::new(machines, source.registers(), MOST_CRASHES);
    match world.replay(schedule) {
        Ok(()) => Ok(Standing {
            outcome: world.outcome(),
            registers: ArrayVec::try_from(world.registers()).unwrap(),
        }),
        Err(bad) => Err(refused_at(&world.outcome(), schedule, bad)),
    }
}

/// What a schedule makes the machines of a source do, one a process, letter by letter; any number
/// of processes may crash. The first letter that is not possible is refused. Each machine is ended
/// and dropped once, also then. Takes no memory.
// In a frame of its own, which other orders do not touch.
#[inline(never)]
pub fn drawing_after(
    source: &Source,
    machines: Vec<Box<dyn Machine + Send>>,
    schedule: &Prefix,
) -> Result<Drawing, RefusedLetter>
    requires { all_programs means machines.items ≡ source_programs source.now }
    ensures { IsFollowed (source_programs source.now) schedule.now
        (IsPictureOf (contents_of source.now) schedule.now) result }
{
    let mut world = World::new(machines, source.registers(), MOST_CRASHES);
    match draw(&mut world, source, schedule) {
        Ok(drawing) => Ok(drawing),
        Err(bad) => Err(refused_at(&world.outcome(), schedule, bad)),
    }
}

/// What is told of a letter that is not possible where the processes stand so.
fn refused_at(outcome: &Outcome, schedule: &Prefix, bad: BadLetter) -> RefusedLetter
    requires { bad.place < length schedule.now }
    ensures place { result.place ≡ bad.place }
    ensures hindrance { IsHindranceAt outcome.now schedule.now result }
{
    let process = schedule.letters()[bad.place].process();
    let fate = match outcome.ends().get(usize::from(process)) {
        Some(end) => Some(end.fate.clone().unwrap()),
        None => None,
    };
    RefusedLetter {
        place: bad.place,
        process,
        fate,
    }
}

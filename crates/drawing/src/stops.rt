//! Where a process stops in its own text.

ghost use Rattle.std.specs.Prelude.{◌≡◌, ◌<◌, length};
ghost use Rattle.drawing.specs.Pictures.{IsWorldOf};
ghost use Rattle.drawing.specs.Stops as spec;
ghost use Rattle.reglang.specs.Sources.{contents_of, source_programs};
ghost use Rattle.world.specs.Sound.{IsSoundWorld, letters_of};

use arrayvec::ArrayVec;
use machine::{Machine, Stopped, stops_at};
use reglang::Source;
use world::World;

/// Where each process of a world stops that stands so, processes from 0.
pub(crate) fn all_stops(world: &World, source: &Source) -> ArrayVec<Option<Stopped>, 8>
    requires at { IsSoundWorld means world.now }
    requires of { IsWorldOf means world.now (contents_of source.now) }
    ensures { result.items ≡ spec.stops_after (contents_of source.now) (letters_of world.now) }
{
    let mut stops = ArrayVec::new();
    for p in 0..source.processes() {
        stops.push(stop_of(world, source, p as u8));
    }
    stops
}

/// The number of the statement at which a process of a world stops that stands so.
pub(crate) fn statement_of(world: &World, source: &Source, p: u8) -> Option<usize>
    requires at { IsSoundWorld means world.now }
    requires of { IsWorldOf means world.now (contents_of source.now) }
    requires there { p < length (source_programs source.now) }
    ensures { result ≡ spec.statement_after (contents_of source.now) (letters_of world.now) p }
{
    match stop_of(world, source, p) {
        Some(stopped) => Some(stopped.at),
        None => None,
    }
}

/// Where a process of a world stops that stands so: at the statement that wants an access, halts or
/// is at fault. A use line is the only one of its process. None where the process has come past its
/// last one.
fn stop_of(world: &World, source: &Source, p: u8) -> Option<Stopped>
    requires at { IsSoundWorld means world.now }
    requires of { IsWorldOf means world.now (contents_of source.now) }
    requires there { p < length (source_programs source.now) }
    ensures { result ≡ spec.stop_after (contents_of source.now) (letters_of world.now) p }
{
    match source.own_prog(usize::from(p)) {
        Some(prog) => stops_at(prog, world.replies(p)),
        None => Some(Stopped {
            at: 0,
            culprit: None,
        }),
    }
}

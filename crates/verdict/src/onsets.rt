//! From which letter on a schedule fails.

ghost use Rattle.std.specs.Prelude.{false};
ghost use Rattle.world.specs.Sound.{IsSameWorld, IsSoundWorld, letters_of, world_programs};
ghost use Rattle.verdict.specs.Demands.{clauses_asked, meets_demands};
ghost use Rattle.verdict.specs.Onsets.{IsOnset};

use crate::demands::{Demands, without_ended};
use machine::Machine;
use regmodel::{Clauses, Judge};
use world::World;

/// From which letter on each beginning of the schedule where the world stands fails, counted from
/// 1; 0 where that with no letter does. A process at fault fails it, too, unless that is allowed,
/// but `ended` is not asked. None where the schedule itself does not fail so. The world stands at a
/// beginning of the schedule then.
pub(crate) fn onset_of(world: &mut World, clauses: &Clauses, allows_faults: bool) -> Option<u64>
    requires { IsSoundWorld means world.old }
    ensures same { IsSameWorld means world.old world.new }
    ensures onset { IsOnset (world_programs means world.old)
        (meets_demands (clauses_asked false clauses.now) allows_faults) (letters_of world.old)
        result }
{
    let asked = without_ended(clauses);
    let judge = Demands {
        clauses: &asked,
        allows_faults,
    };
    if judge.holds(&world.outcome()) {
        return None;
    }
    let mut onset = world.depth();
    while onset > 0 {
        world.back_to(onset - 1);
        if judge.holds(&world.outcome()) {
            return Some(onset as u64);
        }
        onset -= 1;
    }
    Some(0)
}

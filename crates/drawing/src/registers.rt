//! What registers hold, beside what they held before.

ghost use Rattle.std.specs.Prelude.{◌≡◌, ◌≤◌, ℕ, List, length};
ghost use Rattle.regmodel.specs.Prelude.{Schedule, Program};
ghost use Rattle.world.specs.Registers.{values_after};
ghost use Rattle.drawing.specs.Registers.{all_held};

use crate::drawings::RegisterValue;
use arrayvec::ArrayVec;

/// What each register holds, and whether it held another value before, registers from 0.
pub(crate) fn held_since(before: &[u32], now: &[u32]) -> ArrayVec<RegisterValue, 64>
    requires each { length before.now ≡ length now.now }
    requires few { length now.now ≤ 64 }
    ensures { (programs : List Program) → (v w : Schedule) → (n : ℕ)
        → before.now ≡ values_after programs v n → now.now ≡ values_after programs w n
        → result.items ≡ all_held programs n v w }
{
    let mut held = ArrayVec::new();
    for (r, value) in now.iter().enumerate() {
        held.push(RegisterValue {
            value: *value,
            changed: *value != before[r],
        });
    }
    held
}

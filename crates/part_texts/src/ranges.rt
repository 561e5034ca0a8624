//! Numbers within their ranges. No call takes memory.

ghost use Rattle.std.specs.Prelude.{◌≡◌, ◌<◌, ◌≤◌, ◌^◌, IfErr, IfOk, IsOk};
ghost use Rattle.regmodel.specs.declared.limits.TheConstants.{GREATEST_CUT, MOST_PARTS, MOST_CRASHES, MOST_LETTERS};
ghost use Rattle.part_texts.specs.declared.faults.PartCause.TheVariants.{OutOfRange};

use crate::faults::PartCause;
use regmodel::{Part, Settings};

/// The number where it has 32 bits.
pub(crate) fn narrow(number: u64) -> Result<u32, PartCause>
    ensures value { IfOk result (λ n. n ≡ number) }
    ensures fits { number < 2 ^ 32 → IsOk result }
    ensures err { IfErr result (λ cause. cause ≡ OutOfRange) }
{
    u32::try_from(number).map_err(|_| PartCause::OutOfRange)
}

/// The part with this number, of so many.
pub(crate) fn part_of(number: u64, count: u64) -> Result<Part, PartCause>
    ensures number { IfOk result (λ part. part.number ≡ number) }
    ensures count { IfOk result (λ part. part.count ≡ count) }
    ensures fits { 1 ≤ number → number ≤ count → count ≤ MOST_PARTS → IsOk result }
    ensures err { IfErr result (λ cause. cause ≡ OutOfRange) }
{
    Part::new(narrow(number)?, narrow(count)?).ok_or(PartCause::OutOfRange)
}

/// The settings with these bounds, for one worker that hands no piece on.
pub(crate) fn settings_of(length: u64, crashes: u64, cut: u64) -> Result<Settings, PartCause>
    ensures length { IfOk result (λ s. s.length ≡ length) }
    ensures crashes { IfOk result (λ s. s.crashes ≡ crashes) }
    ensures cut { IfOk result (λ s. s.cut ≡ cut) }
    ensures fits { length ≤ MOST_LETTERS → crashes ≤ MOST_CRASHES → cut ≤ GREATEST_CUT
        → IsOk result }
    ensures err { IfErr result (λ cause. cause ≡ OutOfRange) }
{
    Settings::new(narrow(length)?, narrow(crashes)?, 1, narrow(cut)?, 0).map_err(
        |_| PartCause::OutOfRange,
    )
}

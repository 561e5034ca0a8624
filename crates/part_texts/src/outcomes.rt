//! The outcome of a text. No call takes memory.

ghost use Rattle.std.specs.Prelude.{◌≡◌, ◌≢◌, ◌≤◌, ℕ, IfNone, IfSome, List, length};
ghost use Rattle.regmodel.specs.declared.limits.TheConstants.{MOST_PROCESSES};
ghost use Rattle.regmodel.specs.declared.outcomes.ProcEnd.{ProcEnd};
ghost use Rattle.texts.specs.OutcomeText.{outcome_text};
ghost use Rattle.part_texts.specs.FitsPart.{FitsOutcome};
ghost use Rattle.part_texts.specs.Standings.{just};

use arrayvec::ArrayVec;
use patterns::{StandingPattern, read_pattern};
use regmodel::{Outcome, ProcEnd};

/// The outcome of a text: how each process stands, 1 to 8 of them, parted by `; `. None for any
/// text that no outcome has.
pub(crate) fn read_outcome(text: &[u8]) -> Option<Outcome>
    ensures some { IfSome result (λ outcome. outcome_text outcome ≡ text.now) }
    ensures fits { IfSome result (λ outcome. FitsOutcome (length outcome) outcome) }
    ensures count { IfSome result
        (λ outcome. (1 ≤ length outcome) × (length outcome ≤ MOST_PROCESSES)) }
    ensures none { IfNone result
        ((processes : ℕ) (ends : List ProcEnd) → 1 ≤ processes → processes ≤ MOST_PROCESSES
        → FitsOutcome processes ends → outcome_text ends ≢ text.now) }
{
    let Ok(pattern) = read_pattern(text) else {
        return None;
    };
    let ends = ends_of(pattern.standings())?;
    Some(Outcome::new(ends))
}

/// The ends that standings say, at most 8, where each of them says just one.
fn ends_of(standings: &[StandingPattern]) -> Option<ArrayVec<ProcEnd, 8>>
    requires { length standings.now ≤ MOST_PROCESSES }
    ensures some { IfSome result (λ ends. standings.now ≡ just ends.items) }
    ensures none { IfNone result ((ends : List ProcEnd) → standings.now ≢ just ends) }
{
    let mut ends = ArrayVec::new();
    for standing in standings {
        let StandingPattern::Just(end) = standing else {
            return None;
        };
        ends.push(copy_of(end));
    }
    Some(ends)
}

/// The same end. It takes no memory, which a clone might be refused.
fn copy_of(end: &ProcEnd) -> ProcEnd
    ensures { result ≡ end.now }
{
    end.clone().unwrap()
}

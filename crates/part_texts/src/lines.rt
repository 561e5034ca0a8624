//! What stands on a line. No call takes memory.

ghost use Rattle.std.specs.Prelude.{◌≡◌, ◌≢◌, ◌<◌, ◌≤◌, ◌^◌, ◌++◌, ℕ, IfNone, IfSome, List, codes, decimal};
ghost use Rattle.regmodel.specs.declared.outcomes.ProcEnd.{ProcEnd};
ghost use Rattle.regmodel.specs.declared.limits.TheConstants.{MOST_PARTS, MOST_PROCESSES};
ghost use Rattle.texts.specs.OutcomeText.{outcome_text};
ghost use Rattle.part_texts.specs.FitsPart.{FitsOutcome};

use crate::outcomes::read_outcome;
use regmodel::Outcome;
use texts::{cut_at, long_number_of};

/// What follows a word at the beginning of a text. None where it does not begin so.
pub(crate) fn after<'a>(text: &'a [u8], word: &[u8]) -> Option<&'a [u8]>
    ensures some { IfSome result (λ rest. word.now ++ rest.now ≡ text.now) }
    ensures none { IfNone result ((rest : List ℕ) → word.now ++ rest ≢ text.now) }
{
    text.strip_prefix(word)
}

/// The number behind a word, which is all that stands on the line. None for any other line.
pub(crate) fn number_after(line: &[u8], word: &[u8]) -> Option<u64>
    ensures some { IfSome result (λ n. word.now ++ codes " " ++ decimal n ≡ line.now) }
    ensures none { IfNone result
        ((n : ℕ) → n < 2 ^ 64 → word.now ++ codes " " ++ decimal n ≢ line.now) }
{
    let rest = after(line, word)?;
    let digits = after(rest, b" ")?;
    long_number_of(digits)
}

/// The number of a part and how many there are. None for any other line.
pub(crate) fn part_in(line: &[u8]) -> Option<(u64, u64)>
    ensures some { IfSome result
        (λ (number, count). codes "part " ++ decimal number ++ codes " of " ++ decimal count
        ≡ line.now) }
    ensures none { IfNone result
        ((number count : ℕ) → number ≤ MOST_PARTS → count ≤ MOST_PARTS
        → codes "part " ++ decimal number ++ codes " of " ++ decimal count ≢ line.now) }
{
    let rest = after(line, b"part ")?;
    let (digits, rest) = cut_at(rest, b' ');
    let number = long_number_of(digits)?;
    let digits = after(rest, b" of ")?;
    let count = long_number_of(digits)?;
    Some((number, count))
}

/// The outcome of so many processes behind a word. None for any other line.
pub(crate) fn outcome_after(line: &[u8], word: &[u8], processes: u32) -> Option<Outcome>
    ensures some { IfSome result (λ outcome. word.now ++ outcome_text outcome ≡ line.now) }
    ensures fits { IfSome result (FitsOutcome processes) }
    ensures none { IfNone result
        ((ends : List ProcEnd) → 1 ≤ processes → processes ≤ MOST_PROCESSES
        → FitsOutcome processes ends → word.now ++ outcome_text ends ≢ line.now) }
{
    let outcome = read_outcome(after(line, word)?)?;
    if outcome.ends().len() != processes as usize {
        return None;
    }
    Some(outcome)
}

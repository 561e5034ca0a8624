//! Whether an outcome comes after those before it.

ghost use Rattle.std.specs.Prelude.{◌≡◌, ◌∷◌, ◌++◌, [], AllPairs, IsTrue};
ghost use Rattle.std.specs.declared.cmp.Ordering.TheVariants.{Less};
ghost use Rattle.regmodel.specs.Prelude.{outcome_cmp};

use regmodel::Outcome;
use regmodel::laws::{orders_are_those_of_the_definitions, outcomes_are_in_a_total_order};

/// Whether an outcome comes after each of some rising ones.
pub(crate) fn comes_last(outcomes: &[Outcome], outcome: &Outcome) -> bool
    ensures rising { IsTrue result → AllPairs (λ a b. outcome_cmp a b ≡ Less) outcomes.now
        → AllPairs (λ a b. outcome_cmp a b ≡ Less) (outcomes.now ++ outcome.now ∷ []) }
    ensures there { AllPairs (λ a b. outcome_cmp a b ≡ Less) (outcomes.now ++ outcome.now ∷ [])
        → IsTrue result }
{
    orders_are_those_of_the_definitions();
    outcomes_are_in_a_total_order();
    match outcomes.last() {
        Some(last) => last.cmp(outcome).is_lt(),
        None => true,
    }
}

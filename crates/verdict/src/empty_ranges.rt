//! Checks that each name breaks, since no number is in their range.

ghost use Rattle.std.specs.Prelude.{◌≡◌};
ghost use Rattle.verdict.specs.EmptyRanges as spec;

use regmodel::Clause;

/// Whether the clause at a place asks for names of a range in which no number is.
pub(crate) fn is_empty_at(clauses: &[Clause], place: usize) -> bool
    ensures { result ≡ spec.is_empty_at clauses.now place }
{
    match clauses.get(place) {
        Some(Clause::Within(least, most)) => most < least,
        _ => false,
    }
}

//! Laws of the texts of parts, as contracts of functions that do nothing.

ghost use Rattle.std.specs.Prelude.{◌≡◌, ℕ, List, ◌++◌};
ghost use Rattle.part_texts.specs.FitsPart.{FitsPart};
ghost use Rattle.part_texts.specs.PartText.{part_text};
ghost use Rattle.part_texts.specs.declared.parts.PartReport.{PartReport};

/// A text begins with that of one part at most; so no two parts have the same text.
pub fn a_text_begins_with_one_part_at_most()
    ensures { (p q : PartReport) (s t : List ℕ) → FitsPart p → FitsPart q
        → part_text p ++ s ≡ part_text q ++ t → (p ≡ q) × (s ≡ t) }
{}

//! Laws of the language, as contracts of functions that do nothing.

ghost use Rattle.std.specs.Prelude.{◌≡◌, ℕ, List, None};
ghost use Rattle.reglang.specs.Checks.{AreChecksOf};
ghost use Rattle.reglang.specs.Contents.{Contents};
ghost use Rattle.reglang.specs.Faults.{first_fault};
ghost use Rattle.reglang.specs.Grammar.{Spells};
ghost use Rattle.reglang.specs.Sources.{contents_of};
ghost use Rattle.reglang.specs.declared.source.Source.{Source};

/// A text spells at most one source, and where it spells one it has no fault.
pub fn a_text_spells_at_most_one_source()
    ensures one { (text : List ℕ) (a b : Contents) → Spells text a → Spells text b → a ≡ b }
    ensures faultless { (text : List ℕ) (a : Contents) → Spells text a → first_fault text ≡ None }
{}

/// A text spells a source where it is only known that it does so in some way, as a
/// ghost field can say.
pub fn what_is_spelled_is_known()
    ensures { (text : List ℕ) (source : Source) → ∥ Spells text (contents_of source) ∥₁
        → Spells text (contents_of source) }
{}

/// The checks of a text that spells a source are those of its clauses, one after another.
pub fn each_check_is_that_of_its_clause()
    ensures { (text : List ℕ) (source : Contents) → Spells text source
        → AreChecksOf text source.clauses }
{}

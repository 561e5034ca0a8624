//! Laws of patterns, as contracts of functions that do nothing.

ghost use Rattle.std.specs.Prelude.{◌≡◌, ◌↔◌, List, true};
ghost use Rattle.regmodel.specs.declared.outcomes.ProcEnd.{ProcEnd};
ghost use Rattle.patterns.specs.declared.patterns.StandingPattern.{StandingPattern};
ghost use Rattle.patterns.specs.declared.patterns.StandingPattern.TheVariants.{Just};
ghost use Rattle.patterns.specs.Matching.{allows};
ghost use Rattle.patterns.specs.PatternText.{FitsPattern, pattern_text};

/// A standing of just one kind allows that one alone.
pub fn just_one_stands_so()
    ensures { (own end : ProcEnd) → (allows (Just own) end ≡ true) ↔ (own ≡ end) }
{}

/// No two patterns that can be read have the same text.
pub fn texts_of_patterns_are_distinct()
    ensures { (v w : List StandingPattern) → FitsPattern v → FitsPattern w
        → pattern_text v ≡ pattern_text w → v ≡ w }
{}

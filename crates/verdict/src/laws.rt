//! Laws of what processes emit, as contracts of functions that do nothing.

ghost use Rattle.std.specs.Prelude.{◌≡◌, ℕ, false, true, List, map, None, Some};
ghost use Rattle.regmodel.specs.Prelude.{act_of, Schedule, outcome_of, Program, Replies, first_refused};
ghost use Rattle.regmodel.specs.Judging.{meets};
ghost use Rattle.regmodel.specs.declared.clauses.Clause.{Clause};
ghost use Rattle.patterns.specs.Matching.{matches, matches_none};
ghost use Rattle.patterns.specs.declared.patterns.StandingPattern.{StandingPattern};
ghost use Rattle.world.specs.Fit.{AreFit};
ghost use Rattle.verdict.specs.Emissions.{EmitsAtMost, most_emitted};
ghost use Rattle.verdict.specs.Gaps.{why_met};
ghost use Rattle.verdict.specs.Names.{EmitsNone, may_emit};
ghost use Rattle.verdict.specs.Shortfalls.{are_in_vain, shortfall_in};
ghost use Rattle.verdict.specs.declared.gaps.Reason.{Reason};
ghost use Rattle.verdict.specs.declared.names.Sought.{Sought};
ghost use Rattle.verdict.specs.declared.shortfalls.Shortfall.{Shortfall};

/// A process that is done, whatever it was answered, has emitted no more numbers than its text
/// lets it.
pub fn a_process_emits_no_more_than_the_most()
    ensures { (program : Program) (s : Replies)
        → EmitsAtMost (most_emitted program) (act_of program s) }
{}

/// Nor a number that its text does not let it emit, as its first one or as any.
pub fn a_process_emits_what_its_text_may()
    ensures { (sought : Sought) (program : Program) (s : Replies)
        → may_emit sought program ≡ false → EmitsNone sought (act_of program s) }
{}

/// Each outcome meets a check that the text of the processes lets none break, whatever the schedule
/// is that leads to it.
pub fn what_the_text_rules_out_is_met()
    ensures { (programs : List Program) (registers budget : ℕ) (w : Schedule) (clause : Clause)
        (reason : Reason) → AreFit programs registers budget
        → why_met programs clause ≡ Some reason → meets clause (outcome_of programs w) ≡ true }
{}

/// Where each pattern asks for more numbers than a process emits, no schedule leads to any of them.
pub fn no_schedule_leads_in_vain()
    ensures { (programs : List Program) (patterns : List (List StandingPattern))
        (schedules : List Schedule)
        → are_in_vain (map most_emitted programs) patterns ≡ true
        → first_refused programs (matches_none patterns) schedules ≡ None }
{}

/// No schedule leads to a pattern that asks for more numbers than a process emits.
pub fn no_outcome_matches_a_shortfall()
    ensures { (programs : List Program) (w : Schedule) (number : ℕ) (pattern : List StandingPattern)
        (found : Shortfall)
        → shortfall_in number 0 (map most_emitted programs) pattern ≡ Some found
        → matches pattern (outcome_of programs w) ≡ false }
{}

//! The laws by which parts can be read back from their texts, and merged are the whole, as
//! contracts of functions that do nothing.

ghost use Rattle.std.specs.Prelude.{◌≡◌, ◌^◌, ◌<◌, ◌∷◌, All, Bool, List, length};
ghost use Rattle.regmodel.specs.Settings.{Settings};
ghost use Rattle.regmodel.specs.declared.outcomes.ProcEnd.{ProcEnd};
ghost use Rattle.regmodel.specs.Prelude.{Summary};
ghost use Rattle.regmodel.specs.declared.parts.Part.{Part};
ghost use Rattle.reglang.specs.Sources.{source_programs};
ghost use Rattle.reglang.specs.declared.source.Source.{Source};
ghost use Rattle.report.specs.PlainReport.{Findings, LeastFinding};
ghost use Rattle.report.specs.declared.explored.Yield.{Yield};
ghost use Rattle.part_texts.specs.FitsPart.{FitsPart};
ghost use Rattle.part_texts.specs.PartText.{explored_part, least_part};
ghost use Rattle.part_texts.specs.PlainHead.{FitsHead, PlainHead};
ghost use Rattle.part_texts.specs.declared.parts.PartReport.{PartReport};
ghost use Rattle.merging.specs.Merged.{IsMerged};
ghost use Rattle.explorer.specs.Jobs.{IsLeastOfPart, IsPartExplored};
ghost use Rattle.part_laws.specs.Wholes.{IsPartOfSource, IsWholeOf};

use pieces::laws::{merged_findings_are_of_both, parts_are_the_whole, the_whole_is_found};
use reglang::Source;
use regmodel::laws::{outcomes_are_in_a_total_order, wanted_accesses_are_within};

/// What exploring a part of a source finds fits its text, behind a head that fits and tells of as
/// many processes and letters. So the text that is written of it is one that can be read.
pub fn parts_can_be_read(source: &Source)
    ensures explored { (settings : Settings) (accepts : List ProcEnd → Bool) (part : Part)
        (head : PlainHead) (findings : Findings)
        → FitsHead head → head.processes ≡ length (source_programs source.now)
        → head.length ≡ settings.length
        → IsPartExplored source.now settings accepts part findings
        → findings.found.tried < 2 ^ 64 → FitsPart (explored_part head findings) }
    ensures least { (settings : Settings) (accepts : List ProcEnd → Bool) (part : Part)
        (head : PlainHead) (finding : LeastFinding)
        → FitsHead head → head.processes ≡ length (source_programs source.now)
        → head.length ≡ settings.length
        → IsLeastOfPart source.now settings accepts part finding
        → FitsPart (least_part head finding) }
{
    source.registers();
    wanted_accesses_are_within();
    outcomes_are_in_a_total_order();
}

/// Where each of the parts that were merged is what was found of that part of one source, by the
/// same settings, they tell what is found of the whole source by these settings.
pub fn merged_parts_are_the_whole()
    ensures { (source : Source) (settings : Settings) (accepts : List ProcEnd → Bool)
        (first : PartReport) (others : List PartReport) (merged : Yield Summary)
        → IsMerged first others merged
        → All (IsPartOfSource source settings accepts) (first ∷ others)
        → IsWholeOf source settings accepts merged }
{
    parts_are_the_whole();
    merged_findings_are_of_both();
    the_whole_is_found();
}

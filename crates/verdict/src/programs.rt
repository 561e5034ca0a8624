//! The programs of a source.

ghost use Rattle.std.specs.Prelude.{◌≡◌, IfOk, map};
ghost use Rattle.regmodel.specs.Prelude.{program_of};
ghost use Rattle.reglang.specs.Sources.{source_programs};

use reglang::Source;
use regmodel::{OutOfMemory, Prog};
use std::alloc::Global;

/// What each process of a source runs, from process 0: copies. An error where a request for memory
/// was refused.
pub fn programs_of(alloc: Global, source: &Source) -> Result<Vec<Prog>, OutOfMemory>
    ensures { IfOk result
        (λ programs. map program_of programs.items ≡ source_programs source.now) }
{
    let mut programs = Vec::new(alloc);
    for p in 0..source.processes() {
        let prog = source.prog(alloc, p)?;
        programs.push(prog)?;
    }
    Ok(programs)
}

//! Explores a source by a machine and with a judge of one's own, and prints the report: a page to
//! copy from (docs/CALLING.md).
#![tactic(auto)]

ghost use Rattle.std.specs.Prelude.{IfOk};
ghost use Rattle.reglang.specs.Sources.{source_programs};
ghost use Rattle.report.specs.PlainReport.{IsPlainReport};

mod judge;
mod looker;
mod player;

use explorer::{Report, run_one, write_report};
use judge::Without;
use machine::Machine;
use player::player_of;
use reglang::{Source, read_source};
use regmodel::{Judge, Settings};
use std::alloc::Global;

/// One process writes a register, another reads it and emits what it read.
const TEXT: &[u8] = b"registers 1\nprocess\nwrite 0 5\nend\nprocess\nread v0 0\nemit v0\nend\n";

fn main(rt: HostRuntime) -> Result<(), anyhow::Error> {
    let source = read_source(rt.alloc(), TEXT)?;
    // At most 2 letters, no crash, one worker, cut 0, room 0.
    let settings = Settings::new(2, 0, 1, 0, 0)?;
    let report = report_of(rt.alloc(), &source, settings, &Without { number: 0 })?;
    write_report(&report, &mut rt.stdout())?;
    Ok(())
}

/// The report of a source, judged by this judge.
fn report_of(
    alloc: Global,
    source: &Source,
    settings: Settings,
    judge: &Without,
) -> Result<Report, anyhow::Error>
    ensures { IfOk result
        (λ report. IsPlainReport (source_programs source.now) settings.length settings.crashes
        (⟦<Without as Judge>⟧.accepts judge.now) report) }
{
    let mut machines: Vec<Box<dyn Machine + Send>> = Vec::new(alloc);
    for p in 0..source.processes() {
        let player = player_of(alloc, source, p)?;
        machines.push(Box::new(alloc, player)?)?;
    }
    Ok(run_one(alloc, source, settings, machines, judge)?)
}

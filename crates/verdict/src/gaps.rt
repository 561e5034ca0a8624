//! Checks that no outcome could break: by the text of the processes, or for want of a process of
//! which they speak.

ghost use Rattle.std.specs.Prelude.{◌≡◌, ◌≤◌, length, map};
ghost use Rattle.std.specs.List.{list_any};
ghost use Rattle.regmodel.specs.Judging.{includes};
ghost use Rattle.regmodel.specs.Prelude.{program_of};
ghost use Rattle.regmodel.specs.declared.limits.TheConstants.{MOST_PROCESSES};
ghost use Rattle.reglang.specs.Sources.{contents_of};
ghost use Rattle.verdict.specs.Gaps as spec;

use crate::names::{Sought, emitters};
use arrayvec::ArrayVec;
use reglang::Spelling;
use regmodel::limits::GREATEST_VALUE;
use regmodel::{Clause, Prog, Subject};
use report::Exploration;
use tallies::{Ends, Outcomes};

/// Why no outcome could break a check.
#[derive(Clone, Copy, Default, PartialEq, Eq, Debug)]
pub enum Reason {
    /// No process emits this number.
    Unemitted(u32),
    /// No process emits this number as its first one, which is its name.
    NoName(u32),
    /// At most so many processes can have the name.
    FewNamed(u32),
    /// Each number is in its range. It is the default because `ArrayVec` asks for one.
    #[default]
    EachNumber,
    /// No outcome has what it speaks of.
    Wanting(Subject),
}

/// A check that no outcome could break.
#[derive(Clone, Copy, Default, PartialEq, Eq, Debug)]
pub struct Gap {
    /// Its line, counted from 1.
    pub line: u64,
    /// Why none could.
    pub reason: Reason,
}

/// The checks of a text that no outcome of an exploration could break, of processes with these
/// programs.
pub fn gaps_of(spelling: &Spelling<'_>, programs: &[Prog], found: &Exploration) -> ArrayVec<Gap, 16>
    requires { length programs.now ≤ MOST_PROCESSES }
    ensures { result.items ≡ spec.gaps_of spelling.now.text.now (map program_of programs.now)
        (contents_of spelling.now.source.now).clauses found.now.found.outcomes }
{
    let mut gaps = ArrayVec::new();
    for i in 0..spelling.source.clauses().list().len() {
        if let Some(gap) = gap_at(spelling, programs, found, i) {
            gaps.push(gap);
        }
    }
    gaps
}

/// The check of clause i, where no outcome could break it.
fn gap_at(spelling: &Spelling<'_>, programs: &[Prog], found: &Exploration, i: usize) -> Option<Gap>
    requires { length programs.now ≤ MOST_PROCESSES }
    ensures { result ≡ spec.gap_at spelling.now.text.now (map program_of programs.now)
        (contents_of spelling.now.source.now).clauses found.now.found.outcomes i }
{
    let clause = spelling.source.clauses().list().get(i)?;
    let reason = reason_of(programs, clause, found)?;
    let line = spelling.check_line(i);
    Some(Gap { line, reason })
}

/// Why no outcome of these programs could break a clause, or why none of an exploration could.
fn reason_of(programs: &[Prog], clause: &Clause, found: &Exploration) -> Option<Reason>
    requires { length programs.now ≤ MOST_PROCESSES }
    ensures { result
        ≡ spec.reason_of (map program_of programs.now) clause.now found.now.found.outcomes }
{
    if let Some(why) = why_met(programs, clause) {
        return Some(why);
    }
    let want = want_of(clause, found)?;
    Some(Reason::Wanting(want))
}

/// Why no outcome of these programs could break a clause, whatever their schedules are.
fn why_met(programs: &[Prog], clause: &Clause) -> Option<Reason>
    requires { length programs.now ≤ MOST_PROCESSES }
    ensures { result ≡ spec.why_met (map program_of programs.now) clause.now }
{
    match clause {
        Clause::AtMost(name, count) => why_few(programs, *name, *count),
        Clause::Within(least, most) => why_within(*least, *most),
        _ => None,
    }
}

/// Why no more than so many processes of these programs have this name.
fn why_few(programs: &[Prog], name: u32, count: u32) -> Option<Reason>
    requires { length programs.now ≤ MOST_PROCESSES }
    ensures { result ≡ spec.why_few (map program_of programs.now) name count }
{
    let sought = Sought {
        number: name,
        as_name: true,
    };
    let named = emitters(sought, programs);
    if named > count {
        return None;
    }
    if named > 0 {
        return Some(Reason::FewNamed(named));
    }
    let sought = Sought {
        number: name,
        as_name: false,
    };
    if emitters(sought, programs) > 0 {
        return Some(Reason::NoName(name));
    }
    Some(Reason::Unemitted(name))
}

/// Why each number is in a range.
fn why_within(least: u32, most: u32) -> Option<Reason>
    ensures { result ≡ spec.why_within least most }
{
    if least == 0 && most >= GREATEST_VALUE {
        return Some(Reason::EachNumber);
    }
    None
}

/// What a clause speaks of that no outcome of an exploration has.
fn want_of(clause: &Clause, found: &Exploration) -> Option<Subject>
    ensures { result ≡ spec.want_of clause.now found.now.found.outcomes }
{
    let want = clause.subject()?;
    if is_met(want, found.outcomes()) {
        return None;
    }
    Some(want)
}

/// Whether one of these outcomes has such a process.
fn is_met(want: Subject, outcomes: Outcomes<'_>) -> bool
    ensures { result ≡ spec.is_met want outcomes.entry }
{
    for ends in outcomes {
        if has(want, ends) {
            return true;
        }
    }
    false
}

/// Whether an outcome has such a process.
fn has(want: Subject, ends: Ends<'_>) -> bool
    ensures { result ≡ list_any (includes want) ends.entry }
{
    for end in ends {
        if want.includes(&end) {
            return true;
        }
    }
    false
}

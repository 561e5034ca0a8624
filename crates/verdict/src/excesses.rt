//! Patterns in which more processes have crashed than may crash.

ghost use Rattle.std.specs.Prelude.{◌≡◌, ◌<◌, ◌≤◌, IfSome, length};
ghost use Rattle.verdict.specs.Excesses as spec;

use patterns::{Pattern, StandingPattern};
use regmodel::End;

/// The place of the first of these patterns in which more processes have crashed than may crash,
/// counted from 0: no outcome matches it.
pub(crate) fn first_excess(patterns: &[Pattern], crashes: u32) -> Option<usize>
    ensures place { result ≡ spec.first_excess crashes patterns.now }
    ensures within { IfSome result (λ place. place < length patterns.now) }
{
    patterns
        .iter()
        .position(|pattern| crashed_in(pattern.standings()) > crashes)
}

/// How many of these processes have crashed.
fn crashed_in(standings: &[StandingPattern]) -> u32
    requires { length standings.now ≤ 8 }
    ensures value { result ≡ spec.crashed_in standings.now }
    ensures few { result ≤ length standings.now }
{
    let Some((standing, more)) = standings.split_first() else {
        return 0;
    };
    if has_crashed(standing) {
        return crashed_in(more) + 1;
    }
    crashed_in(more)
}

/// Whether a process that stands so has crashed.
fn has_crashed(standing: &StandingPattern) -> bool
    ensures { result ≡ spec.has_crashed standing.now }
{
    match standing {
        StandingPattern::Just(end) => matches!(end.fate, End::Crashed),
        StandingPattern::Any | StandingPattern::Done | StandingPattern::Emitted(_) => false,
    }
}

//! Which parts are missing.

ghost use Rattle.std.specs.Prelude.{◌≡◌, ◌<◌, ◌≤◌, IfSome, length};

use std::fmt;

/// Which parts are missing of all that there have to be. It is printed as their numbers, from
/// 1 on, as in `3 7-9`.
#[derive(Debug, Drop)]
pub struct Missing {
    there: Vec<bool>,
}

impl Missing {
    /// Those that are missing, where it is told for each number from 1 on
    /// whether its part is there.
    pub(crate) fn new(there: Vec<bool>) -> Missing
        ensures { result.there ≡ there }
    {
        Missing { there }
    }
}

impl fmt::Display for Missing {
    ghost use Rattle.std.specs.Prelude.{None};

    ghost output = { λ _. None };

    fn fmt<W: fmt::Write>(&self, f: &mut fmt::Formatter<W>) -> fmt::Result {
        let there = self.there.as_slice();
        let mut from = 0;
        while let Some((first, past)) = next_missing(there, from) {
            if from > 0 {
                f.write_str(" ")?;
            }
            write_numbers(first, past, f)?;
            from = past;
        }
        Ok(())
    }
}

/// Prints the numbers of parts that are missing one behind another, from the place of the first to
/// that past the last.
fn write_numbers<W: fmt::Write>(
    first: usize,
    past: usize,
    f: &mut fmt::Formatter<W>,
) -> fmt::Result {
    let number = first.saturating_add(1);
    if number == past {
        write!(f, "{number}")
    } else {
        write!(f, "{number}-{past}")
    }
}

/// The next parts that are missing one behind another, from a place on: the place of the first, and
/// that past the last.
fn next_missing(there: &[bool], from: usize) -> Option<(usize, usize)>
    requires { from ≤ length there.now }
    ensures on { IfSome result (λ (first, past). from < past) }
    ensures there { IfSome result (λ (first, past). past ≤ length there.now) }
{
    let rest = &there[from..];
    let before = rest.iter().position(|is_there| !*is_there)?;
    let missing = &rest[before..];
    let count = match missing.iter().position(|is_there| *is_there) {
        Some(count) => count,
        None => missing.len(),
    };
    Some((from + before, from + before + count))
}

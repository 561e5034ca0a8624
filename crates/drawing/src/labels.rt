//! What a text tells beside what is drawn: names of registers, and lines.

ghost use Rattle.std.specs.Prelude.{◌≡◌, ◌≤◌, option_map};
ghost use Rattle.drawing.specs.Labels as spec;

use crate::drawings::LetterRow;
use crate::names::RegisterNames;
use crate::statement_lines::statement_line;
use explanations::origin_of;
use std::marker::Model;

/// A name for each register, where it has one; and the text, where lines of it are to be told.
#[derive(Drop)]
pub(crate) struct Labels<'a> {
    names: RegisterNames<'a>,
    lines: Option<&'a [u8]>,
}

impl<'a> Model for Labels<'a> {
    ghost use Rattle.std.specs.Prelude.{option_map};
    ghost use Rattle.drawing.specs.Labels as spec;

    ghost Value = { spec.Labels };

    ghost view = { λ l. record { names = l.names; lines = option_map (λ text. text.now) l.lines } };
}

impl<'a> Labels<'a> {
    /// What a text tells of so many registers, and of letters where that is asked for.
    pub(crate) fn told(text: &'a [u8], count: usize, tells_lines: bool) -> Labels<'a>
        requires { count ≤ 64 }
        ensures { result ≡ spec.labels_of text.now count tells_lines }
    {
        Labels {
            names: RegisterNames::told(text, count),
            lines: if tells_lines { Some(text) } else { None },
        }
    }

    /// The names.
    pub(crate) fn names(&self) -> &RegisterNames<'a>
        ensures { result.now ≡ self.now.names }
    {
        &self.names
    }

    /// The text, where its lines are to be told.
    pub(crate) fn lines(&self) -> Option<&'a [u8]>
        ensures { option_map (λ text. text.now) result ≡ self.now.lines }
    {
        self.lines
    }
}

/// The number that a text tells of the line with the statement that took a letter. None for a
/// crash.
pub(crate) fn line_of(text: &[u8], row: &LetterRow) -> Option<u64>
    ensures { result ≡ spec.letter_line text.now row.now }
{
    if row.deed.is_crash() {
        return None;
    }
    let number = statement_line(text, row.process, row.statement?)?;
    Some(origin_of(&[], text, number).line)
}

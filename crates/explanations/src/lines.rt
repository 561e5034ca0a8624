//! Lines of a text, by their numbers.

ghost use Rattle.std.specs.Prelude.{◌≡◌, option_copied};
ghost use Rattle.reglang.specs.Checks as spec;
ghost use Rattle.explanations.specs.Shown.{shown};

use reglines::split_line;

/// The line of a text with this number, counted from 1, without its byte 10. None
/// where there is none.
pub(crate) fn line_at(text: &[u8], number: u64) -> Option<&[u8]>
    ensures { option_copied result ≡ spec.line_at number text.now }
{
    let mut before = number.checked_sub(1)?;
    let mut rest = text;
    while let Some((line, after)) = split_line(rest) {
        if before == 0 {
            return Some(line);
        }
        before -= 1;
        rest = after;
    }
    None
}

/// The line of a text with this number, counted from 1; no bytes where there is none.
pub fn shown_line(text: &[u8], number: u64) -> &[u8]
    ensures { result.now ≡ shown (spec.line_at number text.now) }
{
    match line_at(text, number) {
        Some(line) => line,
        None => &[],
    }
}

//! Lines that repeat as often as a comparison says: once, or not at all.

ghost use Rattle.std.specs.Prelude.{◌≡◌};
ghost use Rattle.reglines.specs.Forms as forms;
ghost use Rattle.verdict.specs.SingleRepeats as spec;

use crate::origin_text::{LineOrigin, LineTold};
use reglines::{Line, read_line, split_line};
use regmodel::{Expr, Op};
use std::io::Write;
use texts::{Block, Text, WriteFault};

/// That the first line of a text that repeats as often as a comparison says repeats once or not at
/// all, where there is one.
#[derive(Clone, Copy)]
pub(crate) struct SingleRepeat<'a>(pub(crate) &'a [u8]);

impl Text for SingleRepeat<'_> {
    ghost text = { λ repeat. spec.single_repeat_text repeat.0.now };

    fn put<W: Write>(&self, out: &mut W, block: &mut Block) -> Result<(), WriteFault> {
        let text = self.0;
        match first_single_repeat(text) {
            Some(line) => {
                let line = LineTold(LineOrigin { text, line });
                (line, " repeats once or not at all.\n").put(out, block)
            }
            None => Ok(()),
        }
    }
}

/// The number of the first line of a text that repeats as often as a comparison says, counted from
/// 1.
fn first_single_repeat(text: &[u8]) -> Option<u64>
    ensures { result ≡ spec.first_single_repeat text.now }
{
    let mut number = 0u64;
    let mut rest = text;
    while let Some((line, after)) = split_line(rest) {
        number += 1;
        if says_single_repeat(line) {
            return Some(number);
        }
        rest = after;
    }
    None
}

/// Whether a line repeats as often as a comparison says.
fn says_single_repeat(line: &[u8]) -> bool
    ensures { result ≡ spec.says_single_repeat (forms.read_line line.now) }
{
    match read_line(line) {
        Ok(Some(Line::Repeat(Expr::Two(_, op, _)))) => is_comparison(op),
        _ => false,
    }
}

/// Whether an operator gives 1 or 0.
fn is_comparison(op: Op) -> bool
    ensures { result ≡ spec.is_comparison op }
{
    match op {
        Op::Equal | Op::Less => true,
        Op::Add | Op::Sub | Op::Mul => false,
    }
}

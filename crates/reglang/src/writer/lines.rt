//! Lines, as they are written.

ghost use Rattle.std.specs.Prelude.{◌≡◌, ◌++◌, OnOk, codes};
ghost use Rattle.reglang.specs.Writing as spec;
ghost use Rattle.reglang.specs.Writing.{argument_words, arguments_text, spaced};

use crate::writer::words::push_word;
use reglines::{Argument, Line, Word, clause_parts, line_parts, use_parts};
use regmodel::{Expr, Operand, OutOfMemory, Target};

/// The word of a target.
fn target_word(target: Target) -> Word
    ensures { result ≡ spec.target_word target }
{
    match target {
        Target::Var(i) => Word::Operand(Operand::Var(i)),
        Target::Cell(i) => Word::Operand(Operand::Cell(i)),
        Target::CellOf(i) => Word::Operand(Operand::CellOf(i)),
    }
}

/// Appends words, each after a space.
fn push_words(text: &mut Vec<u8>, words: &[Word]) -> Result<(), OutOfMemory>
    ensures { OnOk result (text.new.items ≡ text.old.items ++ spaced words.now) }
{
    for word in words {
        text.push(b' ')?;
        push_word(text, *word)?;
    }
    Ok(())
}

/// Appends the words of an argument, each after a space.
fn push_argument(text: &mut Vec<u8>, argument: Argument) -> Result<(), OutOfMemory>
    ensures { OnOk result (text.new.items ≡ text.old.items ++ spaced (argument_words argument)) }
{
    match argument {
        Argument::Number(n) => push_words(text, &[Word::Operand(Operand::Number(n))]),
        Argument::Target(to) => push_words(text, &[target_word(to)]),
        Argument::Operand(a) => push_words(text, &[Word::Operand(a)]),
        Argument::Expression(Expr::One(a)) => push_words(text, &[Word::Operand(a)]),
        Argument::Expression(Expr::Two(a, op, b)) => push_words(
            text,
            &[Word::Operand(a), Word::Operator(op), Word::Operand(b)],
        ),
    }
}

/// Appends the words of arguments, each after a space.
fn push_arguments(text: &mut Vec<u8>, arguments: &[Argument]) -> Result<(), OutOfMemory>
    ensures { OnOk result (text.new.items ≡ text.old.items ++ arguments_text arguments.now) }
{
    for argument in arguments {
        push_argument(text, *argument)?;
    }
    Ok(())
}

/// Appends what a line has after its first word, each word after a space.
fn push_later(text: &mut Vec<u8>, line: Line) -> Result<(), OutOfMemory>
    ensures { OnOk result (text.new.items ≡ text.old.items ++ spaced (spec.later_words line)) }
{
    match line {
        Line::Use(kind) => {
            let (kind, arguments) = use_parts(kind);
            push_words(text, &[Word::Kind(kind)])?;
            push_arguments(text, arguments.as_slice())
        }
        Line::Check(Some(clause)) => {
            let (property, arguments) = clause_parts(clause);
            push_words(text, &[Word::Property(property)])?;
            push_arguments(text, arguments.as_slice())
        }
        _ => push_arguments(text, line_parts(line).1.as_slice()),
    }
}

/// Appends a line and the byte 10 that ends it. An error where a request for memory was refused.
pub fn push_line(text: &mut Vec<u8>, line: Line) -> Result<(), OutOfMemory>
    ensures { OnOk result (text.new.items ≡ text.old.items ++ (spec.line_text line ++ codes "\n")) }
{
    push_word(text, Word::Keyword(line_parts(line).0))?;
    push_later(text, line)?;
    text.push(b'\n')?;
    Ok(())
}

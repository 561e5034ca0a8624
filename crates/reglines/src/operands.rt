//! Arguments of lines: what words stand for at their places.

ghost use Rattle.std.specs.Prelude.{◌≡◌, option_map};
ghost use Rattle.reglines.specs.Forms as spec;

use crate::arguments::{Argument, Arguments};
use crate::sorts::{Sort, Sorts};
use crate::vocabulary::{Kind, Property};
use crate::words::Word;
use arrayvec::ArrayVec;
use regmodel::{Expr, Op, Operand, Target};

/// The number that a word is.
pub fn number_in(word: Word) -> Option<u32>
    ensures { result ≡ spec.number_in word }
{
    match word {
        Word::Operand(Operand::Number(n)) => Some(n),
        _ => None,
    }
}

/// The number that a word is, up to this limit.
fn number_to(limit: u32, word: Word) -> Option<u32>
    ensures { result ≡ spec.number_to limit word }
{
    match word {
        Word::Operand(Operand::Number(n)) if n <= limit => Some(n),
        _ => None,
    }
}

/// The target that a word is: a variable or a cell.
pub fn target_of(word: Word) -> Option<Target>
    ensures { result ≡ spec.target_of word }
{
    match word {
        Word::Operand(Operand::Var(i)) => Some(Target::Var(i)),
        Word::Operand(Operand::Cell(i)) => Some(Target::Cell(i)),
        Word::Operand(Operand::CellOf(i)) => Some(Target::CellOf(i)),
        _ => None,
    }
}

/// The operand that a word is: a number, a variable or a cell.
fn operand_of(word: Word) -> Option<Operand>
    ensures { result ≡ spec.operand_of word }
{
    match word {
        Word::Operand(operand) => Some(operand),
        _ => None,
    }
}

/// The operator that a word is.
pub fn operator_of(word: Word) -> Option<Op>
    ensures { result ≡ spec.operator_of word }
{
    match word {
        Word::Operator(op) => Some(op),
        _ => None,
    }
}

/// The expression that words are: an operand, or two with an operator between them.
fn expr_of(words: &[Word]) -> Option<Expr>
    ensures { result ≡ spec.expr_of words.now }
{
    match words {
        [a] => Some(Expr::One(operand_of(*a)?)),
        [a, op, b] => Some(Expr::Two(operand_of(*a)?, operator_of(*op)?, operand_of(*b)?)),
        _ => None,
    }
}

/// The kind that a word names.
pub fn kind_of(word: Word) -> Option<Kind>
    ensures { result ≡ spec.kind_of word }
{
    match word {
        Word::Kind(kind) => Some(kind),
        _ => None,
    }
}

/// The property that a word names.
pub fn property_of(word: Word) -> Option<Property>
    ensures { result ≡ spec.property_of word }
{
    match word {
        Word::Property(property) => Some(property),
        _ => None,
    }
}

/// The argument of a sort that one word is; of an expression the one that is this operand alone.
pub fn argument_of(sort: Sort, word: Word) -> Option<Argument>
    ensures { result ≡ spec.argument_of sort word }
{
    match sort {
        Sort::Number => Some(Argument::Number(number_in(word)?)),
        Sort::NumberTo(limit) => Some(Argument::Number(number_to(limit, word)?)),
        Sort::Target => Some(Argument::Target(target_of(word)?)),
        Sort::Operand => Some(Argument::Operand(operand_of(word)?)),
        Sort::Expression => Some(Argument::Expression(Expr::One(operand_of(word)?))),
    }
}

/// The arguments of these sorts that words are: one word is one argument, but an expression is all
/// the words that are left. None for any other words.
pub(crate) fn arguments(sorts: Sorts, words: &[Word]) -> Option<Arguments>
    ensures { option_map (λ list. list.items) result ≡ spec.arguments sorts.list.now words.now }
{
    let mut list = ArrayVec::new();
    let mut rest = words;
    for sort in sorts.list {
        if matches!(sort, Sort::Expression) {
            list.push(Argument::Expression(expr_of(rest)?));
            return Some(list);
        }
        let (word, more) = rest.split_first()?;
        list.push(argument_of(*sort, *word)?);
        rest = more;
    }
    if rest.is_empty() { Some(list) } else { None }
}

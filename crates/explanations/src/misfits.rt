//! The word of a refused line that is at fault.

ghost use Rattle.std.specs.Prelude.{◌≡◌, [], ◌∷◌, option_copied};
ghost use Rattle.reglines.specs.Forms.{is_no_number};
ghost use Rattle.reglines.specs.Lines.{words};
ghost use Rattle.reglines.specs.declared.sorts.Sort.TheVariants as sort;
ghost use Rattle.explanations.specs.Misfits as spec;

use reglang::LineRefusal;
use reglines::{
    Keyword, LineFault, Sort, Word, argument_of, is_known, kind_of, kind_sorts, operator_of,
    property_of, property_sorts, sorts_after, split_word, word_of,
};
use regmodel::Operand;
use regmodel::limits::GREATEST_VALUE;

/// The word of a line that is at fault, where it is refused so: the first unknown one, the first
/// that begins with a digit and is no number word, the first that has no place in a line with its
/// first word, or the first number that is past the greatest one. None for another fault, where the
/// line wants another word at its end, and where another limit is passed.
pub(crate) fn word_at_fault(line: &[u8], refusal: LineRefusal) -> Option<&[u8]>
    ensures { option_copied result ≡ spec.word_at_fault refusal line.now }
{
    let LineRefusal::Fault(fault) = refusal else {
        return None;
    };
    let (first, rest) = split_word(line)?;
    match fault {
        LineFault::UnknownWord => match word_of(first) {
            Word::Keyword(_) => first_unknown(rest),
            _ => Some(first),
        },
        LineFault::NoNumber => first_no_number(rest),
        LineFault::PastLimit => first_past(rest),
        LineFault::NoForm | LineFault::NoClause => misfit_after(word_of(first), rest),
        LineFault::NotPrintable | LineFault::Misplaced | LineFault::NoRegisters => None,
    }
}

/// The first word that may not stand after a first word.
pub(crate) fn first_unknown(line: &[u8]) -> Option<&[u8]>
    ensures { option_copied result ≡ spec.first_that spec.is_unknown (words line.now) }
{
    let mut rest = line;
    while let Some((word, after)) = split_word(rest) {
        if !is_known(word_of(word)) {
            return Some(word);
        }
        rest = after;
    }
    None
}

/// The first word that begins with a digit and is no number word.
fn first_no_number(line: &[u8]) -> Option<&[u8]>
    ensures { option_copied result ≡ spec.first_that is_no_number (words line.now) }
{
    let mut rest = line;
    while let Some((word, after)) = split_word(rest) {
        if matches!(word_of(word), Word::NoNumber) {
            return Some(word);
        }
        rest = after;
    }
    None
}

/// The first number that is past the greatest one.
fn first_past(line: &[u8]) -> Option<&[u8]>
    ensures { option_copied result ≡ spec.first_that spec.is_past (words line.now) }
{
    let mut rest = line;
    while let Some((word, after)) = split_word(rest) {
        if is_past(word_of(word)) {
            return Some(word);
        }
        rest = after;
    }
    None
}

/// Whether a word is a number past the greatest one.
fn is_past(word: Word) -> bool
    ensures { result ≡ spec.is_past word }
{
    match word {
        Word::Operand(Operand::Number(n)) => n > GREATEST_VALUE,
        _ => false,
    }
}

/// The first word after a first one that has no place there.
fn misfit_after(first: Word, rest: &[u8]) -> Option<&[u8]>
    ensures { option_copied result ≡ spec.misfit_after first (words rest.now) }
{
    match first {
        Word::Keyword(key @ (Keyword::Use | Keyword::Check)) => named_misfit(key, rest),
        Word::Keyword(key) => first_misfit(sorts_after(key).list, rest),
        _ => None,
    }
}

/// The first word after `use` or `check` that has no place there.
fn named_misfit(key: Keyword, line: &[u8]) -> Option<&[u8]>
    ensures { option_copied result ≡ spec.named_misfit key (words line.now) }
{
    let (word, rest) = split_word(line)?;
    match sorts_named(key, word_of(word)) {
        Some(sorts) => first_misfit(sorts, rest),
        None => Some(word),
    }
}

/// The sorts of what follows a word behind `use` or `check`, where it names a kind or a property.
fn sorts_named(key: Keyword, word: Word) -> Option<&'static [Sort]>
    ensures { option_copied result ≡ spec.sorts_named key word }
{
    match key {
        Keyword::Use => Some(kind_sorts(kind_of(word)?).list),
        _ => Some(property_sorts(property_of(word)?).list),
    }
}

/// The first word that is not of the sort of its place, or has no place.
fn first_misfit<'a>(sorts: &[Sort], line: &'a [u8]) -> Option<&'a [u8]>
    ensures { option_copied result ≡ spec.misfit_of sorts.now (words line.now) }
{
    let mut sorts = sorts;
    let mut rest = line;
    while let Some((word, after)) = split_word(rest) {
        let Some((sort, later)) = sorts.split_first() else {
            return Some(word);
        };
        if matches!(sort, Sort::Expression) {
            return expression_misfit(rest);
        }
        if argument_of(*sort, word_of(word)).is_none() {
            return Some(word);
        }
        sorts = later;
        rest = after;
    }
    None
}

/// The first word that has no place in an expression: in its longest form an operand, an
/// operator and an operand.
fn expression_misfit(line: &[u8]) -> Option<&[u8]>
    ensures { option_copied result ≡ spec.misfit_of (sort.Expression ∷ []) (words line.now) }
{
    let (first, rest) = split_word(line)?;
    if argument_of(Sort::Operand, word_of(first)).is_none() {
        return Some(first);
    }
    let (operator, rest) = split_word(rest)?;
    if operator_of(word_of(operator)).is_none() {
        return Some(operator);
    }
    let (second, rest) = split_word(rest)?;
    if argument_of(Sort::Operand, word_of(second)).is_none() {
        return Some(second);
    }
    let (more, _) = split_word(rest)?;
    Some(more)
}

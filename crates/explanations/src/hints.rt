//! What to write in place of an unknown word.

ghost use Rattle.std.specs.Prelude.{◌≡◌};
ghost use Rattle.std.specs.List.{list_any};
ghost use Rattle.explanations.specs.Hints as spec;
ghost use Rattle.explanations.specs.Misfits.{first_that, is_unknown};
ghost use Rattle.explanations.specs.Wording.{told_text};
ghost use Rattle.reglines.specs.Lines.{words};

use crate::idioms::idiom_of;
use crate::line_forms::{OwnLine, first_of, form_of, keyword_form};
use crate::misfits::first_unknown;
use crate::nearest::{Meant, nearest};
use crate::wording::Change;
use reglines::{Keyword, Sort, Word, enclosed, sorts_after, split_word, target_of, word_of};

/// Whether a byte stands in an operator, here or in another language.
fn is_operator_byte(byte: u8) -> bool
    ensures { result ≡ spec.is_operator_byte byte }
{
    byte == b'+'
        || byte == b'-'
        || byte == b'*'
        || byte == b'='
        || byte == b'<'
        || byte == b'>'
        || byte == b'/'
        || byte == b'%'
        || byte == b'&'
        || byte == b'|'
}

/// What to write in place of a word of which no more is known.
const ANY_WORD: &str = "write numbers, variables v0 to v15, cells [0] to [31] or [v0] to [v15], \
    and operators + - * = < behind the first word";

/// What to write in place of a word with a parenthesis.
const PARENTHESES: &str = "there are no parentheses and no functions: set each part first, as in \
    set v0 v1 + 1";

/// What to write in place of a cell whose number is made by an operator.
const INDEX: &str = "there is no sum in an index: set a variable to it first, as in \
    set v0 v1 + 1, and write [v0]";

/// What to write in place of a word that begins with this byte.
fn hint_of_start(byte: u8) -> &'static str
    ensures { result.now ≡ spec.hint_of_start byte }
{
    match byte {
        b'v' | b'V' => "write one of the variables v0 to v15",
        b'r' | b'R' => "name a register by its number alone",
        _ => ANY_WORD,
    }
}

/// What to write in place of a word that begins with this byte, and has a byte of an operator or
/// not, and a bracket or not.
fn hint_with(byte: u8, with_operator: bool, with_bracket: bool) -> &'static str
    ensures { result.now ≡ spec.hint_with byte with_operator with_bracket }
{
    match byte {
        b'-' => {
            "there are no negative numbers; to subtract, write spaces around -, as in v0 - 1"
        }
        b'!' => "write A = 0 for not A",
        _ if with_operator => "part operands and operators by spaces, as in v0 + 1",
        _ if with_bracket => {
            "a cell is [0] to [31], or [v0] to [v15], and has no name before it"
        }
        _ => hint_of_start(byte),
    }
}

/// Whether a word has a byte of an operator.
fn has_operator(word: &[u8]) -> bool
    ensures { result ≡ list_any spec.is_operator_byte word.now }
{
    word.iter().any(|b| is_operator_byte(*b))
}

/// Whether a word has this byte.
fn has_byte(word: &[u8], byte: u8) -> bool
    ensures { result ≡ spec.has_byte byte word.now }
{
    word.iter().any(|b| *b == byte)
}

/// Whether a word is a cell, with an operator between its brackets, or the beginning of one that is
/// not closed.
fn has_sum_in_index(word: &[u8]) -> bool
    ensures { result ≡ spec.has_sum_in_index word.now }
{
    match enclosed(word, b'[', b']') {
        Some(inside) => has_operator(inside) && !has_byte(inside, b'['),
        None => has_byte(word, b'[') && !has_byte(word, b']'),
    }
}

/// What to write in place of a word that stands for an operand or operator, by what it is made of.
fn operand_hint(word: &[u8]) -> &'static str
    ensures { result.now ≡ spec.operand_hint word.now }
{
    if has_byte(word, b'(') {
        return PARENTHESES;
    }
    if has_sum_in_index(word) {
        return INDEX;
    }
    match word {
        [] => ANY_WORD,
        [first, ..] => hint_with(*first, has_operator(word), has_byte(word, b'[')),
    }
}

/// Whether variables may stand at a place of this sort.
fn takes_variables(sort: Sort) -> bool
    ensures { result ≡ spec.takes_variables sort }
{
    match sort {
        Sort::Number | Sort::NumberTo(_) => false,
        Sort::Target | Sort::Operand | Sort::Expression => true,
    }
}

/// Whether they may stand in a line with this first word.
fn has_operands(key: Keyword) -> bool
    ensures { result ≡ spec.has_operands key }
{
    sorts_after(key)
        .list
        .iter()
        .any(|sort| takes_variables(*sort))
}

/// Whether a word begins a comment, here or in another language.
fn begins_comment(word: &[u8]) -> bool
    ensures { result ≡ spec.begins_comment word.now }
{
    matches!(word, [b'#', ..] | [b'/', b'/', ..])
}

/// How a comment is written.
const COMMENT: &str = "write the comment on a line of its own that begins with #";

/// What to write in place of a word of a line with this first word that is none of another
/// language, and begins no line.
fn hint_of_shape(key: Keyword, word: &[u8]) -> Change
    ensures { told_text result ≡ spec.hint_of_shape key word.now }
{
    if begins_comment(word) {
        return Change::Words(COMMENT);
    }
    if has_operands(key) {
        return Change::Words(operand_hint(word));
    }
    Change::Form(keyword_form(key))
}

/// What to write in place of a word behind this first one.
fn later_hint(key: Keyword, word: &[u8]) -> Change
    ensures { told_text result ≡ spec.later_hint key word.now }
{
    if let Some(here) = idiom_of(word) {
        return Change::Words(here);
    }
    match word_of(word) {
        Word::Keyword(key) => Change::Own(OwnLine(key)),
        _ => hint_of_shape(key, word),
    }
}

/// What to write in place of a first word that is near to no other.
fn first_hint_of_shape(word: &[u8]) -> &'static str
    ensures { result.now ≡ spec.first_hint_of_shape word.now }
{
    if begins_comment(word) {
        return COMMENT;
    }
    if target_of(word_of(word)).is_some() {
        "write set before it, as in set v0 v0 + 1"
    } else {
        "begin the line with one of registers, process, end, set, read, write, scan, if, else, fi, \
        repeat, done, emit, halt, use and check"
    }
}

/// What to write in place of a first word that no line has.
fn first_hint(word: &[u8]) -> Change
    ensures { told_text result ≡ spec.first_hint word.now }
{
    if let Some(here) = idiom_of(word) {
        return Change::Words(here);
    }
    match nearest(word) {
        Some(key) => Change::Meant(Meant(key)),
        None => Change::Words(first_hint_of_shape(word)),
    }
}

/// Whether a line with this first word is a use.
fn is_use(first: Word) -> bool
    ensures { result ≡ spec.is_use first }
{
    matches!(first, Word::Keyword(Keyword::Use))
}

/// What to write in place of the unknown word behind this first one.
fn maybe_hint(key: Keyword, rest: &[u8]) -> Change
    ensures { told_text result ≡ spec.maybe_hint key (first_that is_unknown (words rest.now)) }
{
    match first_unknown(rest) {
        Some(word) => later_hint(key, word),
        None => Change::Words(""),
    }
}

/// What to write in place of the unknown word of a line that is no use.
fn hint_in(line: &[u8]) -> Change
    ensures { told_text result ≡ spec.hint_in (words line.now) }
{
    let Some((first, rest)) = split_word(line) else {
        return Change::Words("");
    };
    match word_of(first) {
        Word::Keyword(key) => maybe_hint(key, rest),
        _ => first_hint(first),
    }
}

/// What to write in place of the unknown word of a line; for a use its form.
pub(crate) fn hint_of(line: &[u8]) -> Change
    ensures { told_text result ≡ spec.hint_of (words line.now) }
{
    if is_use(first_of(line)) {
        return Change::Form(form_of(line));
    }
    hint_in(line)
}

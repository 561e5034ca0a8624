//! Lines of a text, the words of a line, and what a line says by the form that its words have.

ghost use Rattle.std.specs.Prelude.{◌≡◌, ◌≤◌, ◌&&◌, ◌||◌, length, take, ◌==◌, ◌+◌};
ghost use Rattle.std.specs.List.{list_all, list_any, position, prefix_len, before_first, after_first};
ghost use Rattle.reglines.specs.Forms as spec;
ghost use Rattle.reglines.specs.Forms.{KeepsFirst, words_said};
ghost use Rattle.reglines.specs.declared.forms.TheConstants.{MOST_WORDS};
ghost use Rattle.std.specs.Str.{byte};
ghost use Rattle.reglines.specs.Lines.{SplitsOff, is_printable, lines, without_indent, words};

use crate::arguments::{Line, clause_with, line_with, use_with};
use crate::faults::LineFault;
use crate::operands::{arguments, kind_of, property_of};
use crate::sorts::{kind_sorts, property_sorts, sorts_after};
use crate::vocabulary::Keyword;
use crate::words::{Word, word_of};
use arrayvec::ArrayVec;
use regmodel::Clause;

/// The first line of a text without its byte 10, and what follows it. None at the end of the text.
pub fn split_line(text: &[u8]) -> Option<(&[u8], &[u8])>
    ensures { SplitsOff lines text.now result }
{
    if text.is_empty() {
        return None;
    }
    Some(cut_at(text, b'\n'))
}

/// The first word of a line, and what follows it. None where there are only spaces.
pub fn split_word(line: &[u8]) -> Option<(&[u8], &[u8])>
    ensures { SplitsOff words line.now result }
{
    let line = without_indent(line);
    if line.is_empty() {
        return None;
    }
    Some(cut_at(line, b' '))
}

/// Whether only bytes from the space to the tilde stand in a line.
pub(crate) fn is_printable(line: &[u8]) -> bool
    ensures { result ≡ is_printable line.now }
{
    line.iter().all(|b| (b' '..=b'~').contains(b))
}

/// The place of the first byte of this value.
fn place_of(bytes: &[u8], byte: u8) -> Option<usize>
    ensures { result ≡ position (λ b. b == byte) bytes.now }
{
    bytes.iter().position(|b| *b == byte)
}

/// What stands before the first byte of this value and after it, or all and nothing
/// where there is none.
fn cut_at(bytes: &[u8], byte: u8) -> (&[u8], &[u8])
    ensures before { result.0.now ≡ before_first (λ b. b == byte) bytes.now }
    ensures after { result.1.now ≡ after_first (λ b. b == byte) bytes.now }
{
    match place_of(bytes, byte) {
        Some(end) => (&bytes[..end], &bytes[end + 1..]),
        None => (bytes, &[]),
    }
}

/// How many spaces there are before anything else.
fn spaces(line: &[u8]) -> usize
    ensures within { result ≤ length line.now }
    ensures count { result ≡ prefix_len (λ b. b == byte " ") line.now }
{
    line.iter().take_while(|b| **b == b' ').count()
}

/// A line from its first byte on that is no space.
pub fn without_indent(line: &[u8]) -> &[u8]
    ensures { result.now ≡ without_indent line.now }
{
    &line[spaces(line)..]
}

/// One more than the longest line has after its first word.
const MOST_WORDS: usize = 6;

/// The words of a line after its first one.
#[derive(Drop)]
struct LaterWords {
    /// The first of them.
    first: ArrayVec<Word, MOST_WORDS>,
    /// Whether each may stand after a first word.
    known: bool,
    /// Whether some begins with a digit and is no number word.
    no_number: bool,
}

impl LaterWords {
    /// One more word.
    fn add(&mut self, word: Word)
        ensures first { KeepsFirst self.old.first.items word self.new.first.items }
        ensures few { length self.new.first.items ≤ MOST_WORDS }
        ensures known { self.new.known ≡ (self.old.known && spec.is_known word) }
        ensures no_number { self.new.no_number ≡ (self.old.no_number || spec.is_no_number word) }
    {
        keep(&mut self.first, word);
        self.known = self.known && is_known(word);
        self.no_number = self.no_number || matches!(word, Word::NoNumber);
    }
}

/// Appends a word where there is room.
fn keep(first: &mut ArrayVec<Word, MOST_WORDS>, word: Word)
    ensures first { KeepsFirst first.old.items word first.new.items }
    ensures few { length first.new.items ≤ MOST_WORDS }
{
    if first.is_full() {
        return;
    }
    first.push(word);
}

/// Whether a word may stand after a first one, but for its form.
pub fn is_known(word: Word) -> bool
    ensures { result ≡ spec.is_known word }
{
    match word {
        Word::Operand(_) | Word::NoNumber | Word::Operator(_) | Word::Kind(_) => true,
        Word::Keyword(_) | Word::Property(_) | Word::Comment | Word::Other => false,
    }
}

/// The words of what follows the first word of a line.
fn later_words(line: &[u8]) -> LaterWords
    ensures first { result.first.items ≡ take MOST_WORDS (words_said line.now) }
    ensures known { result.known ≡ list_all spec.is_known (words_said line.now) }
    ensures no_number { result.no_number ≡ list_any spec.is_no_number (words_said line.now) }
{
    let mut later = LaterWords {
        first: ArrayVec::new(),
        known: true,
        no_number: false,
    };
    let mut rest = line;
    while let Some((word, after)) = split_word(rest) {
        later.add(word_of(word));
        rest = after;
    }
    later
}

/// What follows `use`: a kind and its arguments.
fn use_form(words: &[Word]) -> Option<Line>
    ensures { result ≡ spec.use_form words.now }
{
    let (word, words) = words.split_first()?;
    let kind = kind_of(*word)?;
    let list = arguments(kind_sorts(kind), words)?;
    Some(Line::Use(use_with(kind, list.as_slice())?))
}

/// What follows `check`: a property and its arguments. None for any other words.
fn clause_of(words: &[Word]) -> Option<Clause>
    ensures { result ≡ spec.clause_of words.now }
{
    let (word, words) = words.split_first()?;
    let property = property_of(*word)?;
    let list = arguments(property_sorts(property), words)?;
    clause_with(property, list.as_slice())
}

/// The line that a first word and those after it make.
fn form_of(key: Keyword, more: &[Word]) -> Option<Line>
    ensures { result ≡ spec.form_of key more.now }
{
    match key {
        Keyword::Use => use_form(more),
        _ => line_with(key, arguments(sorts_after(key), more)?.as_slice()),
    }
}

/// What a line says whose first word is this, no check. Its first fault where a later
/// word is unknown, one begins with a digit and is no number word, or the words have no
/// form of the first one.
fn keyword_line(key: Keyword, rest: &[u8]) -> Result<Option<Line>, LineFault>
    ensures { result ≡ spec.keyword_line key (words_said rest.now) }
{
    let later = later_words(rest);
    if !later.known {
        return Err(LineFault::UnknownWord);
    }
    if later.no_number {
        return Err(LineFault::NoNumber);
    }
    match form_of(key, later.first.as_slice()) {
        Some(line) => Ok(Some(line)),
        None => Err(LineFault::NoForm),
    }
}

/// What a line says; none where it has no words or its first word begins with `#`. Else its first
/// fault: `NotPrintable` where a byte is not in 32 to 126; `UnknownWord` where the first word
/// begins no line or, the line being no check, a later word is unknown; `NoNumber` where, the line
/// being no check, a word begins with a digit and is no number word; `NoForm` where the words have
/// no form of the first one.
pub fn read_line(line: &[u8]) -> Result<Option<Line>, LineFault>
    ensures { result ≡ spec.read_line line.now }
{
    if !is_printable(line) {
        return Err(LineFault::NotPrintable);
    }
    let Some((first, rest)) = split_word(line) else {
        return Ok(None);
    };
    match word_of(first) {
        Word::Comment => Ok(None),
        Word::Keyword(Keyword::Check) => Ok(Some(Line::Check(clause_of(
            later_words(rest).first.as_slice(),
        )))),
        Word::Keyword(key) => keyword_line(key, rest),
        _ => Err(LineFault::UnknownWord),
    }
}

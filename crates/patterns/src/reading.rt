//! The pattern of a text. No call takes memory.

ghost use Rattle.std.specs.Prelude.{◌≡◌, ◌≢◌, ◌≤◌, ◌++◌, ◌∷◌, ℕ, Bool, IfErr, IfNone, IfOk, IfSome, List, codes, nat_le, true};
ghost use Rattle.regmodel.specs.declared.limits.TheConstants.{GREATEST_VALUE};
ghost use Rattle.regmodel.specs.declared.outcomes.End.{End};
ghost use Rattle.regmodel.specs.declared.outcomes.ProcEnd.{ProcEnd};
ghost use Rattle.texts.specs.Cuts.{begins_at};
ghost use Rattle.texts.specs.NumberText.{numbers_text};
ghost use Rattle.texts.specs.OutcomeText.{end_text};
ghost use Rattle.patterns.specs.declared.patterns.StandingPattern.{StandingPattern};
ghost use Rattle.patterns.specs.PatternText.{FitsPattern, IsBadAt, code_fits, code_text, emitted_text, end_fits, idle_text, numbers_fit, pattern_text, standing_fits, standing_text};

use crate::patterns::{Pattern, StandingPattern};
use arrayvec::ArrayVec;
use regmodel::{End, Numbers, ProcEnd};
use texts::{cut_at, number_of};
use thiserror::Error;

/// A text that no pattern has.
#[derive(Clone, Copy, PartialEq, Eq, Debug, Error)]
#[error("standing {place}")]
pub struct BadPattern {
    /// The place of the first standing that none can be read of, counted from 0; 8 where 8 were
    /// read and the text goes on.
    pub place: usize,
}

/// The pattern of a text: a standing for each process, 1 to 8 of them, parted by `; `. An error for
/// any text that no pattern has, with the place of the first standing at fault.
pub fn read_pattern(text: &[u8]) -> Result<Pattern, BadPattern>
    ensures ok { IfOk result (λ pattern. pattern_text pattern ≡ text.now) }
    ensures fits { IfOk result FitsPattern }
    ensures err { IfErr result
        (λ bad. (standings : List StandingPattern) → FitsPattern standings
        → pattern_text standings ≢ text.now) }
    ensures place { IfErr result (λ bad. IsBadAt text.now bad.place) }
{
    let mut standings = ArrayVec::new();
    let mut rest = text;
    loop {
        let place = standings.len();
        let (word, after) = cut_at(rest, b';');
        let Some(standing) = read_standing(word) else {
            return Err(BadPattern { place });
        };
        if standings.try_push(standing).is_err() {
            return Err(BadPattern { place });
        }
        if after.is_empty() {
            return Ok(Pattern { standings });
        }
        let Some(further) = past_mark(after) else {
            return Err(BadPattern { place });
        };
        rest = further;
    }
}

/// What follows `; ` at the beginning of a text. None where it does not begin so.
fn past_mark(text: &[u8]) -> Option<&[u8]>
    ensures some { IfSome result (λ rest. codes "; " ++ rest.now ≡ text.now) }
    ensures none { IfNone result ((rest : List ℕ) → codes "; " ++ rest ≢ text.now) }
{
    match text {
        [b';', b' ', rest @ ..] => Some(rest),
        _ => None,
    }
}

/// The standing of a text. None for any text that no standing has.
fn read_standing(text: &[u8]) -> Option<StandingPattern>
    ensures some { IfSome result (λ standing. standing_text standing ≡ text.now) }
    ensures fits { IfSome result (λ standing. standing_fits standing ≡ true) }
    ensures none { IfNone result
        ((standing : StandingPattern) → standing_fits standing ≡ true
        → standing_text standing ≢ text.now) }
{
    if text == b"*".as_slice() {
        return Some(StandingPattern::Any);
    }
    if text == b"done *".as_slice() {
        return Some(StandingPattern::Done);
    }
    if let Some(number) = read_emitted(text) {
        return Some(StandingPattern::Emitted(number));
    }
    let end = read_end(text)?;
    Some(StandingPattern::Just(end))
}

/// The number that a process is done with among others, by a text. None for any other text.
fn read_emitted(text: &[u8]) -> Option<u32>
    ensures some { IfSome result (λ number. emitted_text number ≡ text.now) }
    ensures fits { IfSome result (λ number. nat_le number GREATEST_VALUE ≡ true) }
    ensures none { IfNone result
        ((number : ℕ) → nat_le number GREATEST_VALUE ≡ true → emitted_text number ≢ text.now) }
{
    let (word, after) = cut_at(text, b' ');
    if word != b"done".as_slice() {
        return None;
    }
    let further = past_star(after)?;
    let (word, after) = cut_at(further, b' ');
    if after != b" *".as_slice() {
        return None;
    }
    number_of(word)
}

/// What follows ` * ` at the beginning of a text. None where it does not begin so.
fn past_star(text: &[u8]) -> Option<&[u8]>
    ensures some { IfSome result (λ rest. codes " * " ++ rest.now ≡ text.now) }
    ensures none { IfNone result ((rest : List ℕ) → codes " * " ++ rest ≢ text.now) }
{
    match text {
        [b' ', b'*', b' ', rest @ ..] => Some(rest),
        _ => None,
    }
}

/// How a process stands, by a text. None for any text that no process has.
fn read_end(text: &[u8]) -> Option<ProcEnd>
    ensures some { IfSome result (λ end. end_text end ≡ text.now) }
    ensures fits { IfSome result (λ end. end_fits end.fate ≡ true) }
    ensures none { IfNone result
        ((end : ProcEnd) → end_fits end.fate ≡ true → end_text end ≢ text.now) }
{
    let (word, after) = cut_at(text, b' ');
    if word == b"done".as_slice() {
        let (numbers, started) = read_numbers(after)?;
        return Some(ProcEnd {
            started,
            fate: End::Done(numbers),
        });
    }
    if word == b"fault".as_slice() {
        let (code, started) = read_code(after)?;
        return Some(ProcEnd {
            started,
            fate: End::Fault(code),
        });
    }
    if word == b"crashed".as_slice() {
        let started = read_idle(after)?;
        return Some(ProcEnd {
            started,
            fate: End::Crashed,
        });
    }
    if word == b"running".as_slice() {
        let started = read_idle(after)?;
        return Some(ProcEnd {
            started,
            fate: End::Running,
        });
    }
    None
}

/// Numbers, each behind a space, and whether ` idle` is not behind them. None for any other text.
fn read_numbers(text: &[u8]) -> Option<(Numbers, bool)>
    requires { begins_at 32 text.now ≡ true }
    ensures some { IfSome result
        (λ (numbers, started). numbers_text numbers.items ++ idle_text started ≡ text.now) }
    ensures fits { IfSome result (λ (numbers, started). numbers_fit numbers.items ≡ true) }
    ensures none { IfNone result
        ((numbers : List ℕ) (started : Bool) → numbers_fit numbers ≡ true
        → numbers_text numbers ++ idle_text started ≢ text.now) }
{
    let mut numbers = Numbers::new();
    let mut rest = text;
    loop {
        if let Some(started) = read_idle(rest) {
            return Some((numbers, started));
        }
        let (_, further) = rest.split_first()?;
        let (word, after) = cut_at(further, b' ');
        let number = number_of(word)?;
        numbers.try_push(number).ok()?;
        rest = after;
    }
}

/// The code of a fault behind a space, and whether ` idle` is not behind it. None
/// for any other text.
fn read_code(text: &[u8]) -> Option<(u8, bool)>
    ensures some { IfSome result
        (λ (code, started). code_text code ++ idle_text started ≡ text.now) }
    ensures fits { IfSome result (λ (code, started). code_fits code ≡ true) }
    ensures none { IfNone result
        ((code : ℕ) (started : Bool) → code_fits code ≡ true
        → code_text code ++ idle_text started ≢ text.now) }
{
    let (digit, after) = code_digit(text)?;
    let started = read_idle(after)?;
    Some((digit - b'0', started))
}

/// The digit 1 to 4 that stands behind a space at the beginning of a text, and what comes after it.
/// None where there is none.
fn code_digit(text: &[u8]) -> Option<(u8, &[u8])>
    ensures some { IfSome result (λ (digit, after). 32 ∷ digit ∷ after.now ≡ text.now) }
    ensures code { IfSome result (λ (digit, after). (49 ≤ digit) × (digit ≤ 52)) }
    ensures none { IfNone result
        ((digit : ℕ) (after : List ℕ) → 49 ≤ digit → digit ≤ 52
        → 32 ∷ digit ∷ after ≢ text.now) }
{
    match text {
        [b' ', digit @ b'1'..=b'4', after @ ..] => Some((*digit, after)),
        _ => None,
    }
}

/// Whether a process took a step, by the end of its text: ` idle` where it took none. None
/// for any other text.
fn read_idle(text: &[u8]) -> Option<bool>
    ensures some { IfSome result (λ started. idle_text started ≡ text.now) }
    ensures none { IfNone result ((started : Bool) → idle_text started ≢ text.now) }
{
    match text {
        [] => Some(true),
        b" idle" => Some(false),
        _ => None,
    }
}

//! The patterns that the words of the command line tell.

ghost use Rattle.std.specs.Prelude.{◌≡◌, IfErr, IfOk, map};
ghost use Rattle.patterns.specs.PatternText.{pattern_text};
ghost use Rattle.orders.specs.Inputs.{IsStandardText};
ghost use Rattle.orders.specs.PatternTexts as spec;
ghost use Rattle.orders.specs.PatternTexts.{AreNoPatterns, AreNoTexts, AreTextsOf, HasNoPatterns, IsStandardUnread};

use crate::inputs::{Opener, STANDARD_INPUT, bytes_of, is_standard};
use crate::refusals::Refusal;
use patterns::{Pattern, read_pattern};
use reglines::split_line;
use std::alloc::Global;

/// What stands before an outcome in a report.
const LABEL: &[u8] = b"outcome ";

/// The patterns of the words that stand where patterns do; or where that is one dash, of the lines
/// of standard input, which `opener` opens by it. The first text that no pattern has is refused.
pub fn patterns_told<O: Opener>(
    alloc: Global,
    words: &[&str],
    opener: &O,
) -> Result<Vec<Pattern>, Refusal>
    ensures ok { IfOk result
        (λ patterns. AreTextsOf (IsStandardText (O.opens opener.now) O.Reader.remaining)
        (map (λ word. word.now) words.now) (map pattern_text patterns.items)) }
    ensures refused { IfErr result
        (AreNoTexts (IsStandardText (O.opens opener.now) O.Reader.remaining)
        (IsStandardUnread (O.opens opener.now) O.Reader.remaining)
        (map (λ word. word.now) words.now)) }
{
    if !are_standard(words) {
        return patterns_of(alloc, words);
    }
    let file = match opener.open(STANDARD_INPUT) {
        Ok(file) => file,
        Err(why) => return Err(Refusal::File(why)),
    };
    match bytes_of(alloc, file) {
        Ok(text) => patterns_in(alloc, text.as_slice()),
        Err(refusal) => Err(refusal),
    }
}

/// Whether patterns are read from standard input: one word stands where they do, and names it.
pub fn are_standard(words: &[&str]) -> bool
    ensures { result ≡ spec.are_standard (map (λ word. word.now) words.now) }
{
    match words {
        [word] => is_standard(word),
        _ => false,
    }
}

/// The patterns of these texts.
fn patterns_of(alloc: Global, texts: &[&str]) -> Result<Vec<Pattern>, Refusal>
    ensures ok { IfOk result
        (λ patterns. map pattern_text patterns.items ≡ map (λ text. text.now) texts.now) }
    ensures refused { IfErr result (AreNoPatterns (map (λ text. text.now) texts.now)) }
{
    let mut patterns = Vec::new(alloc);
    for text in texts {
        let pattern = match read_pattern(text.as_bytes()) {
            Ok(pattern) => pattern,
            Err(bad) => return Err(Refusal::Pattern(patterns.len(), bad.place)),
        };
        patterns.push(pattern)?;
    }
    Ok(patterns)
}

/// The patterns of the lines of a text, of which there may be none.
fn patterns_in(alloc: Global, text: &[u8]) -> Result<Vec<Pattern>, Refusal>
    ensures ok { IfOk result
        (λ patterns. map pattern_text patterns.items ≡ spec.texts_in text.now) }
    ensures refused { IfErr result (HasNoPatterns text.now) }
{
    let mut patterns = Vec::new(alloc);
    let mut rest = text;
    while let Some((line, after)) = split_line(rest) {
        let pattern = match read_pattern(past_label(line)) {
            Ok(pattern) => pattern,
            Err(bad) => return Err(Refusal::PatternLine(patterns.len(), bad.place)),
        };
        patterns.push(pattern)?;
        rest = after;
    }
    Ok(patterns)
}

/// A line without the word that a report puts before an outcome.
fn past_label(line: &[u8]) -> &[u8]
    ensures { result.now ≡ spec.past_label line.now }
{
    if line.starts_with(LABEL) {
        &line[LABEL.len()..]
    } else {
        line
    }
}

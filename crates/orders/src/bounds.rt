//! How far the words ask to go: the bounds of a check or a search, and the part of an exploration;
//! and how broad a drawing may be.

ghost use Rattle.std.specs.Prelude.{◌≡◌, ◌≢◌, ◌<◌, ◌≤◌, ◌++◌, ℕ, IfErr, IfNone, IfOk, IfSome, Option, Some, codes, decimal};
ghost use Rattle.clap.specs.Words.{found_of, one_text};
ghost use Rattle.regmodel.specs.declared.limits.TheConstants.{GREATEST_VALUE, MOST_WORKERS};
ghost use Rattle.regmodel.specs.declared.parts.Part.{Part};
ghost use Rattle.orders.specs.Bounds as spec;
ghost use Rattle.orders.specs.Bounds.{IsBoundTold, IsNoBound};
ghost use Rattle.orders.specs.Orders.{AreBoundsTold, IsPartTold, part_word, word_told};
ghost use Rattle.orders.specs.declared.bounds.TheConstants.{PART_SETTING};

use crate::option_bounds::{MOST_WIDTH, OptionBound};
use crate::refusals::Refusal;
use crate::words::has_flag;
use breadths::{Breadth, Room, tells_registers};
use clap::ArgMatches;
use regmodel::limits::{MOST_LETTERS, MOST_WORKERS};
use regmodel::{Part, Settings};
use std::thread;
use std::thread::Threads;
use texts::{cut_at, number_of};

/// Up to which length a check or a search splits beginnings of schedules into pieces where several
/// workers share them. The deeper, the later two of them walk alike, before either remembers it.
const SHARED_CUT: u32 = 6;

/// How many pieces each worker of a check or a search may put up for the others.
const ROOM: u32 = 64;

/// In how many megabytes a check or a search remembers states, unless its words say.
pub const CACHE: u32 = 256;

/// The number of the setting that says which part is explored.
const PART_SETTING: u8 = 6;

/// How many processors there are taken to be where the system does not tell.
const PROCESSORS: u32 = 4;

/// How many processors there are, as far as workers can be as many.
#[derive(Clone, Copy)]
pub struct ProcessorCount {
    number: u32,
    ghost some: { 0 < number },
    ghost few: { number ≤ MOST_WORKERS },
}

/// How many processors the system tells.
pub(crate) fn processors<H: Threads>(rt: &H) -> ProcessorCount {
    let number = match thread::available_parallelism(rt) {
        Ok(count) => count.get().min(MOST_WORKERS as usize) as u32,
        Err(_) => PROCESSORS,
    };
    ProcessorCount { number }
}

/// How far the words of a check or a search ask to go, with as many workers as
/// processors where they do not say. The error tells the first bound whose text is no
/// number, or not one that it takes.
pub(crate) fn bounds_of(
    words: &ArgMatches<'_>,
    processors: ProcessorCount,
) -> Result<Settings, Refusal>
    ensures ok { IfOk result (AreBoundsTold (one_text (found_of words.now)) processors.number) }
    ensures err { IfErr result
        (spec.IsBoundRefused (one_text (found_of words.now)) processors.number) }
{
    let length = bound_of(words, OptionBound::Length, MOST_LETTERS)?;
    let crashes = bound_of(words, OptionBound::Crashes, 0)?;
    let workers = bound_of(words, OptionBound::Workers, processors.number)?;
    let cut = if workers > 1 { SHARED_CUT } else { 0 };
    Ok(Settings::new(length, crashes, workers, cut, ROOM).unwrap())
}

/// How broad the words allow a drawing to be, and which columns they ask for.
pub(crate) fn breadth_of<'a>(words: &ArgMatches<'a>) -> Result<Breadth<'a>, Refusal>
    ensures ok { IfOk result (spec.IsBreadthTold (found_of words.now)) }
    ensures err { IfErr result (spec.IsRoomRefused (found_of words.now)) }
{
    let room = room_of(words)?;
    let lines = has_flag(words, "lines");
    Ok(Breadth { room, lines })
}

/// How broad the words allow a drawing to be: whole, or with some registers alone, or so many
/// places, or as usual.
fn room_of<'a>(words: &ArgMatches<'a>) -> Result<Room<'a>, Refusal>
    ensures ok { IfOk result (spec.IsRoomTold (found_of words.now)) }
    ensures err { IfErr result (spec.IsRoomRefused (found_of words.now)) }
{
    if has_flag(words, "all") {
        return Ok(Room::Whole);
    }
    let Some(text) = words.get_str("registers") else {
        return width_of(words);
    };
    if tells_registers(text.as_bytes()) {
        Ok(Room::Chosen(text))
    } else {
        Err(Refusal::Registers)
    }
}

/// How broad the words allow a drawing to be that do not choose registers: so many places, or as
/// usual.
fn width_of<'a>(words: &ArgMatches<'a>) -> Result<Room<'a>, Refusal>
    ensures ok { IfOk result (spec.IsWidthTold (one_text (found_of words.now) (codes "width"))) }
    ensures err { IfErr result (spec.IsNoWidth (found_of words.now)) }
{
    match words.try_get_one::<u32>("width") {
        Ok(Some(places)) if 1 <= places && places <= MOST_WIDTH => Ok(Room::Places(places)),
        Ok(None) => Ok(Room::Usual),
        _ => Err(Refusal::Bound(OptionBound::Width)),
    }
}

/// The number that the words give for a bound, or another one where they give none.
pub(crate) fn bound_of(
    words: &ArgMatches<'_>,
    bound: OptionBound,
    other: u32,
) -> Result<u32, Refusal>
    requires { (spec.least_of bound ≤ other) × (other ≤ spec.most_of bound) }
    ensures told { IfOk result
        (IsBoundTold (one_text (found_of words.now) (spec.name_of bound)) other) }
    ensures within { IfOk result
        (λ number. (spec.least_of bound ≤ number) × (number ≤ spec.most_of bound)) }
    ensures refused { IfErr result
        (λ refusal. IsNoBound (one_text (found_of words.now) (spec.name_of bound)) bound other) }
    ensures err { IfErr result (λ refusal. refusal ≡ Refusal.Bound bound) }
{
    match words.try_get_one::<u32>(bound.name()) {
        Ok(Some(number)) if bound.least() <= number && number <= bound.most() => Ok(number),
        Ok(None) => Ok(other),
        _ => Err(Refusal::Bound(bound)),
    }
}

/// The part that the words ask for, where they ask for one.
pub(crate) fn part_told(words: &ArgMatches<'_>) -> Result<Option<Part>, Refusal>
    ensures ok { IfOk result (IsPartTold (word_told (found_of words.now))) }
    ensures none { IfErr result
        (λ refusal. (part : Option Part) → IsPartTold (word_told (found_of words.now)) part → ⊥) }
    ensures err { IfErr result (λ refusal. refusal ≡ Refusal.Setting PART_SETTING) }
{
    let Some(word) = words.get_str("part") else {
        return Ok(None);
    };
    match part_of(word) {
        Some(part) => Ok(Some(part)),
        None => Err(Refusal::Setting(PART_SETTING)),
    }
}

/// The part that a word writes as `3/16`: its number, from 1 on, and how many there are, at most
/// 65536. None for any other word.
fn part_of(word: &str) -> Option<Part>
    ensures some { IfSome result (λ part. part_word part ≡ word.now) }
    ensures none { IfNone result ((part : Part) → part_word part ≢ word.now) }
{
    let (number, count) = numbers_of(word.as_bytes())?;
    Part::new(number, count)
}

/// The two numbers, 0 to 1000000000, that a word writes with a slash between them. None
/// for any other word.
fn numbers_of(word: &[u8]) -> Option<(u32, u32)>
    ensures some { IfSome result (λ (n, m). decimal n ++ codes "/" ++ decimal m ≡ word.now) }
    ensures is { (n m : ℕ) → n ≤ GREATEST_VALUE → m ≤ GREATEST_VALUE
        → decimal n ++ codes "/" ++ decimal m ≡ word.now → result ≡ Some (n, m) }
{
    let (front, rest) = cut_at(word, b'/');
    let number = number_of(front)?;
    let (_slash, digits) = rest.split_first()?;
    let count = number_of(digits)?;
    Some((number, count))
}

//! The words of the command line, as the system gives them, and the options and flags among them.

ghost use Rattle.std.specs.Prelude.{◌≡◌, ◌⊎◌, IfErr};
ghost use Rattle.clap.specs.Words.{found_of, one_text};
ghost use Rattle.orders.specs.Flags.{IsFlagTold};
ghost use Rattle.orders.specs.Orders.{IsNativeTold, IsNumberTold, word_at};

use crate::refusals::Refusal;
use clap::ArgMatches;
use std::env;
use std::env::Env;
use std::io::ErrorKind;

/// The words of the command line, the program's name first. One that is not UTF-8 is refused.
pub fn words_of<H: Env + AllocGlobal>(rt: &H) -> Result<Vec<String>, Refusal>
    ensures { IfErr result (λ refusal. (refusal ≡ Refusal.Words) ⊎ (refusal ≡ Refusal.Memory)) }
{
    let words = match env::args(rt) {
        Ok(words) => words,
        Err(error) if error.kind() == ErrorKind::OutOfMemory => return Err(Refusal::Memory),
        Err(_) => return Err(Refusal::Words),
    };
    let mut list = Vec::new(rt.alloc());
    for word in words {
        if list.push(word).is_err() {
            return Err(Refusal::Memory);
        }
    }
    Ok(list)
}

/// Whether use lines run as native machines, by the words.
pub(crate) fn is_native(words: &ArgMatches<'_>) -> bool
    ensures { IsNativeTold (one_text (found_of words.now)) result }
{
    !has_flag(words, "text")
}

/// Whether a flag is given.
pub(crate) fn has_flag(words: &ArgMatches<'_>, name: &str) -> bool
    ensures { IsFlagTold (one_text (found_of words.now) name.now) result }
{
    words.get_flag(name)
}

/// The first word that stands where this name does; an empty one where there is none.
pub(crate) fn word_at<'a>(words: &ArgMatches<'a>, name: &str) -> &'a str
    ensures { result.now ≡ word_at name.now (found_of words.now) }
{
    words.get_str(name).unwrap_or("")
}

/// The number of a required option.
pub(crate) fn number_of(words: &ArgMatches<'_>, name: &str) -> u32
    ensures { IsNumberTold (one_text (found_of words.now) name.now) 0 result }
{
    number_or(words, name, 0)
}

/// The number of an option, or another one where it is not given.
pub(crate) fn number_or(words: &ArgMatches<'_>, name: &str, other: u32) -> u32
    ensures { IsNumberTold (one_text (found_of words.now) name.now) other result }
{
    words.get_one::<u32>(name).unwrap_or(other)
}

//! The words of the command line, as clap takes them, and what the help says of them.

ghost use Rattle.std.specs.Prelude.{◌≡◌, ◌<◌, IfOk, IfSome, false, fold, length, map, true};
ghost use Rattle.std.specs.List.{position};
ghost use Rattle.std.specs.Str.{bytes_eq};
ghost use Rattle.clap.specs.Words.{app_of, rule_of, with_rule};
ghost use Rattle.orders.specs.Tables.{AddsAll, AreAsked, app_of_subcommand, rule_of_word};
ghost use Rattle.orders.specs.CommandLine.{IsParseOf, MeetsOneOf, command_line, word_at_name};

mod closings;
mod tables;

use crate::command_words::closings::STATUSES;
use crate::command_words::tables::{CommandWord, SUBCOMMANDS, Subcommand, WordKind};
use clap::{Arg, ArgAction, ArgMatches, Command, Error, value_parser};
use std::alloc::{AllocError, Global};
use std::convert::AsStr;

/// The program's version, and the logic that it is proved with, which several kits of Rattle share.
pub const VERSION: &str = "0.1.0, proved with the logic dac8208d650f15bf of Rattle";

/// What clap makes of the words of the command line, the program's name first. Where it is Ok, it
/// is clap's parse by a command of just the words of `command_line`, and names one of its
/// subcommands, or `help`. Clap is told of one subcommand alone where the first word names it.
/// Which words clap refuses is not promised.
pub(crate) fn matches_of<'a, S: AsStr>(
    alloc: Global,
    words: &'a [S],
) -> Result<ArgMatches<'a>, Error>
    ensures parse { IfOk result
        (IsParseOf (command_line (word_at_name (map S.text words.entry.now)))) }
    ensures subcommand { IfOk result
        (MeetsOneOf (command_line (word_at_name (map S.text words.entry.now)))) }
{
    let command = program(alloc, word_at_name(words))?;
    command.try_get_matches_from(words)
}

/// The word that stands where a subcommand is named, the first behind the program's name; none is
/// an empty one.
fn word_at_name<'a, S: AsStr>(words: &'a [S]) -> &'a str
    ensures { result.now ≡ word_at_name (map S.text words.entry.now) }
{
    match words.get(1) {
        Some(word) => word.as_str(),
        None => "",
    }
}

/// The place of the subcommand that this word names.
fn place_of(all: &[Subcommand], word: &str) -> Option<usize>
    ensures place { result ≡ position (λ one. bytes_eq one.name.now word.now) all.now }
    ensures low { IfSome result (λ place. place < length all.now) }
{
    all.iter().position(|one| one.name == word)
}

/// The subcommand that this word names, alone; all where it names none.
fn asked_of<'t>(all: &'t [Subcommand], word: &str) -> &'t [Subcommand]
    ensures { AreAsked all.entry.now word.now result.now }
{
    match place_of(all, word) {
        Some(place) => &all[place..=place],
        None => all,
    }
}

/// The command of the program, where this word stands at the place of a subcommand's name.
// Only of the subcommand that is named: the words of the others are not asked for in that run.
fn program<'a>(alloc: Global, word: &str) -> Result<Command<'a>, AllocError>
    ensures { IfOk result (λ r. app_of r ≡ command_line word.now) }
{
    let command = Command::new(alloc, "regtry")
        .bin_name("regtry")?
        .about(
            "Runs register algorithms under all bounded schedules and reports what can come out.",
        )
        .version(VERSION)
        .after_help(STATUSES)
        .subcommand_required(true);
    with_subcommands(alloc, command, asked_of(SUBCOMMANDS, word))
}

/// The command with these subcommands.
fn with_subcommands<'a>(
    alloc: Global,
    mut command: Command<'a>,
    subcommands: &[Subcommand],
) -> Result<Command<'a>, AllocError>
    ensures { IfOk result (λ r. AddsAll (app_of command.entry) subcommands.now (app_of r)) }
{
    for one in subcommands {
        let subcommand = command_of(alloc, one)?;
        command = command.subcommand(subcommand)?;
    }
    Ok(command)
}

/// The command of a subcommand.
fn command_of<'a>(alloc: Global, subcommand: &Subcommand) -> Result<Command<'a>, AllocError>
    ensures words { IfOk result (λ r. app_of r ≡ app_of_subcommand subcommand.now) }
    ensures plain { IfOk result (λ r. (app_of r).top.is_plain ≡ true) }
{
    let bare = Command::new(alloc, subcommand.name)
        .about(subcommand.about)
        .after_help(subcommand.after.text());
    with_words(alloc, bare, subcommand.words)
}

/// The command with these words.
fn with_words<'a>(
    alloc: Global,
    mut command: Command<'a>,
    words: &[CommandWord],
) -> Result<Command<'a>, AllocError>
    ensures { IfOk result (λ r. app_of r ≡ fold with_rule (app_of command.entry)
        (map rule_of_word words.now)) }
{
    for word in words {
        command = command.arg(arg_of(alloc, word))?;
    }
    Ok(command)
}

/// The argument of a word.
fn arg_of<'a>(alloc: Global, word: &CommandWord) -> Arg<'a>
    ensures rule { rule_of result ≡ rule_of_word word.now }
    ensures local { result.global ≡ false }
{
    let arg = Arg::new(alloc, word.name).help(word.help);
    match word.kind {
        WordKind::Needed => arg.required(true),
        WordKind::Several => arg.required(true).num_args(1..),
        WordKind::Flag => arg.long(word.name).action(ArgAction::SetTrue),
        WordKind::NeededNumber(value) => arg
            .long(word.name)
            .value_name(value)
            .required(true)
            .value_parser(value_parser!(u32)),
        WordKind::Number(value) => arg
            .long(word.name)
            .value_name(value)
            .value_parser(value_parser!(u32)),
        WordKind::Text(value) => arg
            .long(word.name)
            .value_name(value)
            .allow_hyphen_values(true),
    }
}

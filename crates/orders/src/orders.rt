//! What the words of the command line ask for.

ghost use Rattle.std.specs.Prelude.{◌≡◌, ◌≤◌, ◌⊎◌, Err, IfErr, IfOk, codes, map, ℕ};
ghost use Rattle.clap.specs.Words.{found_of, one_text};
ghost use Rattle.orders.specs.Bounds.{IsBoundRefused};
ghost use Rattle.orders.specs.Orders.{IsCheck, IsEffortTold, IsExploration, IsFindRefused, IsFindTold, IsSettingRefused, texts_at, texts_told, word_told};
ghost use Rattle.orders.specs.Requests.{IsOrderTold, IsRequestBy, IsRequestOf, IsTaskTold, program_told};
ghost use Rattle.regmodel.specs.ScheduleText.{schedule_text};
ghost use Rattle.regmodel.specs.declared.limits.TheConstants.{MOST_WORKERS};
ghost use Rattle.orders.specs.Inputs.{IsStandardText};
ghost use Rattle.orders.specs.PatternTexts.{IsStandardUnread};
ghost use Rattle.orders.specs.Statuses.{IsNoSchedule, status_of};

use crate::bounds::{
    CACHE, ProcessorCount, bound_of, bounds_of, breadth_of, part_told, processors,
};
use crate::command_words::matches_of;
use crate::inputs::{Opener, STANDARD_INPUT, is_standard};
use crate::option_bounds::{MOST_CACHE, OptionBound};
use crate::patterns_told::{are_standard, patterns_told};
use crate::reasons::refuse;
use crate::refusals::Refusal;
use crate::standing_forms::standing_at;
use crate::tasks::Task;
use crate::tips::write_refused;
use crate::words::{has_flag, is_native, number_of, word_at};
use breadths::Breadth;
use clap::ArgMatches;
use clap::error::ErrorKind;
use regmodel::{Effort, Prefix, Settings, read_schedule};
use std::alloc::Global;
use std::convert::AsStr;
use std::io::Write;
use std::thread::Threads;

/// The number of the setting that says in how many megabytes states are remembered. Those of
/// `Settings` are 1 to 5.
const CACHE_SETTING: u8 = 7;

/// What is asked for.
#[derive(Debug, Drop)]
pub struct Order<'a> {
    /// The words by which the program was called, as they are to be typed in a shell.
    pub program: &'a str,
    /// The files that hold sources, in the order in which they are named: one, but for a check
    /// any number of them.
    pub paths: Vec<&'a str>,
    /// What to do with each of them.
    pub task: Task,
    /// How broad a drawing may be, where one is made.
    pub breadth: Breadth<'a>,
    /// Whether it is to be told meanwhile how far it has come. A replay and a drawing never tell.
    pub progress: bool,
}

/// What the words of the command line ask for.
#[derive(Debug, Drop)]
pub enum Request<'a> {
    /// The version of the program.
    Version,
    /// To do something with files.
    Order(Order<'a>),
    /// To merge the parts of an exploration that are in these files.
    Merge(Vec<&'a str>),
}

/// Reads the words of the command line, the program's name first. Where they are refused, also
/// where they ask for help, a setting is past its limit, or a schedule or a pattern is no text of
/// one, it prints why, and the error is the status. A check or a search whose words do not say how
/// many workers it has has as many as there are processors, 1 to 16: `rt` tells that. `opener`
/// opens standard input by its path where the words say that patterns are read from it.
pub fn command<'a, H: Threads + AllocGlobal, S: AsStr, O: Opener, E: Write>(
    rt: &H,
    words: &'a Result<Vec<S>, Refusal>,
    opener: &O,
    err: &mut E,
) -> Result<Request<'a>, u8>
    ensures words { IfErr words.now (λ refusal. result ≡ Err (status_of refusal)) }
    ensures ok { IfOk words.now (λ texts. IfOk result
        (IsRequestOf (IsStandardText (O.opens opener.now) O.Reader.remaining)
        (map S.text texts.items))) }
    ensures err { IfErr result (λ status. (status ≡ 2) ⊎ (status ≡ 3)) }
{
    let words = match words {
        Ok(words) => words.as_slice(),
        Err(refusal) => return Err(refuse(refusal, None, err)),
    };
    match matches_of(rt.alloc(), words) {
        Ok(matches) => request_of(rt, program_of(words), &matches, opener, err),
        Err(error) if matches!(error.kind(), ErrorKind::DisplayVersion) => Ok(Request::Version),
        Err(error) => {
            let _ = write_refused(rt.alloc(), words, &error, err);
            Err(2)
        }
    }
}

/// The first of the words, by which the program was called; its name where there is none.
fn program_of<'a, S: AsStr>(words: &'a [S]) -> &'a str
    ensures { result.now ≡ program_told (map S.text words.entry.now) }
{
    match words.first() {
        Some(word) => word.as_str(),
        None => "regtry",
    }
}

/// What words that clap took ask for. Where they are refused, it prints why.
fn request_of<'a, H: Threads + AllocGlobal, O: Opener, E: Write>(
    rt: &H,
    program: &'a str,
    matches: &ArgMatches<'a>,
    opener: &O,
    err: &mut E,
) -> Result<Request<'a>, u8>
    ensures ok { IfOk result (λ request. (processors : ℕ) × (processors ≤ MOST_WORKERS)
        × IsRequestBy (IsStandardText (O.opens opener.now) O.Reader.remaining) program.now
        processors matches.now request) }
    ensures err { IfErr result (λ status. (status ≡ 2) ⊎ (status ≡ 3)) }
{
    let Some((name, words)) = matches.subcommand() else {
        return Err(2);
    };
    if name == "merge" {
        return match paths_of(rt.alloc(), words) {
            Ok(paths) => Ok(Request::Merge(paths)),
            Err(refusal) => Err(refuse(&refusal, Some(""), err)),
        };
    }
    let processors = processors(rt);
    match order_of(rt.alloc(), program, processors, name, words, opener) {
        Ok(order) => Ok(Request::Order(order)),
        Err(refusal) => {
            let subject = match name {
                "check" | "find" | "show" => Some(subject_of(words, &refusal)),
                _ => None,
            };
            Err(refuse(&refusal, subject, err))
        }
    }
}

/// The order of the words behind the name of a subcommand.
fn order_of<'a, O: Opener>(
    alloc: Global,
    program: &'a str,
    processors: ProcessorCount,
    name: &str,
    words: &ArgMatches<'a>,
    opener: &O,
) -> Result<Order<'a>, Refusal>
    ensures { IfOk result
        (IsOrderTold (IsStandardText (O.opens opener.now) O.Reader.remaining) program.now
        processors.number name.now (found_of words.now)) }
{
    let breadth = breadth_of(words)?;
    let task = task_of(alloc, processors, name, words, opener)?;
    let progress = has_flag(words, "progress");
    let paths = paths_of(alloc, words)?;
    Ok(Order {
        program,
        paths,
        task,
        breadth,
        progress,
    })
}

/// The files that the words name, in their order.
fn paths_of<'a>(alloc: Global, words: &ArgMatches<'a>) -> Result<Vec<&'a str>, Refusal>
    ensures { IfOk result (λ paths. map (λ path. path.now) paths.items
        ≡ texts_at (codes "FILE") (found_of words.now)) }
{
    match Vec::from_slice(alloc, words.get_strs("FILE").unwrap_or(&[])) {
        Ok(paths) => Ok(paths),
        Err(_) => Err(Refusal::Memory),
    }
}

/// What the words behind the name of a subcommand ask to do.
fn task_of<O: Opener>(
    alloc: Global,
    processors: ProcessorCount,
    name: &str,
    words: &ArgMatches<'_>,
    opener: &O,
) -> Result<Task, Refusal>
    ensures { IfOk result
        (IsTaskTold (IsStandardText (O.opens opener.now) O.Reader.remaining) processors.number
        name.now (found_of words.now)) }
{
    match name {
        "check" => check_of(words, processors),
        "find" => find_of(alloc, words, processors, opener),
        "replay" => Ok(Task::Replay {
            schedule: schedule_of(word_at(words, "SCHEDULE"))?,
        }),
        "show" => Ok(Task::Show {
            schedule: schedule_of(word_at(words, "SCHEDULE"))?,
        }),
        _ => exploration_of(words),
    }
}

/// Of what a refusal of words tells: the text that is given for a bound, the standing at fault of a
/// pattern, or standard input, of which patterns are read.
fn subject_of<'a>(words: &ArgMatches<'a>, refusal: &Refusal) -> &'a str {
    match refusal {
        Refusal::Bound(bound) => word_at(words, bound.name()),
        Refusal::Registers => word_at(words, "registers"),
        Refusal::Pattern(place, standing) => {
            match words.get_strs("PATTERN").unwrap_or(&[]).get(*place) {
                Some(text) => standing_at(text, *standing),
                None => "",
            }
        }
        _ => STANDARD_INPUT,
    }
}

/// How far the words of `check` ask to check, whether they allow faults, and whether they ask for
/// the shortest failing schedule and for the outcomes.
fn check_of(words: &ArgMatches<'_>, processors: ProcessorCount) -> Result<Task, Refusal>
    ensures ok { IfOk result (IsCheck (one_text (found_of words.now)) processors.number) }
    ensures err { IfErr result
        (IsBoundRefused (one_text (found_of words.now)) processors.number) }
{
    let effort = effort_of(words, processors)?;
    let native = is_native(words);
    let allows_faults = has_flag(words, "allow-faults");
    let shortest = has_flag(words, "shortest");
    let lists = has_flag(words, "outcomes");
    Ok(Task::Check {
        effort,
        native,
        allows_faults,
        shortest,
        lists,
    })
}

/// How far the words of a check or a search ask to go, and in how many megabytes
/// states are remembered.
fn effort_of(words: &ArgMatches<'_>, processors: ProcessorCount) -> Result<Effort, Refusal>
    ensures ok { IfOk result (IsEffortTold (one_text (found_of words.now)) processors.number) }
    ensures err { IfErr result
        (IsBoundRefused (one_text (found_of words.now)) processors.number) }
{
    let settings = bounds_of(words, processors)?;
    let cache = bound_of(words, OptionBound::Cache, CACHE)?;
    Ok(Effort { settings, cache })
}

/// How far the words of `find` ask to look, for which outcomes, and whether for the shortest
/// schedule. Standard input cannot be both the source and the patterns.
fn find_of<O: Opener>(
    alloc: Global,
    words: &ArgMatches<'_>,
    processors: ProcessorCount,
    opener: &O,
) -> Result<Task, Refusal>
    ensures ok { IfOk result
        (IsFindTold (IsStandardText (O.opens opener.now) O.Reader.remaining) (found_of words.now)
        processors.number) }
    ensures refused { IfErr result
        (IsFindRefused (IsStandardText (O.opens opener.now) O.Reader.remaining)
        (IsStandardUnread (O.opens opener.now) O.Reader.remaining) (found_of words.now)
        processors.number) }
{
    let effort = effort_of(words, processors)?;
    let native = is_native(words);
    let texts = pattern_words(words);
    if is_standard(word_at(words, "FILE")) && are_standard(texts) {
        return Err(Refusal::TwiceStandard);
    }
    let patterns = patterns_told(alloc, texts, opener)?;
    let shortest = has_flag(words, "shortest");
    Ok(Task::Find {
        effort,
        native,
        patterns,
        shortest,
    })
}

/// The words that are patterns.
fn pattern_words<'a>(words: &'a ArgMatches<'_>) -> &'a [&'a str]
    ensures { map (λ text. text.now) result.now ≡ texts_told (found_of words.now) }
{
    words.get_strs("PATTERN").unwrap_or(&[])
}

/// How far the words of `explore` ask to explore. The error tells the lowest setting that they give
/// past its limit, by its number: 1 to 5 are those of `Settings`, 6 is the part, 7 the megabytes.
fn exploration_of(words: &ArgMatches<'_>) -> Result<Task, Refusal>
    ensures ok { IfOk result
        (IsExploration (one_text (found_of words.now)) (word_told (found_of words.now))) }
    ensures err { IfErr result
        (IsSettingRefused (one_text (found_of words.now)) (word_told (found_of words.now))) }
{
    let settings = Settings::new(
        number_of(words, "length"),
        number_of(words, "crashes"),
        number_of(words, "workers"),
        number_of(words, "cut"),
        number_of(words, "room"),
    );
    let settings = match settings {
        Ok(settings) => settings,
        Err(fault) => return Err(Refusal::Setting(fault.code)),
    };
    let part = part_told(words)?;
    let cache = number_of(words, "cache");
    if cache > MOST_CACHE {
        return Err(Refusal::Setting(CACHE_SETTING));
    }
    let effort = Effort { settings, cache };
    let native = is_native(words);
    let least_alone = has_flag(words, "least");
    Ok(Task::Explore {
        effort,
        native,
        part,
        least_alone,
    })
}

/// The schedule of this text.
fn schedule_of(text: &str) -> Result<Prefix, Refusal>
    ensures ok { IfOk result (λ schedule. schedule_text schedule ≡ text.now) }
    ensures refused { IfErr result (IsNoSchedule text.now) }
{
    match read_schedule(text.as_bytes()) {
        Some(schedule) => Ok(schedule),
        None => Err(Refusal::Schedule),
    }
}

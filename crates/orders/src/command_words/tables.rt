//! The subcommands and their words, as tables.

use crate::command_words::closings::Closing;

/// How a word is taken; an option has what its value is called.
pub(crate) enum WordKind {
    /// A word that has to be there.
    Needed,
    /// Words of which one has to be there.
    Several,
    /// A flag, `--name`.
    Flag,
    /// An option that takes a number of 32 bits and has to be there.
    NeededNumber(&'static str),
    /// An option that takes a number of 32 bits.
    Number(&'static str),
    /// An option of which any text is handed on, so that what is wrong with it is told by the
    /// program.
    Text(&'static str),
}

/// A word of a subcommand: its name, how it is taken, and what the help says of it.
pub(crate) struct CommandWord {
    pub(crate) name: &'static str,
    pub(crate) kind: WordKind,
    pub(crate) help: &'static str,
}

/// A subcommand: its name, what the help says of it, what it says below its words, and the words.
pub(crate) struct Subcommand {
    pub(crate) name: &'static str,
    pub(crate) about: &'static str,
    pub(crate) after: Closing,
    pub(crate) words: &'static [CommandWord],
}

/// The subcommands.
pub(crate) const SUBCOMMANDS: &[Subcommand] = &[
    Subcommand {
        name: "check",
        about: "Checks all schedules of a source and says what fails, in words.",
        after: Closing::Checks,
        words: CHECK,
    },
    Subcommand {
        name: "explore",
        about: "Explores all schedules of a source and prints a report of the outcomes.",
        after: Closing::Statuses,
        words: EXPLORE,
    },
    Subcommand {
        name: "find",
        about: "Finds the least schedule of a source that leads to an outcome, and draws it.",
        after: Closing::Patterns,
        words: FIND,
    },
    Subcommand {
        name: "merge",
        about: "Merges all parts of an exploration and prints the report of the whole.",
        after: Closing::Merges,
        words: MERGE,
    },
    Subcommand {
        name: "replay",
        about: "Replays one schedule of a source and prints where it leads.",
        after: Closing::Schedules,
        words: REPLAY,
    },
    Subcommand {
        name: "show",
        about: "Draws one schedule of a source: what each of its letters does.",
        after: Closing::Drawings,
        words: SHOW,
    },
];

/// The words of `check`.
const CHECK: &[CommandWord] = &[
    CommandWord {
        name: "FILE",
        kind: WordKind::Several,
        help: FILE,
    },
    LENGTH,
    CRASHES,
    WORKERS,
    CACHE,
    CommandWord {
        name: "allow-faults",
        kind: WordKind::Flag,
        help: "Let no schedule fail for a process at fault alone, but only for a check that it breaks",
    },
    CommandWord {
        name: "shortest",
        kind: WordKind::Flag,
        help: "Tell the least of the shortest schedules that fail, in place of the least of all: lengths are tried from 0 on, up to --length",
    },
    CommandWord {
        name: "outcomes",
        kind: WordKind::Flag,
        help: "Print all outcomes as well, as explore does",
    },
    ALL,
    REGISTERS,
    WIDTH,
    LINES,
    TEXT,
    PROGRESS,
];

/// The words of `explore`.
const EXPLORE: &[CommandWord] = &[
    SOURCE,
    CommandWord {
        name: "length",
        kind: WordKind::NeededNumber("L"),
        help: "How many letters a schedule has at most: 0 to 64",
    },
    CommandWord {
        name: "crashes",
        kind: WordKind::NeededNumber("C"),
        help: "How many crashes a schedule has at most: 0 to 8",
    },
    CommandWord {
        name: "workers",
        kind: WordKind::NeededNumber("W"),
        help: "How many workers share the exploration, each in a thread of its own: 1 to 16",
    },
    CommandWord {
        name: "cut",
        kind: WordKind::NeededNumber("D"),
        help: "Up to which length beginnings are split into pieces: 0 to 16 (6 serves well)",
    },
    CommandWord {
        name: "room",
        kind: WordKind::NeededNumber("M"),
        help: "How many pieces each worker may put up for the others: 0 to 65536 (64 serves well); each takes up to 700 bytes from the start",
    },
    CommandWord {
        name: "cache",
        kind: WordKind::Number("MB"),
        help: "In how many megabytes states are remembered: 0 to 65536. What follows a state that was met before is counted and not tried again, which gives the same report in fewer steps. The workers share the megabytes [default: 0]",
    },
    CommandWord {
        name: "part",
        kind: WordKind::Text("I/N"),
        help: "Explore only part I of N, as 3/16, and print it as a part for `regtry merge`: N is at most 65536",
    },
    TEXT,
    CommandWord {
        name: "least",
        kind: WordKind::Flag,
        help: "Look for the least failing schedule alone: no outcomes are printed, and what can hold no lower one is left out",
    },
    PROGRESS,
];

/// The words of `find`.
const FIND: &[CommandWord] = &[
    SOURCE,
    CommandWord {
        name: "PATTERN",
        kind: WordKind::Several,
        help: "How each process may stand, as one word: 'done 1; *'; or - for the lines of standard input",
    },
    LENGTH,
    CRASHES,
    WORKERS,
    CACHE,
    CommandWord {
        name: "shortest",
        kind: WordKind::Flag,
        help: "Tell the least of the shortest schedules that lead there, in place of the least of all: lengths are tried from 0 on, up to --length",
    },
    ALL,
    REGISTERS,
    WIDTH,
    LINES,
    TEXT,
    PROGRESS,
];

/// The words of `merge`.
const MERGE: &[CommandWord] = &[CommandWord {
    name: "FILE",
    kind: WordKind::Several,
    help: "Files of parts, as explore --part prints them, in any order, or - for standard input",
}];

/// The words of `replay`.
const REPLAY: &[CommandWord] = &[SOURCE, SCHEDULE];

/// The words of `show`.
const SHOW: &[CommandWord] = &[SOURCE, SCHEDULE, ALL, REGISTERS, WIDTH, LINES];

/// What the help says of a source.
const FILE: &str =
    "The source: a text in the register language, at most 1048576 bytes, or - for standard input";

/// The file of a source.
const SOURCE: CommandWord = CommandWord {
    name: "FILE",
    kind: WordKind::Needed,
    help: FILE,
};

/// A schedule.
const SCHEDULE: CommandWord = CommandWord {
    name: "SCHEDULE",
    kind: WordKind::Needed,
    help: "The schedule, as one word: at most 64 letters parted by one space, as 'R0 R1 C0', or . for none",
};

/// The greatest length, for a check and a search.
const LENGTH: CommandWord = CommandWord {
    name: "length",
    kind: WordKind::Text("L"),
    help: "How many letters a schedule has at most: 0 to 64 [default: 64]",
};

/// How many crashes there may be, for a check and a search.
const CRASHES: CommandWord = CommandWord {
    name: "crashes",
    kind: WordKind::Text("C"),
    help: "How many crashes a schedule has at most: 0 to 8 [default: 0]",
};

/// How many workers there are, for a check and a search.
const WORKERS: CommandWord = CommandWord {
    name: "workers",
    kind: WordKind::Text("W"),
    help: "How many workers share the exploration, each in a thread of its own: 1 to 16 [default: the number of processors, at most 16]",
};

/// The megabytes for states, for a check and a search.
const CACHE: CommandWord = CommandWord {
    name: "cache",
    kind: WordKind::Text("MB"),
    help: "In how many megabytes states are remembered, as by explore: 0 to 65536 [default: 256]",
};

/// The flag that asks for all registers, for a check, a search and a drawing.
const ALL: CommandWord = CommandWord {
    name: "all",
    kind: WordKind::Flag,
    help: "Draw all registers, however long the lines become",
};

/// The registers to draw, for a check, a search and a drawing.
const REGISTERS: CommandWord = CommandWord {
    name: "registers",
    kind: WordKind::Text("LIST"),
    help: "Draw these registers alone: numbers from 0 to 63 and ranges of them, as 0,3-5",
};

/// How broad a drawing may be, for a check, a search and a drawing.
const WIDTH: CommandWord = CommandWord {
    name: "width",
    kind: WordKind::Text("N"),
    help: "How long a line of a drawing may become, as far as leaving out registers helps: 1 to 65536 [default: 80 for up to two processes, else 132]",
};

/// The flag that asks for a column of lines, for a check, a search and a drawing.
const LINES: CommandWord = CommandWord {
    name: "lines",
    kind: WordKind::Flag,
    help: "Draw a column with the line of the source on which each letter's statement stands",
};

/// The flag that asks for interpreters.
const TEXT: CommandWord = CommandWord {
    name: "text",
    kind: WordKind::Flag,
    help: "Interpret the processes with a `use` line, too, which else run as native machines",
};

/// The flag that asks to tell how far a run has come.
const PROGRESS: CommandWord = CommandWord {
    name: "progress",
    kind: WordKind::Flag,
    help: "Tell on standard error how far it has come: how many pieces are done of those known so far, with how many first letters it is through, and how many schedules were counted; a line each time that the pieces done reach 1, 3, 5 or 7 times a power of two",
};

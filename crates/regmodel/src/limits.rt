//! The limits of the model and of an exploration.

/// The greatest value of a register, a variable, a cell, a number of a program, and the numbers of
/// a check.
pub const GREATEST_VALUE: u32 = 1_000_000_000;

/// The most registers of a program.
pub const MOST_REGISTERS: u32 = 64;

/// The most letters of a schedule.
pub const MOST_LETTERS: u32 = 64;

/// The most processes of a source.
pub const MOST_PROCESSES: usize = 8;

/// The number of the last process that a letter can name.
pub const LAST_PROCESS: u8 = 7;

/// The most processes that may crash.
pub const MOST_CRASHES: u32 = 8;

/// The most workers of an exploration.
pub const MOST_WORKERS: u32 = 16;

/// The greatest length below which a piece may be split.
pub const GREATEST_CUT: u32 = 16;

/// The most pieces that a worker may hand on.
pub const GREATEST_ROOM: u32 = 65536;

/// The most parts of one exploration.
pub const MOST_PARTS: u32 = 65536;

/// How many variables a process has.
pub const VARIABLES: u8 = 16;

/// How many cells a process has.
pub const CELLS: u8 = 32;

/// The most registers that one scan reads: as many as a process has cells.
pub const MOST_SCANNED: usize = 32;

/// The most statements of a process, those of inner blocks counted.
pub const MOST_STATEMENTS: u32 = 200;

/// The most blocks of a process that are open at a place, `if` and `repeat` together.
pub const MOST_OPEN_BLOCKS: u32 = 16;

/// The most repeats among them.
pub const MOST_OPEN_REPEATS: u32 = 3;

/// The most turns of a `repeat`.
pub const MOST_TURNS: u32 = 99;

/// The most numbers that a process emits.
pub const MOST_NUMBERS: usize = 8;

/// The most rows and columns of a grid.
pub const MOST_ROWS: u32 = 7;

/// The most levels of a tree.
pub const MOST_LEVELS: u32 = 4;

/// The most slots of a renaming.
pub const MOST_SLOTS: u32 = 8;

/// The most checks of a source.
pub const MOST_CHECKS: usize = 16;

/// The most bytes of the text of a source, and of patterns.
pub const MOST_SOURCE_BYTES: usize = 1_048_576;

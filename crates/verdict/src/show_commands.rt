//! The command that draws a schedule.

ghost use Rattle.std.specs.Prelude.{◌≡◌};
ghost use Rattle.verdict.specs.ShowCommands as spec;

use crate::shell_words::ShellPath;
use breadths::{Breadth, Room};
use regmodel::Prefix;
use std::io::Write;
use texts::{Block, Text, WriteFault};

/// The command that draws a schedule of the source in the file of this path, as broad and with the
/// same columns, as it is to be typed in a shell, behind an empty line. It begins with the words by
/// which the program was called. What stood on standard input is gone, so it names a file in its
/// place, and says what that has to hold.
#[derive(Clone, Copy)]
pub struct ShowCommand<'a> {
    /// The words by which the program was called.
    pub program: &'a [u8],
    /// The path.
    pub path: &'a [u8],
    /// How broad the drawing may be, and which columns it has.
    pub breadth: Breadth<'a>,
    /// The schedule.
    pub schedule: &'a Prefix,
}

impl Text for ShowCommand<'_> {
    ghost text = { λ r. spec.show_text r.program.now r.path.now r.breadth r.schedule.now };

    fn put<W: Write>(&self, out: &mut W, block: &mut Block) -> Result<(), WriteFault> {
        let show = ("\n", self.program, " show ", Options(self.breadth));
        let command = (show, TypedFile(self.path), " '", self.schedule, "'");
        (command, file_wanted(self.path), "\n").put(out, block)
    }
}

/// The options by which a drawing is as broad, and has the same columns; a space behind each.
#[derive(Clone, Copy)]
struct Options<'a>(Breadth<'a>);

impl Text for Options<'_> {
    ghost text = { λ options. spec.options_text options.0 };

    fn put<W: Write>(&self, out: &mut W, block: &mut Block) -> Result<(), WriteFault> {
        (RoomOption(self.0.room), lines_option(self.0.lines)).put(out, block)
    }
}

/// The option by which a drawing has so much room, and the space behind it.
#[derive(Clone, Copy)]
struct RoomOption<'a>(Room<'a>);

impl Text for RoomOption<'_> {
    ghost text = { λ option. spec.room_option option.0 };

    fn put<W: Write>(&self, out: &mut W, block: &mut Block) -> Result<(), WriteFault> {
        match self.0 {
            Room::Usual => Ok(()),
            Room::Places(places) => ("--width ", u64::from(places), " ").put(out, block),
            Room::Whole => "--all ".put(out, block),
            Room::Chosen(registers) => ("--registers ", registers, " ").put(out, block),
        }
    }
}

/// The option by which a drawing tells lines, where it does, and the space behind it.
fn lines_option(lines: bool) -> &'static str
    ensures { result.now ≡ spec.lines_option lines }
{
    if lines { "--lines " } else { "" }
}

/// The file of a path, as it is to be typed in a shell.
#[derive(Clone, Copy)]
struct TypedFile<'a>(&'a [u8]);

impl Text for TypedFile<'_> {
    ghost text = { λ file. spec.typed_file file.0.now };

    fn put<W: Write>(&self, out: &mut W, block: &mut Block) -> Result<(), WriteFault> {
        if is_standard(self.0) {
            return "FILE".put(out, block);
        }
        ShellPath(self.0).put(out, block)
    }
}

/// What the file has to hold that is named in place of standard input.
fn file_wanted(path: &[u8]) -> &'static str
    ensures { result.now ≡ spec.file_wanted path.now }
{
    if is_standard(path) {
        ", where FILE holds what was read"
    } else {
        ""
    }
}

/// Whether a path is a dash, which names standard input.
fn is_standard(path: &[u8]) -> bool
    ensures { result ≡ spec.is_standard path.now }
{
    match path {
        [first] => *first == b'-',
        _ => false,
    }
}

//! What no run of the program shows: writers that take nothing or pass nothing on, and what the
//! words ask for.

ghost use Rattle.std.specs.Prelude.{◌≡◌, Some};

use cli::{FileFault, Opener, Output, Refusal, Request, Task, Watched, command, perform};
use std::alloc::Global;
use std::io;
use std::io::Write;
use std::process::Abort;
use std::sync::Wait;
use std::test::Fail;
use std::thread::Threads;

/// One process writes a register, another reads and emits it.
const WRITER_AND_READER: &[u8] =
    b"registers 1\nprocess\nwrite 0 5\nend\nprocess\nread v0 0\nemit v0\nend\n";

/// Two processes at a splitter, of which at most none may have the name 3.
const SPLITTER: &[u8] =
    b"registers 2\nprocess\nuse split 0 1\nend\nprocess\nuse split 0 2\nend\ncheck atmost 3 0\n";

/// The only part of an exploration, in which no schedule fails.
const PART: &[u8] =
    b"part 1 of 1\nprocesses 1\nlength 0\ncrashes 0\ncut 0\nsource 0\ntried 1\noutcomes 1\noutcome done idle\nleast none\nend\n";

/// What is told where an answer is not written whole.
const FAULT: &[u8] = b"regtry: write\n";

/// Words that print no answer on a source, and what is told where it is not passed on.
const BESIDES: [(&str, &[u8]); 2] = [
    ("regtry --version", FAULT),
    ("regtry merge FILE", b"the answer could not be written\n"),
];

/// Words of the command line.
#[derive(Clone, Copy)]
struct Words {
    /// The first of them, each parted by a space from the next.
    first: &'static str,
    /// The last one, which may have spaces; none where there is none.
    last: Option<&'static str>,
}

/// Words that explore, and words that replay.
const PRINTING: [Words; 2] = [
    Words {
        first: "regtry explore FILE --length 2 --crashes 0 --workers 2 --cut 1 --room 16",
        last: None,
    },
    Words {
        first: "regtry replay FILE",
        last: Some("R1 R0"),
    },
];

/// Runs of which one process may crash.
const TELLING: [&str; 3] = [
    "regtry explore FILE --length 2 --crashes 1 --cut 2 --room 16 --workers 2",
    "regtry explore FILE --least --length 2 --crashes 1 --cut 2 --room 16 --workers 2",
    "regtry check FILE --crashes 1 --workers 2",
];

/// Words whose answer is read by nobody, and what is told of that.
const LEAVING: [(&str, &[u8]); 2] = [
    ("regtry check FILE --length 2 --workers 1", b""),
    (
        "regtry explore FILE --length 2 --crashes 0 --workers 1 --cut 0 --room 0",
        FAULT,
    ),
];

/// A file that is opened by each path.
#[derive(Drop)]
struct OneFile(&'static [u8]);

impl Opener for OneFile {
    type Reader = &'static [u8];

    ghost opens = { λ one _ file. file ≡ Some one.0 };

    fn open(&self, _path: &str) -> Result<&'static [u8], FileFault> {
        Ok(self.0)
    }
}

/// A writer that takes no byte.
#[derive(Drop)]
struct Closed;

impl Write for Closed {
    fn write(&mut self, _buf: &[u8]) -> io::Result<usize> {
        Ok(0)
    }

    fn flush(&mut self) -> io::Result<()> {
        Ok(())
    }
}

/// A writer that takes each byte and does not pass them on.
#[derive(Drop)]
struct Stuck;

impl Write for Stuck {
    fn write(&mut self, buf: &[u8]) -> io::Result<usize> {
        Ok(buf.len())
    }

    fn flush(&mut self) -> io::Result<()> {
        Err(io::Error::from(io::ErrorKind::Other))
    }
}

/// A writer whose reader has gone.
#[derive(Drop)]
struct Left;

impl Write for Left {
    fn write(&mut self, _buf: &[u8]) -> io::Result<usize> {
        Err(io::Error::from(io::ErrorKind::BrokenPipe))
    }

    fn flush(&mut self) -> io::Result<()> {
        Err(io::Error::from(io::ErrorKind::BrokenPipe))
    }
}

/// The list of these words.
fn list_of(alloc: Global, words: Words) -> Result<Vec<&'static str>, Refusal> {
    let mut list = Vec::new(alloc);
    for word in words.first.split(' ') {
        list.push(word)?;
    }
    if let Some(word) = words.last {
        list.push(word)?;
    }
    Ok(list)
}

/// The status of words on a file, where standard output and standard error are these.
fn asked<H: Threads + Wait + Sync + AllocGlobal, W: Output, E: Write + Send>(
    rt: &H,
    words: Words,
    file: &'static [u8],
    out: &mut W,
    err: &mut E,
) -> u8 {
    let words = list_of(rt.alloc(), words);
    let opener = OneFile(file);
    let request = command(rt, &words, &opener, err);
    perform(rt, rt.alloc(), request, &opener, out, err)
}

/// Asserts that the answer to words on a file is not written by this writer, and that this line is
/// told.
fn assert_unwritten<H: Abort + Threads + Wait + Sync + AllocGlobal, W: Output>(
    rt: &H,
    words: Words,
    file: &'static [u8],
    out: &mut W,
    line: &[u8],
) {
    let mut err = Vec::new(rt.alloc());
    let status = asked(rt, words, file, out, &mut err);
    assert!(rt; (status, err.as_slice()) == (3, line));
}

#[test]
fn output_that_is_not_taken_is_a_write_fault(rt: HostRuntime) {
    for words in PRINTING {
        let out = &mut Watched::new(Closed);
        assert_unwritten(&rt, words, WRITER_AND_READER, out, FAULT);
        let out = &mut Watched::new(Closed);
        let status = asked(&rt, words, WRITER_AND_READER, out, &mut Closed);
        assert!(rt; status == 3);
    }
}

#[test]
fn output_that_is_not_passed_on_is_a_write_fault(rt: HostRuntime) {
    for words in PRINTING {
        let out = &mut Watched::new(Stuck);
        assert_unwritten(&rt, words, WRITER_AND_READER, out, FAULT);
    }
}

#[test]
fn a_reader_that_has_gone_is_told_by_the_status_alone(rt: HostRuntime) {
    for (first, line) in LEAVING {
        let words = Words { first, last: None };
        assert_unwritten(&rt, words, SPLITTER, &mut Watched::new(Left), line);
    }
}

#[test]
fn a_version_and_merged_parts_that_are_not_passed_on_are_write_faults(rt: HostRuntime) {
    for (first, line) in BESIDES {
        let words = Words { first, last: None };
        assert_unwritten(&rt, words, PART, &mut Watched::new(Stuck), line);
    }
}

#[test]
fn a_writer_that_takes_no_line_of_progress_changes_nothing(rt: HostRuntime) {
    for first in TELLING {
        let (mut silent, mut err) = (Vec::new(rt.alloc()), Vec::new(rt.alloc()));
        let unasked = Words { first, last: None };
        let status = asked(&rt, unasked, SPLITTER, &mut silent, &mut err);
        let mut told = Vec::new(rt.alloc());
        let last = Some("--progress");
        let answer = asked(&rt, Words { first, last }, SPLITTER, &mut told, &mut Closed);
        assert!(rt; (answer, told.as_slice()) == (status, silent.as_slice()));
    }
}

#[test]
fn each_option_says_its_own_setting(rt: HostRuntime) -> Result<(), Fail> {
    let first = "regtry explore FILE --crashes 1 --length 5 --room 16 --workers 2 --cut 3";
    for (last, interpreted) in [(Some("--text"), true), (None, false)] {
        let mut err = Vec::new(rt.alloc());
        let words = list_of(rt.alloc(), Words { first, last });
        let request = command(&rt, &words, &OneFile(SPLITTER), &mut err);
        let Ok(Request::Order(order)) = request else {
            return Err(Fail::from("refused words"));
        };
        let Task::Explore { effort, native, .. } = &order.task else {
            return Err(Fail::from("no exploration"));
        };
        let settings = effort.settings;
        let bounds = (settings.length(), settings.crashes());
        let sharing = (settings.workers(), settings.cut(), settings.room());
        assert!(rt; (bounds, sharing, *native) == ((5, 1), (2, 3, 16), !interpreted));
    }
    Ok(())
}

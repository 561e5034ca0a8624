//! The whole program, over what opens its files and what takes its texts; and how many files were
//! answered in which way.

ghost use Rattle.std.specs.Prelude.{◌≡◌, ◌-◌, ◌^◌, map};
ghost use Rattle.std.specs.List.{FoldsTo};
ghost use Rattle.cli.specs.FileCounts as spec;
ghost use Rattle.cli.specs.FileCounts.{no_counts};
ghost use Rattle.cli.specs.Performing.{AreSummed, IsNext, IsPerformed, IsVersionTold};

use crate::answers::answer;
use crate::merges::merge_files;
use crate::outputs::{Output, tell, tell_unwritten};
use orders::{Opener, Order, Question, Request, VERSION, refuse, worse};
use std::alloc::Global;
use std::io::Write;
use std::sync::Wait;
use std::thread::Threads;
use texts::{Block, Text, WriteFault};

/// Does what was asked for, and gives the status: that of the words where they were refused, and
/// nothing is done then; 0 where the version was written, else the highest of those with which
/// the files are answered, one after another, each as `opener` opens it by its path: 0 or 1 where
/// the answer was written to `out`; 2 where the file, the source or a letter is refused; 3 where
/// it could not be done. At 2 and 3 `err` is told why, and `out` is as before, unless it did not
/// take the whole answer: then it took a beginning of it. Of several files `out` is told last how
/// many have which status.
pub fn perform<H: Threads + Wait + Sync, O: Opener, W: Output, E: Write + Send>(
    rt: &H,
    alloc: Global,
    request: Result<Request<'_>, u8>,
    opener: &O,
    out: &mut W,
    err: &mut E,
) -> u8
    ensures { IsPerformed W.contents O.Reader.remaining O.Reader.fails O.Reader.Bytes.may_fail
        (O.opens opener.now) request.entry out.old out.new result }
{
    match request {
        Ok(Request::Order(order)) => {
            let counts = answers_of(rt, alloc, &order, opener, out, err);
            tell_counts(&counts, out, err)
        }
        Ok(Request::Version) => tell_version(out, err),
        Ok(Request::Merge(paths)) => merge_files(alloc, paths.as_slice(), opener, out, err),
        Err(status) => status,
    }
}

/// Writes the version on `out`, and gives the status: 0, or 3 where it was not written whole.
fn tell_version<W: Output, E: Write>(out: &mut W, err: &mut E) -> u8
    ensures { IsVersionTold W.contents out.old out.new result }
{
    match tell(&("regtry ", VERSION, "\n"), out) {
        Ok(()) => 0,
        Err(fault) => refuse(&fault, None, err),
    }
}

/// Answers each file of an order in turn, and counts them.
fn answers_of<H: Threads + Wait + Sync, O: Opener, W: Output, E: Write + Send>(
    rt: &H,
    alloc: Global,
    order: &Order<'_>,
    opener: &O,
    out: &mut W,
    err: &mut E,
) -> FileCounts
    ensures { FoldsTo
        (IsNext W.contents O.Reader.remaining O.Reader.fails (O.opens opener.now)
        order.now.program.now order.now.task order.now.breadth)
        (out.old, no_counts) (map (λ path. path.now) order.now.paths.items) (out.new, result) }
{
    let mut counts = FileCounts::none();
    for path in order.paths.as_slice() {
        let question = Question {
            program: order.program,
            path,
            task: &order.task,
            breadth: order.breadth,
            progress: order.progress,
        };
        let status = answer(rt, alloc, &question, opener.open(path), out, err);
        counts.add(status);
    }
    counts
}

/// Writes how several files were answered, and gives the highest status, or 3 where that was not
/// written whole. Of one file nothing is written.
fn tell_counts<W: Output, E: Write>(counts: &FileCounts, out: &mut W, err: &mut E) -> u8
    ensures { AreSummed W.contents out.old out.new counts.now result }
{
    if counts.files <= 1 {
        return counts.worst;
    }
    match tell(counts, out) {
        Ok(()) => counts.worst,
        Err(fault) => tell_unwritten(&fault, "", out, err),
    }
}

/// How many files were answered in which way, by their statuses.
#[derive(Clone, Copy)]
pub struct FileCounts {
    /// How many there are.
    pub files: u64,
    /// How many of them hold.
    pub holding: u64,
    /// In how many a schedule fails.
    pub failing: u64,
    /// How many are refused.
    pub refused: u64,
    /// How many could not be answered.
    pub unanswered: u64,
    /// The highest status.
    pub worst: u8,
}

impl FileCounts {
    /// Of no file.
    pub fn none() -> FileCounts
        ensures { result ≡ spec.no_counts }
    {
        FileCounts {
            files: 0,
            holding: 0,
            failing: 0,
            refused: 0,
            unanswered: 0,
            worst: 0,
        }
    }

    /// One more file was answered, with this status.
    pub fn add(&mut self, status: u8)
        requires { spec.HasAtMost self.old (2 ^ 64 - 2) }
        ensures { self.new ≡ spec.with_one_more self.old status }
    {
        self.files += 1;
        self.holding += u64::from(status == 0);
        self.failing += u64::from(status == 1);
        self.refused += u64::from(status == 2);
        self.unanswered += u64::from(status == 3);
        self.worst = worse(self.worst, status);
    }
}

/// The line that tells how several files were answered.
impl Text for FileCounts {
    ghost text = { spec.counts_text };

    fn put<W: Write>(&self, out: &mut W, block: &mut Block) -> Result<(), WriteFault> {
        let none_holds = self.holding == 0;
        let none_told = none_holds & (self.failing == 0);
        let none_read = none_told & (self.refused == 0);
        let holding = AnswerCount(true, self.holding, " holds", " hold");
        let failing = AnswerCount(none_holds, self.failing, " fails", " fail");
        let refused = AnswerCount(none_told, self.refused, " refused", " refused");
        let unanswered = AnswerCount(none_read, self.unanswered, " unanswered", " unanswered");
        let files = (self.files, " files", holding);
        (files, failing, refused, unanswered, "\n").put(out, block)
    }
}

/// How many files were answered in one way: whether it is told first, how many, and what is said of
/// one file and of several.
#[derive(Clone, Copy)]
struct AnswerCount(bool, u64, &'static str, &'static str);

impl Text for AnswerCount {
    ghost text = { λ count. spec.answer_count_text count.0 count.1 count.2.now count.3.now };

    fn put<W: Write>(&self, out: &mut W, block: &mut Block) -> Result<(), WriteFault> {
        let AnswerCount(is_first, count, one, several) = *self;
        if count == 0 {
            return Ok(());
        }
        let mark = if is_first { ": " } else { ", " };
        let words = if count == 1 { one } else { several };
        (mark, count, words).put(out, block)
    }
}

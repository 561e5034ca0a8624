//! The parts of an exploration that are in some files, merged.

ghost use Rattle.std.specs.Prelude.{IfErr, List, OnOk, Option, map, ℕ};
ghost use Rattle.std.specs.Result.{result_ok};
ghost use Rattle.merging.specs.Mergers.{HoldsSome, HoldsTexts};
ghost use Rattle.cli.specs.Merges.{AreAllRead, IsFileRead, IsMergePerformed, IsUnreadFor};

use crate::faults::AnswerFault;
use crate::outputs::{Output, tell, tell_unwritten};
use merging::{MergeFault, Merger};
use orders::{FileFault, Opener, Readable, Refusal, refuse};
use std::alloc::Global;
use std::io::Write;

/// Of what is told where several files are merged and none of them is at fault.
const TOGETHER: &str = "all files together";

/// Merges the parts in the files of these paths, which `opener` opens one after another, and writes
/// what they tell together. The status is 0 where that is done, but 1 where a schedule fails; 2
/// where a file or parts are refused; 3 where it could not be done. At 2 and 3 a line on `err` says
/// why, and names the file at fault, if one is; `out` is as before, unless it did not take the
/// whole text: then it took a beginning of it, and the status is 3.
pub fn merge_files<O: Opener, W: Output, E: Write>(
    alloc: Global,
    paths: &[&str],
    opener: &O,
    out: &mut W,
    err: &mut E,
) -> u8
    ensures { IsMergePerformed W.contents O.Reader.remaining O.Reader.Bytes.may_fail
        (O.opens opener.now) (map (λ path. path.now) paths.now) out.old out.new result }
{
    let whole = whole_of(paths);
    let mut merger = Merger::none();
    for path in paths {
        if let Err(fault) = read_file(alloc, &mut merger, opener.open(path)) {
            return refuse(&fault, Some(subject_of(&fault, path, whole)), err);
        }
    }
    write_all(merger, whole, out, err)
}

/// Of what is told where no file is at fault: the file, where it is the only one.
fn whole_of<'a>(paths: &[&'a str]) -> &'a str {
    match paths {
        [path] => path,
        _ => TOGETHER,
    }
}

/// Of what a refusal tells that was met in the file of a path: of all files, where more schedules
/// were tried than can be counted.
fn subject_of<'a>(fault: &AnswerFault, path: &'a str, whole: &'a str) -> &'a str {
    match fault {
        AnswerFault::Merge(MergeFault::TooMany) => whole,
        _ => path,
    }
}

/// Reads the parts in a file behind those that were read before. `file` tells why it could not be
/// opened, where it was not. After an error it is not known what is held.
fn read_file<R: Readable>(
    alloc: Global,
    merger: &mut Merger,
    file: Result<R, FileFault>,
) -> Result<(), AnswerFault>
    requires some { HoldsSome merger.old }
    ensures some { OnOk result (HoldsSome merger.new) }
    ensures read { OnOk result
        (IsFileRead R.remaining (result_ok file) merger.old merger.new) }
    ensures refused { IfErr result
        (λ fault. (texts : List (Option (List ℕ))) → HoldsTexts texts merger.old
        → IsUnreadFor R.remaining R.Bytes.may_fail texts (result_ok file) fault) }
{
    let file = match file {
        Ok(file) => file,
        Err(why) => return Err(AnswerFault::Refused(Refusal::File(why))),
    };
    let bytes = file.into_bytes(alloc)?;
    match merger.read(alloc, bytes) {
        Ok(()) => Ok(()),
        Err(fault) => Err(AnswerFault::Merge(fault)),
    }
}

/// Writes what the parts in all files tell together, and gives the status. Where some are missing,
/// it is told of the whole.
fn write_all<W: Output, E: Write>(merger: Merger, whole: &str, out: &mut W, err: &mut E) -> u8
    ensures { (texts : List (Option (List ℕ))) → HoldsTexts texts merger
        → AreAllRead W.contents texts out.old out.new result }
{
    let merged = match merger.into_merged() {
        Ok(merged) => merged,
        Err(fault) => return refuse(&AnswerFault::Merge(fault), Some(whole), err),
    };
    match tell(&merged, out) {
        Ok(()) => u8::from(merged.fails()),
        Err(fault) => tell_unwritten(&fault, whole, out, err),
    }
}

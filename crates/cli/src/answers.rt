//! Does what is asked of one file, and gives the status.

ghost use Rattle.std.specs.Prelude.{◌≡◌, ◌≤◌, ◌⊎◌, Bool, IfErr, IfOk, IsNone, List, None, Option, Some, false, if◌then◌else◌, option_and_then, true, ℕ};
ghost use Rattle.std.specs.Result.{result_ok};
ghost use Rattle.regmodel.specs.declared.effort.Effort.{Effort};
ghost use Rattle.orders.specs.declared.tasks.Task.TheVariants as asked;
ghost use Rattle.cli.specs.Answers.{IsAnswered, IsCutShort, IsRefusedWith, IsTold, IsUnanswered};
ghost use Rattle.cli.specs.FindingText.{finding_text};
ghost use Rattle.cli.specs.Refusals.{Finds};
ghost use Rattle.cli.specs.Reports.{IsReportWritten};
ghost use Rattle.cli.specs.Statuses.{is_of_source, status_of};
ghost use Rattle.cli.specs.Written.{Tells};
ghost use Rattle.orders.specs.Inputs.{IsTextOf};
ghost use Rattle.orders.specs.Orders.{is_in_words};
ghost use Rattle.orders.specs.Reasons.{IsStatusOf};

use crate::conclusions::found_alone;
use crate::faults::AnswerFault;
use crate::findings::Finding;
use crate::listings::listed;
use crate::machines::Run;
use crate::outputs::{Output, tell_unwritten};
use crate::progress::{Meter, Progress};
use drawing::first_misnamed;
use explanations::write_explanation;
use orders::{FileFault, Question, Readable, Reason, Refusal, Task, refuse};
use reglang::{Spelling, read_text};
use regmodel::limits::MOST_REGISTERS;
use std::alloc::Global;
use std::io::Write;
use std::sync::Wait;
use std::thread::Threads;
use verdict::Topic;

/// Why a word in a comment is no name of a register.
const NO_NAME: &str =
    "a name is one word of at most 16 characters, is no number, with r or without, \
    and is given to one register";

/// Does what is asked of the source in the file, and writes what it found. The status is 0 where
/// that is done, but 1 where it tells of a schedule that fails or was looked for, unless it is of a
/// part; 2 where the file, the source or a letter is refused; 3 where it could not be done. At 2
/// and 3 `err` is told why, and `out` is as before, unless it did not take the whole text: then it
/// took a beginning of it, and the status is 3. `file` tells why it could not be opened, where it
/// was not. Where progress is asked for, `err` is told of it before.
pub fn answer<H: Threads + Wait + Sync, R: Readable, W: Output, E: Write + Send>(
    rt: &H,
    alloc: Global,
    question: &Question<'_>,
    file: Result<R, FileFault>,
    out: &mut W,
    err: &mut E,
) -> u8
    ensures no_file { IsNone (result_ok file) → result ≡ 2 }
    ensures status { result ≤ 3 }
    ensures explored { (effort : Effort) (native : Bool)
        → question.now.task.now ≡ asked.Explore effort native None false → result ≤ 1
        → IsReportWritten effort.settings (option_and_then R.remaining (result_ok file))
        (W.contents out.old) (W.contents out.new) result }
    ensures answered { result ≤ 1
        → IsAnswered question.now.program.now question.now.path.now question.now.task.now
        question.now.breadth (option_and_then R.remaining (result_ok file)) (W.contents out.old)
        (W.contents out.new) result }
    ensures refused { 2 ≤ result
        → IsRefusedWith W.contents R.remaining R.fails
        (λ fault. question.now.progress ≡ false → is_in_words question.now.task.now ≡ true
        → IsTold question.now.path.now (option_and_then R.remaining (result_ok file)) fault
        (E.contents err.old) (E.contents err.new))
        question.now.program.now question.now.path.now question.now.task.now question.now.breadth
        (result_ok file) out.old out.new result }
    ensures silent { result ≡ 2 → out.new ≡ out.old }
    ensures cut_short { result ≡ 3
        → (out.new ≡ out.old)
        ⊎ IsCutShort question.now.program.now question.now.path.now question.now.task.now
        question.now.breadth (option_and_then R.remaining (result_ok file)) (W.contents out.old)
        (W.contents out.new) }
{
    let written = match file {
        Ok(file) => written(rt, alloc, question, file, out, err),
        Err(why) => Err(AnswerFault::Refused(Refusal::File(why))),
    };
    match written {
        Ok(fails) => u8::from(fails),
        Err(fault) => told(question, &fault, out, err),
    }
}

/// Tells why there is no answer, and gives the status. A source that is refused in words is
/// explained already; and who read an answer in words and has gone wants no word.
fn told<W: Output, E: Write>(
    question: &Question<'_>,
    fault: &AnswerFault,
    out: &W,
    err: &mut E,
) -> u8
    ensures status { IsStatusOf status_of fault.now result }
    ensures explained { is_in_words question.now.task.now ≡ true → is_of_source fault.now ≡ true
        → err.new ≡ err.old }
{
    let subject = question.subject();
    if subject.is_some() && fault.is_of_source() {
        return fault.status();
    }
    match (subject, fault) {
        (Some(subject), AnswerFault::Write) => tell_unwritten(fault, subject, out, err),
        _ => refuse(fault, subject, err),
    }
}

/// Writes what is found of the source in the file. Whether a schedule fails. A source that is
/// refused is explained on `err` where refusals are told in words.
fn written<H: Threads + Wait + Sync, R: Readable, W: Output, E: Write + Send>(
    rt: &H,
    alloc: Global,
    question: &Question<'_>,
    file: R,
    out: &mut W,
    err: &mut E,
) -> Result<bool, AnswerFault>
    ensures answered { IfOk result
        (λ fails. IsAnswered question.now.program.now question.now.path.now question.now.task.now
        question.now.breadth (R.remaining file) (W.contents out.old) (W.contents out.new)
        (if fails then 1 else 0)) }
    ensures refused { IfErr result
        (IsUnanswered W.contents R.remaining R.fails question.now.program.now question.now.path.now
        question.now.task.now question.now.breadth (Some file) out.old out.new) }
    ensures told { IfErr result (λ fault. question.now.progress ≡ false
        → is_in_words question.now.task.now ≡ true
        → IsTold question.now.path.now (R.remaining file) fault (E.contents err.old)
        (E.contents err.new)) }
{
    let text = file.text(alloc)?;
    let finding = match found_in(rt, alloc, question, text.as_slice(), err) {
        Ok(finding) => finding,
        Err(fault) => return Err(explained(question, text.as_slice(), fault, err)),
    };
    let topic = Topic {
        program: question.program.as_bytes(),
        path: question.path.as_bytes(),
        text: text.as_slice(),
        breadth: question.breadth,
    };
    tell_finding(topic, &finding, out)?;
    note_misnamed(question, text.as_slice(), err);
    Ok(finding.fails())
}

/// Where refusals are told in words, says which register a comment of the text names in vain, the
/// first one, as far as that can be written.
fn note_misnamed<E: Write>(question: &Question<'_>, text: &[u8], err: &mut E) {
    let Some(path) = question.subject() else {
        return;
    };
    if let Some(register) = first_misnamed(text, MOST_REGISTERS as usize) {
        let _ = writeln!(
            err,
            "{path}: register {register} goes by its number: {NO_NAME}"
        );
    }
}

/// What is found of a text. Where that is asked for, `err` is told meanwhile how far it has come.
fn found_in<H: Threads + Wait + Sync, E: Write + Send>(
    rt: &H,
    alloc: Global,
    question: &Question<'_>,
    text: &[u8],
    err: &mut E,
) -> Result<Finding, AnswerFault>
    ensures found { Finds question.now.task.now text.now result }
    ensures silent { question.now.progress ≡ false → err.new ≡ err.old }
{
    if question.progress {
        let progress = Progress::telling(rt, err);
        return found(rt, alloc, question.task, text, &progress);
    }
    let silent: Progress<'_, H, E> = Progress::silent(rt);
    found(rt, alloc, question.task, text, &silent)
}

/// What is found of a text. The gate is told of the pieces of a run, and of lengths that are tried.
fn found<'a, H: Threads + Wait + Sync, G: Meter>(
    rt: &'a H,
    alloc: Global,
    task: &Task,
    text: &'a [u8],
    gate: &'a G,
) -> Result<Finding, AnswerFault>
    ensures { Finds task.now text.now result }
{
    let source = match read_text(alloc, text) {
        Ok(source) => source,
        Err(rejection) => return Err(AnswerFault::Source(rejection)),
    };
    let run = Run {
        rt,
        alloc,
        spelling: Spelling {
            text,
            source: &source,
        },
        native: task.is_native(),
        gate,
    };
    match task {
        Task::Check {
            effort,
            native,
            allows_faults,
            shortest,
            lists,
        } if *lists => listed(&run, effort, *native, *allows_faults, *shortest),
        _ => found_alone(&run, task),
    }
}

/// Why nothing is found of a text. Where refusals are told in words, it is written what is wrong
/// with the text of a refused source, as far as that can be written.
fn explained<E: Write>(
    question: &Question<'_>,
    text: &[u8],
    fault: AnswerFault,
    err: &mut E,
) -> AnswerFault
    ensures same { result ≡ fault }
    ensures told { (file : Option (List ℕ)) → IsTextOf file text.now
        → is_in_words question.now.task.now ≡ true
        → IsTold question.now.path.now file fault (E.contents err.old) (E.contents err.new) }
{
    if let Some(path) = question.subject() {
        if let AnswerFault::Source(rejection) = &fault {
            let _ = write_explanation(path.as_bytes(), text, rejection, err);
        }
    }
    fault
}

/// Writes what was found of the text in the file of a path, and has the writer pass it on.
fn tell_finding<W: Output>(
    topic: Topic<'_>,
    finding: &Finding,
    out: &mut W,
) -> Result<(), AnswerFault>
    ensures { Tells (W.contents out.old) (W.contents out.new)
        (finding_text topic.entry.program.now topic.entry.path.now topic.entry.text.now
        topic.entry.breadth finding.now) result }
{
    if finding.write(topic, out).is_err() {
        return Err(AnswerFault::Write);
    }
    if out.flush().is_err() {
        return Err(AnswerFault::Write);
    }
    Ok(())
}

//! What takes answers, and whether the reader of them has gone.

ghost use Rattle.std.specs.Prelude.{◌≡◌, false};
ghost use Rattle.orders.specs.Reasons.{IsStatusOf};
ghost use Rattle.cli.specs.Statuses.{status_of};
ghost use Rattle.cli.specs.Written.{Tells};

use crate::faults::AnswerFault;
use orders::{Reason, refuse};
use std::io;
use std::io::{ErrorKind, Write};
use texts::{Text, write};

/// What takes answers.
pub trait Output: Write {
    ghost use Rattle.std.specs.Prelude.{◌≡◌, Bool};

    /// Whether who reads them has gone.
    ghost gone: { Self → Bool };

    /// Whether who reads them has gone: no further byte is taken, and nobody waits for a word.
    fn has_gone(&self) -> bool
        ensures { result ≡ gone self.now };
}

/// A writer that notes where it is answered that its reader has gone.
#[derive(Drop)]
pub struct Watched<W> {
    writer: W,
    has_gone: bool,
}

impl<W> Watched<W> {
    ghost use Rattle.std.specs.Prelude.{◌≡◌, IfErr, IfOk, false, true};
    ghost use Rattle.std.specs.IoError.{error_kind};

    /// So a writer is of which nothing is known yet.
    pub fn new(writer: W) -> Watched<W>
        ensures { result ≡ record { writer = writer; has_gone = false } }
    {
        Watched {
            writer,
            has_gone: false,
        }
    }

    /// Notes what the writer answered: that a pipe is broken tells that who read it has gone.
    fn note<T>(&mut self, answer: &io::Result<T>)
        ensures writer { self.new.writer ≡ self.old.writer }
        ensures broken { IfErr answer.now
            (λ e. error_kind e ≡ ErrorKind.BrokenPipe → self.new.has_gone ≡ true) }
        ensures taken { IfOk answer.now (λ _. self.new.has_gone ≡ self.old.has_gone) }
    {
        if let Err(error) = answer {
            if matches!(error.kind(), ErrorKind::BrokenPipe) {
                self.has_gone = true;
            }
        }
    }
}

impl<W: Write> Write for Watched<W> {
    ghost contents = { λ watched. W.contents watched.writer };

    fn write(&mut self, buf: &[u8]) -> io::Result<usize> {
        let answer = self.writer.write(buf);
        self.note(&answer);
        answer
    }

    fn flush(&mut self) -> io::Result<()> {
        let answer = self.writer.flush();
        self.note(&answer);
        answer
    }
}

impl<W: Write> Output for Watched<W> {
    ghost gone = { λ watched. watched.has_gone };

    fn has_gone(&self) -> bool {
        self.has_gone
    }
}

/// A vector takes what memory holds.
impl Output for Vec<u8> {
    ghost gone = { λ _. false };

    fn has_gone(&self) -> bool {
        false
    }
}

/// Writes a text, and has the writer pass it on.
pub(crate) fn tell<T: Text, W: Write>(text: &T, out: &mut W) -> Result<(), AnswerFault>
    ensures { Tells (W.contents out.old) (W.contents out.new) (T.text text.now) result }
{
    if write(text, out).is_err() {
        return Err(AnswerFault::Write);
    }
    if out.flush().is_err() {
        return Err(AnswerFault::Write);
    }
    Ok(())
}

/// Tells why an answer was not written whole, in words of the subject, unless who read it has gone,
/// and gives the status.
pub(crate) fn tell_unwritten<W: Output, E: Write>(
    fault: &AnswerFault,
    subject: &str,
    out: &W,
    err: &mut E,
) -> u8
    ensures { IsStatusOf status_of fault.now result }
{
    if out.has_gone() {
        return fault.status();
    }
    refuse(fault, Some(subject), err)
}

//! Why there is no answer, in a status and in words; and the status of several answers.

ghost use Rattle.std.specs.Prelude.{◌≡◌, max, ℕ};
ghost use Rattle.orders.specs.Reasons.{IsStatusOf};

use std::fmt::Display;
use std::io;
use std::io::Write;

/// Why there is no answer. It is displayed as one line for programs.
pub trait Reason: Display {
    /// The status that tells it.
    ghost status_of: { Self → ℕ };

    /// 2 where what was asked is refused, 3 where it could not be done.
    fn status(&self) -> u8
        ensures { IsStatusOf status_of self.now result };

    /// Writes it in words of the subject: the path of what is read, or the text that is at fault.
    /// The error is that of the writer.
    fn write_words<E: Write>(&self, subject: &str, err: &mut E) -> io::Result<()>;
}

/// Tells why there is no answer, in words where there is a subject of which they tell, else in one
/// line, and gives the status, also where that could not be written.
pub fn refuse<R: Reason, E: Write>(reason: &R, subject: Option<&str>, err: &mut E) -> u8
    ensures { IsStatusOf R.status_of reason.now result }
{
    let _ = match subject {
        Some(subject) => reason.write_words(subject, err),
        None => writeln!(err, "regtry: {reason}"),
    };
    reason.status()
}

/// The status of two answers together, which is that of the worse one: the higher of both.
pub fn worse(status: u8, other: u8) -> u8
    ensures { result ≡ max status other }
{
    status.max(other)
}

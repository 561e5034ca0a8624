//! What gives the bytes of a text, one after another.

ghost use Rattle.std.specs.Prelude.{◌∷◌, [], IfErr, IfNone, IfOk, IfSome, List, Option, Some, ℕ};
ghost use Rattle.std.specs.Io.KnownBytes.{Consumes, IsAtEnd};

use crate::faults::InputFault;
use std::io::{BufReader, Read};

/// What gives the bytes of a text, one after another, and says of itself whether it may fail.
pub trait ByteReader: Drop {
    /// The bytes that it has left, where they are known.
    ghost left: { Self → Option (List ℕ) };

    /// Readers of this type may answer an error.
    ghost may_fail: { Type 0 };

    /// The byte that comes next; None where nothing is left. An error where it could not be read.
    fn next_byte(&mut self) -> Result<Option<u8>, InputFault>
        ensures some { IfOk result (λ next. IfSome next
            (λ byte. Consumes (left self.old) (left self.new) (byte ∷ []))) }
        ensures before { IfOk result (λ next. IfNone next (IsAtEnd (left self.old))) }
        ensures end { IfOk result (λ next. IfNone next (IsAtEnd (left self.new))) }
        ensures unread { IfErr result (λ fault. may_fail) };
}

/// Bytes in memory, which are read without fail.
impl ByteReader for &[u8] {
    ghost left = { λ bytes. Some bytes.now };

    ghost may_fail = { ⊥ };

    fn next_byte(&mut self) -> Result<Option<u8>, InputFault> {
        let Some((byte, rest)) = self.split_first() else {
            return Ok(None);
        };
        *self = rest;
        Ok(Some(*byte))
    }
}

/// What another reader gives, which may answer an error at any time.
impl<R: Read + Drop> ByteReader for BufReader<R> {
    ghost left = { ⟦<BufReader<R> as Read>⟧.remaining };

    ghost may_fail = { Unit {0} };

    fn next_byte(&mut self) -> Result<Option<u8>, InputFault> {
        let mut one = [0u8; 1];
        match self.read(&mut one) {
            Ok(0) => Ok(None),
            Ok(_) => Ok(Some(one[0])),
            Err(_) => Err(InputFault),
        }
    }
}

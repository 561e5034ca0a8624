//! Why a text was not written whole, or not read.

use thiserror::Error;

/// The code of a fault where the writer answered an error.
pub const ANSWERED_ERROR: u8 = 1;

/// The code of a fault where the writer took no byte of some.
pub const TOOK_NO_BYTE: u8 = 2;

/// The text was not written whole; what the writer took is a beginning of it, and something is
/// left. 1: the writer answered an error. 2: it took no byte.
#[derive(Clone, Copy, PartialEq, Eq, Debug, Error)]
#[error("the text was not written whole ({code})")]
pub struct WriteFault {
    /// `ANSWERED_ERROR` or `TOOK_NO_BYTE`.
    pub code: u8,
}

/// A byte of a text could not be read: the reader answered an error.
#[derive(Clone, Copy, PartialEq, Eq, Debug, Error)]
#[error("the text could not be read")]
pub struct InputFault;

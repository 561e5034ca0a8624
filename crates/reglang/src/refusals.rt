//! Why a line of a text is not taken.

ghost use Rattle.std.specs.Prelude.{◌≡◌};
ghost use Rattle.reglang.specs.Refusals.{refusal_code};

use reglines::LineFault;
use std::alloc::{AllocError, AllocFailed};

/// The code of a request for memory that was refused.
pub const NO_MEMORY: u8 = 9;

/// Why a line was not taken.
#[derive(Clone, Copy, PartialEq, Eq, Debug)]
pub enum LineRefusal {
    /// It has this fault.
    Fault(LineFault),
    /// A request for memory was refused.
    Memory,
}

impl LineRefusal {
    /// Its code: that of the fault, or 9.
    pub fn code(self) -> u8
        ensures { result ≡ refusal_code self }
    {
        match self {
            LineRefusal::Fault(fault) => fault.code(),
            LineRefusal::Memory => NO_MEMORY,
        }
    }
}

impl From<AllocError> for LineRefusal {
    ghost use Rattle.reglang.specs.declared.refusals.LineRefusal.TheVariants.{Memory};

    ghost from_gives = { λ _ refusal. refusal ≡ Memory };

    fn from(_error: AllocError) -> LineRefusal {
        LineRefusal::Memory
    }
}

impl<T: Drop> From<AllocFailed<T>> for LineRefusal {
    ghost use Rattle.reglang.specs.declared.refusals.LineRefusal.TheVariants.{Memory};

    ghost from_gives = { λ _ refusal. refusal ≡ Memory };

    fn from(_error: AllocFailed<T>) -> LineRefusal {
        LineRefusal::Memory
    }
}

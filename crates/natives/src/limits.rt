//! The limits of a use line, which each machine is made within.

ghost use Rattle.std.specs.Prelude.{◌≡◌, true, false, IfErr, IfOk};
ghost use Rattle.uses.specs.Uses.{use_fits};
ghost use Rattle.uses.specs.declared.expansions.TheConstants.{PAST_LIMIT};

use crate::MakeFault;
use uses::{PAST_LIMIT, Use};

/// That a use line is within its limits over so many registers, else fault 1.
pub fn check_fits(kind: Use, registers: u32) -> Result<(), MakeFault>
    ensures within { IfOk result (λ _. use_fits kind registers ≡ true) }
    ensures past { IfErr result (λ _. use_fits kind registers ≡ false) }
    ensures code { IfErr result (λ fault. fault ≡ record { code = PAST_LIMIT }) }
{
    if kind.fits(registers) {
        Ok(())
    } else {
        Err(MakeFault { code: PAST_LIMIT })
    }
}

//! Expansions: the programs that use lines stand for.

ghost use Rattle.std.specs.Prelude.{◌≡◌, ◌≤◌, ◌↔◌, ◌⊎◌, false, Err, IfOk, IfErr, IsTrue};
ghost use Rattle.regmodel.specs.declared.limits.TheConstants.{MOST_REGISTERS};
ghost use Rattle.regmodel.specs.Prelude.{program_of, block_of};
ghost use Rattle.uses.specs.Expansions.{use_body, expansion};
ghost use Rattle.uses.specs.declared.expansions.TheConstants.{NO_MEMORY, PAST_LIMIT};
ghost use Rattle.uses.specs.Uses.{numbers_fit, registers_end, use_fits};

mod grid;
mod name;
mod names;
mod split;
mod tree;

use crate::kinds::Use;
use grid::grid_block;
use name::{Slots, name_block};
use names::names_block;
use regmodel::{OutOfMemory, Prog, Stmt};
use split::split_block;
use std::alloc::Global;
use thiserror::Error;
use tree::tree_block;

/// The code of a use line past its limits.
pub const PAST_LIMIT: u8 = 1;

/// The code of a request for memory that was refused.
pub const NO_MEMORY: u8 = 2;

/// Why a use line has no expansion.
#[derive(Clone, Copy, PartialEq, Eq, Debug, Error)]
#[error("no expansion: code {code}")]
pub struct ExpandFault {
    /// 1 where a limit of the use line is passed, 2 where a request for memory was refused.
    pub code: u8,
}

/// The program of a use line over so many registers. Fault 1 where a limit of the line is passed,
/// which [`Use::fits`] tells; fault 2 only where a request for memory was refused.
pub fn expand(alloc: Global, kind: &Use, registers: u32) -> Result<Prog, ExpandFault>
    ensures program { IfOk result (λ prog. program_of prog ≡ expansion kind.now registers) }
    ensures limits { (result ≡ Err (record { code = PAST_LIMIT }))
        ↔ (use_fits kind.now registers ≡ false) }
    ensures code { IfErr result (λ fault. (fault.code ≡ PAST_LIMIT) ⊎ (fault.code ≡ NO_MEMORY)) }
{
    if !kind.fits(registers) {
        return Err(ExpandFault { code: PAST_LIMIT });
    }
    match block(alloc, kind) {
        Ok(body) => Ok(Prog::of(registers, body)),
        Err(_) => Err(ExpandFault { code: NO_MEMORY }),
    }
}

/// The statements of a use line within its limits.
fn block(alloc: Global, kind: &Use) -> Result<Vec<Stmt>, OutOfMemory>
    requires numbers { IsTrue (numbers_fit kind.now) }
    requires registers { registers_end kind.now ≤ MOST_REGISTERS }
    ensures { IfOk result (λ block. block_of block.items ≡ use_body kind.now) }
{
    match *kind {
        Use::Split(base, id) => split_block(alloc, base, id),
        Use::Grid(base, side, id) => grid_block(alloc, base, side, id),
        Use::Tree(base, depth, id, value) => tree_block(alloc, base, depth, id, value),
        Use::Name(base, count, own) => name_block(alloc, Slots { base, count, own }),
        Use::Names(base, count, own) => names_block(alloc, Slots { base, count, own }),
    }
}

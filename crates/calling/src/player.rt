//! What runs one process: the machine made by hand where there is one for its program,
//! else an interpreter.

ghost use Rattle.std.specs.Prelude.{◌≡◌, ◌<◌, IfOk, Some, length, slice_get};
ghost use Rattle.reglang.specs.Sources.{source_programs};
ghost use Rattle.calling.specs.declared.player.Player.TheVariants as player;

use crate::looker::Looker;
use machine::{Interp, Machine};
use reglang::Source;
use regmodel::{OutOfMemory, Pending};
use std::alloc::Global;

/// A machine of one of the two kinds.
#[derive(Drop)]
pub enum Player {
    Text(Interp),
    Looker(Looker),
}

impl Machine for Player {
    ghost means = { λ m. elim m [
      | player.Text i ↦ ⟦<Interp as Machine>⟧.means i
      | player.Looker i ↦ ⟦<Looker as Machine>⟧.means i
    ] };

    fn reset(&mut self) {
        match self {
            Player::Text(machine) => machine.reset(),
            Player::Looker(machine) => machine.reset(),
        }
    }

    fn pending(&self) -> Pending {
        match self {
            Player::Text(machine) => machine.pending(),
            Player::Looker(machine) => machine.pending(),
        }
    }

    fn feed(&mut self, reply: &[u32]) {
        match self {
            Player::Text(machine) => machine.feed(reply),
            Player::Looker(machine) => machine.feed(reply),
        }
    }

    fn end(&mut self) {
        match self {
            Player::Text(machine) => machine.end(),
            Player::Looker(machine) => machine.end(),
        }
    }
}

/// The machine of process p of a source.
pub fn player_of(alloc: Global, source: &Source, p: usize) -> Result<Player, OutOfMemory>
    requires { p < length (source_programs source.now) }
    ensures { IfOk result
        (λ m. slice_get (source_programs source.now) p
        ≡ Some (⟦<Player as Machine>⟧.means m).program) }
{
    let prog = source.prog(alloc, p)?;
    match Looker::of(&prog) {
        Some(looker) => Ok(Player::Looker(looker)),
        None => Ok(Player::Text(Interp::make(alloc, prog)?)),
    }
}

//! The machine of one process, how those of all are understood, and what a run of a source is
//! given besides them.

ghost use Rattle.std.specs.Prelude.{◌≡◌, ◌<◌, ◌↔◌, ◌++◌, ◌∷◌, [], IfErr, IfOk, IsOk, IsTrue, Some, length, slice_get};
ghost use Rattle.uses.specs.Expansions.{expansion};
ghost use Rattle.reglang.specs.Sources.{source_programs};
ghost use Rattle.uses.specs.Uses.{use_fits};
ghost use Rattle.natives.specs.Resuming.{native_resumed};
ghost use Rattle.cli.specs.Understanding.{resumed_of_all};
ghost use Rattle.cli.specs.declared.machines.ProcessMachine.TheVariants as process;

use explorer::Understanding;
use machine::{Ahead, Interp, Machine, Told};
use natives::{Grid, MakeFault, NameSlots, Names, Split, Tree};
use reglang::{Source, Spelling, Use};
use regmodel::{OutOfMemory, Pending, Reply};
use std::alloc::Global;

/// What runs one process: an interpreter of its program, or the native machine of its kind.
#[derive(Drop)]
pub enum ProcessMachine {
    Text(Interp),
    Split(Split),
    Grid(Grid),
    Tree(Tree),
    Name(NameSlots),
    Names(Names),
}

impl Machine for ProcessMachine {
    ghost means = { λ m. elim m [
      | process.Text i ↦ ⟦<Interp as Machine>⟧.means i
      | process.Split i ↦ ⟦<Split as Machine>⟧.means i
      | process.Grid i ↦ ⟦<Grid as Machine>⟧.means i
      | process.Tree i ↦ ⟦<Tree as Machine>⟧.means i
      | process.Name i ↦ ⟦<NameSlots as Machine>⟧.means i
      | process.Names i ↦ ⟦<Names as Machine>⟧.means i
    ] };

    fn reset(&mut self) {
        match self {
            ProcessMachine::Text(machine) => machine.reset(),
            ProcessMachine::Split(machine) => machine.reset(),
            ProcessMachine::Grid(machine) => machine.reset(),
            ProcessMachine::Tree(machine) => machine.reset(),
            ProcessMachine::Name(machine) => machine.reset(),
            ProcessMachine::Names(machine) => machine.reset(),
        }
    }

    fn recall(&mut self, replies: &[Reply]) -> usize {
        match self {
            ProcessMachine::Text(machine) => machine.recall(replies),
            ProcessMachine::Split(machine) => machine.recall(replies),
            ProcessMachine::Grid(machine) => machine.recall(replies),
            ProcessMachine::Tree(machine) => machine.recall(replies),
            ProcessMachine::Name(machine) => machine.recall(replies),
            ProcessMachine::Names(machine) => machine.recall(replies),
        }
    }

    fn pending(&self) -> Pending {
        match self {
            ProcessMachine::Text(machine) => machine.pending(),
            ProcessMachine::Split(machine) => machine.pending(),
            ProcessMachine::Grid(machine) => machine.pending(),
            ProcessMachine::Tree(machine) => machine.pending(),
            ProcessMachine::Name(machine) => machine.pending(),
            ProcessMachine::Names(machine) => machine.pending(),
        }
    }

    fn feed(&mut self, reply: &[u32]) {
        match self {
            ProcessMachine::Text(machine) => machine.feed(reply),
            ProcessMachine::Split(machine) => machine.feed(reply),
            ProcessMachine::Grid(machine) => machine.feed(reply),
            ProcessMachine::Tree(machine) => machine.feed(reply),
            ProcessMachine::Name(machine) => machine.feed(reply),
            ProcessMachine::Names(machine) => machine.feed(reply),
        }
    }

    fn end(&mut self) {
        match self {
            ProcessMachine::Text(machine) => machine.end(),
            ProcessMachine::Split(machine) => machine.end(),
            ProcessMachine::Grid(machine) => machine.end(),
            ProcessMachine::Tree(machine) => machine.end(),
            ProcessMachine::Name(machine) => machine.end(),
            ProcessMachine::Names(machine) => machine.end(),
        }
    }

    fn ahead(&self) -> Option<Ahead> {
        match self {
            ProcessMachine::Text(machine) => machine.ahead(),
            ProcessMachine::Split(machine) => machine.ahead(),
            ProcessMachine::Grid(machine) => machine.ahead(),
            ProcessMachine::Tree(machine) => machine.ahead(),
            ProcessMachine::Name(machine) => machine.ahead(),
            ProcessMachine::Names(machine) => machine.ahead(),
        }
    }

    fn tell(&self, numbers: &mut Told) -> bool {
        match self {
            ProcessMachine::Text(machine) => machine.tell(numbers),
            ProcessMachine::Split(machine) => machine.tell(numbers),
            ProcessMachine::Grid(machine) => machine.tell(numbers),
            ProcessMachine::Tree(machine) => machine.tell(numbers),
            ProcessMachine::Name(machine) => machine.tell(numbers),
            ProcessMachine::Names(machine) => machine.tell(numbers),
        }
    }
}

/// How the machines of a source are understood: native ones of its use lines where these are asked
/// for, and else interpreters.
#[derive(Drop)]
pub(crate) struct Made<'a> {
    pub(crate) source: &'a Source,
    pub(crate) native: bool,
}

impl Understanding for Made<'_> {
    ghost use Rattle.cli.specs.Understanding.{resumed_of_all};

    ghost understood = { λ made. resumed_of_all made.source.now made.native };
}

/// The machine of process p of a source, counted from 0: a native one for a use line where natives
/// are asked for, else an interpreter. An error where a request for memory was refused.
pub fn machine_of(
    alloc: Global,
    source: &Source,
    p: usize,
    native: bool,
) -> Result<ProcessMachine, OutOfMemory>
    requires { p < length (source_programs source.now) }
    ensures program { IfOk result
        (λ m. slice_get (source_programs source.now) p
        ≡ Some (⟦<ProcessMachine as Machine>⟧.means m).program) }
    ensures understood { IfOk result
        (λ m. slice_get (resumed_of_all source.now native) p
        ≡ Some (⟦<ProcessMachine as Machine>⟧.means m).resumed) }
{
    match source.use_of(p) {
        Some(kind) if native => native_of(kind, source.registers()).map_err(|_| OutOfMemory),
        _ => {
            let prog = source.prog(alloc, p)?;
            let interp = Interp::make(alloc, prog)?;
            Ok(ProcessMachine::Text(interp))
        }
    }
}

/// The native machine of a use line. An error where a limit of the line is passed.
fn native_of(kind: &Use, registers: u32) -> Result<ProcessMachine, MakeFault>
    ensures program { IfOk result
        (λ m. (⟦<ProcessMachine as Machine>⟧.means m).program ≡ expansion kind.now registers) }
    ensures understood { IfOk result
        (λ m. (⟦<ProcessMachine as Machine>⟧.means m).resumed ≡ native_resumed kind.now registers) }
    ensures made { IsOk result ↔ IsTrue (use_fits kind.now registers) }
    ensures code { IfErr result (λ fault. fault.code ≡ 1) }
{
    match *kind {
        Use::Split(base, id) => Ok(ProcessMachine::Split(Split::make(base, id, registers)?)),
        Use::Grid(base, side, id) => {
            Ok(ProcessMachine::Grid(Grid::make(base, side, id, registers)?))
        }
        Use::Tree(base, depth, id, value) => Ok(ProcessMachine::Tree(Tree::make(
            base, depth, id, value, registers,
        )?)),
        Use::Name(base, slots, slot) => Ok(ProcessMachine::Name(NameSlots::make(
            base, slots, slot, registers,
        )?)),
        Use::Names(base, slots, slot) => Ok(ProcessMachine::Names(Names::make(
            base, slots, slot, registers,
        )?)),
    }
}

/// What a run is given besides its machines: what starts threads, memory, the text with the
/// source that it spells, whether use lines run as native machines, and the gate that is
/// told of the pieces.
#[derive(Drop)]
pub struct Run<'a, H, G> {
    pub rt: &'a H,
    pub alloc: Global,
    pub spelling: Spelling<'a>,
    pub native: bool,
    pub gate: &'a G,
}

impl<H, G> Run<'_, H, G> {
    /// How its machines are understood.
    pub(crate) fn made(&self) -> Made<'_>
        ensures { result ≡ record { source = self.now.spelling.source; native = self.now.native } }
    {
        Made {
            source: self.spelling.source,
            native: self.native,
        }
    }
}

/// Takes the last list of machines, which there is.
pub fn last_of(lists: &mut Vec<Vec<Box<dyn Machine + Send>>>) -> Vec<Box<dyn Machine + Send>>
    requires some { 0 < length lists.old.items }
    ensures { lists.old.items ≡ lists.new.items ++ result ∷ [] }
{
    lists.pop().unwrap()
}

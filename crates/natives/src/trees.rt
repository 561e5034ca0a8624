//! Collect trees: a process goes down a binary tree of splitters until it stops at a vertex, leaves
//! its value there, and collects the values of the vertices whose marks it reads.

ghost use Rattle.std.specs.Prelude.{◌≡◌, ℕ, ◌+◌, ◌-◌, ◌*◌, ◌^◌, ◌<◌, ◌≤◌, [], ◌∷◌, true, false, IfSome, length, replicate, slice_set};
ghost use Rattle.regmodel.specs.Prelude.{Replies};
ghost use Rattle.regmodel.specs.Reply.{one};
ghost use Rattle.uses.specs.declared.kinds.Use.TheVariants as kind;
ghost use Rattle.natives.specs.Makes.{IsMadeFor};
ghost use Rattle.natives.specs.Puts.{ArePut};
ghost use Rattle.regmodel.specs.declared.limits.TheConstants.{MOST_LEVELS, MOST_REGISTERS};
ghost use Rattle.natives.specs.declared.trees.TreeStage.TheVariants.{Sees, Takes};
ghost use Rattle.natives.specs.Trees.{IsIn, collect_numbers, tree_numbers, below_reached, from_vertex, from_past, from_at, from_next};
ghost use Rattle.natives.specs.Turns.{GoesOnAs};

use crate::MakeFault;
use crate::limits::check_fits;
use crate::numbers::done;
use crate::packing::packed;
use crate::splitters::SplitterStep;
use machine::{Machine, Told, value_of};
use regmodel::{Access, Numbers, Pending};
use uses::{Use, vertices};

/// Where a process stands in the tree.
#[derive(Clone, Copy)]
enum TreeStage {
    /// It marks a vertex.
    Marks,
    /// It is at the vertex's splitter.
    At(SplitterStep),
    /// It writes its value at the vertex where it stopped.
    Leaves,
    /// It reads the mark of this vertex, whose parent was marked.
    Sees(u8),
    /// It reads the value of this vertex, which was marked.
    Takes(u8),
    /// It has collected all values.
    Collected,
    /// It collected a ninth value.
    Overfull,
    /// It left the tree, or was ended.
    Over,
}

/// A collect tree in progress. A vertex has four registers: its mark, who came last, the
/// door, 0 where it is open, and its value. The root is vertex 1; left and right below vertex
/// v are 2 v and 2 v + 1.
#[derive(Drop)]
pub struct Tree {
    base: u8,
    depth: u8,
    last: u8,
    id: u32,
    value: u32,
    registers: u32,
    vertex: u8,
    levels: u8,
    reached: [bool; 32],
    numbers: Numbers,
    stage: TreeStage,
    ghost few: { registers ≤ MOST_REGISTERS },
    ghost some_level: { 1 ≤ depth },
    ghost small: { depth ≤ MOST_LEVELS },
    ghost all: { last ≡ 2 ^ depth - 1 },
    ghost vertices: { last ≤ 15 },
    ghost room: { base + last * 4 ≤ registers },
    ghost some: { 1 ≤ vertex },
    ghost within: { (vertex + 1) * 2 ^ levels ≤ last + 1 },
    ghost long: { length reached ≡ 32 },
    ghost sees: { (at : ℕ) → stage ≡ Sees at → IsIn last at },
    ghost takes: { (at : ℕ) → stage ≡ Takes at → IsIn last at },
}

impl Tree {
    /// The collect tree of a use line, at its start: BASE, DEPTH, ID, VALUE, and how many registers
    /// there are. Fault 1 where a limit of the line is passed, which [`Use::fits`] tells; no other
    /// fault comes. It takes no memory.
    pub fn make(
        base: u32,
        depth: u32,
        id: u32,
        value: u32,
        registers: u32,
    ) -> Result<Tree, MakeFault>
        ensures { IsMadeFor (kind.Tree base depth id value) registers
            ⟦<Tree as Machine>⟧.means result }
    {
        check_fits(Use::Tree(base, depth, id, value), registers)?;
        let last = vertices(depth) as u8;
        let depth = depth as u8;
        Ok(Tree {
            base: base as u8,
            depth,
            last,
            id,
            value,
            registers,
            vertex: 1,
            levels: depth - 1,
            reached: [false; 32],
            numbers: Numbers::new(),
            stage: TreeStage::Marks,
        })
    }

    /// The first register of a vertex, which is its mark.
    fn mark(&self, vertex: u8) -> u8
        requires { IsIn self.now.last vertex }
        ensures value { result ≡ (vertex - 1) * 4 + self.now.base }
        ensures there { result + 4 ≤ self.now.registers }
    {
        (vertex - 1) * 4 + self.base
    }

    /// Goes to the vertex below on the left or right, or leaves the tree.
    fn go_to(&mut self, vertex: u8)
        requires some { 1 ≤ vertex }
        requires below { vertex ≤ self.old.vertex * 2 + 1 }
        ensures { GoesOnAs ⟦<Tree as Machine>⟧.means self.old self.new
            (from_vertex self.old.base self.old.registers self.old.depth self.old.id self.old.value
            self.old.levels vertex) }
    {
        if self.levels == 0 {
            self.stage = TreeStage::Over;
        } else {
            self.levels -= 1;
            self.vertex = vertex;
            self.stage = TreeStage::Marks;
        }
    }

    /// Begins the collect, at the root.
    fn collect(&mut self)
        ensures { GoesOnAs ⟦<Tree as Machine>⟧.means self.old self.new
            (from_past self.old.base self.old.registers self.old.last 0
            (slice_set (replicate 32 false) 1 true) []) }
    {
        self.reached = [false; 32];
        self.reached[1] = true;
        self.numbers = Numbers::new();
        self.go_past(0);
    }

    /// The next vertex past this one that was reached.
    fn next_reached(&self, vertex: u8) -> Option<u8>
        requires { vertex ≤ self.now.last }
        ensures there { IfSome result (IsIn self.now.last) }
        ensures goes_on { (s : Replies)
            → from_next self.now.base self.now.registers self.now.last self.now.reached
            self.now.numbers.items result s
            ≡ from_past self.now.base self.now.registers (self.now.last - vertex) vertex
            self.now.reached self.now.numbers.items s }
    {
        for before in vertex..self.last {
            let next = before + 1;
            if self.reached[usize::from(next)] {
                return Some(next);
            }
        }
        None
    }

    /// Goes on past a vertex to the next one that was reached, if any.
    fn go_past(&mut self, vertex: u8)
        requires { vertex ≤ self.old.last }
        ensures { GoesOnAs ⟦<Tree as Machine>⟧.means self.old self.new
            (from_past self.old.base self.old.registers (self.old.last - vertex) vertex
            self.old.reached self.old.numbers.items) }
    {
        match self.next_reached(vertex) {
            Some(next) => self.stage = TreeStage::Sees(next),
            None => self.stage = TreeStage::Collected,
        }
    }

    /// Both children of a vertex are reached; goes on past it.
    fn reach(&mut self, vertex: u8)
        requires { IsIn self.old.last vertex }
        ensures { GoesOnAs ⟦<Tree as Machine>⟧.means self.old self.new
            (from_past self.old.base self.old.registers (self.old.last - vertex) vertex
            (below_reached vertex self.old.reached) self.old.numbers.items) }
    {
        self.reached[usize::from(vertex * 2)] = true;
        self.reached[usize::from(vertex * 2 + 1)] = true;
        self.go_past(vertex);
    }

    /// Takes the value of a marked vertex, 0 where none was left there yet.
    fn take(&mut self, vertex: u8, reply: &[u32])
        requires { IsIn self.old.last vertex }
        ensures { GoesOnAs ⟦<Tree as Machine>⟧.means self.old self.new
            (λ s. from_at self.old.base self.old.registers self.old.last self.old.reached
            self.old.numbers.items vertex (one 1 ∷ reply.now ∷ s)) }
    {
        let value = value_of(reply);
        if value == 0 {
            self.reach(vertex);
        } else if self.numbers.is_full() {
            self.stage = TreeStage::Overfull;
        } else {
            self.numbers.push(value);
            self.reach(vertex);
        }
    }

    /// Puts behind the numbers that a vertex is looked at, with the number of the stage, and what
    /// was collected before it.
    fn put_collect(&self, stage: u32, vertex: u8, numbers: &mut Told) -> Option<()>
        ensures { ArePut (collect_numbers self.now.reached self.now.numbers.items stage vertex)
            numbers.old numbers.new result }
    {
        let reached = packed(&self.reached)?;
        numbers.put_all(&[stage, u32::from(vertex), reached])?;
        numbers.put_all(&self.numbers)
    }

    /// Puts where it stands behind the numbers.
    fn put_standing(&self, numbers: &mut Told) -> Option<()>
        ensures { ArePut
            (tree_numbers self.now.vertex self.now.levels self.now.reached self.now.numbers.items
            self.now.stage) numbers.old numbers.new result }
    {
        let vertex = u32::from(self.vertex);
        let levels = u32::from(self.levels);
        match self.stage {
            TreeStage::Marks => numbers.put_all(&[0, vertex, levels]),
            TreeStage::At(step) => numbers.put_all(&[step.number() + 1, vertex, levels]),
            TreeStage::Leaves => numbers.put_all(&[5, vertex]),
            TreeStage::Sees(seen) => self.put_collect(6, seen, numbers),
            TreeStage::Takes(taken) => self.put_collect(7, taken, numbers),
            TreeStage::Collected => {
                numbers.put(8)?;
                numbers.put_all(&self.numbers)
            }
            TreeStage::Overfull => numbers.put(9),
            TreeStage::Over => numbers.put(10),
        }
    }
}

impl Machine for Tree {
    ghost use Rattle.std.specs.Prelude.{suc};
    ghost use Rattle.uses.specs.declared.kinds.Use.TheVariants as kind;
    ghost use Rattle.uses.specs.Expansions.{expansion};
    ghost use Rattle.natives.specs.Trees.{from_vertex, from_stop, from_at, tree_rest, tree_resumed};

    ghost means = { λ m. record {
      program = expansion (kind.Tree m.base m.depth m.id m.value) m.registers;
      rest = tree_rest (from_vertex m.base m.registers m.depth m.id m.value (suc m.levels) m.vertex)
          (from_stop m.base m.registers m.depth m.value m.vertex)
          (from_at m.base m.registers m.last m.reached m.numbers.items) m.numbers.items m.stage;
      resumed = tree_resumed m.base m.registers m.depth m.last m.id m.value;
    } };

    fn reset(&mut self) {
        self.vertex = 1;
        self.levels = self.depth - 1;
        self.stage = TreeStage::Marks;
    }

    fn pending(&self) -> Pending {
        match self.stage {
            TreeStage::Marks => Pending::Wants(Access::Write(self.mark(self.vertex), 1)),
            TreeStage::At(step) => Pending::Wants(step.access(self.mark(self.vertex) + 1, self.id)),
            TreeStage::Leaves => Pending::Wants(Access::Write(
                self.mark(self.vertex) + 3,
                self.value,
            )),
            TreeStage::Sees(vertex) => Pending::Wants(Access::Read(self.mark(vertex))),
            TreeStage::Takes(vertex) => Pending::Wants(Access::Read(self.mark(vertex) + 3)),
            TreeStage::Collected => Pending::Done(self.numbers.clone().unwrap()),
            TreeStage::Overfull => Pending::Fault(4),
            TreeStage::Over => done(),
        }
    }

    fn feed(&mut self, reply: &[u32]) {
        let value = value_of(reply);
        match self.stage {
            TreeStage::Marks => self.stage = TreeStage::At(SplitterStep::Marks),
            TreeStage::At(step) => match step {
                SplitterStep::Marks => self.stage = TreeStage::At(SplitterStep::Tries),
                SplitterStep::Tries if value != 0 => self.go_to(self.vertex * 2 + 1),
                SplitterStep::Tries => self.stage = TreeStage::At(SplitterStep::Closes),
                SplitterStep::Closes => self.stage = TreeStage::At(SplitterStep::Looks),
                SplitterStep::Looks if value == self.id => self.stage = TreeStage::Leaves,
                SplitterStep::Looks => self.go_to(self.vertex * 2),
            },
            TreeStage::Leaves => self.collect(),
            TreeStage::Sees(vertex) if value != 0 => self.stage = TreeStage::Takes(vertex),
            TreeStage::Sees(vertex) => self.go_past(vertex),
            TreeStage::Takes(vertex) => self.take(vertex, reply),
            TreeStage::Collected | TreeStage::Overfull | TreeStage::Over => {}
        }
    }

    fn end(&mut self) {
        self.stage = TreeStage::Over;
    }

    fn tell(&self, numbers: &mut Told) -> bool {
        self.put_standing(numbers).is_some()
    }
}

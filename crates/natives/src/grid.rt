//! Grids of splitters: a process goes from the first vertex right and down until it stops at one
//! or leaves the grid.

ghost use Rattle.std.specs.Prelude.{◌≡◌, ◌+◌, ◌-◌, ◌*◌, ◌<◌, ◌≤◌};
ghost use Rattle.uses.specs.declared.kinds.Use.TheVariants as kind;
ghost use Rattle.natives.specs.Makes.{IsMadeFor};
ghost use Rattle.natives.specs.Puts.{ArePut};
ghost use Rattle.regmodel.specs.declared.limits.TheConstants.{MOST_ROWS, MOST_REGISTERS};
ghost use Rattle.natives.specs.Grids.{grid_from, grid_numbers};
ghost use Rattle.natives.specs.Turns.{GoesOnAs};

use crate::MakeFault;
use crate::limits::check_fits;
use crate::numbers::{done, done_with};
use crate::splitters::SplitterStep;
use machine::{Machine, Told, value_of};
use regmodel::Pending;
use uses::Use;

/// Where a process stands in the grid.
#[derive(Clone, Copy)]
enum GridStage {
    /// It is at the splitter of a vertex.
    At(SplitterStep),
    /// It stopped at the vertex.
    Stopped,
    /// It left the grid, or was ended.
    Over,
}

/// A grid of splitters in progress. A vertex has two registers: who came last, and the door, 0
/// where it is open. The first vertex is 1; right of vertex v, in row and column that add up to d,
/// is v + d + 2, and below it v + d + 1.
#[derive(Drop)]
pub struct Grid {
    base: u8,
    side: u8,
    id: u32,
    registers: u32,
    level: u8,
    vertex: u8,
    stage: GridStage,
    ghost few: { registers ≤ MOST_REGISTERS },
    ghost room: { base + side * (side + 1) ≤ registers },
    ghost sides: { side ≤ MOST_ROWS },
    ghost inside: { level < side },
    ghost some: { 1 ≤ vertex },
    ghost named: { vertex * 2 ≤ (level + 1) * (level + 2) },
}

impl Grid {
    /// The grid of a use line, at its start: BASE, SIDE, ID, and how many registers there are.
    /// Fault 1 where a limit of the line is passed, which [`Use::fits`] tells; no other fault
    /// comes. It takes no memory.
    pub fn make(base: u32, side: u32, id: u32, registers: u32) -> Result<Grid, MakeFault>
        ensures { IsMadeFor (kind.Grid base side id) registers ⟦<Grid as Machine>⟧.means result }
    {
        check_fits(Use::Grid(base, side, id), registers)?;
        Ok(Grid {
            base: base as u8,
            side: side as u8,
            id,
            registers,
            level: 0,
            vertex: 1,
            stage: GridStage::At(SplitterStep::Marks),
        })
    }

    /// The register that tells who came last to the vertex.
    fn last(&self) -> u8
        ensures value { result ≡ self.now.vertex * 2 + self.now.base - 2 }
        ensures there { result + 1 < self.now.registers }
    {
        self.vertex * 2 + self.base - 2
    }

    /// Goes to another vertex, one further right or down, or leaves the grid.
    fn go_to(&mut self, vertex: u8)
        requires some { 1 ≤ vertex }
        requires named { vertex * 2 ≤ (self.old.level + 2) * (self.old.level + 3) }
        ensures { GoesOnAs ⟦<Grid as Machine>⟧.means self.old self.new
            (grid_from self.old.base self.old.id self.old.registers
            (self.old.side - (self.old.level + 1)) (self.old.level + 1) vertex) }
    {
        if self.level + 1 == self.side {
            self.stage = GridStage::Over;
        } else {
            self.level += 1;
            self.vertex = vertex;
            self.stage = GridStage::At(SplitterStep::Marks);
        }
    }

    /// Puts where it stands behind the numbers.
    fn put_standing(&self, numbers: &mut Told) -> Option<()>
        ensures { ArePut (grid_numbers self.now.level self.now.vertex self.now.stage) numbers.old
            numbers.new result }
    {
        let level = u32::from(self.level);
        let vertex = u32::from(self.vertex);
        match self.stage {
            GridStage::At(step) => numbers.put_all(&[step.number(), level, vertex]),
            GridStage::Stopped => numbers.put_all(&[4, vertex]),
            GridStage::Over => numbers.put(5),
        }
    }
}

impl Machine for Grid {
    ghost use Rattle.std.specs.Prelude.{◌-◌};
    ghost use Rattle.uses.specs.declared.kinds.Use.TheVariants as kind;
    ghost use Rattle.uses.specs.Expansions.{expansion};
    ghost use Rattle.natives.specs.Grids.{grid_from, grid_rest, grid_resumed};

    ghost means = { λ m. record {
      program = expansion (kind.Grid m.base m.side m.id) m.registers;
      rest = grid_rest (grid_from m.base m.id m.registers (m.side - m.level) m.level m.vertex)
          m.vertex m.stage;
      resumed = grid_resumed m.base m.side m.id m.registers;
    } };

    fn reset(&mut self) {
        self.level = 0;
        self.vertex = 1;
        self.stage = GridStage::At(SplitterStep::Marks);
    }

    fn pending(&self) -> Pending {
        match self.stage {
            GridStage::At(step) => Pending::Wants(step.access(self.last(), self.id)),
            GridStage::Stopped => done_with(u32::from(self.vertex)),
            GridStage::Over => done(),
        }
    }

    fn feed(&mut self, reply: &[u32]) {
        let GridStage::At(step) = self.stage else {
            return;
        };
        let value = value_of(reply);
        match step {
            SplitterStep::Marks => self.stage = GridStage::At(SplitterStep::Tries),
            SplitterStep::Tries if value != 0 => self.go_to(self.vertex + self.level + 2),
            SplitterStep::Tries => self.stage = GridStage::At(SplitterStep::Closes),
            SplitterStep::Closes => self.stage = GridStage::At(SplitterStep::Looks),
            SplitterStep::Looks if value == self.id => self.stage = GridStage::Stopped,
            SplitterStep::Looks => self.go_to(self.vertex + self.level + 1),
        }
    }

    fn end(&mut self) {
        self.stage = GridStage::Over;
    }

    fn tell(&self, numbers: &mut Told) -> bool {
        self.put_standing(numbers).is_some()
    }
}

//! A machine made by hand: it reads one register, and emits what it read.

ghost use Rattle.std.specs.Prelude.{◌≡◌, ◌<◌, ◌≤◌, IfNone, IfSome};
ghost use Rattle.regmodel.specs.Prelude.{program_of};
ghost use Rattle.calling.specs.Statements as spec;

use machine::{Machine, value_of};
use regmodel::{Access, Expr, Numbers, Operand, Pending, Prog, Stmt, Target};

/// The register that a statement reads into the first variable; None where it is another one.
fn register_read(stmt: &Stmt) -> Option<u32>
    ensures { result ≡ spec.register_read stmt.now }
{
    match stmt {
        Stmt::Read(Target::Var(0), Operand::Number(register)) => Some(*register),
        _ => None,
    }
}

/// Whether a statement emits what is in the first variable.
fn emits_it(stmt: &Stmt) -> bool
    ensures { result ≡ spec.emits_it stmt.now }
{
    matches!(stmt, Stmt::Emit(Expr::One(Operand::Var(0))))
}

/// Where a looker stands.
#[derive(Clone, Copy)]
enum Stage {
    /// It reads the register.
    Looks,
    /// It is done with what it read.
    Saw(u32),
    /// It was ended.
    Ended,
}

/// A looker in progress.
#[derive(Drop)]
pub struct Looker {
    register: u8,
    registers: u32,
    stage: Stage,
    ghost few: { registers ≤ 64 },
    ghost there: { register < registers },
}

impl Looker {
    ghost use Rattle.calling.specs.Lookers.{IsNoLooker};

    /// The looker of a program, at its start; None where the program is another one, or reads a
    /// register that is not there.
    pub fn of(prog: &Prog) -> Option<Looker>
        ensures some { IfSome result
            (λ m. (⟦<Looker as Machine>⟧.means m).program ≡ program_of prog.now) }
        ensures none { IfNone result (IsNoLooker (program_of prog.now)) }
    {
        let registers = prog.registers();
        let [first, last] = prog.body() else {
            return None;
        };
        let register = register_read(first)?;
        if register >= registers || !emits_it(last) {
            return None;
        }
        Some(Looker {
            register: register as u8,
            registers,
            stage: Stage::Looks,
        })
    }
}

impl Machine for Looker {
    ghost use Rattle.machine.specs.Meaning.{untold};
    ghost use Rattle.calling.specs.Lookers.{looking, looker_rest};

    /// What it runs, a program of the language, as a value; and what is pending after further
    /// replies, by where it stands. It never tells where that is.
    ghost means = { λ m. untold (looking m.registers m.register)
        (looker_rest (looking m.registers m.register) m.stage) };

    fn reset(&mut self) {
        self.stage = Stage::Looks;
    }

    fn pending(&self) -> Pending {
        match self.stage {
            Stage::Looks => Pending::Wants(Access::Read(self.register)),
            Stage::Saw(value) => {
                let mut numbers = Numbers::new();
                numbers.push(value);
                Pending::Done(numbers)
            }
            Stage::Ended => Pending::Done(Numbers::new()),
        }
    }

    fn feed(&mut self, reply: &[u32]) {
        self.stage = match self.stage {
            Stage::Looks => Stage::Saw(value_of(reply)),
            over => over,
        };
    }

    fn end(&mut self) {
        self.stage = Stage::Ended;
    }
}

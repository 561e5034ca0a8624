//! Programs, as trees of statements within limits.

ghost use Rattle.std.specs.Prelude.{◌≡◌, ◌<◌, ◌≤◌, ◌↔◌, IsTrue, IfSome, IsSome};
ghost use Rattle.regmodel.specs.Blocks.{block_of};
ghost use Rattle.regmodel.specs.declared.limits.TheConstants.{MOST_OPEN_BLOCKS, MOST_OPEN_REPEATS, MOST_REGISTERS, MOST_STATEMENTS};
ghost use Rattle.regmodel.specs.Limits.{operands_fit, statements, open_blocks, open_repeats, IsWithin};

use crate::fitting;
use crate::limits::{MOST_OPEN_BLOCKS, MOST_OPEN_REPEATS, MOST_REGISTERS, MOST_STATEMENTS};
use crate::statements::Stmt;

/// A program over 1 to 64 registers, always within the limits.
#[derive(Debug, Drop)]
pub struct Prog {
    registers: u32,
    body: Vec<Stmt>,
    ghost some_register: { 0 < registers },
    ghost few_registers: { registers ≤ MOST_REGISTERS },
    ghost operands: { IsTrue (operands_fit registers (block_of body.items)) },
    ghost statements: { statements (block_of body.items) ≤ MOST_STATEMENTS },
    ghost open_blocks: { open_blocks (block_of body.items) ≤ MOST_OPEN_BLOCKS },
    ghost open_repeats: { open_repeats (block_of body.items) ≤ MOST_OPEN_REPEATS },
}

impl Prog {
    ghost use Rattle.regmodel.specs.OfProg.{program_of};

    /// The program of these statements over so many registers. None where a limit is passed: 1 to
    /// 64 registers, numbers up to 1000000000, variables 0 to 15, cells 0 to 31, scans of registers
    /// that are there into cells that are there, 200 statements, 3 nested repeats, 16 open blocks.
    pub fn new(registers: u32, body: Vec<Stmt>) -> Option<Prog>
        ensures value { IfSome result
            (λ p. program_of p ≡ record { registers = registers; body = block_of body.items }) }
        ensures limits { IsSome result
            ↔ IsWithin (record { registers = registers; body = block_of body.items }) }
    {
        if registers == 0 || registers > MOST_REGISTERS {
            return None;
        }
        let block = body.as_slice();
        if !fitting::operands_fit(registers, block) {
            return None;
        }
        if !fitting::nests_within(block, MOST_OPEN_BLOCKS, MOST_OPEN_REPEATS) {
            return None;
        }
        if fitting::room_after(block, MOST_STATEMENTS).is_none() {
            return None;
        }
        Some(Prog::of(registers, body))
    }

    /// The program of these statements over so many registers, which are within the limits.
    pub fn of(registers: u32, body: Vec<Stmt>) -> Prog
        requires { IsWithin (record { registers = registers; body = block_of body.items }) }
        ensures { program_of result ≡ record { registers = registers; body = block_of body.items } }
    {
        Prog { registers, body }
    }

    /// How many registers there are.
    pub fn registers(&self) -> u32
        ensures value { result ≡ (program_of self.now).registers }
        ensures within { IsWithin (program_of self.now) }
    {
        self.registers
    }

    /// The statements.
    pub fn body(&self) -> &[Stmt]
        ensures value { block_of result.now ≡ (program_of self.now).body }
        ensures within { IsWithin (program_of self.now) }
    {
        self.body.as_slice()
    }
}

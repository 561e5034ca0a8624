//! The model: programs over shared registers, schedules of their steps, and what comes out.
#![tactic(auto)]

mod accesses;
mod clauses;
mod effort;
pub mod faults;
mod fitting;
pub mod laws;
pub mod limits;
mod out_of_memory;
mod outcomes;
mod parts;
mod programs;
mod schedule_texts;
mod schedules;
mod settings;
mod statements;

pub use accesses::{Access, Few, Footprint, Numbers, Pending, Reads, Reply, Writes};
pub use clauses::{Clause, Clauses, Subject};
pub use effort::Effort;
pub use fitting::scan_fits;
pub use out_of_memory::OutOfMemory;
pub use outcomes::{End, Judge, Outcome, ProcEnd};
pub use parts::Part;
pub use programs::Prog;
pub use schedule_texts::{read_schedule, write_schedule};
pub use schedules::{Letter, Prefix, letter_at, number_of};
pub use settings::{SettingFault, Settings};
pub use statements::{Expr, Op, Operand, Stmt, Target};

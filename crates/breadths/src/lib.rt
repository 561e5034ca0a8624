//! How broad a drawing may be, and which registers it shows, as an order asks for it.
#![tactic(auto)]

mod breadths;
mod choices;

pub use breadths::{Breadth, Room};
pub use choices::{is_told, tells_registers};

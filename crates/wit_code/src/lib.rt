//! The witness machine: a register machine over the field that computes what a statement of a
//! circuit writes, from what it reads and a budget of units.
#![tactic(auto)]

mod code;
mod frames;
pub mod laws;
mod machine;
mod room;
mod well_formed;

pub use code::{Op, Proc, Stands, Step, Stop};
pub use machine::Machine;
pub use room::Room;
pub use well_formed::is_well_formed;

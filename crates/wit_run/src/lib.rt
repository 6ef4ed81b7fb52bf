//! Runs the code of a program's circuit, by one thread or by many workers, with the answer of the
//! program's run.
#![tactic(auto)]

mod ending;
mod lines;
mod running;
mod wires;

pub use ending::RunEnd;
pub use running::CutCircuit;
pub use wires::values_by_wire;

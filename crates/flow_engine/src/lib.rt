//! Runs the strands of flows on many threads, each flow over a board of its own, with the answers
//! of one thread.
#![tactic(auto)]

mod answers;
mod boards;
mod gate;
mod lend;
mod many;
mod sweep;
mod work;

pub use answers::FlowAnswers;
pub use gate::{Gate, OpenGate};
pub use many::{run_each, run_many};

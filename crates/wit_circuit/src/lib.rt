//! Machine code that stands for the steps of a circuit does what the circuit does.
#![tactic(auto)]

mod code;
mod columns;
pub mod laws;

pub use code::{CircuitCode, LogLine, LogPart, StepPlace};
pub use columns::MadeStep;

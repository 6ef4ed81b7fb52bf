//! The values of a circuit's inputs, and its public values, read from JSON; and the JSON file of
//! public values.
#![tactic(auto)]

mod checks;
mod document;
mod fault;
mod input;
mod laws;
mod names;
mod number;
mod publics;
mod values;

pub use fault::InputFault;
pub use input::read_input;
pub use laws::{inputs_are_numbers, publics_are_read_back};
pub use publics::{read_publics, write_publics};

//! What a step's code needs besides its sources: each name of the step's task has a home, and each
//! call its key.
#![tactic(auto)]

mod declaring;
mod keys;
mod lack;
mod names;
mod sets;
mod statements;
mod tasks;
mod values;

pub use keys::add_keys;
pub use names::Arrays;

//! The code of the steps of a circuit: what it reads, and that it does what the steps do.
#![tactic(auto)]

pub mod laws;

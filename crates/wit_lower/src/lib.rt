//! The code of a run-time statement for the witness machine: what it is, and that it does what the
//! statement means, with as many units.
#![tactic(auto)]

pub mod laws;

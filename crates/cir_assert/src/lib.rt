//! Assertions and log lines of a template's body: executed where all is known, a step where not.
#![tactic(auto)]

mod leaves;

pub use leaves::{assert, log};

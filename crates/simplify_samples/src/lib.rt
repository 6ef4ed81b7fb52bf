//! Lists of constraints that can be simplified, for tests and for timing.
#![tactic(auto)]

mod chains;

pub use chains::{chain, difference, no_terms, plus, push, push_linear, sum, sums};

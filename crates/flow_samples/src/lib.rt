//! Flows of one form, for tests and for timing.
#![tactic(auto)]

mod links;

pub use links::{Link, chain, linked, tree, wide, with_spin};

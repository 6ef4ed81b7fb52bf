//! What stands in the text of functions that are called when a program runs: expressions with what
//! is wanted of each, calls, assignments, variables with their dimensions as they are written, and
//! array literals.
#![tactic(auto)]

mod bodies;
mod literals;
mod texts;

pub use bodies::{declaration_of, has_run_dimension, text_of, written_dims};
pub use literals::{has_literal, has_misplaced};
pub use texts::{Assigned, Called, Texts, Wanted, compound_of, value_of};

//! Declarations and assignments: the simple statements of the grammar.
#![tactic(auto)]

mod assignments;
mod declarations;
mod lists;
mod targets;

pub use assignments::{assign, simple};
pub use declarations::{names, variables};

//! What the task of a step names.
#![tactic(auto)]

mod naming;
mod once;

pub use naming::{Member, Naming, names_of};
pub use once::Once;

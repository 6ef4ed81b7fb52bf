//! Certificates that the inputs of a circuit determine its outputs: lists of rules, each of which
//! shows something of a wire from what those before it have shown.
#![tactic(auto)]

mod bits;
mod chase;
pub mod laws;
mod marks;
mod normal;
mod rule;
mod search;
mod step;
mod text;
mod verdict;

pub use rule::{Answer, Confirm, Rule};
pub use search::determine;
pub use text::{RuleFault, read_rules, write_rules};
pub use verdict::confirm;

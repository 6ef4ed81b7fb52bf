//! Collects what the code of a step reads: a source for each element that its task may read.
#![tactic(auto)]

mod found;
mod fronts;
mod inputs;
mod kept;
mod parts;
mod setting;
mod tasks;
mod values;

pub use inputs::Inputs;
pub use tasks::{Collected, sources_of};

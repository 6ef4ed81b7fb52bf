//! Many inputs of one circuit: the lines of a text, what each of them gives, and the file of what
//! their runs come to.
#![tactic(auto)]

mod file;
mod inputs;
mod item;
mod splitting;

pub use file::{batch_bytes, witnesses};
pub use inputs::{Entry, Inputs, inputs_in};
pub use item::{Item, without_feed};
pub use splitting::lines;

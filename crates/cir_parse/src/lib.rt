//! From tokens to the tree that prints them.
#![tactic(auto)]

mod fault;
mod item;
pub mod laws;
mod left_out;
mod making;
mod marks;
mod parsing;
mod statements;

pub use fault::ParseFault;
pub use marks::{Marks, Spots};
pub use parsing::{parse, parse_marked};

//! The trees of a Circom source, the program that its files make, and the refusals of a source.
#![tactic(auto)]

mod making;
pub mod marked;
mod operators;
pub mod program;
mod refusal;
pub mod tree;

pub use cir_token::Text;
pub use marked::Blank;
pub use refusal::{Form, Kind, Place, Refusal, Which};
pub use tree::File;

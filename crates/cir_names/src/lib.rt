//! From a source file with all that it includes to the program that they define, with its names
//! resolved and checked.
#![tactic(auto)]

mod gathering;
pub mod laws;
mod loading;
mod splitting;

pub use cir_sources::LoadFault;
pub use loading::{Known, Loaded, load, load_all};

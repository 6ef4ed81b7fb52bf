//! The source files of a program: those that the first one reaches by includes, depth first, each
//! once.
#![tactic(auto)]

mod decode;
mod fault;
pub mod laws;
mod loading;
mod path;
mod place;
mod search;
mod source;

pub use fault::LoadFault;
pub use loading::{Reached, reach};
pub use source::{Site, Source};

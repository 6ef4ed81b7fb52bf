//! What lies outside the program, as two traits: a `Store` of named files and a `Sink` of bytes.
//! Each has an implementation in memory, for proofs and tests, and one over the real system.
#![tactic(auto)]

mod fault;
mod files;
mod history;
pub mod laws;
mod memory;
mod real;
mod sink;
mod store;

pub use fault::IoFault;
pub use history::History;
pub use memory::{MemSink, MemStore};
pub use real::{RealSink, RealStore};
pub use sink::Sink;
pub use store::Store;

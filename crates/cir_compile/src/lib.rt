//! From a Circom source with all that it includes to the `.r1cs` file of its constraints.
#![tactic(auto)]

mod compiling;
mod fault;
mod file;
pub mod laws;

pub use cir_simplify::Level;
pub use compiling::{compile, file_from};
pub use fault::CompileFault;

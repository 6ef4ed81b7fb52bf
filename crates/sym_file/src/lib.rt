//! Files of symbols: for each signal of a circuit a line with its label, its wire, its instance and
//! its name.
#![tactic(auto)]

pub mod laws;
mod line;
mod reading;
mod writing;

pub use line::SymLine;
pub use reading::{SymFault, read_sym};
pub use writing::write_sym;

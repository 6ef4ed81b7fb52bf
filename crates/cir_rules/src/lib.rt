//! The rules for functions that are called when a program runs: they return numbers, their
//! dimensions are numbers as they are written, their array arguments are places, and for the shapes
//! of their arguments all shapes fit.
#![tactic(auto)]

mod made;
mod ranks;
mod shapes;
mod table;
mod verdict;

pub use cir_texts::has_literal;
pub use made::Made;
pub use table::CallTable;
pub use verdict::{Verdict, add_called, judge};

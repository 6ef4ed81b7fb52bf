//! A list of steps, cut into strands that can run beside one another, and the answer of one thread
//! that runs all steps in order.
#![tactic(auto)]

mod cutting;
mod drafting;
mod flow;
pub mod laws;
mod running;

pub use cutting::cut;
pub use flow::{Flow, Outcome, Source, Strand, StrandOut};
pub use running::{first_cells, look, put, run_one, run_strand, run_strand_in, values_of};

//! The commands of `circom_gold`: from the words and the files to the exit status, the printed line
//! and the file that is written.
#![tactic(auto)]

mod batch;
mod circuit;
mod compile;
mod generate;
mod giving;
mod one_file;
mod plain;
mod program;
mod running;
mod source;
mod symbols;
mod witness;

pub use program::{run, run_in_memory, run_plain};

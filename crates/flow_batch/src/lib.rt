//! Runs a flow on many lists of start values, all over one pool of workers.
#![tactic(auto)]

mod batch;

pub use batch::{fits, run_batch};

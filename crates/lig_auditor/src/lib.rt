//! The auditor of Ligero proofs (Ames, Hazay, Ishai, Venkitasubramaniam, CCS 2017): eight tests of
//! the bytes of a proof, in order. The verdict is the first one that fails.
//!
//! Columns are tested in parallel, in as many threads as there are processors; the verdict doesn't
//! depend on how many there are.
#![tactic(auto)]

mod agreement;
mod codewords;
mod opening;
mod paths;
mod products;
mod right_sides;
mod system;
mod testing;
mod verdicts;

pub use verdicts::audit;

//! The prover of Ligero (Ames, Hazay, Ishai, Venkitasubramaniam, CCS 2017): from the bytes of an
//! `.r1cs` file and the values of its wires to a proof.
//!
//! Rows and columns are made in parallel, in as many threads as there are processors; the bytes
//! don't depend on how many there are.
#![tactic(auto)]

mod blocks;
mod columns;
mod fault;
mod masks;
mod opening;
mod polynomials;
mod proving;
mod rows;
mod sent;
mod transform;

pub use fault::ProveFault;
pub use proving::{prove, prove_any, prove_any_as, prove2};

//! What prover and auditor of a Ligero proof share (Ames, Hazay, Ishai, Venkitasubramaniam,
//! CCS 2017): the proof and its bytes, and the challenges that stand in for the verifier's by the
//! Fiat-Shamir transform, with SHA-256 (FIPS 180-4) and ChaCha20 (RFC 8439).
#![tactic(auto)]

mod any_read;
mod challenge;
mod drawing;
mod equations;
mod fault;
mod fields;
mod laws;
mod parallel;
mod proof;
mod read;
mod relation;
mod rows;
mod shared_proof;
mod shared_read;
mod shared_write;
mod transcript;
mod verdict;
mod version;
mod write;

pub use any_read::read_any;
pub use challenge::{Challenges, OPENED};
pub use drawing::draw;
pub use equations::{equation_count, r_numbers};
pub use fault::ProofFault;
pub use laws::{proofs_are_one, rows_have_polynomials, tests_have_values, verdicts_are_one};
pub use parallel::each_place;
pub use proof::Proof;
pub use read::read_proof;
pub use relation::Relation;
pub use rows::{row_at, row_polynomial, row_polynomials};
pub use shared_proof::{AnyProof, Proof2};
pub use shared_read::{opened_once, read_proof2};
pub use shared_write::write_proof2;
pub use transcript::{challenges, queries};
pub use verdict::Verdict;
pub use version::Version;
pub use write::write_proof;

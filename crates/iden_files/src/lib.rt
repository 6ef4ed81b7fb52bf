//! Readers and writers of iden3's `.r1cs` files, version 1, and `.wtns` files, version 2, with
//! values of 8 bytes.
#![tactic(auto)]

mod constraints;
mod failing;
mod fault;
mod fields;
mod forms;
mod labels;
pub mod laws;
mod limits;
mod r1cs;
mod r1cs_reading;
mod sections;
mod sizes;
mod values;
mod write;
mod wtns_reading;

pub use failing::first_failing;
pub use fault::{FileCause, FileFault};
pub use r1cs::R1cs;
pub use r1cs_reading::read_r1cs;
pub use write::{write_r1cs, write_wtns};
pub use wtns_reading::read_wtns;

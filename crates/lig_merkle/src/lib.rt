//! Merkle trees of SHA-256 (FIPS 180-4) over the columns of a matrix of field elements, as Ligero
//! (Ames, Hazay, Ishai, Venkitasubramaniam, CCS 2017) commits to its encoded matrix.
//!
//! A leaf hashes one column, a node its two children, and a path has the siblings on the way from a
//! leaf to the root. Several leaves share nodes on their ways, and each of these is given once.
//! Leaves and nodes begin with different bytes, so that neither can be read as the other.
#![tactic(auto)]

mod hash;
mod laws;
mod opened;
mod tree;

pub use hash::{Hash, absorb, leaf, root_of};
pub use laws::{openings_bind, path_leads_to_root, shared_nodes_lead_to_root};
pub use opened::{root_of_many, shared};
pub use tree::Tree;

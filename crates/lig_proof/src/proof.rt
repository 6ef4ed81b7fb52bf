use gold_field::Gold;
use items::Items;
use lig_merkle::Hash;

/// A proof: what the prover sends.
#[derive(Drop)]
pub struct Proof {
    /// The root over the columns of the encoded matrix.
    pub root: Hash,
    /// The coefficients of six polynomials: for each of two repetitions one that tests that the
    /// rows are close to codewords, of `2 * l` coefficients, one for the linear system, of `3 * l`,
    /// and one for the products, of `4 * l`.
    pub polys: Items<Gold>,
    /// The opened columns, in the order in which they were drawn.
    pub columns: Items<Items<Gold>>,
    /// The path of each opened column, from the leaf up.
    pub paths: Items<Items<Hash>>,
}

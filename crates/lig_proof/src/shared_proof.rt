ghost use Rattle.std.specs.Prelude.{◌≡◌};
ghost use Rattle.lig_proof.specs.Acceptance.{root_in, polys_in, columns_in};

use crate::proof::Proof;
use gold_field::Gold;
use items::Items;
use lig_merkle::Hash;

/// A proof of version 2: each opened column and each node on the ways to the root once.
#[derive(Drop)]
pub struct Proof2 {
    /// The root over the columns of the encoded matrix.
    pub root: Hash,
    /// The coefficients of the six polynomials, as in version 1.
    pub polys: Items<Gold>,
    /// The opened columns, by rising index.
    pub columns: Items<Items<Gold>>,
    /// The nodes that lead from these columns to the root.
    pub nodes: Items<Hash>,
}

/// A proof of either version.
#[derive(Drop)]
pub enum AnyProof {
    First(Proof),
    Second(Proof2),
}

impl AnyProof {
    /// The root over the columns of the encoded matrix.
    pub fn root(&self) -> &Hash
        ensures { result.now ≡ root_in self.now }
    {
        match self {
            AnyProof::First(proof) => &proof.root,
            AnyProof::Second(proof) => &proof.root,
        }
    }

    /// The coefficients of the six polynomials, as they were sent.
    pub fn polys(&self) -> &[Gold]
        ensures { result.now ≡ polys_in self.now }
    {
        match self {
            AnyProof::First(proof) => proof.polys.as_slice(),
            AnyProof::Second(proof) => proof.polys.as_slice(),
        }
    }

    /// The opened columns.
    pub fn columns(&self) -> &[Items<Gold>]
        ensures { result.now ≡ columns_in self.now }
    {
        match self {
            AnyProof::First(proof) => proof.columns.as_slice(),
            AnyProof::Second(proof) => proof.columns.as_slice(),
        }
    }
}

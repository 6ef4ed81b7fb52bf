//! The challenges.

ghost use Rattle.std.specs.Prelude.{◌≡◌, ◌<◌, ◌*◌, ◌^◌, All, IfOk, length, vec_len};
ghost use Rattle.lig_layout.specs.Sizes.{IsParams};
ghost use Rattle.lig_proof.specs.ProofBytes.{opened_count};
ghost use Rattle.lig_proof.specs.Transcript.{first_key, second_key, challenges_of, queries};

use crate::challenge::{Challenges, OPENED};
use crate::drawing::{draw, next_column};
use crate::relation::Relation;
use gold_field::Gold;
use items::Items;
use lig_layout::Params;
use lig_merkle::{Hash, absorb};
use rand_chacha::ChaCha20Rng;
use rand_core::SeedableRng;
use sha2::{Digest, Sha256};
use std::alloc::{AllocError, Global};

// What the message of the second key begins with.
const SECOND: u8 = 2;

/// The challenges for a relation, its public values and the root.
pub fn challenges(
    alloc: Global,
    params: &Params,
    relation: &Relation<'_>,
    publics: &[Gold],
    equations: u32,
    root: &Hash,
) -> Result<Challenges, AllocError>
    requires params { IsParams params.now }
    requires publics { length publics.now < 2 ^ 32 }
    ensures value { IfOk result (λ c. c
        ≡ challenges_of params.now equations
        (first_key relation.now.bytes.now publics.now root.now)) }
    ensures alpha { IfOk result (λ c. length c.alpha ≡ 2 * params.now.rows) }
    ensures r { IfOk result (λ c. length c.r ≡ 2 * equations) }
    ensures rho { IfOk result (λ c. length c.rho ≡ 2 * params.now.constraint_rows) }
{
    let first = first_key(relation, publics, root);
    let mut words = ChaCha20Rng::from_seed(first);
    let mut alpha = Vec::with_capacity(alloc, 2 * params.rows as usize)?;
    let mut r = Vec::with_capacity(alloc, 2 * equations as usize)?;
    let mut rho = Vec::with_capacity(alloc, 2 * params.constraint_rows as usize)?;
    draw(&mut alpha, &mut words, params.rows)?;
    draw(&mut r, &mut words, equations)?;
    draw(&mut rho, &mut words, params.constraint_rows)?;
    draw(&mut alpha, &mut words, params.rows)?;
    draw(&mut r, &mut words, equations)?;
    draw(&mut rho, &mut words, params.constraint_rows)?;
    Ok(Challenges {
        first,
        alpha: Items::of(alpha),
        r: Items::of(r),
        rho: Items::of(rho),
    })
}

/// The columns to be opened, by the first key and the coefficients of the six polynomials in the
/// order in which they are sent.
pub fn queries(
    alloc: Global,
    params: &Params,
    first: &Hash,
    polys: &[Gold],
) -> Result<Vec<u32>, AllocError>
    requires { IsParams params.now }
    ensures columns { IfOk result (λ v. v.items ≡ queries params.now first.now polys.now) }
    ensures count { IfOk result (λ v. vec_len v ≡ opened_count) }
    ensures below { IfOk result (λ v. All (λ column. column < 8 * params.now.l) v.items) }
{
    let mut words = ChaCha20Rng::from_seed(second_key(first, polys));
    let columns = 8 * params.l;
    let mut opened = Vec::with_capacity(alloc, OPENED as usize)?;
    for _ in 0..OPENED {
        opened.push(next_column(&mut words, columns))?;
    }
    Ok(opened)
}

/// The first key, of the relation, the public values and the root.
pub fn first_key(relation: &Relation<'_>, publics: &[Gold], root: &Hash) -> Hash
    requires { length publics.now < 2 ^ 32 }
    ensures { result ≡ first_key relation.now.bytes.now publics.now root.now }
{
    let mut hasher = Sha256::new();
    hasher.update(b"circom_gold 1");
    hasher.update(relation.digest);
    hasher.update((publics.len() as u32).to_le_bytes());
    absorb(&mut hasher, publics);
    hasher.update(root.as_slice());
    hasher.finalize()
}

fn second_key(first: &Hash, polys: &[Gold]) -> Hash
    ensures { result ≡ second_key first.now polys.now }
{
    let mut hasher = Sha256::new();
    hasher.update([SECOND]);
    hasher.update(first.as_slice());
    absorb(&mut hasher, polys);
    hasher.finalize()
}

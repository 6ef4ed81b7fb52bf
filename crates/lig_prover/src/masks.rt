//! The random numbers of a proof.

ghost use Rattle.std.specs.Prelude.{◌≡◌, ◌<◌, ◌≤◌, ◌+◌, ◌-◌, ◌*◌, ◌%◌, ◌++◌, ◌^◌, IfOk, OnOk};
ghost use Rattle.std.specs.Prelude.{length};
ghost use Rattle.gold_field.specs.declared.gold.TheConstants.{P};
ghost use Rattle.lig_layout.specs.Sizes.{IsParams};
ghost use Rattle.lig_proof.specs.Masks.{mask_numbers, row_mask, proximity_mask, linear_mask};
ghost use Rattle.lig_proof.specs.Masks.{product_mask};
ghost use Rattle.lig_prover.specs.Matrix.{test_masks};

use crate::transform::{masked, number_in};
use gold_field::Gold;
use items::Items;
use lig_layout::Params;
use lig_merkle::Hash;
use lig_proof::draw;
use rand_chacha::ChaCha20Rng;
use rand_core::SeedableRng;
use std::alloc::{AllocError, Global};

// So many of the numbers that the seed gives, from one on.
fn mask_numbers(alloc: Global, seed: &Hash, from: u32, count: u32) -> Result<Vec<Gold>, AllocError>
    ensures { IfOk result (λ v. v.items ≡ mask_numbers seed.now from count) }
{
    let mut words = ChaCha20Rng::from_seed(*seed);
    words.set_word_pos(2 * u128::from(from));
    let mut numbers = Vec::with_capacity(alloc, count as usize)?;
    draw(&mut numbers, &mut words, count)?;
    Ok(numbers)
}

/// The mask of row `k`.
pub fn row_mask(
    alloc: Global,
    params: &Params,
    seed: &Hash,
    k: u32,
) -> Result<Vec<Gold>, AllocError>
    requires params { IsParams params.now }
    requires row { k < params.now.rows }
    ensures { IfOk result (λ v. v.items ≡ row_mask params.now seed.now k) }
{
    mask_numbers(alloc, seed, k * params.l, params.l)
}

fn proximity_mask(
    alloc: Global,
    params: &Params,
    seed: &Hash,
    repetition: u32,
) -> Result<Vec<Gold>, AllocError>
    requires params { IsParams params.now }
    requires repetition { repetition < 2 }
    ensures { IfOk result (λ v. v.items ≡ proximity_mask params.now seed.now repetition) }
{
    let from = params.rows * params.l + repetition * (2 * params.l);
    mask_numbers(alloc, seed, from, 2 * params.l)
}

fn linear_mask(
    alloc: Global,
    params: &Params,
    seed: &Hash,
    repetition: u32,
) -> Result<Vec<Gold>, AllocError>
    requires params { IsParams params.now }
    requires repetition { repetition < 2 }
    ensures { IfOk result (λ v. v.items ≡ linear_mask params.now seed.now repetition) }
{
    let l = params.l as usize;
    let free = 3 * params.l - 1;
    let from = (params.rows + 4) * params.l + repetition * free;
    let others = mask_numbers(alloc, seed, from, free)?;
    let first = number_in(&others, l - 1);
    let second = number_in(&others, 2 * l - 1);
    let mut mask = Vec::with_capacity(alloc, 3 * l)?;
    mask.push(opposite(first, second))?;
    mask.extend_from_slice(&others)?;
    Ok(mask)
}

// What makes the sum 0.
fn opposite(first: Gold, second: Gold) -> Gold
    ensures { result ≡ ((P - first) + (P - second)) % P }
{
    first.neg().add(second.neg())
}

fn product_mask(
    alloc: Global,
    params: &Params,
    seed: &Hash,
    repetition: u32,
) -> Result<Vec<Gold>, AllocError>
    requires params { IsParams params.now }
    requires repetition { repetition < 2 }
    ensures { IfOk result (λ v. v.items ≡ product_mask params.now seed.now repetition) }
{
    let l = params.l as usize;
    let before = (params.rows + 4) * params.l + 2 * (3 * params.l - 1);
    let from = before + repetition * (3 * params.l);
    let numbers = mask_numbers(alloc, seed, from, 3 * params.l)?;
    masked(alloc, l, 4 * l, &[], &numbers)
}

/// Appends the masks of the tests, in the order of a column.
pub fn put_test_masks(
    out: &mut Vec<Items<Gold>>,
    alloc: Global,
    params: &Params,
    seed: &Hash,
) -> Result<(), AllocError>
    requires { IsParams params.now }
    ensures { OnOk result (out.new.items ≡ out.old.items ++ test_masks params.now seed.now) }
{
    out.push(Items::of(proximity_mask(alloc, params, seed, 0)?))?;
    out.push(Items::of(proximity_mask(alloc, params, seed, 1)?))?;
    out.push(Items::of(linear_mask(alloc, params, seed, 0)?))?;
    out.push(Items::of(linear_mask(alloc, params, seed, 1)?))?;
    out.push(Items::of(product_mask(alloc, params, seed, 0)?))?;
    out.push(Items::of(product_mask(alloc, params, seed, 1)?))?;
    Ok(())
}

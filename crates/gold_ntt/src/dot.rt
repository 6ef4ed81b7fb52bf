//! Sums of products, which are reduced once.

ghost use Rattle.std.specs.Prelude.{◌≡◌, ℕ, ◌*◌, ◌%◌, ◌^◌, ◌<◌, ◌≤◌, IfOk, length, slice_index};
ghost use Rattle.gold_field.specs.declared.gold.TheConstants.{P};
ghost use Rattle.gold_ntt.specs.Polynomial.{sum_to};

use gold_field::Gold;
use std::alloc::{AllocError, Global};

// 2^64 modulo p.
const WORD: u128 = 4294967295;

/// The products of the numbers at the same places, added.
pub fn sum_of_products(a: &[Gold], b: &[Gold]) -> Gold
    requires same { length b.now ≡ length a.now }
    requires small { length a.now ≤ 2 ^ 32 }
    ensures { result
        ≡ sum_to (length a.now) (λ i. slice_index a.now i * slice_index b.now i) % P }
{
    // The words of the products are added apart.
    let mut low = 0u128;
    let mut high = 0u128;
    for i in 0..a.len() {
        let product = u128::from(a[i].get()) * u128::from(b[i].get());
        low += product % 18446744073709551616;
        high += product / 18446744073709551616;
    }
    let word = Gold::from_wide(WORD);
    Gold::from_wide(low).add(Gold::from_wide(high).mul(word))
}

/// The first powers of a number, from 1 on.
pub fn powers(alloc: Global, x: Gold, count: usize) -> Result<Vec<Gold>, AllocError>
    ensures count { IfOk result (λ v. length v.items ≡ count) }
    ensures each { IfOk result (λ v. (k : ℕ) → k < count → slice_index v.items k ≡ x ^ k % P) }
{
    let mut all = Vec::with_capacity(alloc, count)?;
    let mut power = Gold::ONE;
    for k in 0..count {
        all.push(power)?;
        power = power.mul(x);
    }
    Ok(all)
}

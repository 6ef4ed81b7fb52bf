//! Values at 7 times the powers of a root, by halving blocks of coefficients: the remainders by
//! `X^m - t` and `X^m + t` have a polynomial's values at the roots of each.

ghost use Rattle.std.specs.Prelude.{◌≡◌, ℕ, ◌+◌, ◌-◌, ◌*◌, ◌%◌, ◌^◌, ◌<◌, ◌≤◌, ◌⊎◌, List, length};
ghost use Rattle.std.specs.Prelude.{slice_index, IfOk};
ghost use Rattle.gold_field.specs.declared.gold.TheConstants.{P};
ghost use Rattle.gold_ntt.specs.Coset.{AreTwiddles, AreParts, HasSpread};
ghost use Rattle.gold_ntt.specs.Reversal.{reversed};
ghost use Rattle.gold_ntt.specs.Transform.{IsCosetTransform};

use crate::roots::root;
use crate::transform::reverse;
use gold_field::Gold;
use std::alloc::{AllocError, Global};

/// 7 times the powers of the root of order `2^log`.
#[derive(Drop)]
pub struct Coset {
    /// At most 20.
    pub log: u32,
    twiddles: Vec<Gold>,
    pub ghost small: { log ≤ 20 },
    pub ghost known: { AreTwiddles log twiddles.items },
}

impl Coset {
    pub fn of(alloc: Global, log: u32) -> Result<Coset, AllocError>
        requires { log ≤ 20 }
        ensures { IfOk result (λ coset. coset.log ≡ log) }
    {
        let twiddles = twiddles(alloc, log)?;
        Ok(Coset { log, twiddles })
    }

    /// From the coefficients of a polynomial to its values at these points, in place. The
    /// coefficients are 0 from place `count` on, which spares the steps that would copy.
    pub fn transform(&self, a: &mut [Gold], count: usize)
        requires whole { length a.old ≡ 2 ^ self.now.log }
        requires zeros { (i : ℕ) → count ≤ i → i < length a.old → slice_index a.old i ≡ 0 }
        ensures { IsCosetTransform self.now.log a.old a.new }
    {
        spread(a, &self.twiddles, 0, 0, self.log, count);
        reverse(a, self.log);
    }
}

/// The block of `2^log` places takes the values at its points of the polynomial whose coefficients
/// it has. There are `2^depth` such blocks, and this one's coefficients are 0 from `count` on.
fn spread(a: &mut [Gold], twiddles: &[Gold], depth: u32, block: usize, log: u32, count: usize)
    requires small { depth + log ≤ 20 }
    requires whole { length a.old ≡ 2 ^ (depth + log) }
    requires block { block < 2 ^ depth }
    requires twiddles { AreTwiddles (depth + log) twiddles.now }
    requires zeros { (i : ℕ) → count ≤ i → i < 2 ^ log
        → slice_index a.old (block * 2 ^ log + i) ≡ 0 }
    ensures { HasSpread a.old a.new (depth + log) (block * 2 ^ log) log }
{
    let start = block << log;
    if log == 0 {
        // One place has its own value, which is below p.
        let _value = a[start].get();
    } else {
        let factor = twiddles[(1usize << depth) + block];
        let half = 1usize << (log - 1);
        if log == 1 {
            halve(a, start, half, factor);
        } else {
            part(a, start, half, factor, count);
            spread(a, twiddles, depth + 1, 2 * block, log - 1, count);
            spread(a, twiddles, depth + 1, 2 * block + 1, log - 1, count);
        }
    }
}

/// The remainders of a block's polynomial by `X^half - factor` and by `X^half + factor`, where its
/// coefficients are 0 from `count` on.
fn part(a: &mut [Gold], start: usize, half: usize, factor: Gold, count: usize)
    requires fits { start + (half + half) ≤ length a.old }
    requires zeros { (i : ℕ) → count ≤ i → i < half + half → slice_index a.old (start + i) ≡ 0 }
    ensures { AreParts a.old a.new start half factor count }
{
    if count <= half {
        double(a, start, half);
    } else {
        halve(a, start, half, factor);
    }
}

/// The second half of a block becomes the same as the first.
fn double(a: &mut [Gold], start: usize, half: usize)
    requires { start + (half + half) ≤ length a.old }
    ensures high { (j : ℕ) → j < half
        → slice_index a.new (start + half + j) ≡ slice_index a.old (start + j) }
    ensures others { (p : ℕ) → (p < start + half) ⊎ (start + (half + half) ≤ p)
        → slice_index a.new p ≡ slice_index a.old p }
{
    let middle = start + half;
    for j in 0..half {
        a[middle + j] = a[start + j];
    }
}

/// `part` of a block that has coefficients in both halves.
fn halve(a: &mut [Gold], start: usize, half: usize, factor: Gold)
    requires { start + (half + half) ≤ length a.old }
    ensures low { (j : ℕ) → j < half → slice_index a.new (start + j)
        ≡ (slice_index a.old (start + j) + factor * slice_index a.old (start + half + j) % P) % P }
    ensures high { (j : ℕ) → j < half → slice_index a.new (start + half + j)
        ≡ (slice_index a.old (start + j)
        + (P - factor * slice_index a.old (start + half + j) % P)) % P }
    ensures others { (p : ℕ) → (p < start) ⊎ (start + (half + half) ≤ p)
        → slice_index a.new p ≡ slice_index a.old p }
{
    let middle = start + half;
    for j in 0..half {
        let low = a[start + j];
        let high = factor.mul(a[middle + j]);
        a[start + j] = low.add(high);
        a[middle + j] = low.sub(high);
    }
}

/// What the blocks of `2^log` points are halved by.
fn twiddles(alloc: Global, log: u32) -> Result<Vec<Gold>, AllocError>
    requires { log ≤ 20 }
    ensures { IfOk result (λ v. AreTwiddles log v.items) }
{
    let root = root(log);
    let mut all = Vec::with_capacity(alloc, 1usize << log)?;
    // No block has place 0.
    all.push(Gold::ZERO)?;
    for depth in 0..log {
        for block in 0..1usize << depth {
            all.push(twiddle(root, depth, block, log - depth - 1))?;
        }
    }
    Ok(all)
}

fn twiddle(root: Gold, depth: u32, block: usize, log: u32) -> Gold
    requires small { depth ≤ 20 }
    requires places { log ≤ 20 }
    ensures { result ≡ (7 * root ^ reversed depth block) ^ (2 ^ log) % P }
{
    let power = root.pow(reversed(depth, block) as u64);
    Gold::from_wide(7).mul(power).pow(1u64 << log)
}

/// The lowest `k` bits in reverse order.
fn reversed(k: u32, bits: usize) -> usize
    requires { k ≤ 20 }
    ensures value { result ≡ reversed k bits }
    ensures below { result < 2 ^ k }
{
    if k == 0 {
        0
    } else {
        (bits % 2 << (k - 1)) + reversed(k - 1, bits / 2)
    }
}

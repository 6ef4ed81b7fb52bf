ghost use Rattle.std.specs.Prelude.{◌≡◌, ℕ, ◌+◌, ◌-◌, ◌*◌, ◌%◌, ◌^◌, ◌<◌, ◌≤◌, ◌⊎◌, List, length};
ghost use Rattle.std.specs.Prelude.{slice_index};
ghost use Rattle.gold_field.specs.declared.gold.TheConstants.{P};
ghost use Rattle.gold_ntt.specs.Reversal.{reversed};
ghost use Rattle.gold_ntt.specs.Transform.{IsLength, HasValues, IsTransform};
ghost use Rattle.gold_ntt.specs.Transform.{HalvesAt, TransformsBlock};

use crate::roots::root;
use gold_field::Gold;

/// (p + 1) / 2
const INVERSE_OF_TWO: u128 = 9223372034707292161;

/// Two neighbouring transforms of `half` places each, of the even and of the odd coefficients,
/// become one.
fn merge(a: &mut [Gold], start: usize, half: usize, root: Gold)
    requires { start + (half + half) ≤ length a.old }
    ensures low { (j : ℕ) → j < half → slice_index a.new (start + j)
        ≡ (slice_index a.old (start + j) + root ^ j * slice_index a.old (start + half + j) % P) %
        P }
    ensures high { (j : ℕ) → j < half → slice_index a.new (start + half + j)
        ≡ (slice_index a.old (start + j)
        + (P - root ^ j * slice_index a.old (start + half + j) % P)) % P }
    ensures others { (p : ℕ) → (p < start) ⊎ (start + (half + half) ≤ p)
        → slice_index a.new p ≡ slice_index a.old p }
{
    let middle = start + half;
    let mut twiddle = Gold::ONE;
    for j in 0..half {
        let even = a[start + j];
        let odd = twiddle.mul(a[middle + j]);
        a[start + j] = even.add(odd);
        a[middle + j] = even.sub(odd);
        twiddle = twiddle.mul(root);
    }
}

/// The reversal of the bits of the next number, from the reversal of `k` bits.
fn next_reversed(j: usize, k: u32) -> usize
    requires small { k ≤ 20 }
    ensures { (b : ℕ) → j ≡ reversed k b → result ≡ reversed k (b + 1) }
{
    if k == 0 {
        0
    } else {
        let bit = 1usize << (k - 1);
        if j < bit {
            j + bit
        } else {
            next_reversed(j - bit, k - 1)
        }
    }
}

/// Every place takes what the place with the reversed bits had.
pub fn reverse(a: &mut [Gold], log: u32)
    requires small { log ≤ 20 }
    requires whole { length a.old ≡ 2 ^ log }
    ensures { (p : ℕ) → p < 2 ^ log → slice_index a.new p ≡ slice_index a.old (reversed log p) }
{
    let mut j = 0;
    for i in 0..a.len() {
        if i < j {
            let first = a[i];
            a[i] = a[j];
            a[j] = first;
        }
        j = next_reversed(j, log);
    }
}

/// The values at the powers of `root`, in the block of `2 ^ log` places from `start` on. The
/// coefficients stand there with the bits of their indices reversed.
fn transform(a: &mut [Gold], start: usize, log: u32, root: Gold)
    requires small { log ≤ 20 }
    requires fits { start + 2 ^ log ≤ length a.old }
    requires root { HalvesAt root log }
    ensures { TransformsBlock a.old a.new start log root }
{
    if log == 0 {
        // One place has its own value, which is below p.
        let _value = a[start].get();
    } else {
        let half = 1usize << (log - 1);
        let square = root.mul(root);
        transform(a, start, log - 1, square);
        transform(a, start + half, log - 1, square);
        merge(a, start, half, root);
    }
}

/// The values at the powers of `root`.
fn transform_at(a: &mut [Gold], log: u32, root: Gold)
    requires small { log ≤ 20 }
    requires whole { length a.old ≡ 2 ^ log }
    requires root { HalvesAt root log }
    ensures values { HasValues root a.old a.new }
    ensures below { (k : ℕ) → k < length a.old → slice_index a.old k < P }
{
    reverse(a, log);
    transform(a, 0, log, root);
}

/// Every number times `factor`.
fn scale(a: &mut [Gold], factor: Gold)
    ensures { (k : ℕ) → k < length a.old → slice_index a.new k ≡ slice_index a.old k * factor % P }
{
    for x in a.iter_mut() {
        *x = x.mul(factor);
    }
}

/// Number `k` times `factor ^ k`: the coefficients of the polynomial at `factor` times `X`.
pub fn scale_by_powers(a: &mut [Gold], factor: Gold)
    ensures { (k : ℕ) → k < length a.old
        → slice_index a.new k ≡ slice_index a.old k * factor ^ k % P }
{
    let mut power = Gold::ONE;
    for x in a.iter_mut() {
        *x = x.mul(power);
        power = power.mul(factor);
    }
}

fn log_of(n: usize) -> u32
    requires { IsLength n }
    ensures small { result ≤ 20 }
    ensures power { n ≡ 2 ^ result }
{
    n.ilog2()
}

/// From coefficients to values at the powers of the root of order `a.len()`, in place.
pub fn ntt(a: &mut [Gold])
    requires { IsLength (length a.old) }
    ensures { (e : ℕ) → length a.old ≡ 2 ^ e → IsTransform e a.old a.new }
{
    let log = log_of(a.len());
    transform_at(a, log, root(log));
}

/// From values at the powers of the root to coefficients, in place.
pub fn intt(a: &mut [Gold])
    requires { IsLength (length a.old) }
    // `ntt` of the answer gives the values back.
    ensures undone { (e : ℕ) → length a.old ≡ 2 ^ e → IsTransform e a.new a.old }
    // Of what `ntt` gave, the answer is the coefficients.
    ensures undoes { (e : ℕ) → length a.old ≡ 2 ^ e → (b : List ℕ) → IsTransform e b a.old
        → (k : ℕ) → k < length b → slice_index a.new k ≡ slice_index b k % P }
{
    let log = log_of(a.len());
    let last = a.len() as u64 - 1;
    transform_at(a, log, root(log).pow(last));
    let half = Gold::from_wide(INVERSE_OF_TWO);
    scale(a, half.pow(log as u64));
}

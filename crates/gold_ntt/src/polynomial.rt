ghost use Rattle.std.specs.Prelude.{◌≡◌, ℕ, ◌+◌, ◌-◌, ◌*◌, ◌%◌, ◌^◌, ◌<◌, ◌≤◌, ◌==◌, ◌||◌};
ghost use Rattle.std.specs.Prelude.{if◌then◌else◌, List, length, slice_index, IfOk};
ghost use Rattle.gold_field.specs.declared.gold.TheConstants.{P};
ghost use Rattle.gold_ntt.specs.Polynomial.{eval_at, product_at, IsPadded, IsProduct};
ghost use Rattle.gold_ntt.specs.Transform.{IsLength};

use crate::transform::{intt, ntt};
use gold_field::Gold;
use std::alloc::{AllocError, Global};

/// The value at `x` of the polynomial with these coefficients, lowest first.
pub fn eval(coefs: &[Gold], x: Gold) -> Gold
    ensures { result ≡ eval_at coefs.now x }
{
    let mut value = Gold::ZERO;
    let mut power = Gold::ONE;
    for coef in coefs {
        value = value.add(coef.mul(power));
        power = power.mul(x);
    }
    value
}

/// The product, by transforms. It has no coefficients where a factor has none.
pub fn mul(alloc: Global, a: &[Gold], b: &[Gold]) -> Result<Vec<Gold>, AllocError>
    requires { length a.now + length b.now ≤ 2 ^ 20 }
    ensures places { IfOk result (λ c. length c.items
        ≡ (if length a.now == 0 || length b.now == 0 then 0 else length a.now + length b.now - 1)) }
    ensures product { IfOk result (λ c. IsProduct a.now b.now c.items) }
    ensures values { IfOk result (λ c. (x : ℕ)
        → eval_at c.items x ≡ eval_at a.now x * eval_at b.now x % P) }
{
    if a.is_empty() || b.is_empty() {
        return Ok(Vec::new(alloc));
    }
    let product = product_of(alloc, a, b)?;
    Ok(product)
}

/// The product of two polynomials that have coefficients.
fn product_of(alloc: Global, a: &[Gold], b: &[Gold]) -> Result<Vec<Gold>, AllocError>
    requires first { 0 < length a.now }
    requires second { 0 < length b.now }
    requires small { length a.now + length b.now ≤ 2 ^ 20 }
    ensures places { IfOk result (λ c. length c.items ≡ length a.now + length b.now - 1) }
    ensures product { IfOk result (λ c. IsProduct a.now b.now c.items) }
{
    let places = a.len() + b.len() - 1;
    let size = padded_length(places);
    let mut product = padded(alloc, a, size)?;
    let mut other = padded(alloc, b, size)?;
    convolve(&mut product, &mut other);
    product.truncate(places);
    Ok(product)
}

/// A length for transforms of so many places.
fn padded_length(places: usize) -> usize
    requires some { 0 < places }
    requires small { places < 2 ^ 20 }
    ensures length { IsLength result }
    ensures enough { places ≤ result }
{
    places.next_power_of_two()
}

/// The same polynomial, with zeros behind its coefficients up to `size` of them.
pub fn padded(alloc: Global, coefs: &[Gold], size: usize) -> Result<Vec<Gold>, AllocError>
    requires { length coefs.now ≤ size }
    ensures places { IfOk result (λ v. length v.items ≡ size) }
    ensures same { IfOk result (λ v. IsPadded coefs.now v.items) }
{
    let mut all = Vec::with_capacity(alloc, size)?;
    all.extend_from_slice(coefs)?;
    all.resize(size, Gold::ZERO)?;
    Ok(all)
}

/// The product of two polynomials takes the first one's place, where it fits there.
fn convolve(a: &mut [Gold], b: &mut [Gold])
    requires length { IsLength (length a.old) }
    requires same { length b.old ≡ length a.old }
    ensures { (c d : List ℕ) → IsPadded c a.old → IsPadded d b.old
        → 0 < length c → 0 < length d → length c + length d ≤ length a.old + 1
        → (k : ℕ) → k < length a.old → slice_index a.new k ≡ product_at c d k }
{
    ntt(a);
    ntt(b);
    multiply(a, b);
    intt(a);
}

/// Place by place.
fn multiply(a: &mut [Gold], b: &[Gold])
    requires { length b.now ≡ length a.old }
    ensures { (k : ℕ) → k < length a.old
        → slice_index a.new k ≡ slice_index a.old k * slice_index b.now k % P }
{
    for k in 0..a.len() {
        a[k] = a[k].mul(b[k]);
    }
}

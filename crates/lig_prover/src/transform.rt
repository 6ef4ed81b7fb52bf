//! Polynomials and their values. A polynomial is the list of its coefficients, lowest first.

ghost use Rattle.std.specs.Prelude.{◌≡◌, ℕ, ◌≤◌, ◌<◌, ◌+◌, ◌-◌, ◌*◌, ◌%◌, ◌^◌, List, IfOk, length};
ghost use Rattle.std.specs.Prelude.{slice_index};
ghost use Rattle.gold_field.specs.declared.gold.TheConstants.{P};
ghost use Rattle.gold_ntt.specs.Polynomial.{IsPadded, shifted_at};
ghost use Rattle.gold_ntt.specs.Transform.{IsLength};
ghost use Rattle.lig_layout.specs.Sizes.{IsParams};
ghost use Rattle.lig_proof.specs.Encoding.{Interpolates, IsMaskedRow, masked};
ghost use Rattle.lig_proof.specs.ProofBytes.{AreValues};
ghost use Rattle.lig_prover.specs.Transform.{values_at};

use gold_field::Gold;
use gold_ntt::{Coset, intt, padded, scale_by_powers};
use lig_layout::Params;
use lig_proof::row_polynomial;
use std::alloc::{AllocError, Global};

// The inverse of 7 modulo p.
const INVERSE_OF_SEVEN: u128 = 2635249152773512046;

/// The number at a place, and 0 behind the last.
pub fn number_in(values: &[Gold], at: usize) -> Gold
    ensures { result ≡ slice_index values.now at }
{
    match values.get(at) {
        Some(value) => *value,
        None => Gold::ZERO,
    }
}

/// The values of a polynomial at all points of a coset.
pub fn evaluate(alloc: Global, coset: &Coset, coefs: &[Gold]) -> Result<Vec<Gold>, AllocError>
    requires { length coefs.now ≤ 2 ^ coset.now.log }
    ensures { IfOk result (λ v. v.items ≡ values_at coset.now.log coefs.now) }
{
    let mut values = padded(alloc, coefs, 1usize << coset.log)?;
    coset.transform(&mut values, coefs.len());
    Ok(values)
}

/// The polynomial that has these values at 7 times the powers of the root, in their place.
pub fn interpolate(values: &mut [Gold])
    requires { IsLength (length values.old) }
    ensures { (e : ℕ) (coefs : List ℕ) → AreValues (2 ^ e) coefs
        → values.old ≡ values_at e coefs → values.new ≡ coefs }
{
    intt(values);
    scale_by_powers(values, Gold::from_wide(INVERSE_OF_SEVEN));
}

/// The polynomial of a row under a mask.
pub fn masked_row(
    alloc: Global,
    params: &Params,
    row: &[Gold],
    mask: &[Gold],
) -> Result<Vec<Gold>, AllocError>
    requires params { IsParams params.now }
    requires row { length row.now ≡ params.now.l }
    ensures { IfOk result (λ v. IsMaskedRow params.now row.now mask.now v.items) }
{
    let polynomial = row_polynomial(alloc, params, row)?;
    let l = params.l as usize;
    masked(alloc, l, 2 * l, &polynomial, mask)
}

/// So many coefficients of `base + (X^l - 1) * mask`.
pub fn masked(
    alloc: Global,
    l: usize,
    count: usize,
    base: &[Gold],
    mask: &[Gold],
) -> Result<Vec<Gold>, AllocError>
    ensures { IfOk result (λ v. v.items ≡ masked l count base.now mask.now) }
{
    let mut coefs = Vec::with_capacity(alloc, count)?;
    for i in 0..count {
        coefs.push(masked_at(l, base, mask, i))?;
    }
    Ok(coefs)
}

fn masked_at(l: usize, base: &[Gold], mask: &[Gold], i: usize) -> Gold
    ensures { let above = shifted_at l mask.now i + (P - slice_index mask.now i) in
        result ≡ (slice_index base.now i + above) % P }
{
    let shifted = shifted_at(l, mask, i);
    number_in(base, i).add(shifted.sub(number_in(mask, i)))
}

// A coefficient of `X^l` times the polynomial.
fn shifted_at(l: usize, coefs: &[Gold], i: usize) -> Gold
    ensures { result ≡ shifted_at l coefs.now i }
{
    if i < l {
        Gold::ZERO
    } else {
        number_in(coefs, i - l)
    }
}

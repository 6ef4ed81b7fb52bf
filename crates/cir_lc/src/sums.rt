ghost use Rattle.std.specs.Prelude.{◌≡◌, ◌<◌, ◌++◌, [], ℕ, IfOk, OnOk};
ghost use Rattle.gold_field.specs.Rises.{RisesFrom};
ghost use Rattle.cir_lc.specs.Number.{value_of, added, scaled, signal as signal_number};
ghost use Rattle.cir_lc.specs.Terms.{IsWithin, term_of};
ghost use Rattle.cir_lc.specs.Merge.{IsMerged};

use gold_field::{Gold, Lc, Term};
use std::alloc::{AllocError, Global};

/// `a + b`.
pub fn add(alloc: Global, a: &Lc, b: &Lc) -> Result<Lc, AllocError>
    ensures value { IfOk result (λ f. value_of f ≡ added (value_of a.now) (value_of b.now)) }
    ensures within { IfOk result (λ f. (n : ℕ) → IsWithin n a.now → IsWithin n b.now
        → IsWithin n f) }
{
    let f = add_multiple(alloc, a, b, Gold::ONE)?;
    Ok(f)
}

/// `a + k * b`.
pub fn add_multiple(alloc: Global, a: &Lc, b: &Lc, k: Gold) -> Result<Lc, AllocError>
    ensures value { IfOk result
        (λ f. value_of f ≡ added (value_of a.now) (scaled k (value_of b.now))) }
    ensures within { IfOk result (λ f. (n : ℕ) → IsWithin n a.now → IsWithin n b.now
        → IsWithin n f) }
{
    let terms = merged(alloc, a.as_slice(), b.as_slice(), k)?;
    Ok(Lc::of(terms))
}

/// `j * signal + k * f`.
pub fn signal_and(alloc: Global, signal: u32, j: Gold, f: &Lc, k: Gold) -> Result<Lc, AllocError>
    requires { 0 < j }
    ensures value { IfOk result (λ g. value_of g
        ≡ added (scaled j (signal_number signal)) (scaled k (value_of f.now))) }
    ensures within { IfOk result (λ g. (n : ℕ) → signal < n → IsWithin n f.now → IsWithin n g) }
{
    let _number = j.get();
    let first = [Term { signal, coef: j }];
    let terms = merged(alloc, &first, f.as_slice(), k)?;
    Ok(Lc::of(terms))
}

/// `k * a`.
pub fn scale(alloc: Global, a: &Lc, k: Gold) -> Result<Lc, AllocError>
    ensures value { IfOk result (λ f. value_of f ≡ scaled k (value_of a.now)) }
    ensures within { IfOk result (λ f. (n : ℕ) → IsWithin n a.now → IsWithin n f) }
{
    let terms = multiples(alloc, a.as_slice(), k)?;
    Ok(Lc::of(terms))
}

// The terms of `a + k * b`, by one walk over both lists.
fn merged(alloc: Global, a: &[Term], b: &[Term], k: Gold) -> Result<Vec<Term>, AllocError>
    requires left { RisesFrom 0 a.now }
    requires right { RisesFrom 0 b.now }
    ensures { IfOk result (λ v. IsMerged k a.now b.now v.items [] []) }
{
    let mut sum = Vec::with_capacity(alloc, a.len().saturating_add(b.len()))?;
    let mut i = 0;
    let mut j = 0;
    while i < a.len() && j < b.len() {
        let x = a[i];
        let y = b[j];
        if x.signal < y.signal {
            sum.push(x)?;
            i += 1;
        } else if y.signal < x.signal {
            push_term(&mut sum, y.signal, y.coef.mul(k))?;
            j += 1;
        } else {
            push_term(&mut sum, x.signal, x.coef.add(y.coef.mul(k)))?;
            i += 1;
            j += 1;
        }
    }
    sum.extend_from_slice(&a[i..])?;
    push_multiples(&mut sum, &b[j..], k)?;
    Ok(sum)
}

// The terms of a multiple.
fn multiples(alloc: Global, a: &[Term], k: Gold) -> Result<Vec<Term>, AllocError>
    requires { RisesFrom 0 a.now }
    ensures { IfOk result (λ v. IsMerged k [] a.now v.items [] []) }
{
    let mut multiple = Vec::with_capacity(alloc, a.len())?;
    push_multiples(&mut multiple, a, k)?;
    Ok(multiple)
}

// The terms of `k * b` at the end.
fn push_multiples(sum: &mut Vec<Term>, b: &[Term], k: Gold) -> Result<(), AllocError>
    requires { RisesFrom 0 (sum.old.items ++ b.now) }
    ensures { OnOk result (IsMerged k sum.old.items b.now sum.new.items [] []) }
{
    for t in b {
        push_term(sum, t.signal, t.coef.mul(k))?;
    }
    Ok(())
}

// The term at the end, unless its coefficient is 0.
pub(crate) fn push_term(terms: &mut Vec<Term>, signal: u32, coef: Gold) -> Result<(), AllocError>
    ensures { OnOk result (terms.new.items ≡ terms.old.items ++ term_of signal coef) }
{
    if coef != Gold::ZERO {
        terms.push(Term { signal, coef })?;
    }
    Ok(())
}

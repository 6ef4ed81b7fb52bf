ghost use Rattle.std.specs.Prelude.{◌≡◌, ◌-◌, ◌*◌, ◌%◌, ℕ, List, [], IfOk, ◌↔◌};
ghost use Rattle.gold_field.specs.Form.{Holds};
ghost use Rattle.gold_field.specs.declared.form.Term.{Term};
ghost use Rattle.gold_field.specs.declared.gold.TheConstants.{P};
ghost use Rattle.cir_lc.specs.Number.{Assignment, value_of, added, scaled, multiplied, negated};
ghost use Rattle.cir_lc.specs.Terms.{IsWithin};
ghost use Rattle.cir_lc.specs.Sparse.{IsNormalForm};
ghost use Rattle.cir_lc.specs.Normal.{IsNormal, IsLinear, IsConstraintWithin, IsQuadWithin};
ghost use Rattle.cir_lc.specs.Normal.{constant_of, value_of_quad};

use crate::sums::{add_multiple, scale};
use gold_field::{Constraint, Gold, Lc};
use std::alloc::{AllocError, Global};

/// `a * b + c`.
#[derive(Drop)]
pub struct Quad {
    pub a: Lc,
    pub b: Lc,
    pub c: Lc,
}

/// `a * b + 0`.
pub fn times(alloc: Global, a: &Lc, b: &Lc) -> Result<Quad, AllocError>
    ensures value { IfOk result
        (λ q. value_of_quad q ≡ multiplied (value_of a.now) (value_of b.now)) }
    ensures left { IfOk result (λ q. q.a ≡ a.now) }
    ensures right { IfOk result (λ q. q.b ≡ b.now) }
    ensures rest { IfOk result (λ q. q.c ≡ []) }
{
    let left = copy_of(alloc, a)?;
    let right = copy_of(alloc, b)?;
    Ok(Quad {
        a: left,
        b: right,
        c: Lc::of(Vec::new(alloc)),
    })
}

/// The normal constraint of `a * b + c = 0`: where a factor names no signal but 0, the product goes
/// into `C`.
pub fn normal(alloc: Global, q: &Quad) -> Result<Constraint, AllocError>
    ensures value { IfOk result (λ n. (s : Assignment)
        → Holds s.at n ↔ (value_of_quad q.now s ≡ 0)) }
    ensures shape { IfOk result (λ n. IsNormal q.now n) }
    ensures within { IfOk result (λ n. (m : ℕ) → IsQuadWithin m q.now → IsConstraintWithin m n) }
    ensures normal { IfOk result (λ n. IsNormalForm n) }
{
    let n = shaped(alloc, q)?;
    Ok(n)
}

fn shaped(alloc: Global, q: &Quad) -> Result<Constraint, AllocError>
    ensures shape { IfOk result (λ n. IsNormal q.now n) }
    ensures within { IfOk result (λ n. (m : ℕ) → IsQuadWithin m q.now → IsConstraintWithin m n) }
{
    if let Some(k) = constant(&q.a) {
        let n = linear(alloc, &q.c, &q.b, k)?;
        Ok(n)
    } else if let Some(k) = constant(&q.b) {
        let n = linear(alloc, &q.c, &q.a, k)?;
        Ok(n)
    } else {
        let a = copy_of(alloc, &q.a)?;
        let b = copy_of(alloc, &q.b)?;
        let c = minus(alloc, &q.c)?;
        Ok(Constraint { a, b, c })
    }
}

// The number of a linear combination that names no signal but 0.
fn constant(a: &Lc) -> Option<Gold>
    ensures { result ≡ constant_of a.now }
{
    match a.as_slice() {
        [] => Some(Gold::ZERO),
        [term] if term.signal == 0 => Some(term.coef),
        _ => None,
    }
}

// The constraint of `k * factor + c = 0`.
fn linear(alloc: Global, c: &Lc, factor: &Lc, k: Gold) -> Result<Constraint, AllocError>
    ensures shape { IfOk result (IsLinear k factor.now c.now) }
    ensures within { IfOk result (λ n. (m : ℕ) → IsWithin m factor.now → IsWithin m c.now
        → IsConstraintWithin m n) }
{
    let rest = minus(alloc, c)?;
    let c = less(alloc, rest, factor, k)?;
    Ok(without_factors(alloc, c))
}

fn without_factors(alloc: Global, c: Lc) -> Constraint
    ensures { result ≡ record { a = []; b = []; c = c } }
{
    Constraint {
        a: Lc::of(Vec::new(alloc)),
        b: Lc::of(Vec::new(alloc)),
        c,
    }
}

/// The normal constraint of `a * b = rest`.
pub(crate) fn settled(alloc: Global, a: Lc, b: Lc, rest: Lc) -> Result<Constraint, AllocError>
    ensures shape { IfOk result (λ n. (c : List Term) → value_of c ≡ negated (value_of rest)
        → IsNormal record { a = a; b = b; c = c } n) }
    ensures within { IfOk result (λ n. (m : ℕ) → IsWithin m a → IsWithin m b → IsWithin m rest
        → IsConstraintWithin m n) }
{
    if let Some(k) = constant(&a) {
        let c = less(alloc, rest, &b, k)?;
        Ok(without_factors(alloc, c))
    } else if let Some(k) = constant(&b) {
        let c = less(alloc, rest, &a, k)?;
        Ok(without_factors(alloc, c))
    } else {
        Ok(Constraint { a, b, c: rest })
    }
}

// `rest - k * factor`.
fn less(alloc: Global, rest: Lc, factor: &Lc, k: Gold) -> Result<Lc, AllocError>
    ensures value { IfOk result
        (λ f. value_of f
        ≡ added (value_of rest) (scaled ((k * (P - 1)) % P) (value_of factor.now))) }
    ensures within { IfOk result (λ f. (n : ℕ) → IsWithin n rest → IsWithin n factor.now
        → IsWithin n f) }
{
    if k.get() == 0 {
        return Ok(rest);
    }
    let f = add_multiple(alloc, &rest, factor, k.mul(Gold::ONE.neg()))?;
    Ok(f)
}

/// `-a`.
pub fn minus(alloc: Global, a: &Lc) -> Result<Lc, AllocError>
    ensures value { IfOk result (λ f. value_of f ≡ negated (value_of a.now)) }
    ensures within { IfOk result (λ f. (n : ℕ) → IsWithin n a.now → IsWithin n f) }
{
    let f = scale(alloc, a, Gold::ONE.neg())?;
    Ok(f)
}

/// The same linear combination.
pub fn copy_of(alloc: Global, a: &Lc) -> Result<Lc, AllocError>
    ensures { IfOk result (λ f. f ≡ a.now) }
{
    let terms = Vec::from_slice(alloc, a.as_slice())?;
    Ok(Lc::of(terms))
}

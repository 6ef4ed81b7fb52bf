ghost use Rattle.std.specs.Prelude.{◌≡◌, ◌<◌, ◌↔◌, ℕ, [], IfOk, IsTrue};
ghost use Rattle.std.specs.Option.{is_some};
ghost use Rattle.gold_field.specs.Form.{ConstraintBelow, SignalsBelow};
ghost use Rattle.gold_field.specs.Rises.{RisesFrom};
ghost use Rattle.gold_field.specs.declared.gold.TheConstants.{P};
ghost use Rattle.cir_lc.specs.Terms.{IsWithin};
ghost use Rattle.cir_lc.specs.Normal.{constant_of};
ghost use Rattle.cir_determined.specs.Circuit.{normalized};

use cir_lc::{Quad, copy_of, minus, normal};
use gold_field::{Constraint, Lc, Term};
use std::alloc::{AllocError, Global};

/// The normal form of a constraint.
pub(crate) fn normalized(alloc: Global, k: &Constraint) -> Result<Constraint, AllocError>
    ensures form { IfOk result (λ r. (n : ℕ) → ConstraintBelow n k.now
        → r ≡ normalized n k.now) }
    ensures below { IfOk result (λ r. (n : ℕ) → ConstraintBelow n k.now
        → ConstraintBelow n r) }
{
    let a = copy_of(alloc, &k.a)?;
    let b = copy_of(alloc, &k.b)?;
    let c = minus(alloc, &k.c)?;
    let q = Quad { a, b, c };
    let r = normal(alloc, &q)?;
    is_formed(&k.a);
    is_formed(&k.b);
    is_formed(&k.c);
    is_formed(&q.c);
    is_formed(&r.c);
    Ok(r)
}

/// Whether the constraint is its own normal form.
pub(crate) fn is_normal(k: &Constraint) -> bool
    ensures { IsTrue result → (n : ℕ) → ConstraintBelow n k.now → normalized n k.now ≡ k.now }
{
    is_formed(&k.c);
    if is_empty(&k.a) {
        return is_empty(&k.b);
    }
    if is_constant(&k.a) {
        return false;
    }
    !is_constant(&k.b)
}

pub(crate) fn is_empty(f: &Lc) -> bool
    ensures { IsTrue result ↔ (f.now ≡ []) }
{
    f.as_slice().is_empty()
}

// Whether the linear combination names no signal but 0.
fn is_constant(f: &Lc) -> bool
    ensures { result ≡ is_some (constant_of f.now) }
{
    match f.as_slice() {
        [] => true,
        [term] => term.signal == 0,
        _ => false,
    }
}

/// Does nothing: how a linear combination is formed is what it ensures.
pub(crate) fn is_formed(f: &Lc)
    ensures rises { RisesFrom 0 f.now }
    ensures within { (n : ℕ) → SignalsBelow n f.now → IsWithin n f.now }
{
    for t in f.as_slice() {
        is_small(*t);
    }
}

fn is_small(t: Term)
    ensures { t.coef < P }
{
    let _number = t.coef.get();
}

//! The terms of a constraint.
ghost use Rattle.std.specs.Prelude.{◌≡◌, ℕ, ◌+◌, ◌*◌, ◌^◌, ◌<◌, false};
ghost use Rattle.std.specs.Prelude.{length, filter, nat_lt, IfOk};
ghost use Rattle.gold_field.specs.declared.gold.TheConstants.{P};
ghost use Rattle.gold_field.specs.Rises.{RisesFrom};
ghost use Rattle.cir_lc.specs.Terms.{IsWithin};
ghost use Rattle.cir_lc.specs.Normal.{IsNormal, IsQuadWithin, IsConstraintWithin};
ghost use Rattle.cir_meaning.specs.Compile.{group_size};
ghost use Rattle.cir_meaning.specs.Source.{parts_from, terms_of};

use cir_frame::GROUP_SIZE;
use cir_lc::{Quad, in_order, normal};
use gold_field::{Constraint, Lc, Term};
use std::alloc::{AllocError, Global};

/// The terms of the normal constraint. Signals past all numbers, which a statement can name that
/// passes the limit of signals, count for nothing.
pub fn term_count(alloc: Global, q: &Quad, k: &Constraint) -> Result<u64, AllocError>
    requires normal { IsNormal q.now k.now }
    requires kept { (m : ℕ) → IsQuadWithin m q.now → IsConstraintWithin m k.now }
    requires within { IsQuadWithin (2 ^ 32) q.now }
    requires left { RisesFrom 0 q.now.a }
    requires right { RisesFrom 0 q.now.b }
    ensures { IfOk result (λ n. n ≡ terms_of (4 * group_size) (parts_from q.now)) }
{
    if is_past(&q.a) || is_past(&q.b) || is_past(&q.c) {
        let numbered = Quad {
            a: numbered_part(alloc, &q.a)?,
            b: numbered_part(alloc, &q.b)?,
            c: numbered_part(alloc, &q.c)?,
        };
        let part = normal(alloc, &numbered)?;
        in_order(&part);
        return Ok(size_of(&part));
    }
    in_order(k);
    Ok(size_of(k))
}

/// Does nothing: how a linear combination is formed is what it ensures.
pub fn is_formed(f: &Lc)
    ensures rises { RisesFrom 0 f.now }
    ensures within { IsWithin (2 ^ 32) f.now }
{
    for t in f.as_slice() {
        is_small(*t);
    }
}

fn is_small(t: Term)
    ensures signal { t.signal < 2 ^ 32 }
    ensures coef { t.coef < P }
{
    let _number = t.coef.get();
}

fn size_of(k: &Constraint) -> u64
    ensures { result ≡ length k.now.a + length k.now.b + length k.now.c }
{
    let a: &[Term] = k.a.as_slice();
    let b: &[Term] = k.b.as_slice();
    let c: &[Term] = k.c.as_slice();
    a.len() as u64 + b.len() as u64 + c.len() as u64
}

fn all_numbers() -> u64
    ensures { result ≡ 4 * group_size }
{
    4 * u64::from(GROUP_SIZE)
}

/// Whether it names a signal past all numbers: its last one is.
fn is_past(f: &Lc) -> bool
    ensures { result ≡ false → IsWithin (2 ^ 32) f.now → IsWithin (4 * group_size) f.now }
{
    match f.as_slice() {
        [.., last] => u64::from(last.signal) >= all_numbers(),
        [] => false,
    }
}

/// Its terms whose signals have numbers.
fn numbered_part(alloc: Global, f: &Lc) -> Result<Lc, AllocError>
    ensures { IfOk result (λ g. g ≡ filter (λ t. nat_lt t.signal (4 * group_size)) f.now) }
{
    let mut terms = Vec::new(alloc);
    for t in f.as_slice() {
        if u64::from(t.signal) < all_numbers() {
            terms.push(*t)?;
        }
    }
    Ok(Lc::of(terms))
}

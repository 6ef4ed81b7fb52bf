ghost use Rattle.std.specs.Prelude.{◌≡◌, ◌-◌, ◌<◌, ◌%◌, ℕ, List, IfOk, ◌↔◌};
ghost use Rattle.gold_field.specs.Form.{Holds};
ghost use Rattle.gold_field.specs.declared.gold.TheConstants.{P};
ghost use Rattle.gold_field.specs.declared.form.Term.{Term};
ghost use Rattle.gold_field.specs.Rises.{RisesFrom};
ghost use Rattle.cir_lc.specs.Number.{Assignment, value_of, signal as signal_number, added, scaled};
ghost use Rattle.cir_lc.specs.Coefficient.{one_at};
ghost use Rattle.cir_lc.specs.Merge.{total};
ghost use Rattle.cir_lc.specs.Terms.{IsWithin};
ghost use Rattle.cir_lc.specs.Normal.{IsConstraintWithin};
ghost use Rattle.cir_lc.specs.Sparse.{IsNormalForm, IsRising};
ghost use Rattle.cir_lc.specs.Substitution.{with_number, substituted, substitute};

use crate::quad::{copy_of, settled};
use crate::sums::{add_multiple, push_term, signal_and};
use gold_field::{Constraint, Gold, Lc};
use std::alloc::{AllocError, Global};

/// The constraint with `by` in place of the signal, made normal.
pub fn subst(alloc: Global, c: &Constraint, signal: u32, by: &Lc) -> Result<Constraint, AllocError>
    requires { 0 < signal }
    ensures value { IfOk result (λ r. (s : Assignment)
        → Holds s.at r ↔ Holds (with_number signal (value_of by.now s) s).at c.now) }
    ensures form { IfOk result (λ r. (n : ℕ) → signal < n → IsConstraintWithin n c.now
        → IsWithin n by.now
        → r ≡ substitute n signal by.now c.now) }
    ensures within { IfOk result (λ r. (n : ℕ) → signal < n → IsConstraintWithin n c.now
        → IsWithin n by.now
        → IsConstraintWithin n r) }
    ensures normal { IfOk result (λ r. IsNormalForm r) }
    ensures rises { IfOk result (λ r. IsRising r) }
{
    let swap = swapped(alloc, signal, by)?;
    let a = changed(alloc, &c.a, signal, &swap)?;
    let b = changed(alloc, &c.b, signal, &swap)?;
    let rest = changed(alloc, &c.c, signal, &swap)?;
    let n = settled(alloc, a, b, rest)?;
    in_order(&n);
    Ok(n)
}

// `by` less the signal: what is added for each time that a form has the signal.
fn swapped(alloc: Global, signal: u32, by: &Lc) -> Result<Lc, AllocError>
    ensures value { IfOk result (λ f. value_of f
        ≡ added (value_of by.now) (scaled (P - 1) (signal_number signal))) }
    ensures within { IfOk result (λ f. (n : ℕ) → signal < n → IsWithin n by.now → IsWithin n f) }
{
    let f = signal_and(alloc, signal, Gold::ONE.neg(), by, Gold::ONE)?;
    Ok(f)
}

// `f` with the number `by` in place of the signal, where `swap` is that number less the signal.
fn changed(alloc: Global, f: &Lc, signal: u32, swap: &Lc) -> Result<Lc, AllocError>
    requires { 0 < signal }
    ensures value { IfOk result (λ g. (by : List Term) → value_of swap.now
        ≡ added (value_of by) (scaled (P - 1) (signal_number signal))
        → value_of g ≡ substituted signal (value_of by) (value_of f.now)) }
    ensures within { IfOk result (λ g. (n : ℕ) → IsWithin n f.now → IsWithin n swap.now
        → IsWithin n g) }
    ensures rises { IfOk result (λ g. RisesFrom 0 g) }
{
    let k = coef(f, signal);
    if k.get() == 0 {
        let g = copy_of(alloc, f)?;
        rises(&g);
        return Ok(g);
    }
    let g = add_multiple(alloc, f, swap, k)?;
    rises(&g);
    Ok(g)
}

/// `k` times the signal.
pub fn multiple(alloc: Global, signal: u32, k: Gold) -> Result<Lc, AllocError>
    ensures value { IfOk result (λ f. value_of f ≡ scaled k (signal_number signal)) }
    ensures within { IfOk result (λ f. (n : ℕ) → signal < n → IsWithin n f) }
{
    let mut terms = Vec::new(alloc);
    push_term(&mut terms, signal, k)?;
    Ok(Lc::of(terms))
}

// The coefficient of the signal.
fn coef(f: &Lc, signal: u32) -> Gold
    ensures { result ≡ total (one_at signal) f.now % P }
{
    let mut sum = Gold::ZERO;
    for t in f.as_slice() {
        if t.signal == signal {
            sum = sum.add(t.coef);
        }
    }
    sum
}

/// Does nothing: the form of a constraint is what it ensures.
pub fn in_order(k: &Constraint)
    ensures { IsRising k.now }
{
    rises(&k.a);
    rises(&k.b);
    rises(&k.c);
}

fn rises(f: &Lc)
    ensures { RisesFrom 0 f.now }
{
    let _terms = f.as_slice();
}

ghost use Rattle.std.specs.Prelude.{◌≡◌, ◌<◌, ◌≤◌, ◌+◌, ℕ, IfOk, OnOk};
ghost use Rattle.cir_lc.specs.Terms.{IsWithin};
ghost use Rattle.cir_lc.specs.Normal.{IsQuadWithin};
ghost use Rattle.simplify_samples.specs.Lists.{IsListed};

use cir_lc::{Quad, add, multiple, normal};
use gold_field::{Constraint, Gold, Lc};
use std::alloc::{AllocError, Global};

/// Adds `a * b + c = 0`.
pub fn push(list: &mut Vec<Constraint>, alloc: Global, q: &Quad) -> Result<(), AllocError>
    ensures { OnOk result ((n : ℕ) → IsQuadWithin n q.now
        → IsListed n list.old.items → IsListed n list.new.items) }
{
    let constraint = normal(alloc, q)?;
    list.push(constraint)?;
    Ok(())
}

/// Adds `c = 0`.
pub fn push_linear(list: &mut Vec<Constraint>, alloc: Global, c: Lc) -> Result<(), AllocError>
    ensures { OnOk result ((n : ℕ) → IsWithin n c
        → IsListed n list.old.items → IsListed n list.new.items) }
{
    let zero = Quad {
        a: no_terms(alloc),
        b: no_terms(alloc),
        c,
    };
    push(list, alloc, &zero)?;
    Ok(())
}

/// The form of the number 0.
pub fn no_terms(alloc: Global) -> Lc
    ensures { (n : ℕ) → IsWithin n result }
{
    Lc::of(Vec::new(alloc))
}

/// The form and `k` times the signal.
pub fn plus(alloc: Global, form: &Lc, signal: u32, k: Gold) -> Result<Lc, AllocError>
    ensures { IfOk result (λ f. (n : ℕ) → signal < n → IsWithin n form.now → IsWithin n f) }
{
    let term = multiple(alloc, signal, k)?;
    let sum = add(alloc, form, &term)?;
    Ok(sum)
}

/// `x - y`.
pub fn difference(alloc: Global, x: u32, y: u32) -> Result<Lc, AllocError>
    ensures { IfOk result (λ f. (n : ℕ) → x < n → y < n → IsWithin n f) }
{
    let left = multiple(alloc, x, Gold::ONE)?;
    let both = plus(alloc, &left, y, Gold::ONE.neg())?;
    Ok(both)
}

/// The sum of the signals from `first` to `last`, each with `base` times the coefficient before it,
/// from 1 on.
pub fn sum(alloc: Global, first: u32, last: u32, base: Gold) -> Result<Lc, AllocError>
    requires { last < 1000000 }
    ensures { IfOk result (λ f. IsWithin (last + 1) f) }
{
    let mut sum = no_terms(alloc);
    let mut weight = Gold::ONE;
    for signal in first..last + 1 {
        sum = plus(alloc, &sum, signal, weight)?;
        weight = weight.mul(base);
    }
    Ok(sum)
}

/// The signal 2 is an input, each one above it is equal to the one before, and the output 1 to the
/// last.
pub fn chain(alloc: Global, signals: u32) -> Result<Vec<Constraint>, AllocError>
    requires some { 2 ≤ signals }
    requires few { signals < 1000000 }
    ensures { IfOk result (λ l. IsListed (signals + 1) l.items) }
{
    let mut chain = Vec::new(alloc);
    for signal in 2..signals {
        let link = difference(alloc, signal + 1, signal)?;
        push_linear(&mut chain, alloc, link)?;
    }
    let end = difference(alloc, 1, signals)?;
    push_linear(&mut chain, alloc, end)?;
    Ok(chain)
}

/// The signals 2 and 3 are inputs, each one above them is the sum of the two before, and the output
/// 1 is equal to the last.
pub fn sums(alloc: Global, signals: u32) -> Result<Vec<Constraint>, AllocError>
    requires some { 3 ≤ signals }
    requires few { signals < 1000000 }
    ensures { IfOk result (λ l. IsListed (signals + 1) l.items) }
{
    let mut sums = Vec::new(alloc);
    for signal in 3..signals {
        let step = difference(alloc, signal + 1, signal)?;
        let link = plus(alloc, &step, signal - 1, Gold::ONE.neg())?;
        push_linear(&mut sums, alloc, link)?;
    }
    let end = difference(alloc, 1, signals)?;
    push_linear(&mut sums, alloc, end)?;
    Ok(sums)
}

ghost use Rattle.std.specs.Prelude.{◌≡◌, ◌<◌, ◌+◌, ◌-◌, ◌%◌, ℕ, IfOk, ◌≤◌, IfErr};
ghost use Rattle.gold_field.specs.declared.gold.TheConstants.{P};
ghost use Rattle.gold_field.specs.Operators.{inverse_of};
ghost use Rattle.cir_lc.specs.Terms.{IsWithin};
ghost use Rattle.cir_simplify.specs.Shape.{terms_in};
ghost use Rattle.cir_simplify.specs.Turn.{solution as solution_of};

use cir_lc::signal_and;
use gold_field::{Constraint, Gold, Lc, Term};
use numbers::TooLarge;
use std::alloc::{AllocError, Global};

/// What `c = 0` says of the term's signal.
pub(crate) fn solution(alloc: Global, term: Term, c: &Lc) -> Result<Lc, AllocError>
    requires { 0 < term.coef }
    ensures form { IfOk result (λ f. (n : ℕ) → term.signal < n → IsWithin n c.now
        → f ≡ solution_of n record { term = term; form = c.now }) }
    ensures within { IfOk result (λ f. (n : ℕ) → term.signal < n → IsWithin n c.now
        → IsWithin n f) }
{
    let f = signal_and(alloc, term.signal, Gold::ONE, c, minus_inverse(term.coef))?;
    let _terms = f.as_slice();
    Ok(f)
}

fn minus_inverse(coef: Gold) -> Gold
    requires { 0 < coef }
    ensures { result ≡ (P - inverse_of coef) % P }
{
    let minus_one = Gold::ONE.neg();
    if coef.get() == 1 {
        return minus_one;
    }
    if coef.get() == minus_one.get() {
        return Gold::ONE;
    }
    match coef.inv() {
        Some(inverse) => inverse.neg(),
        None => Gold::ZERO,
    }
}

/// How many terms the constraint has, where the count fits.
pub(crate) fn terms(q: &Constraint) -> Result<u64, TooLarge>
    ensures ok { IfOk result (λ n. n ≡ terms_in q.now) }
    ensures err { IfErr result (λ _. 18446744073709551616 ≤ terms_in q.now) }
{
    let a = q.a.as_slice().len() as u64;
    let b = q.b.as_slice().len() as u64;
    let c = q.c.as_slice().len() as u64;
    sum(sum(a, b)?, c)
}

/// The sum, where it fits.
pub(crate) fn sum(a: u64, b: u64) -> Result<u64, TooLarge>
    ensures ok { IfOk result (λ n. n ≡ a + b) }
    ensures err { IfErr result (λ _. 18446744073709551616 ≤ a + b) }
{
    a.checked_add(b).ok_or(TooLarge)
}

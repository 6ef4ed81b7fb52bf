ghost use Rattle.std.specs.Prelude.{◌≡◌, ◌<◌};
ghost use Rattle.cir_simplify.specs.Shape.{pivot as pivot_of, fits as fits_of};
ghost use Rattle.cir_simplify.specs.Shape.{is_short as is_short_form, greatest as greatest_of};
ghost use Rattle.cir_simplify.specs.Shape.{has_no_terms};

use crate::types::{Level, Rules};
use gold_field::{Constraint, Gold, Lc, Term};

// The most terms of a constraint that is solved.
const LONGEST: usize = 1024;

/// The term for whose signal the constraint is solved.
pub(crate) fn pivot(rules: Rules, q: &Constraint) -> Option<Term>
    ensures { result ≡ pivot_of rules q.now }
{
    if is_linear(&q.a) && q.c.as_slice().len() <= LONGEST && fits(rules.level, &q.c) {
        greatest(rules.kept, &q.c)
    } else {
        None
    }
}

pub(crate) fn is_linear(a: &Lc) -> bool
    ensures { result ≡ has_no_terms a.now }
{
    match a.as_slice() {
        [] => true,
        _ => false,
    }
}

fn fits(level: Level, c: &Lc) -> bool
    ensures { result ≡ fits_of level c.now }
{
    match level {
        Level::O0 => false,
        Level::O1 => is_short(c),
        Level::O2 => true,
    }
}

fn is_short(c: &Lc) -> bool
    ensures { result ≡ is_short_form c.now }
{
    match c.as_slice() {
        [t] => t.signal != 0,
        [t, u] => t.signal == 0 || t.coef.add(u.coef) == Gold::ZERO,
        _ => false,
    }
}

fn greatest(kept: u32, c: &Lc) -> Option<Term>
    ensures { result ≡ greatest_of kept c.now }
{
    let terms = c.as_slice();
    if terms.is_empty() {
        return None;
    }
    let last = terms[terms.len() - 1];
    if kept < last.signal { Some(last) } else { None }
}

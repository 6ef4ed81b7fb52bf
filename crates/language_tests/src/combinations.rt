use crate::checks::same;
use cir_lc::{Quad, add, normal, scale, times};
use gold_field::{Constraint, Gold, Lc, P, Term};
use std::process::Abort;

// A signal, as often as this.
fn multiple<R: AllocGlobal + Abort>(rt: &R, signal: u32, factor: Gold) -> Lc {
    let coef = Gold::ONE;
    let terms = Vec::from_slice(rt.alloc(), &[Term { signal, coef }]).expect(rt, "memory");
    scale(rt.alloc(), &Lc::of(terms), factor).expect(rt, "memory")
}

fn signal<R: AllocGlobal + Abort>(rt: &R, signal: u32) -> Lc {
    multiple(rt, signal, Gold::ONE)
}

fn sum<R: AllocGlobal + Abort>(rt: &R, left: &Lc, right: &Lc) -> Lc {
    add(rt.alloc(), left, right).expect(rt, "memory")
}

fn expect_terms(rt: &impl Abort, f: &Lc, wanted: &[(u32, u64)]) {
    let terms = f.as_slice();
    same(rt, terms.len(), wanted.len());
    for (term, pair) in terms.iter().zip(wanted) {
        same(rt, (term.signal, term.coef.get()), *pair);
    }
}

// (2 * x1 + 3 * x2) + ((p - 2) * x1 + 5) is 5 + 3 * x2.
#[test]
fn a_sum_drops_what_cancels(rt: HostRuntime) {
    let two = Gold::from_wide(2);
    let twice = multiple(&rt, 1, two);
    let left = sum(&rt, &twice, &multiple(&rt, 2, Gold::from_wide(3)));
    let less = multiple(&rt, 1, two.neg());
    let right = sum(&rt, &less, &multiple(&rt, 0, Gold::from_wide(5)));
    expect_terms(&rt, &sum(&rt, &left, &right), &[(0, 5), (2, 3)]);
}

// The constraint that a product is signal 1.
fn product<R: AllocGlobal + Abort>(rt: &R, left: &Lc, right: &Lc) -> Constraint {
    let Quad { a, b, c: _ } = times(rt.alloc(), left, right).expect(rt, "memory");
    let c = signal(rt, 1);
    normal(rt.alloc(), &Quad { a, b, c }).expect(rt, "memory")
}

// The constraint of `c <== a * b` where c, a, b are signals 1, 2, 3.
#[test]
fn a_product_has_both_factors(rt: HostRuntime) {
    let minus_a = multiple(&rt, 2, Gold::ONE.neg());
    let n = product(&rt, &minus_a, &signal(&rt, 3));
    expect_terms(&rt, &n.a, &[(2, P - 1)]);
    expect_terms(&rt, &n.b, &[(3, 1)]);
    expect_terms(&rt, &n.c, &[(1, P - 1)]);
}

// 7 * x2 + x1 has no product.
#[test]
fn a_constant_factor_leaves_no_product(rt: HostRuntime) {
    let seven = multiple(&rt, 0, Gold::from_wide(7));
    let n = product(&rt, &seven, &signal(&rt, 2));
    expect_terms(&rt, &n.a, &[]);
    expect_terms(&rt, &n.b, &[]);
    expect_terms(&rt, &n.c, &[(1, P - 1), (2, P - 7)]);
}

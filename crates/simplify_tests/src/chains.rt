ghost use Rattle.std.specs.Prelude.{◌<◌, ◌+◌, ℕ, IfOk};
ghost use Rattle.cir_lc.specs.Normal.{IsQuadWithin};
ghost use Rattle.simplify_samples.specs.Lists.{IsListed};

use cir_lc::{Quad, multiple};
use cir_simplify::{Level, SimpFault, Simple, simplify};
use gold_field::{Constraint, Gold, Term};
use simplify_samples::{chain, difference, no_terms, plus, push, push_linear, sum, sums};
use std::alloc::{AllocError, Global};
use std::test::Fail;

fn counts(simple: &Simple) -> (usize, usize, usize) {
    (
        simple.wires.len(),
        simple.constraints.len(),
        simple.solved.len(),
    )
}

// What is left is `input - output = 0`.
#[test]
fn a_chain_becomes_one_constraint(rt: HostRuntime) -> Result<(), Fail> {
    let chain = chain(rt.alloc(), 1002)?;
    let list = chain.as_slice();
    let whole = simplify(rt.alloc(), list, 1002, 2, Level::O0)?;
    assert_eq!(rt; counts(&whole), (1003, 1001, 0));
    let short = simplify(rt.alloc(), list, 1002, 2, Level::O1)?;
    assert_eq!(rt; counts(&short), (3, 1, 1000));
    let last = short.constraints.as_slice().last().ok_or("none is left")?;
    let [output, input] = last.c.as_slice() else {
        return Err(Fail::from("no two terms"));
    };
    assert!(rt; output.signal == 1 && output.coef == Gold::ONE.neg());
    assert!(rt; input.signal == 2 && input.coef == Gold::ONE);
    Ok(())
}

// What is left says that the output is a sum of multiples of the inputs; at `--O1` nothing goes but
// the output's own equation, whose other signal it is.
#[test]
fn a_chain_of_sums_becomes_one_constraint(rt: HostRuntime) -> Result<(), Fail> {
    let chain = sums(rt.alloc(), 1003)?;
    let list = chain.as_slice();
    let short = simplify(rt.alloc(), list, 1003, 3, Level::O1)?;
    assert_eq!(rt; counts(&short), (1003, 1000, 1));
    let shortest = simplify(rt.alloc(), list, 1003, 3, Level::O2)?;
    assert_eq!(rt; counts(&shortest), (4, 1, 1000));
    Ok(())
}

// `x * (x - 1) = 0`.
fn bit(alloc: Global, x: u32) -> Result<Quad, AllocError>
    ensures { IfOk result (λ q. (n : ℕ) → x < n → 0 < n → IsQuadWithin n q) }
{
    let a = multiple(alloc, x, Gold::ONE)?;
    let b = plus(alloc, &a, 0, Gold::ONE.neg())?;
    Ok(Quad {
        a,
        b,
        c: no_terms(alloc),
    })
}

fn bits(alloc: Global, first: u32, last: u32) -> Result<Vec<Constraint>, AllocError>
    requires { last < 1000000 }
    ensures { IfOk result (λ l. IsListed (last + 1) l.items) }
{
    let mut list = Vec::new(alloc);
    for x in first..last + 1 {
        let bit = bit(alloc, x)?;
        push(&mut list, alloc, &bit)?;
    }
    Ok(list)
}

// Whether the input 2 is less than the input 3, as the output 1: the signal 4 is 256 more than
// their difference, 5 to 13 are its bits, the lowest first, and the output is 1 less the highest.
fn less_than(alloc: Global) -> Result<Vec<Constraint>, AllocError>
    ensures { IfOk result (λ l. IsListed 14 l.items) }
{
    let mut list = bits(alloc, 5, 13)?;
    let bits = sum(alloc, 5, 13, Gold::from_wide(2))?;
    let number = plus(alloc, &bits, 4, Gold::ONE.neg())?;
    push_linear(&mut list, alloc, number)?;
    let inputs = difference(alloc, 2, 3)?;
    let shifted = plus(alloc, &inputs, 0, Gold::from_wide(256))?;
    let distance = plus(alloc, &shifted, 4, Gold::ONE.neg())?;
    push_linear(&mut list, alloc, distance)?;
    let inverse = difference(alloc, 0, 13)?;
    let output = plus(alloc, &inverse, 1, Gold::ONE.neg())?;
    push_linear(&mut list, alloc, output)?;
    Ok(list)
}

#[test]
fn a_comparison_keeps_its_bits(rt: HostRuntime) -> Result<(), Fail> {
    let list = less_than(rt.alloc())?;
    let short = simplify(rt.alloc(), list.as_slice(), 13, 3, Level::O1)?;
    assert_eq!(rt; counts(&short), (14, 12, 0));
    let shortest = simplify(rt.alloc(), list.as_slice(), 13, 3, Level::O2)?;
    assert_eq!(rt; counts(&shortest), (11, 9, 3));
    Ok(())
}

fn product(alloc: Global) -> Result<Quad, AllocError>
    ensures { IfOk result (λ q. IsQuadWithin 1028 q) }
{
    Ok(Quad {
        a: multiple(alloc, 2, Gold::ONE)?,
        b: multiple(alloc, 3, Gold::ONE)?,
        c: multiple(alloc, 1027, Gold::ONE.neg())?,
    })
}

// A sum of 1,024 signals that is 0, and so many times that the last of them is `x2 * x3`.
fn sum_and_products(alloc: Global, products: u32) -> Result<Vec<Constraint>, AllocError>
    ensures { IfOk result (λ l. IsListed 1028 l.items) }
{
    let mut list = Vec::new(alloc);
    let sum = sum(alloc, 4, 1027, Gold::ONE)?;
    push_linear(&mut list, alloc, sum)?;
    let product = product(alloc)?;
    for _ in 0..products {
        push(&mut list, alloc, &product)?;
    }
    Ok(list)
}

// 1,023 terms come into each product, which then has 1,025; and 8,185 * 1,025 is more than
// 8,388,608.
#[test]
fn a_turn_makes_too_many_terms(rt: HostRuntime) -> Result<(), Fail> {
    let list = sum_and_products(rt.alloc(), 8185)?;
    match simplify(rt.alloc(), list.as_slice(), 1027, 2, Level::O2) {
        Err(SimpFault::Terms { count }) => assert_eq!(rt; count, 8389625),
        _ => return Err(Fail::from("not too many")),
    }
    Ok(())
}

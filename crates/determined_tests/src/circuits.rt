ghost use Rattle.std.specs.Prelude.{◌≡◌, ◌+◌, ◌<◌, ◌≤◌, ◌^◌, length, All, IfOk, IsTrue};
ghost use Rattle.gold_field.specs.Form.{ConstraintBelow, SignalsBelow};

use cir_determined::{Answer, Confirm, Rule, confirm, determine, read_rules};
use cir_lc::{add, multiple};
use gold_field::{Constraint, Gold, Lc, Term};
use std::alloc::{AllocError, Global};
use std::test::Fail;

/// The number that with 1 gives 0.
const MINUS: u64 = 18446744069414584320;

/// The terms of a linear combination: a wire and its coefficient.
type Form = &'static [(u32, u64)];

/// `a * b - c = 0`.
type Equation = (Form, Form, Form);

fn form(alloc: Global, terms: &[(u32, u64)]) -> Result<Lc, AllocError> {
    let mut form = Lc::of(Vec::new(alloc));
    for (wire, coef) in terms {
        let term = multiple(alloc, *wire, Gold::from_wide(u128::from(*coef)))?;
        form = add(alloc, &form, &term)?;
    }
    Ok(form)
}

fn equation(
    alloc: Global,
    a: &[(u32, u64)],
    b: &[(u32, u64)],
    c: &[(u32, u64)],
) -> Result<Constraint, AllocError> {
    Ok(Constraint {
        a: form(alloc, a)?,
        b: form(alloc, b)?,
        c: form(alloc, c)?,
    })
}

fn constraints(alloc: Global, equations: &[Equation]) -> Result<Vec<Constraint>, AllocError> {
    let mut list = Vec::new(alloc);
    for (a, b, c) in equations {
        list.push(equation(alloc, a, b, c)?)?;
    }
    Ok(list)
}

fn are_terms_below(terms: &[Term], wires: u32) -> bool
    ensures { IsTrue result → SignalsBelow wires terms.now }
{
    terms.iter().all(|t| t.signal < wires)
}

fn is_below(k: &Constraint, wires: u32) -> bool
    ensures { IsTrue result → ConstraintBelow wires k.now }
{
    are_terms_below(k.a.as_slice(), wires)
        && are_terms_below(k.b.as_slice(), wires)
        && are_terms_below(k.c.as_slice(), wires)
}

fn are_below(list: &[Constraint], wires: u32) -> bool
    ensures { IsTrue result → All (ConstraintBelow wires) list.now }
{
    list.iter().all(|k| is_below(k, wires))
}

fn is_circuit(list: &[Constraint], wires: u32, outputs: u32, inputs: u32) -> bool
    ensures below { IsTrue result → All (ConstraintBelow wires) list.now }
    ensures few { IsTrue result → length list.now < 2 ^ 32 }
    ensures wired { IsTrue result → 1 + outputs + inputs ≤ wires }
{
    u64::from(outputs) + u64::from(inputs) < u64::from(wires)
        && list.len() < 4294967296
        && are_below(list, wires)
}

/// What the rules are worth: nothing where all outputs are known, else the least that isn't, or the
/// first rule that doesn't apply.
#[derive(Clone, Copy, Debug, PartialEq, Eq)]
enum Worth {
    All,
    Wire(u32),
    Rule(u32),
}

fn worth_of(
    alloc: Global,
    list: &[Constraint],
    wires: u32,
    outputs: u32,
    inputs: u32,
    rules: &[Rule],
) -> Result<Worth, Fail> {
    if !is_circuit(list, wires, outputs, inputs) || rules.len() >= 4294967296 {
        return Err(Fail::from("no circuit"));
    }
    Ok(match confirm(alloc, list, wires, outputs, inputs, rules)? {
        Confirm::Confirmed => Worth::All,
        Confirm::BadRule { index } => Worth::Rule(index),
        Confirm::Short { wire } => Worth::Wire(wire),
    })
}

// What the rules are worth that are found, or the output that is named where none are.
fn found(
    alloc: Global,
    list: &[Constraint],
    wires: u32,
    outputs: u32,
    inputs: u32,
) -> Result<Worth, Fail> {
    if !is_circuit(list, wires, outputs, inputs) {
        return Err(Fail::from("no circuit"));
    }
    match determine(alloc, list, wires, outputs, inputs)? {
        Answer::Shown(rules) => worth_of(alloc, list, wires, outputs, inputs, &rules),
        Answer::NotShown { wire } => Ok(Worth::Wire(wire)),
    }
}

// The output 1 is the product of the inputs 2 and 3.
static PRODUCT: [Equation; 1] = [(&[(2, MINUS)], &[(3, 1)], &[(1, MINUS)])];

// The output 1 is 1 where the input 2 is 0, else 0; the wire 3 is free where it is 0.
static IS_ZERO: [Equation; 2] = [
    (&[(2, MINUS)], &[(3, 1)], &[(0, MINUS), (1, 1)]),
    (&[(2, 1)], &[(1, 1)], &[]),
];

// The wires 1 and 2 are 0 or 1, in two spellings; each row has their coefficients in a sum that is
// the input 3, and what is found.
static SUMS: [(u64, u64, Worth); 8] = [
    (1, 2, Worth::All),
    (3, 6, Worth::All),
    // 2^-1 and 2^5
    (9223372034707292161, 32, Worth::All),
    (1, 9223372036854775808, Worth::All),
    // 2^64 and 1
    (4294967295, 1, Worth::Wire(1)),
    (1, 1, Worth::Wire(1)),
    (1, MINUS, Worth::Wire(1)),
    (1, 3, Worth::Wire(1)),
];

#[test]
fn the_product_is_determined_and_the_test_for_zero_is_not(rt: HostRuntime) -> Result<(), Fail> {
    let alloc = rt.alloc();
    let product = constraints(alloc, &PRODUCT)?;
    assert_eq!(rt; found(alloc, &product, 4, 1, 2)?, Worth::All);
    assert_eq!(rt; found(alloc, &product, 4, 2, 1)?, Worth::Wire(1));
    let is_zero = constraints(alloc, &IS_ZERO)?;
    assert_eq!(rt; found(alloc, &is_zero, 4, 1, 1)?, Worth::Wire(1));
    Ok(())
}

#[test]
fn bits_have_powers_of_two_that_differ(rt: HostRuntime) -> Result<(), Fail> {
    let alloc = rt.alloc();
    for (first, second, worth) in &SUMS {
        let mut list = Vec::new(alloc);
        list.push(equation(alloc, &[(1, 5)], &[(0, MINUS), (1, 1)], &[])?)?;
        list.push(equation(alloc, &[(0, 1), (2, MINUS)], &[(2, 1)], &[])?)?;
        list.push(equation(alloc, &[], &[], &[(1, *first), (2, *second), (3, MINUS)])?)?;
        assert_eq!(rt; found(alloc, &list, 4, 2, 1)?, *worth);
    }
    Ok(())
}

// The outputs are bits, the first one the lowest, of the input behind them.
fn bits(alloc: Global, count: u32) -> Result<Vec<Constraint>, AllocError> {
    let mut list = Vec::new(alloc);
    let mut sum = form(alloc, &[(count.saturating_add(1), MINUS)])?;
    let mut power = Gold::ONE;
    for bit in 1..count.saturating_add(1) {
        list.push(equation(alloc, &[(bit, 1)], &[(0, MINUS), (bit, 1)], &[])?)?;
        sum = add(alloc, &sum, &multiple(alloc, bit, power)?)?;
        power = power.add(power);
    }
    list.push(Constraint {
        a: form(alloc, &[])?,
        b: form(alloc, &[])?,
        c: sum,
    })?;
    Ok(list)
}

#[test]
fn a_number_has_63_bits_and_not_64(rt: HostRuntime) -> Result<(), Fail> {
    let alloc = rt.alloc();
    let fewer = bits(alloc, 63)?;
    assert_eq!(rt; found(alloc, &fewer, 65, 63, 1)?, Worth::All);
    let more = bits(alloc, 64)?;
    assert_eq!(rt; found(alloc, &more, 66, 64, 1)?, Worth::Wire(1));
    Ok(())
}

// The output 1 is the sum of the wires from 4 on, each of which is 0 or 1 and the product of the
// input 2 and the wire before it.
#[test]
fn a_sum_of_many_is_solved_one_by_one(rt: HostRuntime) -> Result<(), Fail> {
    let alloc = rt.alloc();
    let mut list = Vec::new(alloc);
    let mut sum = form(alloc, &[(1, MINUS)])?;
    for wire in 4..4100u32 {
        sum = add(alloc, &sum, &multiple(alloc, wire, Gold::ONE)?)?;
        list.push(equation(alloc, &[(wire, 1)], &[(0, MINUS), (wire, 1)], &[])?)?;
    }
    list.push(Constraint {
        a: form(alloc, &[])?,
        b: form(alloc, &[])?,
        c: sum,
    })?;
    for below in 0..4096u32 {
        let wire = 4099 - below;
        list.push(equation(alloc, &[(2, 1)], &[(wire - 1, 1)], &[(wire, 1)])?)?;
    }
    assert_eq!(rt; found(alloc, &list, 4100, 1, 2)?, Worth::All);
    Ok(())
}

// Texts of rules for the product, and what they are worth.
static CERTIFICATES: [(&str, Worth); 8] = [
    ("solve 0 1\n", Worth::All),
    ("solve 0 2", Worth::Rule(0)),
    ("", Worth::Wire(1)),
    ("solve 1 1\n", Worth::Rule(0)),
    ("solve 0 4294967295\n", Worth::Rule(0)),
    ("solve 0 1\nsolve 0 1\n", Worth::Rule(1)),
    ("bool 0 1\n", Worth::Rule(0)),
    ("bits 0\n", Worth::Rule(0)),
];

// Those of two bits that are outputs.
static BITS: [(&str, Worth); 6] = [
    ("bool 0 1\nbool 1 2\nbits 2\n", Worth::All),
    ("bool 1 2\nbool 0 1\nbits 2\n", Worth::All),
    ("bits 2\nbool 0 1\nbool 1 2\n", Worth::Rule(0)),
    ("bool 0 1\nbool 0 1\n", Worth::Rule(1)),
    ("bool 0 1\nbool 1 2\n", Worth::Wire(1)),
    ("bool 0 0\n", Worth::Rule(0)),
];

fn read(alloc: Global, text: &str) -> Result<Vec<Rule>, Fail> {
    read_rules(alloc, text.as_bytes()).map_err(|_| Fail::from("not read"))
}

#[test]
fn certificates_are_worth_what_their_rules_show(rt: HostRuntime) -> Result<(), Fail> {
    let alloc = rt.alloc();
    let product = constraints(alloc, &PRODUCT)?;
    for (text, wanted) in &CERTIFICATES {
        let rules = read(alloc, text)?;
        assert_eq!(rt;
            worth_of(alloc, &product, 4, 1, 2, &rules)?,
            *wanted,
            "{text}"
        );
    }
    let bits = bits(alloc, 2)?;
    for (text, wanted) in &BITS {
        let rules = read(alloc, text)?;
        assert_eq!(rt; worth_of(alloc, &bits, 4, 2, 1, &rules)?, *wanted, "{text}");
    }
    Ok(())
}

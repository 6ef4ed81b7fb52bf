use crate::checks::same;
use crate::samples::{BITS, EMPTY, PRODUCT, file_of};
use field_tests::{gold, golds};
use gold_field::{Gold, P};
use lig_layout::{Params, combine, vectors};
use lig_proof::equation_count;
use std::process::Abort;

fn counting<R: AllocGlobal + Abort>(rt: &R, count: u64) -> Vec<Gold> {
    let mut numbers = Vec::new(rt.alloc());
    for n in 0..count {
        numbers.push(gold(n.saturating_add(1))).expect(rt, "memory");
    }
    numbers
}

fn sizes_of<R: AllocGlobal + Abort>(rt: &R, text: &str) -> Params {
    Params::of(&file_of(rt, text))
}

#[test]
fn sizes(rt: HostRuntime) {
    let product = Params {
        l: 128,
        depth: 10,
        wire_rows: 1,
        constraint_rows: 1,
        rows: 4,
    };
    let empty = Params {
        constraint_rows: 0,
        rows: 1,
        ..product
    };
    same(&rt, sizes_of(&rt, PRODUCT), product);
    same(&rt, sizes_of(&rt, BITS), product);
    same(&rt, sizes_of(&rt, EMPTY), empty);
}

#[test]
fn values_of_the_sides(rt: HostRuntime) {
    let file = file_of(&rt, PRODUCT);
    let w = golds(rt.alloc(), &[1, 33, 3, 11]).expect(&rt, "memory");
    assert_eq!(rt; file.wires, 4);
    assert_eq!(rt; w.len(), 4);
    let values = vectors(rt.alloc(), &file, &w).expect(&rt, "memory");
    same(&rt, values.w.as_slice(), w.as_slice());
    same(&rt, values.x.as_slice(), &[gold(P - 3)]);
    same(&rt, values.y.as_slice(), &[gold(11)]);
    same(&rt, values.z.as_slice(), &[gold(P - 33)]);
}

// How many outputs, public inputs and constraints a circuit has.
fn counts_of<R: AllocGlobal + Abort>(rt: &R, circuit: &str) -> (u32, u32, usize) {
    let file = file_of(rt, circuit);
    (file.outputs, file.public_inputs, file.constraints().len())
}

// The combined row of a circuit: the equations have the numbers from 1 on.
fn combined<R: AllocGlobal + Abort>(rt: &R, circuit: &str, equations: u32) -> Vec<Gold> {
    let file = file_of(rt, circuit);
    let r = counting(rt, u64::from(equations));
    assert!(rt; equation_count(&file) == equations);
    assert!(rt; r.len() == equations as usize);
    combine(rt.alloc(), &file, &Params::of(&file), &r).expect(rt, "memory")
}

// The values that aren't 0, with their signs.
fn nonzero<R: AllocGlobal + Abort>(rt: &R, row: &[Gold]) -> Vec<i128> {
    let mut values = Vec::new(rt.alloc());
    for value in row {
        if value.get() != 0 {
            values.push(value.signed()).expect(rt, "memory");
        }
    }
    values
}

static PRODUCT_ROW: [i128; 7] = [4, 2, -1, 2, -1, -2, -3];

#[test]
fn product_combined(rt: HostRuntime) {
    same(&rt, counts_of(&rt, PRODUCT), (1, 0, 1));
    let row = combined(&rt, PRODUCT, 5);
    let found = nonzero(&rt, &row);
    same(&rt, found.as_slice(), PRODUCT_ROW.as_slice());
    same(&rt, row.len(), 512);
    same(&rt, row.get(3).copied(), Some(gold(2)));
    same(&rt, row.get(384).copied(), Some(gold(P - 3)));
}

static BITS_ROW: [i128; 50] = [
    8880, 2, 74, 5, -1, -20, -52, -118, -252, -522, -1064, -2150, -4324, -8710, -1, -2, -3, -4, -5,
    -6, -7, -8, -9, -10, -11, -12, -13, -14, -15, -16, -17, -18, -19, -20, -21, -22, -23, -24, -25,
    -26, -27, -28, -29, -30, -31, -32, -33, -34, -35, -36,
];

#[test]
fn bits_combined(rt: HostRuntime) {
    same(&rt, counts_of(&rt, BITS), (1, 2, 12));
    let row = combined(&rt, BITS, 40);
    let found = nonzero(&rt, &row);
    same(&rt, found.as_slice(), BITS_ROW.as_slice());
}

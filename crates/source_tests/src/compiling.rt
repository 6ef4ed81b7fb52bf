// `compile` on sources that compile.
use crate::checks::says;
use command_samples::{put_file, sources, with_library, wtns};
use out_io::MemStore;
use std::process::Abort;
use std::sync::Wait;
use std::thread::Threads;

pub const PRODUCT: &str = "template Mul() {
  signal input a;
  signal input b;
  signal output c;
  c <== a*b;
}
component main = Mul();
";

pub const DIFFERENT: &str = "template T() { signal input a; signal output b; b <== a; 1 === 2; }
component main = T();
";

// The source of the store compiles with these options to so many wires and constraints.
fn compiles<R: Threads + Wait + AllocGlobal + Sync + Abort>(
    rt: &R,
    options: &str,
    store: &mut MemStore,
    wires: u32,
    constraints: u32,
) {
    let words = format!(in rt.alloc(); "compile t.circom m.r1cs {options}");
    let words = words.expect(rt, "memory");
    let line = format!(in rt.alloc(); "compiled: wires {wires}, constraints {constraints}\n");
    let line = line.expect(rt, "memory");
    says(rt, words.as_str(), store, 0, line.as_str());
}

#[test]
fn compile_writes_a_file_that_check_accepts(rt: HostRuntime) {
    let mut store = sources(rt.alloc(), &[("t.circom", PRODUCT)]).expect(&rt, "memory");
    compiles(&rt, "", &mut store, 4, 1);
    let values = wtns(rt.alloc(), &[1, 33, 3, 11]).expect(&rt, "memory");
    put_file(rt.alloc(), &mut store, "m.wtns", &values).expect(&rt, "memory");
    says(&rt, "check m.r1cs m.wtns", &mut store, 0, "satisfied\n");
}

const SQUARE: &str = "template T() {
  signal input a; signal input b; signal output c; signal s; signal t;
  s <== a + b; t <== s; c <== t*t;
}
component main = T();
";

// Without a level the answer is that of `--O1`, which makes s and t one wire; `--O2` leaves none
// of the two. Each row has the options, the source, and how many wires and constraints it has.
static LEVELS: [(&str, &str, u32, u32); 8] = [
    ("--O0", SQUARE, 6, 3),
    ("--O1", SQUARE, 5, 2),
    ("", SQUARE, 5, 2),
    ("--O2", SQUARE, 4, 1),
    ("", DIFFERENT, 3, 2),
    ("--O2", DIFFERENT, 3, 2),
    ("--O0 -l inc", PRODUCT, 4, 1),
    ("--O1", PRODUCT, 4, 1),
];

#[test]
fn a_level_solves_what_the_one_below_leaves(rt: HostRuntime) {
    for (options, source, wires, constraints) in LEVELS.as_slice() {
        let mut store = sources(rt.alloc(), &[("t.circom", *source)]).expect(&rt, "memory");
        compiles(&rt, options, &mut store, *wires, *constraints);
    }
}

// Each row has the level, the main component, and how many wires and constraints it has.
static CIRCUITS: [(&str, &str, u32, u32); 14] = [
    ("", "= Operators()", 12, 11),
    ("", "= IsZero()", 4, 2),
    ("", "= Num2Bits(64)", 66, 65),
    ("", "= LessThan(8)", 14, 12),
    ("--O2", "= LessThan(8)", 11, 9),
    ("", "= Two()", 6, 2),
    ("", "= Choice(1)", 3, 1),
    ("--O0", "= Chain(1000)", 1003, 1001),
    ("", "= Chain(1000)", 3, 1),
    ("", "= Deep(255)", 3, 1),
    ("", "= Table()", 3, 1),
    ("--O0", "= Anonymous()", 10, 7),
    ("", "= Anonymous()", 7, 4),
    ("--O0", "= Tuples()", 15, 12),
];

#[test]
fn circuits_have_their_wires_and_constraints(rt: HostRuntime) {
    for (level, main, wires, constraints) in CIRCUITS.as_slice() {
        let mut store = with_library(rt.alloc(), main).expect(&rt, "memory");
        compiles(&rt, level, &mut store, *wires, *constraints);
    }
}

// 3 is less than 5; that it isn't fails at the last constraint, which says what the output is.
static COMPARISONS: [([u64; 14], u8, &str); 2] = [
    (
        [1, 1, 3, 5, 254, 0, 1, 1, 1, 1, 1, 1, 1, 0],
        0,
        "satisfied\n",
    ),
    (
        [1, 0, 3, 5, 254, 0, 1, 1, 1, 1, 1, 1, 1, 0],
        2,
        "unsatisfied: constraint 11\n",
    ),
];

#[test]
fn values_satisfy_what_is_compiled(rt: HostRuntime) {
    for (values, status, line) in COMPARISONS.as_slice() {
        let mut store = with_library(rt.alloc(), "{public [in]} = LessThan(8)").expect(
            &rt, "memory",
        );
        let values = wtns(rt.alloc(), values).expect(&rt, "memory");
        put_file(rt.alloc(), &mut store, "m.wtns", &values).expect(&rt, "memory");
        compiles(&rt, "", &mut store, 14, 12);
        says(&rt, "check m.r1cs m.wtns", &mut store, *status, line);
    }
}

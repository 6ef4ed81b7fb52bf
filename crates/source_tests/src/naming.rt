// `sym` on sources, and `check` with the names that it writes.
use crate::checks::{same, says};
use crate::compiling::PRODUCT;
use command_samples::{put_file, run_words, sources, with_library, wtns};
use out_io::MemStore;
use std::process::Abort;
use std::sync::Wait;
use std::thread::Threads;

// The source of the store has these names, with these options.
fn is_named<R: Threads + Wait + AllocGlobal + Sync + Abort>(
    rt: &R,
    options: &str,
    store: &mut MemStore,
    names: &str,
) {
    let words = format!(in rt.alloc(); "sym t.circom m.sym {options}").expect(rt, "memory");
    let ran = run_words(rt, words.as_str(), store).expect(rt, "memory");
    same(rt, ran.status, 0);
    let written = store.files.get("m.sym").expect(rt, "names");
    same(rt, written.as_slice(), names.as_bytes());
}

const NESTED: &str = "template A() { signal input x; signal output y; y <== x*x; }
template T() { signal input i[2][2]; signal output o; component c[2]; signal s[2];
  for (var k = 0; k < 2; k++) { c[k] = A(); c[k].x <== i[k][1]; s[k] <== c[k].y*i[k][0]; }
  o <== s[0]*s[1]; }
component main = T();
";

const NESTED_ALL: &str = "1,1,0,main.o\n2,2,0,main.i[0][0]\n3,3,0,main.i[0][1]\n\
    4,4,0,main.i[1][0]\n5,5,0,main.i[1][1]\n6,6,0,main.s[0]\n7,7,0,main.s[1]\n\
    8,8,1,main.c[0].x\n9,9,1,main.c[0].y\n10,10,2,main.c[1].x\n11,11,2,main.c[1].y\n";

const NESTED_KEPT: &str = "1,1,0,main.o\n2,2,0,main.i[0][0]\n3,3,0,main.i[0][1]\n\
    4,4,0,main.i[1][0]\n5,5,0,main.i[1][1]\n6,6,0,main.s[0]\n7,7,0,main.s[1]\n\
    8,-1,1,main.c[0].x\n9,8,1,main.c[0].y\n10,-1,2,main.c[1].x\n11,9,2,main.c[1].y\n";

// Arrays, and components in arrays. Each row has the options, the source and its names.
static SOURCES: [(&str, &str, &str); 4] = [
    ("", PRODUCT, "1,1,0,main.c\n2,2,0,main.a\n3,3,0,main.b\n"),
    ("--O0", NESTED, NESTED_ALL),
    ("", NESTED, NESTED_KEPT),
    ("--O2", NESTED, NESTED_KEPT),
];

#[test]
fn each_signal_has_a_line_with_its_wire(rt: HostRuntime) {
    for (options, source, names) in SOURCES.as_slice() {
        let mut store = sources(rt.alloc(), &[("t.circom", *source)]).expect(&rt, "memory");
        is_named(&rt, options, &mut store, names);
    }
}

// Signals without a wire, and anonymous components. Each row has the main component and its names.
static MAINS: [(&str, &str); 2] = [
    (
        "= Chain(2)",
        "1,1,0,main.b\n2,2,0,main.a\n3,-1,0,main.x[0]\n4,-1,0,main.x[1]\n",
    ),
    (
        "= Anonymous()",
        "1,1,0,main.z\n2,2,0,main.x\n3,3,0,main.y\n4,-1,1,main.Mul@0.a\n5,-1,1,main.Mul@0.b\n\
        6,4,1,main.Mul@0.c\n7,5,2,main.Mul@1.a\n8,-1,2,main.Mul@1.b\n9,6,2,main.Mul@1.c\n",
    ),
];

#[test]
fn what_is_left_out_has_no_wire(rt: HostRuntime) {
    for (main, names) in MAINS.as_slice() {
        let mut store = with_library(rt.alloc(), main).expect(&rt, "memory");
        is_named(&rt, "", &mut store, names);
    }
}

// The values of the wires of a product, the status and the line.
static VALUES: [(&[u64], u8, &str); 4] = [
    (&[1, 33, 3, 11], 0, "satisfied\n"),
    (
        &[1, 34, 3, 11],
        2,
        "unsatisfied: constraint 0: main.c main.a main.b\n",
    ),
    (&[2, 33, 3, 11], 2, "unsatisfied: wire 0\n"),
    (&[1, 33, 3], 1, "refused: 3 values for 4 wires\n"),
];

#[test]
fn a_constraint_that_fails_has_the_names_of_its_wires(rt: HostRuntime) {
    let mut store = sources(rt.alloc(), &[("t.circom", PRODUCT)]).expect(&rt, "memory");
    let compiled = "compiled: wires 4, constraints 1\n";
    says(&rt, "compile t.circom m.r1cs", &mut store, 0, compiled);
    says(&rt, "sym t.circom m.sym", &mut store, 0, "sym: lines 3\n");
    for (values, status, line) in VALUES.as_slice() {
        let values = wtns(rt.alloc(), values).expect(&rt, "memory");
        put_file(rt.alloc(), &mut store, "m.wtns", &values).expect(&rt, "memory");
        let words = "check m.r1cs m.wtns --sym m.sym";
        says(&rt, words, &mut store, *status, line);
    }
}

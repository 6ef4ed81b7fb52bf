// `determine` and `confirm`.
use super::checks::{same, says};
use super::{R1CS, store};
use command_samples::{put_file, run_words, with_library};
use out_io::MemStore;
use std::process::Abort;
use std::sync::Wait;
use std::thread::Threads;

// The rules under this name.
fn rules_in<R: AllocGlobal + Abort>(rt: &R, store: &MemStore) -> Vec<u8> {
    let rules = store.files.get("m.cert").expect(rt, "rules");
    Vec::from_slice(rt.alloc(), rules.as_slice()).expect(rt, "memory")
}

#[test]
fn the_rules_of_a_product_solve_its_output(rt: HostRuntime) {
    let mut store = store(&rt, &R1CS, &[1, 33, 3, 11]);
    says(
        &rt,
        "determine m.r1cs m.cert",
        &mut store,
        0,
        "determined\n",
    );
    same(&rt, rules_in(&rt, &store).as_slice(), b"solve 0 1\n");
    says(&rt, "confirm m.r1cs m.cert", &mut store, 0, "confirmed\n");
}

// Each row has the main component, the status and the line. The bits of a number in 64 bits aren't
// determined, since a number and that number and the order of the field can have other bits; nor is
// the inverse of 0.
static CIRCUITS: [(&str, u8, &str); 5] = [
    ("{public [in]} = LessThan(8)", 0, "determined\n"),
    ("= Num2Bits(63)", 0, "determined\n"),
    ("= Num2Bits(64)", 2, "undetermined: wire 1\n"),
    ("= IsZero()", 2, "undetermined: wire 1\n"),
    ("= Table()", 0, "determined\n"),
];

// What `determine` says of the circuit, and that what it writes is confirmed.
fn is_found<R: Threads + Wait + AllocGlobal + Sync + Abort>(
    rt: &R,
    main: &str,
    status: u8,
    line: &str,
) {
    let mut store = with_library(rt.alloc(), main).expect(rt, "memory");
    let compiled = run_words(rt, "compile t.circom m.r1cs", &mut store).expect(rt, "memory");
    same(rt, compiled.status, 0);
    says(rt, "determine m.r1cs m.cert", &mut store, status, line);
    same(rt, store.files.contains_key("m.cert"), status == 0);
    if status == 0 {
        says(rt, "confirm m.r1cs m.cert", &mut store, 0, "confirmed\n");
    }
}

#[test]
fn circuits_are_determined_or_not(rt: HostRuntime) {
    for (main, status, line) in CIRCUITS.as_slice() {
        is_found(&rt, main, *status, line);
    }
}

// Rules for the product, the status and the line.
static RULES: [(&str, u8, &str); 11] = [
    ("solve 0 1", 0, "confirmed\n"),
    ("solve 0 2\n", 2, "unconfirmed: rule 0\n"),
    ("", 2, "unconfirmed: wire 1\n"),
    ("solve 0 1\nsolve 0 1\n", 2, "unconfirmed: rule 1\n"),
    ("solve 1 1\n", 2, "unconfirmed: rule 0\n"),
    ("solve 0 4294967295\n", 2, "unconfirmed: rule 0\n"),
    ("solve 0\n", 1, "refused: m.cert: C1 BadLine at line 1\n"),
    (
        "solve 0 1\n\n",
        1,
        "refused: m.cert: C1 BadLine at line 2\n",
    ),
    (
        "bits 0\nsolve 0 01",
        1,
        "refused: m.cert: C1 BadLine at line 2\n",
    ),
    (
        "solve 0 4294967296",
        1,
        "refused: m.cert: C1 BadLine at line 1\n",
    ),
    ("Solve 0 1\n", 1, "refused: m.cert: C1 BadLine at line 1\n"),
];

#[test]
fn rules_are_confirmed_or_not(rt: HostRuntime) {
    for (rules, status, line) in RULES.as_slice() {
        let mut store = store(&rt, &R1CS, &[1, 33, 3, 11]);
        put_file(rt.alloc(), &mut store, "m.cert", rules.as_bytes()).expect(&rt, "memory");
        says(&rt, "confirm m.r1cs m.cert", &mut store, *status, line);
    }
}

#[test]
fn files_are_asked_for_in_the_order_of_the_words(rt: HostRuntime) {
    let mut store = store(&rt, &R1CS, &[1, 33, 3, 11]);
    let line = "refused: no.r1cs: no such file\n";
    says(&rt, "confirm no.r1cs no.cert", &mut store, 1, line);
    same(&rt, store.calls, 1);
    let line = "refused: no.cert: no such file\n";
    says(&rt, "confirm m.r1cs no.cert", &mut store, 1, line);
}

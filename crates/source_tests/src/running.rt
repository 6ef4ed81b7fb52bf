// `witness` and `generate`.
use crate::checks::{same, says};
use crate::compiling::{DIFFERENT, PRODUCT};
use command_samples::{put_file, run_words, sources, with_library, wtns};
use out_io::MemStore;
use std::process::Abort;
use std::sync::Wait;
use std::thread::Threads;

// A component that asserts twice, by lines of its own.
pub static TWO: &str = "template A(k) { signal input x; assert(x != k); }
template T() {
  signal input a; signal output out; component p = A(1); component q = A(1);
  log(\"start\", a); p.x <== a; q.x <== a; out <== a;
}
component main = T();
";

static LOOP: &str = "template W() {
  signal input n; signal output out; var i = 0;
  while (i != n) { i = i + 1; }
  out <-- i;
}
component main = W();
";

static UP: &str = "function up(x) { var r = 0; while ((1 << r) < x) { r++; } return r; }
template U() { signal input in; signal output out; out <-- up(in); }
component main = U();
";

static ARRAY: &str = "template S() { signal input in[2][2]; signal output out;
  out <== in[0][0] + 2*in[0][1] + 3*in[1][0] + 4*in[1][1]; }
component main = S();
";

/// With these options `witness` says the log lines and how many values there are, and writes them.
pub fn writes_values<R: Threads + Wait + AllocGlobal + Sync + Abort>(
    rt: &R,
    options: &str,
    store: &mut MemStore,
    log: &str,
    values: &[u64],
) {
    let words = format!(in rt.alloc(); "witness t.circom i.json w.wtns {options}");
    let words = words.expect(rt, "memory");
    let count = values.len();
    let text = format!(in rt.alloc(); "{log}witness: values {count}\n").expect(rt, "memory");
    says(rt, words.as_str(), store, 0, text.as_str());
    let bytes = store.files.get("w.wtns").expect(rt, "a file");
    let wanted = wtns(rt.alloc(), values).expect(rt, "memory");
    same(rt, bytes.as_slice(), wanted.as_slice());
}

/// The values that were written satisfy the file that the source compiles to at this level.
pub fn are_accepted<R: Threads + Wait + AllocGlobal + Sync + Abort>(
    rt: &R,
    level: &str,
    store: &mut MemStore,
) {
    let words = format!(in rt.alloc(); "compile t.circom m.r1cs {level}").expect(rt, "memory");
    let compiled = run_words(rt, words.as_str(), store).expect(rt, "memory");
    same(rt, compiled.status, 0);
    says(rt, "check m.r1cs w.wtns", store, 0, "satisfied\n");
}

fn writes<R: Threads + Wait + AllocGlobal + Sync + Abort>(
    rt: &R,
    source: &str,
    input: &str,
    options: &str,
    log: &str,
    values: &[u64],
) {
    let mut store = sources(rt.alloc(), &[("t.circom", source), ("i.json", input)]).expect(
        rt, "memory",
    );
    writes_values(rt, options, &mut store, log, values);
    are_accepted(rt, "", &mut store);
}

/// With these options `witness` says this with the status 1, and writes no file.
pub fn is_stopped<R: Threads + Wait + AllocGlobal + Sync + Abort>(
    rt: &R,
    options: &str,
    store: &mut MemStore,
    text: &str,
) {
    let words = format!(in rt.alloc(); "witness t.circom i.json w.wtns {options}");
    let words = words.expect(rt, "memory");
    says(rt, words.as_str(), store, 1, text);
    same(rt, store.files.contains_key("w.wtns"), false);
}

fn stops<R: Threads + Wait + AllocGlobal + Sync + Abort>(
    rt: &R,
    source: &str,
    input: &str,
    options: &str,
    text: &str,
) {
    let mut store = sources(rt.alloc(), &[("t.circom", source), ("i.json", input)]).expect(
        rt, "memory",
    );
    is_stopped(rt, options, &mut store, text);
}

#[test]
fn witness_writes_the_values_of_the_run(rt: HostRuntime) {
    let input = "{\"a\":3,\"b\":\"11\"}";
    for options in ["", "--workers 1", "--workers=64", "--workers 08"] {
        writes(&rt, PRODUCT, input, options, "", &[1, 33, 3, 11]);
    }
    let large = "{\"a\":4294967296,\"b\":4294967296}";
    let product = &[1, 4294967295, 4294967296, 4294967296];
    writes(&rt, PRODUCT, large, "", "", product);
    for input in ["{\"in\":[[1,2],[3,4]]}", "{\"in\":[1,2,3,4]}"] {
        writes(&rt, ARRAY, input, "", "", &[1, 30, 1, 2, 3, 4]);
    }
}

const OPERATORS: [u64; 12] = [
    1,
    0,
    4294967294,
    9223372036854775808,
    9223372034707292161,
    0,
    18446744069414584319,
    2,
    4294967295,
    9223372034707292160,
    0,
    0,
];

// Each row has the main component, the input and the values.
static WITNESSES: [(&str, &str, &[u64]); 5] = [
    ("= Operators()", "{}", &OPERATORS),
    ("= IsZero()", "{\"in\":0}", &[1, 1, 0, 0]),
    ("= IsZero()", "{\"in\":5}", &[1, 0, 5, 14757395255531667457]),
    (
        "{public [in]} = LessThan(8)",
        "{\"in\":[3,5]}",
        &[1, 1, 3, 5, 254, 0, 1, 1, 1, 1, 1, 1, 1, 0],
    ),
    ("= Choice(1)", "{\"in\":9}", &[1, 1, 9]),
];

#[test]
fn circuits_of_the_whole_language_have_witnesses(rt: HostRuntime) {
    for (main, input, values) in WITNESSES.as_slice() {
        let mut store = with_library(rt.alloc(), main).expect(&rt, "memory");
        put_file(rt.alloc(), &mut store, "i.json", input.as_bytes()).expect(&rt, "memory");
        writes_values(&rt, "", &mut store, "", values);
        are_accepted(&rt, "", &mut store);
    }
}

// Its one input is 0, and so are its 64 bits.
#[test]
fn the_bits_of_0_are_0(rt: HostRuntime) {
    let mut values = [0; 66];
    values[0] = 1;
    let mut store = with_library(rt.alloc(), "= Num2Bits(64)").expect(&rt, "memory");
    put_file(rt.alloc(), &mut store, "i.json", b"{\"in\":0}").expect(&rt, "memory");
    writes_values(&rt, "", &mut store, "", &values);
    are_accepted(&rt, "", &mut store);
}

#[test]
fn witness_has_log_lines_before_its_own(rt: HostRuntime) {
    writes(&rt, TWO, "{\"a\":2}", "", "start 2\n", &[1, 2, 2]);
}

#[test]
fn witness_stops_at_the_first_place_of_the_source(rt: HostRuntime) {
    let text = "start 1\nrefused: W2 AssertFails at t.circom:1:33 in main.p\n";
    stops(&rt, TWO, "{\"a\":1}", "", text);
    stops(&rt, TWO, "{\"a\":1}", "--workers 1", text);
    stops(&rt, TWO, "{\"a\":1}", "--workers 8", text);
    let fails = "refused: W1 ConstraintFails at t.circom:1:58 in main\n";
    stops(&rt, DIFFERENT, "{\"a\":0}", "", fails);
}

#[test]
fn witness_spends_no_more_fuel_than_it_is_given(rt: HostRuntime) {
    let spent = "refused: W5 FuelSpent at t.circom:3:3 in main\n";
    writes(&rt, LOOP, "{\"n\":5}", "--fuel 5", "", &[1, 5, 5]);
    stops(&rt, LOOP, "{\"n\":6}", "--fuel 5", spent);
    stops(&rt, LOOP, "{\"n\":6}", "--fuel 5 --workers 1", spent);
    stops(&rt, LOOP, "{\"n\":6}", "--fuel 5 --workers 8", spent);
    writes(&rt, UP, "{\"in\":9}", "--fuel 5", "", &[1, 4, 9]);
    let called = "refused: W5 FuelSpent at t.circom:2:52 in main\n";
    stops(&rt, UP, "{\"in\":9}", "--fuel 4", called);
}

#[test]
fn witness_refuses_bad_inputs(rt: HostRuntime) {
    let rows = [
        ("{\"in\":[1,2,3,4,5]}", "refused: I4 WrongCount in 5 4\n"),
        ("{}", "refused: I2 Missing in\n"),
        (
            "{\"in\":[1,2,3,4],\"z\":1}",
            "refused: I3 UnknownSignal z\n",
        ),
        ("{\"in\":[1,2.5,3,4]}", "refused: I5 BadNumber in 1\n"),
        ("[", "refused: I1 NotJson\n"),
    ];
    for (input, text) in rows.as_slice() {
        stops(&rt, ARRAY, input, "", text);
    }
}

#[test]
fn a_source_is_no_input_and_is_read_once(rt: HostRuntime) {
    let mut store = sources(rt.alloc(), &[("t.circom", PRODUCT)]).expect(&rt, "memory");
    let text = "refused: I1 NotJson\n";
    says(&rt, "witness t.circom t.circom w.wtns", &mut store, 1, text);
    same(&rt, store.calls, 1);
    let mut none = sources(rt.alloc(), &[("t.circom", PRODUCT)]).expect(&rt, "memory");
    let missing = "refused: i.json: no such file\n";
    says(&rt, "witness t.circom i.json w.wtns", &mut none, 1, missing);
}

#[test]
fn generate_says_what_its_circuit_comes_to(rt: HostRuntime) {
    let rows = [
        (
            "generate 7 3",
            "generated: links 3, wires 13, constraints 3, satisfied, out 59\n",
        ),
        (
            "generate 7 9 --workers 8",
            "generated: links 9, wires 19, constraints 9, satisfied, out 57\n",
        ),
        (
            "generate 7 3 --fuel 0",
            "generated: links 3, wires 13, constraints 3, satisfied, out 59\n",
        ),
    ];
    for (words, text) in rows.as_slice() {
        let mut store = MemStore::new(rt.alloc());
        says(&rt, words, &mut store, 0, text);
        same(&rt, store.calls, 0);
    }
}

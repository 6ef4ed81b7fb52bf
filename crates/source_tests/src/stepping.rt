// `witness` of one body after the other: what its steps give, and where they stop.
use crate::checks::says;
use crate::running::{are_accepted, is_stopped, writes_values};
use command_samples::{put_file, sources, with_library};
use out_io::MemStore;
use std::process::Abort;
use std::sync::Wait;
use std::thread::Threads;

// What the bodies use. `down` calls itself once more than `n` says.
static LIBRARY: &str = "function down(n) { if (n == 0) { return 0; } return 1 + down(n - 1); }
function total(w) { var s = 0; for (var i = 0; i < 3; i++) { s += w[i]; } return s; }
function squares(n) { var t[4]; for (var i = 0; i < n; i++) { t[i] = i*i; } return t; }
template Next() { signal input x; signal output y; y <== x + 1; }
template Both() {
  signal input i[2]; signal output s; signal output d; s <== i[0] + i[1]; d <== i[0] - i[1];
}
template Inverse() { signal input x; signal output y;
y <-- 1 / x; }
";

// The template with this body, which begins at line 3, and its input: v is [10, 20, 30].
fn with_body<R: AllocGlobal + Abort>(rt: &R, body: &str, inputs: [u64; 2]) -> MemStore {
    let [a, b] = inputs;
    let source = format!(in rt.alloc();
        "include \"lib.circom\"; template T() {{
signal input a; signal input b; signal input v[3]; signal output o;
{body}
}} component main = T();
"
    );
    let source = source.expect(rt, "memory");
    let input = format!(in rt.alloc(); "{{\"a\":{a},\"b\":{b},\"v\":[10,20,30]}}");
    let input = input.expect(rt, "memory");
    let files = [
        ("lib.circom", LIBRARY),
        ("t.circom", source.as_str()),
        ("i.json", input.as_str()),
    ];
    sources(rt.alloc(), files.as_slice()).expect(rt, "memory")
}

// A body, the inputs a and b, and the output o.
type Row = (&'static str, [u64; 2], u64);

// The other wires at --O2 are the inputs, since what else a body constrains is linear.
fn all_give<R: Threads + Wait + AllocGlobal + Sync + Abort>(rt: &R, rows: &[Row]) {
    for (body, inputs, o) in rows {
        let mut store = with_body(rt, body, *inputs);
        let [a, b] = *inputs;
        let values = [1, *o, a, b, 10, 20, 30];
        writes_values(rt, "--O2", &mut store, "", &values);
        are_accepted(rt, "--O2", &mut store);
    }
}

// Operands that a condition skips don't stop a step; a value for `_` has no step.
static OPERANDS: [Row; 5] = [
    ("o <-- 6 / a;", [3, 0], 2),
    ("o <-- a ? 6 \\ a : 7;", [0, 0], 7),
    ("o <-- a && 6 % a == 2;", [0, 0], 0),
    ("o <-- a && 6 % a == 2;", [4, 0], 1),
    ("(o, _) <-- (a + b, 6 / a);", [0, 5], 5),
];

static UNKNOWN_INDICES: [Row; 5] = [
    ("o <-- v[a];", [2, 0], 30),
    ("var t[4] = squares(4); o <-- t[a];", [3, 0], 9),
    ("var w[2][2] = [[1, 2], [3, 4]]; o <-- w[a][b];", [1, 0], 3),
    (
        "var w[2][2] = [[1, 2], [3, 4]]; var u[2] = w[a]; o <-- 10*u[0] + u[1];",
        [1, 0],
        34,
    ),
    (
        "var w[3] = [4, 5, 6]; w[a] = b; o <-- w[0] + 10*w[1] + 100*w[2];",
        [1, 9],
        694,
    ),
];

// The condition of the second loop is known in its first two turns.
static UNKNOWN_CONDITIONS: [Row; 6] = [
    (
        "var w[2] = [1, 2]; if (a > 3) { w[0] = a; } else { w[1] = a; } o <-- 10*w[0] + w[1];",
        [5, 0],
        52,
    ),
    (
        "var w[2] = [1, 2]; if (a > 3) { w[0] = a; } else { w[1] = a; } o <-- 10*w[0] + w[1];",
        [2, 0],
        12,
    ),
    (
        "var s = 0; for (var i = 0; i < a; i++) { var t[2]; t[i % 2] = i; s += t[0] + 10*t[1]; }
         o <-- s;",
        [4, 0],
        42,
    ),
    (
        "var s = 0; for (var i = 0; i < 2 || i < a; i++) { s += 10 ** i; } o <-- s;",
        [4, 0],
        1111,
    ),
    (
        "var s = 0; for (var i = 0; i < 2 || i < a; i++) { s += 10 ** i; } o <-- s;",
        [0, 0],
        11,
    ),
    ("var n = 0; while (a >> n) { n++; } o <-- n;", [9, 0], 4),
];

static ARGUMENTS: [Row; 4] = [
    ("o <-- down(a);", [255, 0], 255),
    ("o <-- total(v);", [0, 0], 60),
    ("var w[3]; w[a] = 5; o <-- total(w);", [1, 0], 5),
    (
        "var w[2][3] = [[1, 2, 3], [a, a, a]]; o <-- total(w[b]);",
        [5, 1],
        15,
    ),
];

// In the last two an index of a component is out of bounds where it isn't looked at.
static COMPONENTS: [Row; 4] = [
    ("o <== Next()(a) + Next()(x <== b);", [3, 4], 9),
    ("(_, o) <== Both()([a, b]);", [7, 3], 4),
    (
        "component c[2][2];
         for (var i = 0; i < 2; i++) {
           c[i][1] = Next(); c[i][1].x <== i == 0 ? a : c[i - 1][1].y;
         }
         o <== c[1][1].y;",
        [5, 0],
        7,
    ),
    (
        "var s = 8; component c[2][2]; c[0][0] = Next(); c[0][0].x <== a;
         if (b) { s = c[0 - 1][0].y; }
         o <-- s;",
        [5, 0],
        8,
    ),
];

#[test]
fn steps_give_their_values(rt: HostRuntime) {
    all_give(&rt, OPERANDS.as_slice());
    all_give(&rt, UNKNOWN_INDICES.as_slice());
    all_give(&rt, UNKNOWN_CONDITIONS.as_slice());
    all_give(&rt, ARGUMENTS.as_slice());
    all_give(&rt, COMPONENTS.as_slice());
}

const MINUS_5: u64 = 18446744069414584316;

// At --O0 each signal has a wire: the output, the inputs, and the others in the order in which they
// are made.
static SIGNALS: [(&str, &str, &[u64]); 3] = [
    ("= Table()", "{\"a\":3}", &[1, 22, 3]),
    (
        "= Anonymous()",
        "{\"x\":2,\"y\":5}",
        &[1, 30, 2, 5, 2, 5, 10, 4, 5, 20],
    ),
    (
        "= Tuples()",
        "{\"in\":[3,8]}",
        &[1, 11, 5, 3, 8, 3, 8, 3, 8, 11, MINUS_5, 8, 3, 11, 5],
    ),
];

#[test]
fn every_signal_has_its_value(rt: HostRuntime) {
    for (main, input, values) in SIGNALS.as_slice() {
        let mut store = with_library(rt.alloc(), main).expect(&rt, "memory");
        put_file(rt.alloc(), &mut store, "i.json", input.as_bytes()).expect(&rt, "memory");
        writes_values(&rt, "--O0", &mut store, "", values);
    }
}

// The place is that of the step: the statement, or the whole of what an unknown condition leaves.
static STOPS: [(&str, [u64; 2], &str); 12] = [
    (
        "o <-- 6 / a;",
        [0, 0],
        "refused: W3 ZeroDivisor at t.circom:3:1 in main\n",
    ),
    (
        "o <-- 6 \\ a;",
        [0, 0],
        "refused: W3 ZeroDivisor at t.circom:3:1 in main\n",
    ),
    (
        "log(a, b);\no <-- a ? 6 % b : 7;\na === 2;",
        [1, 0],
        "1 0\nrefused: W3 ZeroDivisor at t.circom:4:1 in main\n",
    ),
    (
        "component c[2]; c[0] = Inverse(); c[1] = Inverse();
         c[0].x <== a; c[1].x <== b; o <== c[0].y;",
        [1, 0],
        "refused: W3 ZeroDivisor at lib.circom:9:1 in main.c[1]\n",
    ),
    (
        "o <-- v[a];",
        [3, 0],
        "refused: W4 IndexOut at t.circom:3:1 in main\n",
    ),
    (
        "var w[2][2] = [[1, 2], [3, 4]];\no <-- w[a][b];",
        [0, 2],
        "refused: W4 IndexOut at t.circom:4:1 in main\n",
    ),
    (
        "var w[3];\nw[a] = b;\no <-- w[0];",
        [3, 1],
        "refused: W4 IndexOut at t.circom:4:1 in main\n",
    ),
    (
        "for (var i = 0; i < a; i++) { var t[2]; t[i] = 1; } o <== a;",
        [3, 0],
        "refused: W4 IndexOut at t.circom:3:1 in main\n",
    ),
    (
        "var w[2][3] = [[1, 2, 3], [a, a, a]];\no <-- total(w[b]);",
        [5, 2],
        "refused: W4 IndexOut at t.circom:4:1 in main\n",
    ),
    (
        "var s = 8; component c[2][2]; c[0][0] = Next(); c[0][0].x <== a;
if (b) { s = c[0 - 1][0].y; }
o <-- s;",
        [5, 1],
        "refused: W4 IndexOut at t.circom:4:1 in main\n",
    ),
    (
        "if (a) { assert(b == 1); } o <== b;",
        [1, 2],
        "refused: W2 AssertFails at t.circom:3:1 in main\n",
    ),
    (
        "o <-- down(a);",
        [256, 0],
        "refused: W6 TooDeep at t.circom:3:1 in main\n",
    ),
];

#[test]
fn steps_stop_where_they_stand(rt: HostRuntime) {
    for (body, inputs, text) in STOPS.as_slice() {
        is_stopped(&rt, "", &mut with_body(&rt, body, *inputs), text);
    }
}

// The call that is too deep pays before it is refused.
#[test]
fn the_call_that_is_too_deep_takes_a_unit(rt: HostRuntime) {
    let mut store = with_body(&rt, "o <-- down(a);", [256, 0]);
    let deep = "refused: W6 TooDeep at t.circom:3:1 in main\n";
    is_stopped(&rt, "--fuel 257", &mut store, deep);
    let spent = "refused: W5 FuelSpent at t.circom:3:1 in main\n";
    is_stopped(&rt, "--fuel 256", &mut store, spent);
}

// A step that can't be made is refused as the source is.
static REFUSED: [(&str, &str); 2] = [
    (
        "var w[1048577], x = w[0] + a; o <== x;",
        "refused: E19 Limit Elements 1048577 at t.circom:3:1 in main\n",
    ),
    (
        "component c[2][2]; c[0][0] = Next(); c[0][0].x <== a;
log(c[0 - 1][0].y); o <== a;",
        "refused: E16 OutOfBounds at t.circom:4:1 in main\n",
    ),
];

#[test]
fn witness_refuses_what_compile_refuses(rt: HostRuntime) {
    for (body, text) in REFUSED.as_slice() {
        let mut store = with_body(&rt, body, [1, 2]);
        is_stopped(&rt, "", &mut store, text);
        says(&rt, "compile t.circom m.r1cs", &mut store, 1, text);
    }
}

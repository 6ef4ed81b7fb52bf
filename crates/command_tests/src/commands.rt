// The program's answers on files made by hand: the circuit c = a * b, with the wires 1, c, a and b.
use checks::{same, says};
use circom_gold::run_plain;
use command_samples::{MUL, Ran, put_file, run_into, split, wtns};
use out_io::{MemSink, MemStore};
use std::process::Abort;
use std::sync::Wait;
use std::thread::Threads;

mod checks;
mod damaged;
mod determining;
mod endless;
mod naming;
mod proving;

// Three sections: the sizes, the constraint (-a) * b = -c, the labels.
static R1CS: [u8; 168] = [
    0x72, 0x31, 0x63, 0x73, 1, 0, 0, 0, 3, 0, 0, 0, 1, 0, 0, 0, 0x28, 0, 0, 0, 0, 0, 0, 0, 8, 0, 0,
    0, 1, 0, 0, 0, 0xff, 0xff, 0xff, 0xff, 4, 0, 0, 0, 1, 0, 0, 0, 0, 0, 0, 0, 2, 0, 0, 0, 4, 0, 0,
    0, 0, 0, 0, 0, 1, 0, 0, 0, 2, 0, 0, 0, 0x30, 0, 0, 0, 0, 0, 0, 0, 1, 0, 0, 0, 2, 0, 0, 0, 0, 0,
    0, 0, 0xff, 0xff, 0xff, 0xff, 1, 0, 0, 0, 3, 0, 0, 0, 1, 0, 0, 0, 0, 0, 0, 0, 1, 0, 0, 0, 1, 0,
    0, 0, 0, 0, 0, 0, 0xff, 0xff, 0xff, 0xff, 3, 0, 0, 0, 0x20, 0, 0, 0, 0, 0, 0, 0, 0, 0, 0, 0, 0,
    0, 0, 0, 1, 0, 0, 0, 0, 0, 0, 0, 2, 0, 0, 0, 0, 0, 0, 0, 3, 0, 0, 0, 0, 0, 0, 0,
];

// A store of the two files.
fn store<R: AllocGlobal + Abort>(rt: &R, r1cs: &[u8], values: &[u64]) -> MemStore {
    let mut store = MemStore::new(rt.alloc());
    put_file(rt.alloc(), &mut store, "m.r1cs", r1cs).expect(rt, "memory");
    let values = wtns(rt.alloc(), values).expect(rt, "memory");
    put_file(rt.alloc(), &mut store, "m.wtns", &values).expect(rt, "memory");
    store
}

// What a run makes of the words where the sink fails.
fn run_lost<R: Threads + Wait + AllocGlobal + Sync + Abort>(
    rt: &R,
    words: &str,
    store: &mut MemStore,
) -> Ran {
    let mut out = MemSink::new(rt.alloc());
    out.fail.push(0).expect(rt, "memory");
    run_into(rt, words, store, out).expect(rt, "memory")
}

// How many bytes of the file there are, the values, the status and the line.
static CHECKS: [(usize, &[u64], u8, &str); 5] = [
    (168, &[1, 33, 3, 11], 0, "satisfied\n"),
    (168, &[1, 34, 3, 11], 2, "unsatisfied: constraint 0\n"),
    (168, &[2, 33, 3, 11], 2, "unsatisfied: wire 0\n"),
    (168, &[1, 33, 3], 1, "refused: 3 values for 4 wires\n"),
    (
        100,
        &[1, 33, 3, 11],
        1,
        "refused: m.r1cs: F3 Truncated at byte 100\n",
    ),
];

#[test]
fn check_answers_by_count_then_wire_0_then_constraints(rt: HostRuntime) {
    for (length, values, status, line) in CHECKS.as_slice() {
        let r1cs = R1CS.get(..*length).expect(&rt, "a part");
        let mut store = store(&rt, r1cs, values);
        says(&rt, "check m.r1cs m.wtns", &mut store, *status, line);
    }
}

// The files of all commands, and a call of the store that fails.
fn failing_store<R: AllocGlobal + Abort>(rt: &R, fail: u32) -> MemStore {
    let mut store = store(rt, &R1CS, &[1, 33, 3, 11]);
    let including = b"include \"b.circom\"; component main = Mul();";
    put_file(rt.alloc(), &mut store, "a.circom", including).expect(rt, "memory");
    put_file(rt.alloc(), &mut store, "b.circom", MUL.as_bytes()).expect(rt, "memory");
    put_file(rt.alloc(), &mut store, "i.json", b"{\"a\":3,\"b\":11}").expect(rt, "memory");
    put_file(rt.alloc(), &mut store, "m.json", b"[33]").expect(rt, "memory");
    put_file(rt.alloc(), &mut store, "m.bytes", b"no proof").expect(rt, "memory");
    store.fail.push(fail).expect(rt, "memory");
    store
}

// The files are asked for in the order of the words, and none behind one that isn't there.
#[test]
fn names_a_file_that_is_not_there(rt: HostRuntime) {
    let mut store = failing_store(&rt, 1);
    let line = "refused: no.r1cs: no such file\n";
    says(&rt, "check no.r1cs m.wtns", &mut store, 1, line);
    same(&rt, store.calls, 1);
}

// The store's call of this number fails: the status is 3, and no file is written.
fn is_fault<R: Threads + Wait + AllocGlobal + Sync + Abort>(rt: &R, words: &str, fail: u32) {
    let mut store = failing_store(rt, fail);
    says(rt, words, &mut store, 3, "fault: store\n");
    same(rt, store.calls, fail.saturating_add(1));
    same(rt, store.files.contains_key("n.out"), false);
}

// The sink fails, and the store's call of this number where there is one: the status is 3, so many
// calls of the store and one of the sink are made, and nothing is said.
fn is_unsaid<R: Threads + Wait + AllocGlobal + Sync + Abort>(
    rt: &R,
    words: &str,
    fail: u32,
    asked: u32,
) -> MemStore {
    let mut store = failing_store(rt, fail);
    let lost = run_lost(rt, words, &mut store);
    same(rt, (lost.status, lost.asked, lost.puts), (3, asked, 1));
    same(rt, lost.text.is_empty(), true);
    store
}

// The bytes of n.out; none where it isn't there.
fn left(store: &MemStore) -> &[u8] {
    match store.files.get("n.out") {
        Some(bytes) => bytes.as_slice(),
        None => &[],
    }
}

// No call fails: so many are made.
fn is_answered<R: Threads + Wait + AllocGlobal + Sync + Abort>(
    rt: &R,
    words: &str,
    calls: u32,
    status: u8,
    line: &str,
) -> MemStore {
    let mut store = failing_store(rt, calls);
    says(rt, words, &mut store, status, line);
    same(rt, store.calls, calls);
    store
}

// Each command, and words that name one file twice: how many calls of the store they make, whether
// the last one writes n.out, the status and the line.
static CALLS: [(&str, u32, bool, u8, &str); 16] = [
    ("check m.r1cs m.wtns", 2, false, 0, "satisfied\n"),
    (
        "check m.r1cs m.r1cs",
        1,
        false,
        1,
        "refused: m.r1cs: F1 Magic at byte 0\n",
    ),
    (
        "compile a.circom n.out",
        3,
        true,
        0,
        "compiled: wires 4, constraints 1\n",
    ),
    (
        "witness a.circom i.json n.out",
        4,
        true,
        0,
        "witness: values 4\n",
    ),
    (
        "witness a.circom b.circom n.out",
        2,
        false,
        1,
        "refused: I1 NotJson\n",
    ),
    (
        "prove m.r1cs m.wtns n.out --proof=1 \
            --seed=0000000000000000000000000000000000000000000000000000000000000000",
        3,
        true,
        0,
        "proved: bytes 56872\n",
    ),
    (
        "public m.r1cs m.wtns n.out",
        3,
        true,
        0,
        "public: values 1\n",
    ),
    (
        "audit m.r1cs m.json m.bytes",
        3,
        false,
        2,
        "rejected: 2 Malformed at byte 0\n",
    ),
    ("sym a.circom n.out", 3, true, 0, "sym: lines 3\n"),
    (
        "batch a.circom i.json n.out",
        4,
        true,
        0,
        "batch: inputs 1, witnesses 1\n",
    ),
    (
        "check m.r1cs m.wtns --sym m.bytes",
        3,
        false,
        1,
        "refused: m.bytes: S1 BadLine at line 1\n",
    ),
    (
        "check m.r1cs m.wtns --sym m.wtns",
        2,
        false,
        1,
        "refused: m.wtns: S1 BadLine at line 1\n",
    ),
    ("determine m.r1cs n.out", 2, true, 0, "determined\n"),
    (
        "confirm m.r1cs m.bytes",
        2,
        false,
        1,
        "refused: m.bytes: C1 BadLine at line 1\n",
    ),
    (
        "confirm m.r1cs m.r1cs",
        1,
        false,
        1,
        "refused: m.r1cs: C1 BadLine at line 1\n",
    ),
    (
        "audit m.r1cs m.r1cs m.bytes",
        1,
        false,
        1,
        "refused: I1 NotJson\n",
    ),
];

#[test]
fn each_call_that_fails_is_answered_with_3(rt: HostRuntime) {
    for (words, calls, written, status, line) in CALLS.as_slice() {
        for fail in 0..*calls {
            is_fault(&rt, words, fail);
            let store = is_unsaid(&rt, words, fail, fail.saturating_add(1));
            same(&rt, store.files.contains_key("n.out"), false);
        }
        let store = is_answered(&rt, words, *calls, *status, line);
        same(&rt, store.files.contains_key("n.out"), *written);
        let lost = is_unsaid(&rt, words, *calls, *calls);
        same(&rt, left(&lost), left(&store));
    }
}

// Words that ask for no file, and words without a reading, over a sink that fails.
#[test]
fn a_text_that_is_lost_is_answered_with_3(rt: HostRuntime) {
    for words in ["generate 7 3", "check m.r1cs"].as_slice() {
        let _store = is_unsaid(&rt, words, 0, 0);
    }
}

static USAGE: &str =
    "usage: circom_gold check, compile, witness, prove, public, audit, sym, batch, \
    series, determine, confirm or generate\n";

static NO_READING: [&str; 49] = [
    "",
    "check m.r1cs",
    "check a b c",
    "check -m.r1cs m.wtns",
    "Check m.r1cs m.wtns",
    "compile t.circom",
    "compile t.circom m.r1cs -l",
    "compile t.circom m.r1cs -l inc -l inc",
    "check m.r1cs m.wtns -l inc",
    "check m.r1cs m.wtns -h",
    "check --help",
    "check m.r1cs m.wtns --version",
    "compile t.circom m.r1cs --unknown",
    "compile t.circom m.r1cs -l -h",
    "compile t.circom m.r1cs --O0 --O1",
    "compile --O1 t.circom m.r1cs --O2",
    "compile t.circom m.r1cs --O2 --O2",
    "compile t.circom m.r1cs --O3",
    "check m.r1cs m.wtns --O1",
    "prove m.r1cs m.wtns m.proof",
    "prove m.r1cs m.wtns m.proof --seed 00",
    "prove m.r1cs m.wtns --seed 0000000000000000000000000000000000000000000000000000000000000000",
    "prove a b c --seed 000000000000000000000000000000000000000000000000000000000000000g",
    "prove a b c --seed 0000000000000000000000000000000000000000000000000000000000000000 --proof 3",
    "prove a b c --seed 0000000000000000000000000000000000000000000000000000000000000000 --proof x",
    "public m.r1cs m.wtns",
    "audit m.r1cs m.wtns",
    "audit a b c --proof 1",
    "check a b --sym",
    "check a b --sym c --sym d",
    "prove a b c --sym d",
    "sym a",
    "sym a b --O0 --O1",
    "sym a b --sym c",
    "determine a",
    "determine a b c",
    "confirm a b --O1",
    "witness a b",
    "witness a b c --workers",
    "witness a b c --workers 0",
    "witness a b c --workers 65",
    "witness a b c --work 8",
    "witness a b c --fuel 4294967296",
    "witness a b c --O1 --O2",
    "generate 7",
    "generate 7 0",
    "generate 7 300001",
    "generate 4294967296 3",
    "generate 7 3 --O1",
];

#[test]
fn words_without_a_reading_get_the_usage_line(rt: HostRuntime) {
    for words in NO_READING.as_slice() {
        let mut store = store(&rt, &R1CS, &[1, 33, 3, 11]);
        says(&rt, words, &mut store, 64, USAGE);
        same(&rt, store.calls, 0);
    }
}

// Whether the part of the program that waits for nobody leaves the words to the other part.
fn is_left<R: Threads + AllocGlobal + Sync + Abort>(rt: &R, words: &str) -> bool {
    let words = split(rt.alloc(), words).expect(rt, "memory");
    let mut store = MemStore::new(rt.alloc());
    let mut out = MemSink::new(rt.alloc());
    let status = run_plain(rt, rt.alloc(), words.as_slice(), &mut store, &mut out);
    let left = status.expect(rt, "memory").is_none();
    same(rt, left && (store.calls > 0 || out.calls > 0), false);
    left
}

#[test]
fn the_plain_part_leaves_what_runs_a_circuit(rt: HostRuntime) {
    same(&rt, is_left(&rt, "witness a b c"), true);
    same(&rt, is_left(&rt, "witness"), true);
    same(&rt, is_left(&rt, "generate 7 0"), true);
    same(&rt, is_left(&rt, "check a b"), false);
    same(&rt, is_left(&rt, "other"), false);
}

// `prove`, `public` and `audit` on the circuit c = a * b, whose one public value is c.
use super::checks::{same, says};
use super::{R1CS, store};
use command_samples::{put_file, run_words};
use out_io::MemStore;
use std::process::Abort;
use std::sync::Wait;
use std::thread::Threads;

/// Makes a proof of version 2.
pub const PROVE: &str = "prove m.r1cs m.wtns m.proof --seed \
    0000000000000000000000000000000000000000000000000000000000000000";

/// Makes a proof of version 1.
pub const FIRST: &str = "prove m.r1cs m.wtns m.proof --proof 1 --seed \
    0000000000000000000000000000000000000000000000000000000000000000";

// The proof that the command leaves.
fn proof_in<R: AllocGlobal + Abort>(rt: &R, store: &MemStore) -> Vec<u8> {
    let proof = store.files.get("m.proof").expect(rt, "a proof");
    Vec::from_slice(rt.alloc(), proof.as_slice()).expect(rt, "memory")
}

// Runs a command that makes a proof, which is accepted. The answer is how many bytes it has.
fn makes_a_proof<R: Threads + Wait + AllocGlobal + Sync + Abort>(
    rt: &R,
    words: &str,
    store: &mut MemStore,
) -> usize {
    let ran = run_words(rt, words, store).expect(rt, "memory");
    same(rt, (ran.status, ran.puts), (0, 1));
    let bytes = proof_in(rt, store).len();
    let line = format!(in rt.alloc(); "proved: bytes {bytes}\n").expect(rt, "memory");
    same(rt, ran.text.as_slice(), line.as_bytes());
    says(rt, "audit m.r1cs m.json m.proof", store, 0, "accepted\n");
    bytes
}

#[test]
fn a_proof_is_made_and_accepted(rt: HostRuntime) {
    let mut store = store(&rt, &R1CS, &[1, 33, 3, 11]);
    let line = "public: values 1\n";
    says(&rt, "public m.r1cs m.wtns m.json", &mut store, 0, line);
    same(&rt, makes_a_proof(&rt, FIRST, &mut store), 56872);
    same(&rt, makes_a_proof(&rt, PROVE, &mut store), 34248);
}

/// The verdict on a proof with these public values is a rejection, by this line.
pub fn is_rejected<R: Threads + Wait + AllocGlobal + Sync + Abort>(
    rt: &R,
    store: &mut MemStore,
    publics: &str,
    proof: &[u8],
    line: &str,
) {
    put_file(rt.alloc(), store, "m.json", publics.as_bytes()).expect(rt, "memory");
    put_file(rt.alloc(), store, "m.proof", proof).expect(rt, "memory");
    says(rt, "audit m.r1cs m.json m.proof", store, 2, line);
}

/// A store with the proof of the values 1, 33, 3 and 11 that the words make, and that proof.
pub fn proved<R: Threads + Wait + AllocGlobal + Sync + Abort>(
    rt: &R,
    words: &str,
) -> (MemStore, Vec<u8>) {
    let mut store = store(rt, &R1CS, &[1, 33, 3, 11]);
    same(
        rt,
        run_words(rt, words, &mut store).expect(rt, "memory").status,
        0,
    );
    let proof = proof_in(rt, &store);
    (store, proof)
}

#[test]
fn the_first_test_that_fails_is_named(rt: HostRuntime) {
    let (mut store, mut proof) = proved(&rt, FIRST);
    let count = "rejected: 1 PublicCount\n";
    is_rejected(&rt, &mut store, "[\"33\",\"3\"]", &proof, count);
    is_rejected(&rt, &mut store, "[34, 3, 11]", b"no proof", count);
    proof.push(0).expect(&rt, "memory");
    let longer = "rejected: 2 Malformed at byte 56872\n";
    is_rejected(&rt, &mut store, "[33]", &proof, longer);
    proof.truncate(100);
    let cut = "rejected: 2 Malformed at byte 100\n";
    is_rejected(&rt, &mut store, "[33]", &proof, cut);
}

/// Turns the lowest bit of one of the bytes.
pub fn turn(bytes: &mut [u8], at: usize) {
    if let Some(byte) = bytes.get_mut(at) {
        *byte ^= 1;
    }
}

#[test]
fn a_changed_column_is_off_its_path(rt: HostRuntime) {
    let (mut store, mut proof) = proved(&rt, FIRST);
    turn(&mut proof, 25272);
    let line = "rejected: 3 BadPath 17\n";
    is_rejected(&rt, &mut store, "[33]", &proof, line);
}

// The status of `audit` on a proof with these public values.
fn status_on<R: Threads + Wait + AllocGlobal + Sync + Abort>(
    rt: &R,
    store: &mut MemStore,
    publics: &str,
    proof: &[u8],
) -> u8 {
    put_file(rt.alloc(), store, "m.json", publics.as_bytes()).expect(rt, "memory");
    put_file(rt.alloc(), store, "m.proof", proof).expect(rt, "memory");
    run_words(rt, "audit m.r1cs m.json m.proof", store)
        .expect(rt, "memory")
        .status
}

#[test]
fn other_publics_and_polynomials_are_rejected(rt: HostRuntime) {
    let (mut store, mut proof) = proved(&rt, FIRST);
    same(&rt, status_on(&rt, &mut store, "[34]", &proof), 2);
    turn(&mut proof, 40);
    same(&rt, status_on(&rt, &mut store, "[33]", &proof), 2);
}

// The words, the values, the status and the line.
static UNPROVED: [(&str, &[u64], u8, &str); 7] = [
    (PROVE, &[1, 34, 3, 11], 2, "unsatisfied: constraint 0\n"),
    (PROVE, &[2, 33, 3, 11], 2, "unsatisfied: wire 0\n"),
    (PROVE, &[1, 33, 3], 1, "refused: 3 values for 4 wires\n"),
    (
        "public m.r1cs m.wtns m.proof",
        &[2, 33, 3, 11],
        2,
        "unsatisfied: wire 0\n",
    ),
    (
        "audit m.r1cs bad.json m.wtns",
        &[1],
        1,
        "refused: I5 BadNumber public 1\n",
    ),
    (
        "audit m.r1cs m.r1cs m.wtns",
        &[1],
        1,
        "refused: I1 NotJson\n",
    ),
    (
        "audit m.r1cs good.json m.proof",
        &[1],
        1,
        "refused: m.proof: no such file\n",
    ),
];

#[test]
fn what_is_not_proved_or_audited_is_said(rt: HostRuntime) {
    for (words, values, status, line) in UNPROVED.as_slice() {
        let mut store = store(&rt, &R1CS, values);
        put_file(rt.alloc(), &mut store, "bad.json", b"[1, 2.5]").expect(&rt, "memory");
        put_file(rt.alloc(), &mut store, "good.json", b"[\"33\"]").expect(&rt, "memory");
        says(&rt, words, &mut store, *status, line);
        same(&rt, store.files.contains_key("m.proof"), false);
    }
}

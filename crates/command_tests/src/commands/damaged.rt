// Files and proofs that are cut, or changed in some bytes.
use super::checks::{begins, says};
use super::proving::{FIRST, PROVE, is_rejected, proved, turn};
use super::{R1CS, store};
use command_samples::{put_file, wtns};
use out_io::MemStore;
use std::process::Abort;
use std::sync::Wait;
use std::thread::Threads;

// `check` refuses these bytes under the name for this fault.
fn is_refused<R: Threads + Wait + AllocGlobal + Sync + Abort>(
    rt: &R,
    store: &mut MemStore,
    name: &str,
    bytes: &[u8],
    fault: &str,
) {
    put_file(rt.alloc(), store, name, bytes).expect(rt, "memory");
    let line = format!(in rt.alloc(); "refused: {name}: {fault}\n").expect(rt, "memory");
    says(rt, "check m.r1cs m.wtns", store, 1, line.as_str());
}

// The file under the name is cut behind each of its bytes but the last.
fn is_cut<R: Threads + Wait + AllocGlobal + Sync + Abort>(rt: &R, name: &str, whole: &[u8]) {
    let mut store = store(rt, &R1CS, &[1, 33, 3, 11]);
    for length in 0..whole.len() {
        let part = whole.get(..length).expect(rt, "a part");
        let fault = format!(in rt.alloc(); "F3 Truncated at byte {length}").expect(rt, "memory");
        is_refused(rt, &mut store, name, part, fault.as_str());
    }
}

#[test]
fn files_are_cut_at_every_byte(rt: HostRuntime) {
    is_cut(&rt, "m.r1cs", &R1CS);
    let values = wtns(rt.alloc(), &[1, 33, 3, 11]).expect(&rt, "memory");
    is_cut(&rt, "m.wtns", values.as_slice());
}

// The first byte that is changed, the bytes that stand there then, and the fault.
type Change = (usize, &'static [u8], &'static str);

static OF_VALUES: [Change; 9] = [
    (0, b"x", "F1 Magic at byte 0"),
    (4, &[1, 0, 0, 0], "F2 Version at byte 4"),
    (24, &[32, 0, 0, 0], "F6 WrongPrime at byte 24"),
    (28, &[7, 0, 0, 0, 0, 0, 0, 0], "F6 WrongPrime at byte 28"),
    (36, &[5, 0, 0, 0], "F9 BadCount at byte 52"),
    (36, &[1, 0, 16, 0], "F11 Limit at byte 36"),
    (40, &[1, 0, 0, 0], "F5 SectionTwice at byte 40"),
    (40, &[9, 0, 0, 0], "F4 SectionMissing at byte 84"),
    (
        60,
        &[1, 0, 0, 0, 0xff, 0xff, 0xff, 0xff],
        "F7 ValueTooLarge at byte 60",
    ),
];

static OF_CONSTRAINTS: [Change; 6] = [
    (36, &[3, 0, 0, 0], "F9 BadCount at byte 36"),
    (36, &[1, 0, 16, 0], "F11 Limit at byte 36"),
    (60, &[2, 0, 0, 0], "F9 BadCount at byte 124"),
    (60, &[0, 0, 0, 0], "F9 BadCount at byte 76"),
    (60, &[1, 0, 16, 0], "F11 Limit at byte 60"),
    (108, &[2, 0, 0, 0], "F9 BadCount at byte 124"),
];

// Each change of the file under the name is refused for its fault.
fn are_refused<R: Threads + Wait + AllocGlobal + Sync + Abort>(
    rt: &R,
    name: &str,
    whole: &[u8],
    changes: &[Change],
) {
    let mut store = store(rt, &R1CS, &[1, 33, 3, 11]);
    for (at, bytes, fault) in changes {
        let mut changed = Vec::from_slice(rt.alloc(), whole).expect(rt, "memory");
        for (index, byte) in bytes.iter().enumerate() {
            if let Some(place) = changed.get_mut(at.saturating_add(index)) {
                *place = *byte;
            }
        }
        is_refused(rt, &mut store, name, changed.as_slice(), fault);
    }
}

#[test]
fn files_are_changed(rt: HostRuntime) {
    are_refused(&rt, "m.r1cs", &R1CS, &OF_CONSTRAINTS);
    let values = wtns(rt.alloc(), &[1, 33, 3, 11]).expect(&rt, "memory");
    are_refused(&rt, "m.wtns", values.as_slice(), &OF_VALUES);
}

// The places in a proof at which it is cut or changed.
const STEP: usize = 97;

// The proof that the words make is cut before each such place.
fn is_malformed<R: Threads + Wait + AllocGlobal + Sync + Abort>(rt: &R, words: &str) {
    let (mut store, proof) = proved(rt, words);
    for step in 0..proof.len().div_ceil(STEP) {
        let length = step.saturating_mul(STEP);
        let part = proof.get(..length).expect(rt, "a part");
        let line = format!(in rt.alloc(); "rejected: 2 Malformed at byte {length}\n");
        let line = line.expect(rt, "memory");
        is_rejected(rt, &mut store, "[33]", part, line.as_str());
    }
}

// The lowest bit at each such place is turned, one at a time.
fn is_false<R: Threads + Wait + AllocGlobal + Sync + Abort>(rt: &R, words: &str) {
    let (mut store, mut proof) = proved(rt, words);
    put_file(rt.alloc(), &mut store, "m.json", b"[33]").expect(rt, "memory");
    for step in 0..proof.len().div_ceil(STEP) {
        let at = step.saturating_mul(STEP);
        turn(&mut proof, at);
        put_file(rt.alloc(), &mut store, "m.proof", proof.as_slice()).expect(rt, "memory");
        begins(
            rt,
            "audit m.r1cs m.json m.proof",
            &mut store,
            2,
            "rejected: ",
        );
        turn(&mut proof, at);
    }
}

#[test]
fn proofs_of_version_1_are_cut_and_changed(rt: HostRuntime) {
    is_malformed(&rt, FIRST);
    is_false(&rt, FIRST);
}

#[test]
fn proofs_of_version_2_are_cut_and_changed(rt: HostRuntime) {
    is_malformed(&rt, PROVE);
    is_false(&rt, PROVE);
}

use crate::checks::same;
use gold_field::Constraint;
use iden_files::{
    FileCause, FileFault, first_failing, read_r1cs, read_wtns, write_r1cs, write_wtns,
};
use std::alloc::Global;
use std::process::Abort;

// c <== a*b: four wires, one constraint.
static R1CS: [u8; 168] = [
    0x72, 0x31, 0x63, 0x73, 0x01, 0x00, 0x00, 0x00, 0x03, 0x00, 0x00, 0x00, 0x01, 0x00, 0x00, 0x00,
    0x28, 0x00, 0x00, 0x00, 0x00, 0x00, 0x00, 0x00, 0x08, 0x00, 0x00, 0x00, 0x01, 0x00, 0x00, 0x00,
    0xff, 0xff, 0xff, 0xff, 0x04, 0x00, 0x00, 0x00, 0x01, 0x00, 0x00, 0x00, 0x00, 0x00, 0x00, 0x00,
    0x02, 0x00, 0x00, 0x00, 0x04, 0x00, 0x00, 0x00, 0x00, 0x00, 0x00, 0x00, 0x01, 0x00, 0x00, 0x00,
    0x02, 0x00, 0x00, 0x00, 0x30, 0x00, 0x00, 0x00, 0x00, 0x00, 0x00, 0x00, 0x01, 0x00, 0x00, 0x00,
    0x02, 0x00, 0x00, 0x00, 0x00, 0x00, 0x00, 0x00, 0xff, 0xff, 0xff, 0xff, 0x01, 0x00, 0x00, 0x00,
    0x03, 0x00, 0x00, 0x00, 0x01, 0x00, 0x00, 0x00, 0x00, 0x00, 0x00, 0x00, 0x01, 0x00, 0x00, 0x00,
    0x01, 0x00, 0x00, 0x00, 0x00, 0x00, 0x00, 0x00, 0xff, 0xff, 0xff, 0xff, 0x03, 0x00, 0x00, 0x00,
    0x20, 0x00, 0x00, 0x00, 0x00, 0x00, 0x00, 0x00, 0x00, 0x00, 0x00, 0x00, 0x00, 0x00, 0x00, 0x00,
    0x01, 0x00, 0x00, 0x00, 0x00, 0x00, 0x00, 0x00, 0x02, 0x00, 0x00, 0x00, 0x00, 0x00, 0x00, 0x00,
    0x03, 0x00, 0x00, 0x00, 0x00, 0x00, 0x00, 0x00,
];

// The values 1, 33, 3, 11.
static WTNS: [u8; 84] = [
    0x77, 0x74, 0x6e, 0x73, 0x02, 0x00, 0x00, 0x00, 0x02, 0x00, 0x00, 0x00, 0x01, 0x00, 0x00, 0x00,
    0x10, 0x00, 0x00, 0x00, 0x00, 0x00, 0x00, 0x00, 0x08, 0x00, 0x00, 0x00, 0x01, 0x00, 0x00, 0x00,
    0xff, 0xff, 0xff, 0xff, 0x04, 0x00, 0x00, 0x00, 0x02, 0x00, 0x00, 0x00, 0x20, 0x00, 0x00, 0x00,
    0x00, 0x00, 0x00, 0x00, 0x01, 0x00, 0x00, 0x00, 0x00, 0x00, 0x00, 0x00, 0x21, 0x00, 0x00, 0x00,
    0x00, 0x00, 0x00, 0x00, 0x03, 0x00, 0x00, 0x00, 0x00, 0x00, 0x00, 0x00, 0x0b, 0x00, 0x00, 0x00,
    0x00, 0x00, 0x00, 0x00,
];

// The bytes with those from `at` on replaced.
fn with_bytes<R: AllocGlobal + Abort>(rt: &R, bytes: &[u8], at: usize, new: &[u8]) -> Vec<u8> {
    let mut changed = Vec::from_slice(rt.alloc(), bytes).expect(rt, "memory");
    for (place, byte) in changed.iter_mut().skip(at).zip(new) {
        *place = *byte;
    }
    changed
}

fn put(rt: &impl Abort, bytes: &mut Vec<u8>, more: &[u8]) {
    bytes.extend_from_slice(more).expect(rt, "memory");
}

fn r1cs_fault(alloc: Global, bytes: &[u8]) -> Option<(FileCause, u64)> {
    match read_r1cs(alloc, bytes) {
        Err(FileFault::At { cause, offset }) => Some((cause, offset)),
        _ => None,
    }
}

fn wtns_fault(alloc: Global, bytes: &[u8]) -> Option<(FileCause, u64)> {
    match read_wtns(alloc, bytes) {
        Err(FileFault::At { cause, offset }) => Some((cause, offset)),
        _ => None,
    }
}

fn r1cs_with<R: AllocGlobal + Abort>(rt: &R, at: usize, new: &[u8]) -> Option<(FileCause, u64)> {
    let bytes = with_bytes(rt, &R1CS, at, new);
    r1cs_fault(rt.alloc(), &bytes)
}

fn wtns_with<R: AllocGlobal + Abort>(rt: &R, at: usize, new: &[u8]) -> Option<(FileCause, u64)> {
    let bytes = with_bytes(rt, &WTNS, at, new);
    wtns_fault(rt.alloc(), &bytes)
}

#[test]
fn a_file_is_read_and_written_back(rt: HostRuntime) {
    let file = read_r1cs(rt.alloc(), &R1CS).ok().expect(&rt, "a file");
    same(&rt, (file.wires, file.label_count), (4, 4));
    same(
        &rt,
        (file.outputs, file.public_inputs, file.private_inputs),
        (1, 0, 2),
    );
    let written = write_r1cs(rt.alloc(), &file).expect(&rt, "memory");
    same(&rt, written.as_slice(), R1CS.as_slice());
}

#[test]
fn values_are_read_and_written_back(rt: HostRuntime) {
    let values = read_wtns(rt.alloc(), &WTNS).ok().expect(&rt, "values");
    same(&rt, values.len(), 4);
    same(&rt, values.get(1).map(|value| value.get()), Some(33));
    let written = write_wtns(rt.alloc(), &values).expect(&rt, "memory");
    same(&rt, written.as_slice(), WTNS.as_slice());
}

// Which constraint the values of the second file don't satisfy.
fn failing(alloc: Global, r1cs: &[u8], wtns: &[u8]) -> Option<Option<u32>> {
    let file = read_r1cs(alloc, r1cs).ok()?;
    let values = read_wtns(alloc, wtns).ok()?;
    if values.len() == file.wires as usize {
        Some(first_failing(&file, &values))
    } else {
        None
    }
}

#[test]
fn the_failing_constraint_is_named(rt: HostRuntime) {
    let other = with_bytes(&rt, &WTNS, 60, &[34]);
    same(&rt, failing(rt.alloc(), &R1CS, &WTNS), Some(None));
    same(&rt, failing(rt.alloc(), &R1CS, &other), Some(Some(0)));
}

#[test]
fn cut_files_are_truncated(rt: HostRuntime) {
    for k in 0..R1CS.len() {
        let fault = r1cs_fault(rt.alloc(), &R1CS[..k]);
        same(&rt, fault, Some((FileCause::Truncated, k as u64)));
    }
    for k in 0..WTNS.len() {
        let fault = wtns_fault(rt.alloc(), &WTNS[..k]);
        same(&rt, fault, Some((FileCause::Truncated, k as u64)));
    }
}

// A place, the number of 4 bytes that is put there, and the cause and place of the refusal.
type Row = (usize, u32, FileCause, u64);

static R1CS_REFUSALS: [Row; 8] = [
    (80, 4, FileCause::WireOutOfRange, 80),
    (24, 32, FileCause::WrongPrime, 24),
    (36, 3, FileCause::BadCount, 36),
    (36, 1048577, FileCause::Limit, 36),
    (60, 2, FileCause::BadCount, 124),
    (60, 0, FileCause::BadCount, 76),
    (60, 1048577, FileCause::Limit, 60),
    (108, 2, FileCause::BadCount, 124),
];

static WTNS_REFUSALS: [Row; 8] = [
    (0, 0x736e_7457, FileCause::Magic, 0),
    (4, 1, FileCause::Version, 4),
    (24, 32, FileCause::WrongPrime, 24),
    (28, 2, FileCause::WrongPrime, 28),
    (36, 5, FileCause::BadCount, 52),
    (36, 1048577, FileCause::Limit, 36),
    (40, 1, FileCause::SectionTwice, 40),
    (40, 9, FileCause::SectionMissing, 84),
];

#[test]
fn changed_files_are_refused(rt: HostRuntime) {
    for (at, new, cause, offset) in R1CS_REFUSALS.as_slice() {
        let fault = r1cs_with(&rt, *at, &new.to_le_bytes());
        same(&rt, fault, Some((*cause, *offset)));
    }
    for (at, new, cause, offset) in WTNS_REFUSALS.as_slice() {
        let fault = wtns_with(&rt, *at, &new.to_le_bytes());
        same(&rt, fault, Some((*cause, *offset)));
    }
}

#[test]
fn the_order_is_no_value(rt: HostRuntime) {
    let order = [1, 0, 0, 0, 0xff, 0xff, 0xff, 0xff];
    let fault = r1cs_with(&rt, 84, &order);
    same(&rt, fault, Some((FileCause::ValueTooLarge, 84)));
    let fault = wtns_with(&rt, 60, &order);
    same(&rt, fault, Some((FileCause::ValueTooLarge, 60)));
}

// The file with one more section of this type, whose body is empty.
fn with_section<R: AllocGlobal + Abort>(rt: &R, kind: u8) -> Vec<u8> {
    let mut bytes = with_bytes(rt, &R1CS, 8, &[4]);
    put(rt, &mut bytes, &[kind, 0, 0, 0, 0, 0, 0, 0, 0, 0, 0, 0]);
    bytes
}

#[test]
fn sections_in_any_order(rt: HostRuntime) {
    let mut turned = Vec::new(rt.alloc());
    put(&rt, &mut turned, &R1CS[..12]);
    put(&rt, &mut turned, &R1CS[124..]);
    put(&rt, &mut turned, &R1CS[64..124]);
    put(&rt, &mut turned, &R1CS[12..64]);
    assert!(rt; read_r1cs(rt.alloc(), &turned).is_ok());
}

#[test]
fn other_sections(rt: HostRuntime) {
    let unknown = with_section(&rt, 9);
    assert!(rt; read_r1cs(rt.alloc(), &unknown).is_ok());
    let gates = with_section(&rt, 4);
    same(
        &rt,
        r1cs_fault(rt.alloc(), &gates),
        Some((FileCause::CustomGates, 168)),
    );
}

#[test]
fn nothing_stands_behind_the_last_section(rt: HostRuntime) {
    let mut tail = with_bytes(&rt, &R1CS, 0, &[]);
    put(&rt, &mut tail, &[0]);
    same(
        &rt,
        r1cs_fault(rt.alloc(), &tail),
        Some((FileCause::BadCount, 168)),
    );
}

// A section of one constraint over four wires, whose A is
// 2 * w[3] + 5 * w[1] - 2 * w[3] + 0 * w[2] + 6 * w[1], and whose B and C are 0.
static REPEATING: [u8; 84] = [
    2, 0, 0, 0, 72, 0, 0, 0, 0, 0, 0, 0, 5, 0, 0, 0, // the head, and five terms
    3, 0, 0, 0, 2, 0, 0, 0, 0, 0, 0, 0, // 2 * w[3]
    1, 0, 0, 0, 5, 0, 0, 0, 0, 0, 0, 0, // 5 * w[1]
    3, 0, 0, 0, 0xff, 0xff, 0xff, 0xff, 0xfe, 0xff, 0xff, 0xff, // -2 * w[3]
    2, 0, 0, 0, 0, 0, 0, 0, 0, 0, 0, 0, // 0 * w[2]
    1, 0, 0, 0, 6, 0, 0, 0, 0, 0, 0, 0, // 6 * w[1]
    0, 0, 0, 0, 0, 0, 0, 0, // no terms, twice
];

// A is 11 * w[1] alone.
fn is_sum(rt: &impl Abort, constraint: &Constraint) {
    let terms = constraint.a.as_slice();
    same(rt, terms.len(), 1);
    for term in terms {
        same(rt, (term.signal, term.coef.get()), (1, 11));
    }
}

#[test]
fn repeated_wires_add_up(rt: HostRuntime) {
    let mut bytes = with_bytes(&rt, &R1CS[..64], 8, &[2]);
    put(&rt, &mut bytes, &REPEATING);
    let file = read_r1cs(rt.alloc(), &bytes).ok().expect(&rt, "a file");
    same(&rt, file.constraints().len(), 1);
    for constraint in file.constraints() {
        is_sum(&rt, constraint);
    }
}

// c = a * b and c = 33, as another tool may write them. The bytes were put together by hand, by the
// pages of the format: the sizes stand behind the constraints, and the terms of the second one are
// out of order, with two that cancel.
static OTHER: [u8; 228] = [
    0x72, 0x31, 0x63, 0x73, 1, 0, 0, 0, 3, 0, 0, 0, // three sections
    2, 0, 0, 0, 0x6c, 0, 0, 0, 0, 0, 0, 0, 1, 0, 0, 0, // constraints, one term
    2, 0, 0, 0, 0, 0, 0, 0, 0xff, 0xff, 0xff, 0xff, // A: -w[2]
    1, 0, 0, 0, 3, 0, 0, 0, 1, 0, 0, 0, 0, 0, 0, 0, // B: w[3]
    1, 0, 0, 0, 1, 0, 0, 0, 0, 0, 0, 0, 0xff, 0xff, 0xff, 0xff, // C: -w[1]
    0, 0, 0, 0, 0, 0, 0, 0, 4, 0, 0, 0, // A and B of the second one are 0, and C has four terms
    3, 0, 0, 0, 5, 0, 0, 0, 0, 0, 0, 0, // 5 * w[3]
    0, 0, 0, 0, 0x21, 0, 0, 0, 0, 0, 0, 0, // 33 * w[0]
    3, 0, 0, 0, 0xfc, 0xff, 0xff, 0xff, 0xfe, 0xff, 0xff, 0xff, // -5 * w[3]
    1, 0, 0, 0, 0, 0, 0, 0, 0xff, 0xff, 0xff, 0xff, // -w[1]
    1, 0, 0, 0, 0x28, 0, 0, 0, 0, 0, 0, 0, // sizes: the type, the length
    8, 0, 0, 0, 1, 0, 0, 0, 0xff, 0xff, 0xff, 0xff, // 8 bytes, and the prime
    4, 0, 0, 0, 1, 0, 0, 0, 0, 0, 0, 0, 2, 0, 0, 0, // 4 wires, 1 output, 0 and 2 inputs
    4, 0, 0, 0, 0, 0, 0, 0, 2, 0, 0, 0, // 4 labels, 2 constraints
    3, 0, 0, 0, 0x20, 0, 0, 0, 0, 0, 0, 0, // labels: the type, the length
    0, 0, 0, 0, 0, 0, 0, 0, 1, 0, 0, 0, 0, 0, 0, 0, // 0, 1
    2, 0, 0, 0, 0, 0, 0, 0, 3, 0, 0, 0, 0, 0, 0, 0, // 2, 3
];

// The values 1, c, a and b.
fn values<R: AllocGlobal + Abort>(rt: &R, c: u8, a: u8, b: u8) -> Vec<u8> {
    let mut bytes = with_bytes(rt, &WTNS, 60, &[c]);
    for (at, value) in [(68, a), (76, b)] {
        bytes = with_bytes(rt, &bytes, at, &[value]);
    }
    bytes
}

#[test]
fn a_file_of_another_form_is_read(rt: HostRuntime) {
    let rows = [
        ((33, 3, 11), None),
        ((34, 3, 11), Some(0)),
        ((36, 3, 12), Some(1)),
    ];
    for ((c, a, b), fails) in rows {
        let wtns = values(&rt, c, a, b);
        same(&rt, failing(rt.alloc(), &OTHER, &wtns), Some(fails));
    }
}

// A chain of 130 squares, of which each side fills two rows: from 34 on, the next value is the
// square of the last one, plus 12 and how many squares came before.

use crate::audits::audited;
use crate::checks::same;
use crate::proving::{have_digests, proof_of};
use crate::samples::bytes_of;
use gold_field::{Gold, P};
use lig_proof::{Verdict, Version};
use std::process::Abort;

// The bytes before the constraints: 133 wires, of which 1 is the last value and 2 has the 12.
const HEAD: &str = "\
    723163730100000003000000010000002800000000000000080000000100\
    0000ffffffff850000000100000001000000010000008500000000000000\
    82000000020000008424000000000000";

fn put_term(rt: &impl Abort, out: &mut Vec<u8>, wire: u32, value: u64) {
    out.extend_from_slice(&wire.to_le_bytes())
        .expect(rt, "memory");
    out.extend_from_slice(&value.to_le_bytes())
        .expect(rt, "memory");
}

fn put_terms(rt: &impl Abort, out: &mut Vec<u8>, terms: &[(u32, u64)]) {
    let count = u32::try_from(terms.len()).unwrap_or(0);
    out.extend_from_slice(&count.to_le_bytes())
        .expect(rt, "memory");
    for (wire, value) in terms {
        put_term(rt, out, *wire, *value);
    }
}

// The constraint that the value after square `i` has to satisfy.
fn put_square(rt: &impl Abort, out: &mut Vec<u8>, i: u32) {
    let value = i.saturating_add(3);
    put_terms(rt, out, &[(value, 1)]);
    put_terms(rt, out, &[(value, 1)]);
    match i {
        0 => put_terms(rt, out, &[(2, P - 1), (4, 1)]),
        129 => put_terms(rt, out, &[(0, P - 129), (1, 1), (2, P - 1)]),
        _ => {
            let next = i.saturating_add(4);
            put_terms(rt, out, &[(0, P - u64::from(i)), (2, P - 1), (next, 1)]);
        }
    }
}

// The bytes of the circuit, in hexadecimal.
fn circuit<R: AllocGlobal + Abort>(rt: &R) -> String {
    let mut out = bytes_of(rt, HEAD);
    for i in 0..130u32 {
        put_square(rt, &mut out, i);
    }
    out.extend_from_slice(b"\x03\0\0\0\x28\x04\0\0\0\0\0\0")
        .expect(rt, "memory");
    for wire in 0..133u64 {
        out.extend_from_slice(&wire.to_le_bytes())
            .expect(rt, "memory");
    }
    hex::encode(rt.alloc(), &out).expect(rt, "memory")
}

// The value after square `i`.
fn after(value: Gold, i: u32) -> Gold {
    let more = Gold::from_wide(u128::from(i.saturating_add(12)));
    value.mul(value).add(more)
}

// The values of the wires.
fn values<R: AllocGlobal + Abort>(rt: &R) -> Vec<u64> {
    let mut wires = Vec::from_slice(rt.alloc(), &[1, 0, 12]).expect(rt, "memory");
    let mut value = Gold::from_wide(34);
    for i in 0..130u32 {
        wires.push(value.get()).expect(rt, "memory");
        value = after(value, i);
    }
    if let Some(last) = wires.get_mut(1) {
        *last = value.get();
    }
    wires
}

#[test]
fn proofs_of_a_chain(rt: HostRuntime) {
    let circuit = circuit(&rt);
    let wires = values(&rt);
    have_digests(
        &rt,
        circuit.as_str(),
        &wires,
        [0; 32],
        "becb3b4ad1a6ec657fd4b9680d10b6444aaa2bbebf8930d5ed81836da477c2d7",
        "bc9ab983d5c48bcad2cf12c566affc405469b01e0a028049363eff0fdb937bbc",
    );
}

#[test]
fn the_end_of_a_chain_is_public(rt: HostRuntime) {
    let circuit = circuit(&rt);
    let wires = values(&rt);
    let proof = proof_of(&rt, Version::Two, circuit.as_str(), &wires, [0; 32]);
    let publics = [6458686830391219762, 12];
    let verdict = audited(&rt, circuit.as_str(), &publics, &proof);
    same(&rt, verdict, Verdict::Accepted);
}

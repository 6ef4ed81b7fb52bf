use crate::checks::same;
use crate::proving::{proof_of, wrong_product, wrong_side};
use crate::samples::{PRODUCT, bytes_of, file_of, put};
use field_tests::golds;
use gold_field::P;
use lig_auditor::audit;
use lig_proof::{Verdict, Version};
use std::process::Abort;
use std::thread::Threads;

/// The verdict on bytes that are offered as a proof of a circuit, with these public values.
pub fn audited<R: Threads + AllocGlobal + Sync + Abort>(
    rt: &R,
    circuit: &str,
    publics: &[u64],
    proof: &[u8],
) -> Verdict {
    let bytes = bytes_of(rt, circuit);
    let file = file_of(rt, circuit);
    let values = golds(rt.alloc(), publics).expect(rt, "memory");
    audit(rt, &bytes, &file, &values, proof).expect(rt, "memory")
}

/// Ends the test unless this is the verdict on them as a proof of `c <== a * b`.
pub fn has_verdict<R: Threads + AllocGlobal + Sync + Abort>(
    rt: &R,
    publics: &[u64],
    proof: &[u8],
    verdict: Verdict,
) {
    same(rt, audited(rt, PRODUCT, publics, proof), verdict);
}

fn true_proof<R: Threads + AllocGlobal + Sync + Abort>(rt: &R, version: Version) -> Vec<u8> {
    proof_of(rt, version, PRODUCT, &[1, 33, 3, 11], [0; 32])
}

#[test]
fn true_proofs_are_accepted(rt: HostRuntime) {
    let first = true_proof(&rt, Version::One);
    has_verdict(&rt, &[33], &first, Verdict::Accepted);
    let second = true_proof(&rt, Version::Two);
    has_verdict(&rt, &[33], &second, Verdict::Accepted);
}

#[test]
fn other_public_values_are_rejected(rt: HostRuntime) {
    let proof = true_proof(&rt, Version::One);
    has_verdict(&rt, &[], &proof, Verdict::PublicCount);
    has_verdict(&rt, &[34], &proof, Verdict::BadPath { opened: 0 });
}

// A prover whose values of a side aren't what the wires give: only their sum shows it.
#[test]
fn a_wrong_side_is_rejected(rt: HostRuntime) {
    let first = wrong_side(&rt, Version::One);
    has_verdict(&rt, &[33], &first, Verdict::LinearSum);
    let second = wrong_side(&rt, Version::Two);
    has_verdict(&rt, &[33], &second, Verdict::LinearSum);
}

#[test]
fn a_wrong_product_is_rejected(rt: HostRuntime) {
    let first = wrong_product(&rt, Version::One);
    has_verdict(&rt, &[34], &first, Verdict::QuadZero);
    let second = wrong_product(&rt, Version::Two);
    has_verdict(&rt, &[34], &second, Verdict::QuadZero);
}

// Where changed bytes are no proof.
fn check_lengths<R: Threads + AllocGlobal + Sync + Abort>(rt: &R, version: Version) {
    let mut proof = true_proof(rt, version);
    let whole = proof.len() as u64;
    proof.push(0).expect(rt, "memory");
    has_verdict(rt, &[33], &proof, Verdict::Malformed { offset: whole });
    proof.truncate(100);
    has_verdict(rt, &[33], &proof, Verdict::Malformed { offset: 100 });
}

#[test]
fn other_lengths_are_malformed(rt: HostRuntime) {
    check_lengths(&rt, Version::One);
    check_lengths(&rt, Version::Two);
}

// The verdict on a true proof with other bytes in its first column.
fn has_changed<R: Threads + AllocGlobal + Sync + Abort>(
    rt: &R,
    version: Version,
    new: &[u8],
    verdict: Verdict,
) {
    let mut proof = true_proof(rt, version);
    put(&mut proof, 18472, new);
    has_verdict(rt, &[33], &proof, verdict);
}

// A value of the field's order or more.
#[test]
fn words_past_the_field_are_malformed(rt: HostRuntime) {
    let order = P.to_le_bytes();
    let malformed = Verdict::Malformed { offset: 18472 };
    has_changed(&rt, Version::One, &order, malformed);
    has_changed(&rt, Version::Two, &order, malformed);
}

#[test]
fn changed_columns_lead_astray(rt: HostRuntime) {
    let astray = Verdict::BadPath { opened: 0 };
    has_changed(&rt, Version::One, &[0; 8], astray);
    has_changed(&rt, Version::Two, &[0; 8], astray);
}

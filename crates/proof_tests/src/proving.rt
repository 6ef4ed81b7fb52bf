ghost use Rattle.std.specs.Prelude.{◌≡◌, IsTrue, length};
ghost use Rattle.iden_files.specs.File.{InLimits};

use crate::checks::same;
use crate::samples::{BITS, EMPTY, PRODUCT, bytes_of, file_of};
use field_tests::golds;
use gold_field::{Gold, P};
use iden_files::R1cs;
use items::Items;
use lig_layout::Vectors;
use lig_proof::Version;
use lig_prover::{ProveFault, prove, prove_any_as, prove2};
use sha2::{Digest, Sha256};
use std::process::Abort;
use std::thread::Threads;

// The bytes 1 to 32.
static COUNTING: [u8; 32] = *b"\x01\x02\x03\x04\x05\x06\x07\x08\x09\x0a\x0b\x0c\x0d\x0e\x0f\x10\
    \x11\x12\x13\x14\x15\x16\x17\x18\x19\x1a\x1b\x1c\x1d\x1e\x1f\x20";

fn proof_from<R: Threads + AllocGlobal + Sync>(
    rt: &R,
    version: Version,
    bytes: &[u8],
    file: &R1cs,
    w: &[Gold],
    seed: [u8; 32],
) -> Result<Vec<u8>, ProveFault>
    requires { InLimits file.now }
{
    match version {
        Version::One => prove(rt, bytes, file, w, seed),
        Version::Two => prove2(rt, bytes, file, w, seed),
    }
}

/// The proof in this version that the values satisfy the circuit with these bytes.
pub fn proof_of<R: Threads + AllocGlobal + Sync + Abort>(
    rt: &R,
    version: Version,
    circuit: &str,
    values: &[u64],
    seed: [u8; 32],
) -> Vec<u8> {
    let bytes = bytes_of(rt, circuit);
    let file = file_of(rt, circuit);
    let w = golds(rt.alloc(), values).expect(rt, "memory");
    let proof = proof_from(rt, version, &bytes, &file, &w, seed);
    proof.ok().expect(rt, "a proof")
}

/// Ends the test unless the proof's SHA-256 is this, in hexadecimal.
pub fn has_digest<R: AllocGlobal + Abort>(rt: &R, proof: &[u8], digest: &str) {
    let hash = Sha256::digest(proof);
    let text = hex::encode(rt.alloc(), &hash).expect(rt, "memory");
    same(rt, text.as_str(), digest);
}

/// The same of the proofs in version 1 and 2 that the values satisfy a circuit.
pub fn have_digests<R: Threads + AllocGlobal + Sync + Abort>(
    rt: &R,
    circuit: &str,
    values: &[u64],
    seed: [u8; 32],
    first: &str,
    second: &str,
) {
    has_digest(
        rt,
        &proof_of(rt, Version::One, circuit, values, seed),
        first,
    );
    has_digest(
        rt,
        &proof_of(rt, Version::Two, circuit, values, seed),
        second,
    );
}

#[test]
fn proofs_of_product(rt: HostRuntime) {
    have_digests(
        &rt,
        PRODUCT,
        &[1, 33, 3, 11],
        [0; 32],
        "0856014b7707037fe30a786bc9aa14d263054ab18eb61397d8c9131cc57a9056",
        "12c222895d2db68a9243d4fc41f2d1f92779f2870322f1c354ce1e8dbd85cbee",
    );
}

#[test]
fn proofs_of_product_by_another_seed(rt: HostRuntime) {
    have_digests(
        &rt,
        PRODUCT,
        &[1, 33, 3, 11],
        COUNTING,
        "9666a776b37323e7de779f6de3f1d2bec4022f3cdd1582d87eb1df99bea7e321",
        "3428e68dd7b98c63ceaaa31dee7fe02b7d2813813ced9ec8086d6bc97feb75ea",
    );
}

static BIT_VALUES: [u64; 14] = [1, 1, 3, 5, 254, 0, 1, 1, 1, 1, 1, 1, 1, 0];

#[test]
fn proofs_of_bits(rt: HostRuntime) {
    have_digests(
        &rt,
        BITS,
        &BIT_VALUES,
        [0; 32],
        "f4be4f1eda9232c1c8bdd5543fc35585604fcbffe5fa25a15c464e0bc6a1bd70",
        "2df551f19d14cb92f0e8ec480ed7ac06b45ea68169b26e8a419948e56b80bdf5",
    );
}

#[test]
fn proofs_of_bits_by_another_seed(rt: HostRuntime) {
    have_digests(
        &rt,
        BITS,
        &BIT_VALUES,
        COUNTING,
        "b4f4323a6f1c9f6b34881ff3c80ee60c5bd91e2d0ac34dd5fcc2d063da0a3bec",
        "0589948cbfe28cd97e6c3cbc8f8ebf51dd9cfdd348dacf07b49b7e1f07b497bc",
    );
}

#[test]
fn proofs_of_one_wire(rt: HostRuntime) {
    have_digests(
        &rt,
        EMPTY,
        &[1],
        [0; 32],
        "909f99806b24e412339f12acbca426284702f2306112a4e76518e9be318763a7",
        "f7b005abdcebaf6b25152c56692c3a967e19233f6ae64ab98a3213e46cd1ab66",
    );
}

#[test]
fn proofs_of_one_wire_by_another_seed(rt: HostRuntime) {
    have_digests(
        &rt,
        EMPTY,
        &[1],
        COUNTING,
        "a5fd31cfed1bfbfef686734a65547ca38547091fe445ea8311b88fa227efa698",
        "a81e0c4b624afd983ced604bd550d27f0d5f41330af7932565a8afc19851f488",
    );
}

// One number.
fn one<R: AllocGlobal + Abort>(rt: &R, number: u64) -> Items<Gold> {
    Items::of(golds(rt.alloc(), &[number]).expect(rt, "memory"))
}

// The values of the sides of `c <== a * b`, which are one number each.
fn sides<R: AllocGlobal + Abort>(rt: &R, w: &[u64], x: u64, y: u64, z: u64) -> Vectors {
    Vectors {
        w: Items::of(golds(rt.alloc(), w).expect(rt, "memory")),
        x: one(rt, x),
        y: one(rt, y),
        z: one(rt, z),
    }
}

// Whether there are as many values as the file has wires and constraints.
fn fit(file: &R1cs, vectors: &Vectors) -> bool
    ensures w { IsTrue result → length vectors.now.w ≡ file.now.wires }
    ensures x { IsTrue result → length vectors.now.x ≡ length file.now.constraints }
    ensures y { IsTrue result → length vectors.now.y ≡ length file.now.constraints }
    ensures z { IsTrue result → length vectors.now.z ≡ length file.now.constraints }
{
    let count = file.constraints().len();
    vectors.w.len() == file.wires as usize
        && vectors.x.len() == count
        && vectors.y.len() == count
        && vectors.z.len() == count
}

// The proof for values of the sides that need not hold.
fn proof_for<R: Threads + AllocGlobal + Sync + Abort>(
    rt: &R,
    version: Version,
    vectors: &Vectors,
) -> Vec<u8> {
    let bytes = bytes_of(rt, PRODUCT);
    let file = file_of(rt, PRODUCT);
    assert!(rt; fit(&file, vectors));
    prove_any_as(rt, version, &bytes, &file, vectors, [0; 32]).expect(rt, "memory")
}

/// A proof of version 1 or 2 whose left side isn't what the wires give: 1 is added to it, and the
/// product is right.
pub fn wrong_side<R: Threads + AllocGlobal + Sync + Abort>(rt: &R, version: Version) -> Vec<u8> {
    let vectors = sides(rt, &[1, 33, 3, 11], P - 2, 11, P - 22);
    proof_for(rt, version, &vectors)
}

/// One of a product that is wrong, 34 for 3 times 11.
pub fn wrong_product<R: Threads + AllocGlobal + Sync + Abort>(rt: &R, version: Version) -> Vec<u8> {
    let vectors = sides(rt, &[1, 34, 3, 11], P - 3, 11, P - 34);
    proof_for(rt, version, &vectors)
}

#[test]
fn proofs_of_a_wrong_side(rt: HostRuntime) {
    has_digest(
        &rt,
        &wrong_side(&rt, Version::One),
        "1b2f97c9417378dafce2de69aa75b241ddfeacf7b1cab3a6a23daf92f08d0d62",
    );
    has_digest(
        &rt,
        &wrong_side(&rt, Version::Two),
        "a67023d1f1058350022bb944cc64236b397846abb8431d622efae6e3af936b64",
    );
}

#[test]
fn proofs_of_a_wrong_product(rt: HostRuntime) {
    has_digest(
        &rt,
        &wrong_product(&rt, Version::One),
        "6eea14e57023a481873cb79d0c2bd897796af3bd48145158229a8665b0debbbd",
    );
    has_digest(
        &rt,
        &wrong_product(&rt, Version::Two),
        "2cf9b26577f1576b10f1ee97c4b7a42c958ea4c6a8f9bdcaf1b39e0ed9161c3c",
    );
}

// What is said of values that are refused.
fn refusal<R: Threads + AllocGlobal + Sync + Abort>(rt: &R, values: &[u64]) -> Option<ProveFault> {
    let file = file_of(rt, PRODUCT);
    let w = golds(rt.alloc(), values).expect(rt, "memory");
    prove(rt, &[], &file, &w, [0; 32]).err()
}

#[test]
fn values_that_are_refused(rt: HostRuntime) {
    let few = ProveFault::WrongLength { has: 3, wants: 4 };
    same(&rt, refusal(&rt, &[2, 33, 3]), Some(few));
    same(
        &rt,
        refusal(&rt, &[2, 34, 3, 11]),
        Some(ProveFault::WireZero),
    );
    let failing = ProveFault::Unsatisfied { constraint: 0 };
    same(&rt, refusal(&rt, &[1, 34, 3, 11]), Some(failing));
}

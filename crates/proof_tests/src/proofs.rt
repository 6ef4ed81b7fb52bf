ghost use Rattle.std.specs.Prelude.{◌≡◌, length};
ghost use Rattle.lig_proof.specs.ProofBytes.{opened_count};

use crate::checks::same;
use crate::samples::{PRODUCT, bytes_of, put};
use field_tests::gold;
use gold_field::{Gold, P};
use lig_layout::Params;
use lig_proof::{
    Challenges, Proof, ProofFault, Relation, challenges, queries, read_proof, write_proof,
};
use std::alloc::Global;
use std::process::Abort;

/// The sizes for a file of four wires and one constraint.
pub const SMALL: Params = Params {
    l: 128,
    depth: 10,
    wire_rows: 1,
    constraint_rows: 1,
    rows: 4,
};

const ROOT: &str = "8a4c74101543d4fcecc077b30e6d7658152f2ba7f8aa68acb2d87dc1159ae9a1";

const FIRST: &str = "f8f72fc23bdeb83a54302bca8bc6e4b21942792c1f90200180f22b323f91eb44";

// The first of the numbers that are drawn from that key, of each kind.
static ALPHA: [u64; 8] = [
    1425510092024237162,
    5607104503221049881,
    11052051793607602968,
    5361158079796333595,
    2253861206807968990,
    12355069382853632511,
    7177887416754908636,
    15676468362065654624,
];

static EQUATIONS: [u64; 4] = [
    11420618950501235445,
    7265414238954819002,
    699751162042768146,
    3471826760560595480,
];

static PRODUCTS: [u64; 2] = [1726566576185662779, 14326607648165731867];

fn hash_of(rt: &impl Abort, text: &str) -> [u8; 32] {
    let mut hash = [0u8; 32];
    hex::decode_to_slice(text, &mut hash)
        .ok()
        .expect(rt, "32 bytes in hexadecimal");
    hash
}

// The values begin with these numbers.
fn begin(rt: &impl Abort, values: &[Gold], numbers: &[u64]) {
    assert!(rt; values.len() >= numbers.len());
    for (value, number) in values.iter().zip(numbers) {
        same(rt, value.get(), *number);
    }
}

fn drawn<R: AllocGlobal + Abort>(rt: &R) -> Challenges {
    let file = bytes_of(rt, PRODUCT);
    let root = hash_of(rt, ROOT);
    let relation = Relation::of(&file);
    challenges(rt.alloc(), &SMALL, &relation, &[gold(33)], 5, &root).expect(rt, "memory")
}

/// The first key of the true proofs of that file, for the seed of zeros.
pub fn first_key<R: AllocGlobal + Abort>(rt: &R) -> [u8; 32] {
    drawn(rt).first
}

#[test]
fn numbers_from_the_first_key(rt: HostRuntime) {
    let drawn = drawn(&rt);
    let first = hex::encode(rt.alloc(), &drawn.first).expect(&rt, "memory");
    same(&rt, first.as_str(), FIRST);
    same(&rt, drawn.r.len(), 10);
    begin(&rt, drawn.alpha.as_slice(), &ALPHA);
    begin(&rt, drawn.r.as_slice(), &EQUATIONS);
    begin(&rt, drawn.rho.as_slice(), &PRODUCTS);
}

// The columns that are opened, for a key and three values of polynomials.
fn opened<R: AllocGlobal + Abort>(rt: &R) -> Vec<u32> {
    let first = hash_of(rt, FIRST);
    let polys = [gold(1), gold(2), gold(P - 1)];
    queries(rt.alloc(), &SMALL, &first, &polys).expect(rt, "memory")
}

#[test]
fn columns_from_the_second_key(rt: HostRuntime) {
    let opened = opened(&rt);
    same(&rt, opened.len(), 96);
    let eight = [278u32, 655, 454, 826, 673, 628, 1010, 474];
    same(&rt, opened.get(..8), Some(&eight));
    same(&rt, opened.last().copied(), Some(218));
}

// A proof's bytes: the values count up, and so do the bytes of each hash.
fn sample<R: AllocGlobal + Abort>(rt: &R) -> Vec<u8> {
    let mut bytes = Vec::from_slice(rt.alloc(), b"ligg\x01\0\0\0").expect(rt, "memory");
    put_hash(rt, &mut bytes, 7);
    put_values(rt, &mut bytes, 18 * 128);
    for _ in 0..96 {
        put_opened(rt, &mut bytes);
    }
    bytes
}

// An opened column with its path.
fn put_opened(rt: &impl Abort, bytes: &mut Vec<u8>) {
    put_values(rt, bytes, 10);
    for level in 0..10u8 {
        put_hash(rt, bytes, level);
    }
}

fn put_hash(rt: &impl Abort, bytes: &mut Vec<u8>, from: u8) {
    for i in 0..32u8 {
        bytes.push(from.wrapping_add(i)).expect(rt, "memory");
    }
}

fn put_values(rt: &impl Abort, bytes: &mut Vec<u8>, count: u64) {
    for value in 0..count {
        let word = value.to_le_bytes();
        bytes.extend_from_slice(&word).expect(rt, "memory");
    }
}

/// The proof that these bytes are, in version 1.
pub fn read<R: AllocGlobal + Abort>(rt: &R, bytes: &[u8]) -> Proof
    ensures columns { length result.columns ≡ opened_count }
    ensures paths { length result.paths ≡ opened_count }
{
    let proof = read_proof(rt.alloc(), &SMALL, bytes).ok();
    proof.expect(rt, "a proof")
}

#[test]
fn written_as_it_was_read(rt: HostRuntime) {
    let bytes = sample(&rt);
    same(&rt, bytes.len(), 56872);
    let proof = read(&rt, &bytes);
    let written = write_proof(rt.alloc(), &proof).expect(&rt, "memory");
    same(&rt, written.as_slice(), bytes.as_slice());
}

#[test]
fn each_part_is_read_from_its_place(rt: HostRuntime) {
    let bytes = sample(&rt);
    let proof = read(&rt, &bytes);
    same(&rt, proof.root[0], 7);
    same(&rt, proof.polys.len(), 2304);
    same(&rt, proof.columns.len(), 96);
    same(&rt, last_byte(&proof), Some(40));
    same(&rt, last_length(&proof), Some(10));
}

// How many values the last column has.
fn last_length(proof: &Proof) -> Option<usize> {
    let column = proof.columns.get(95)?;
    Some(column.len())
}

// The last byte of the first path.
fn last_byte(proof: &Proof) -> Option<u8> {
    let hash = proof.paths.get(0)?.get(9)?;
    Some(hash[31])
}

// Where bytes are no proof.
fn malformed_at(alloc: Global, bytes: &[u8]) -> Option<u64> {
    match read_proof(alloc, &SMALL, bytes) {
        Err(ProofFault::Malformed { offset }) => Some(offset),
        _ => None,
    }
}

// The same of a proof with other bytes from a place on.
fn changed_at<R: AllocGlobal + Abort>(rt: &R, place: usize, new: &[u8]) -> Option<u64> {
    let mut bytes = sample(rt);
    put(&mut bytes, place, new);
    malformed_at(rt.alloc(), &bytes)
}

static HEADS: [(&[u8], u64); 4] = [
    (b"LIGG\x01\0\0", 7),
    (b"LIGG\x02\0\0\0", 0),
    (b"ligg\x02\0\0\0", 4),
    (b"ligg\x01\0\0\0", 8),
];

#[test]
fn heads_are_malformed_at_their_first_wrong_byte(rt: HostRuntime) {
    for (bytes, offset) in HEADS.as_slice() {
        same(&rt, malformed_at(rt.alloc(), bytes), Some(*offset));
    }
}

#[test]
fn values_are_below_p(rt: HostRuntime) {
    let order = P.to_le_bytes();
    same(&rt, changed_at(&rt, 40, &order), Some(40));
    same(&rt, changed_at(&rt, 18464, &order), Some(18464));
    same(&rt, changed_at(&rt, 18472, &[255; 32]), Some(18472));
    same(&rt, changed_at(&rt, 8, &[255; 32]), None);
}

#[test]
fn proofs_have_one_length(rt: HostRuntime) {
    let mut bytes = sample(&rt);
    bytes.push(0).expect(&rt, "memory");
    same(&rt, malformed_at(rt.alloc(), &bytes), Some(56872));
    bytes.truncate(56871);
    same(&rt, malformed_at(rt.alloc(), &bytes), Some(56871));
}

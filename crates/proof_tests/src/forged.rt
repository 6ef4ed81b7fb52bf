//! False proofs of `c <== a * b`: a coefficient of what is sent is another, and the columns that
//! are opened are those that are drawn for it. So the matrix is encoded anew.

ghost use Rattle.std.specs.Prelude.{◌≡◌, ◌<◌, ◌≤◌, ◌*◌, ◌^◌, All, length};
ghost use Rattle.gold_ntt.specs.Transform.{IsLength};
ghost use Rattle.lig_merkle.specs.Shared.{AreOpened};

use crate::audits::has_verdict;
use crate::checks::same;
use crate::proofs::{SMALL, first_key, read};
use crate::proving::{has_digest, proof_of};
use crate::samples::PRODUCT;
use field_tests::{fill, gold};
use gold_field::{Gold, P};
use gold_ntt::{Coset, intt};
use items::Items;
use lig_merkle::{Hash, Tree, leaf};
use lig_proof::{Proof, Verdict, Version, draw, opened_once, queries};
use rand_chacha::ChaCha20Rng;
use rand_core::SeedableRng;
use std::process::Abort;
use std::thread::Threads;

fn at(values: &[Gold], place: usize) -> Gold {
    values.get(place).copied().unwrap_or(Gold::ZERO)
}

// So many of the numbers that a seed of zeros gives, from one on.
fn drawn<R: AllocGlobal + Abort>(rt: &R, from: u32, count: u32) -> Vec<Gold> {
    let mut words = ChaCha20Rng::from_seed([0; 32]);
    words.set_word_pos(2 * u128::from(from));
    let mut numbers = Vec::new(rt.alloc());
    draw(&mut numbers, &mut words, count).expect(rt, "memory");
    numbers
}

// So many coefficients of `base + (X^128 - 1) * mask`.
fn masked<R: AllocGlobal + Abort>(
    rt: &R,
    base: &[Gold],
    mask: &[Gold],
    count: usize,
) -> Items<Gold> {
    let mut coefs = Vec::new(rt.alloc());
    for i in 0..count {
        let shifted = if i < 128 {
            Gold::ZERO
        } else {
            at(mask, i - 128)
        };
        let coef = at(base, i).add(shifted.sub(at(mask, i)));
        coefs.push(coef).expect(rt, "memory");
    }
    Items::of(coefs)
}

// The polynomial that has these values at the powers of the root, and then zeros.
fn interpolate(room: &mut [Gold], values: &[u64])
    requires { IsLength (length room.old) }
{
    fill(room, values);
    intt(room);
}

// The polynomial of a row of values, under its mask.
fn row<R: AllocGlobal + Abort>(rt: &R, values: &[u64], from: u32) -> Items<Gold> {
    let mut room = [Gold::ZERO; 128];
    interpolate(&mut room, values);
    masked(rt, &room, &drawn(rt, from, 128), 256)
}

// A mask of the test of the linear system.
fn linear_mask<R: AllocGlobal + Abort>(rt: &R, from: u32) -> Items<Gold> {
    let others = drawn(rt, from, 383);
    let first = at(&others, 127).neg().add(at(&others, 255).neg());
    let mut mask = Vec::new(rt.alloc());
    mask.push(first).expect(rt, "memory");
    mask.extend_from_slice(&others).expect(rt, "memory");
    Items::of(mask)
}

// The encoded matrix: the rows, and the masks of the tests, in the order of a column.
fn codewords<R: AllocGlobal + Abort>(rt: &R) -> Vec<Items<Gold>> {
    let mut all = Vec::new(rt.alloc());
    put(rt, &mut all, row(rt, &[1, 33, 3, 11], 0));
    put(rt, &mut all, row(rt, &[P - 3], 128));
    put(rt, &mut all, row(rt, &[11], 256));
    put(rt, &mut all, row(rt, &[P - 33], 384));
    put(rt, &mut all, Items::of(drawn(rt, 512, 256)));
    put(rt, &mut all, Items::of(drawn(rt, 768, 256)));
    put(rt, &mut all, linear_mask(rt, 1024));
    put(rt, &mut all, linear_mask(rt, 1407));
    put(rt, &mut all, masked(rt, &[], &drawn(rt, 1790, 384), 512));
    put(rt, &mut all, masked(rt, &[], &drawn(rt, 2174, 384), 512));
    all
}

// Appends a polynomial's values at the code points.
fn put<R: AllocGlobal + Abort>(rt: &R, all: &mut Vec<Items<Gold>>, polynomial: Items<Gold>) {
    let mut room = [Gold::ZERO; 1024];
    for (place, coef) in room.iter_mut().zip(polynomial.as_slice()) {
        *place = *coef;
    }
    let points = Coset::of(rt.alloc(), 10).expect(rt, "memory");
    points.transform(&mut room, 1024);
    let values = Items::from_slice(rt.alloc(), &room).expect(rt, "memory");
    all.push(values).expect(rt, "memory");
}

fn column<R: AllocGlobal + Abort>(rt: &R, codewords: &[Items<Gold>], place: usize) -> Vec<Gold> {
    let mut values = Vec::new(rt.alloc());
    for codeword in codewords {
        let value = at(codeword.as_slice(), place);
        values.push(value).expect(rt, "memory");
    }
    values
}

fn tree_over<R: AllocGlobal + Abort>(rt: &R, codewords: &[Items<Gold>], depth: u32) -> Tree
    requires { depth < 32 }
    ensures depth { result.depth ≡ depth }
    ensures leaves { length result.hashes ≡ 2 ^ depth }
{
    let count = 1usize << depth;
    let mut leaves = Vec::new(rt.alloc());
    for place in 0..count {
        let hash = leaf(&column(rt, codewords, place));
        leaves.push(hash).expect(rt, "memory");
    }
    Tree::make(rt.alloc(), &leaves).expect(rt, "memory")
}

fn put_values(rt: &impl Abort, bytes: &mut Vec<u8>, values: &[Gold]) {
    for value in values {
        let word = value.get().to_le_bytes();
        bytes.extend_from_slice(&word).expect(rt, "memory");
    }
}

fn put_hashes(rt: &impl Abort, bytes: &mut Vec<u8>, hashes: &[Hash]) {
    for hash in hashes {
        bytes.extend_from_slice(hash).expect(rt, "memory");
    }
}

// Each column with its path.
fn put_alone<R: AllocGlobal + Abort>(
    rt: &R,
    bytes: &mut Vec<u8>,
    tree: &Tree,
    codewords: &[Items<Gold>],
    drawn: &[u32],
)
    requires { All (λ i. i < length tree.now.hashes) drawn.now }
{
    for place in drawn {
        put_values(rt, bytes, &column(rt, codewords, *place as usize));
        let path = tree.path(rt.alloc(), *place).expect(rt, "memory");
        put_hashes(rt, bytes, &path);
    }
}

// Each column once, and then the nodes that they share.
fn put_shared<R: AllocGlobal + Abort>(
    rt: &R,
    bytes: &mut Vec<u8>,
    tree: &Tree,
    codewords: &[Items<Gold>],
    opened: &[u32],
)
    requires { AreOpened tree.now.depth opened.now }
{
    for place in opened {
        put_values(rt, bytes, &column(rt, codewords, *place as usize));
    }
    let nodes = tree.nodes(rt.alloc(), opened).expect(rt, "memory");
    put_hashes(rt, bytes, &nodes);
}

// The coefficients of a true proof, with numbers added to some of them.
fn changed<R: AllocGlobal + Abort>(rt: &R, proof: &Proof, changes: &[(usize, u64)]) -> Vec<Gold> {
    let mut polys = Vec::from_slice(rt.alloc(), proof.polys.as_slice()).expect(rt, "memory");
    for (place, added) in changes {
        if let Some(coef) = polys.get_mut(*place) {
            *coef = coef.add(gold(*added));
        }
    }
    polys
}

// What stands in front of the columns.
fn front<R: AllocGlobal + Abort>(rt: &R, version: Version, root: &Hash, polys: &[Gold]) -> Vec<u8> {
    let head = match version {
        Version::One => b"ligg\x01\0\0\0",
        Version::Two => b"ligg\x02\0\0\0",
    };
    let mut bytes = Vec::from_slice(rt.alloc(), head).expect(rt, "memory");
    bytes.extend_from_slice(root).expect(rt, "memory");
    put_values(rt, &mut bytes, polys);
    bytes
}

// The columns that are drawn for these coefficients.
fn drawn_for<R: AllocGlobal + Abort>(rt: &R, polys: &[Gold]) -> Vec<u32>
    ensures count { length result.items ≡ 96 }
    ensures below { All (λ i. i < 1024) result.items }
{
    let first = first_key(rt);
    queries(rt.alloc(), &SMALL, &first, polys).expect(rt, "memory")
}

// The same, each once.
fn each_once<R: AllocGlobal + Abort>(rt: &R, drawn: &[u32]) -> Vec<u32>
    requires some { 0 < length drawn.now }
    requires below { All (λ i. i < 1024) drawn.now }
    ensures { AreOpened 10 result.items }
{
    opened_once(rt.alloc(), &SMALL, drawn).expect(rt, "memory")
}

// The false proof with these numbers added to coefficients.
fn forged<R: Threads + AllocGlobal + Sync + Abort>(
    rt: &R,
    version: Version,
    changes: &[(usize, u64)],
) -> Vec<u8> {
    let honest = read(
        rt,
        &proof_of(rt, Version::One, PRODUCT, &[1, 33, 3, 11], [0; 32]),
    );
    let polys = changed(rt, &honest, changes);
    let codewords = codewords(rt);
    let tree = tree_over(rt, &codewords, 10);
    same(rt, tree.root(), honest.root);
    let drawn = drawn_for(rt, &polys);
    let mut bytes = front(rt, version, &honest.root, &polys);
    match version {
        Version::One => put_alone(rt, &mut bytes, &tree, &codewords, &drawn),
        Version::Two => {
            let opened = each_once(rt, &drawn);
            put_shared(rt, &mut bytes, &tree, &codewords, &opened);
        }
    }
    bytes
}

// Ends the test unless these are the digests of the false proofs in version 1 and 2, and this is
// the verdict on both.
fn are_found<R: Threads + AllocGlobal + Sync + Abort>(
    rt: &R,
    changes: &[(usize, u64)],
    first: &str,
    second: &str,
    verdict: Verdict,
) {
    let proof = forged(rt, Version::One, changes);
    has_digest(rt, &proof, first);
    has_verdict(rt, &[33], &proof, verdict);
    let proof = forged(rt, Version::Two, changes);
    has_digest(rt, &proof, second);
    has_verdict(rt, &[33], &proof, verdict);
}

// The six polynomials begin at 0, 256, 640, 1152, 1408 and 1792.
#[test]
fn changed_row_tests_are_rejected(rt: HostRuntime) {
    are_found(
        &rt,
        &[(3, 1)],
        "9ec214ffe5bbff562fd9a415ebaf9d618a8681f9c85330f03a6f6b9f5f85f33e",
        "344bda7f1a29aaf93d146f0f34aae77226aa41aa2c35d95b4c884a2f8fcb9c90",
        Verdict::Proximity,
    );
}

#[test]
fn changed_sums_are_rejected(rt: HostRuntime) {
    are_found(
        &rt,
        &[(1408, 1)],
        "64267b49bcde0126e0a3e27d62d08e6157b63d637a1b65f59f14c3d8a4986078",
        "8815e2c4d17d66f4d3f5a50c463bc0acc2134c7e88ed385ab6ccedec3c07e74e",
        Verdict::LinearSum,
    );
}

// The values at the message points have the same sum.
#[test]
fn changed_system_tests_are_rejected(rt: HostRuntime) {
    are_found(
        &rt,
        &[(257, 1)],
        "8cec4bee303022b6c002b1c8075395bc9beed66a2b4d48717ac101c8173a9dc3",
        "d33ecfeabd29a4e78b00de3b67befdd9c8bcab6605962a1cbb3e4da9196147ef",
        Verdict::LinearColumn,
    );
}

#[test]
fn changed_zeros_are_rejected(rt: HostRuntime) {
    are_found(
        &rt,
        &[(1797, 1)],
        "dd070b4420fd80311521ebc9e8a3278cddda46f62016bee6e5e54401796933ab",
        "f51d37599c1498c7a742ce4f2dfcf4f8aeabc168fdf1bd4014295dd62b6b37ae",
        Verdict::QuadZero,
    );
}

// The values at the message points are 0 still.
#[test]
fn changed_product_tests_are_rejected(rt: HostRuntime) {
    are_found(
        &rt,
        &[(645, 1), (773, P - 1)],
        "cdc7f339475e48e11ebbcac2da006231595e8cf7e7546ed637c5f16b5c791e2e",
        "1c6e18f8c042d9d3ba9ca7542d3cbaee1a65e2ed40a4242c9b835d6062afddd6",
        Verdict::QuadColumn,
    );
}

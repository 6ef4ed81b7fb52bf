ghost use Rattle.std.specs.Prelude.{◌≡◌, ◌<◌, ◌^◌, length, vec_len};
ghost use Rattle.lig_merkle.specs.Shared.{AreOpened};

use crate::checks::same;
use crate::numbers::{gold, golds};
use lig_merkle::{Hash, Tree, leaf, root_of, root_of_many, shared};
use std::process::Abort;

const EIGHT: &str = "395bbca6997cb818846dcfa25e7d49f02e6cc5bcccb39351d639ecd266a02797";

fn hash_of<R: AllocGlobal + Abort>(rt: &R, words: &[u64]) -> String {
    let column = golds(rt.alloc(), words).expect(rt, "memory");
    hex::encode(rt.alloc(), &leaf(&column)).expect(rt, "memory")
}

// The tree over the columns of one value each, 0 to `2^depth - 1`.
fn tree_of<R: AllocGlobal + Abort>(rt: &R, depth: u32) -> Tree
    requires { depth < 32 }
    ensures depth { result.depth ≡ depth }
    ensures leaves { length result.hashes ≡ 2 ^ depth }
{
    let count = 1u64 << depth;
    let mut leaves = Vec::new(rt.alloc());
    for number in 0..count {
        leaves.push(leaf(&[gold(number)])).expect(rt, "memory");
    }
    Tree::make(rt.alloc(), &leaves).expect(rt, "memory")
}

fn root_text<R: AllocGlobal + Abort>(rt: &R, depth: u32) -> String
    requires { depth < 32 }
{
    let tree = tree_of(rt, depth);
    hex::encode(rt.alloc(), &tree.root()).expect(rt, "memory")
}

// The hashes of the columns 0, 1 2 3, and p - 1, 0, 2^32.
static LEAVES: [(&[u64], &str); 3] = [
    (
        &[0],
        "3e7077fd2f66d689e0cee6a7cf5b37bf2dca7c979af356d0a31cbc5c85605c7d",
    ),
    (
        &[1, 2, 3],
        "b3a0fa95548c1be9924b8f1758ef14309cce9d8d991553f85ef8057fb1d505ca",
    ),
    (
        &[18446744069414584320, 0, 4294967296],
        "dd7bb10074cc674d02d60996afa259aeb603e49b02595f36e16fa0160c799e1c",
    ),
];

#[test]
fn leaves_hash_words_low_byte_first(rt: HostRuntime) {
    for (column, hash) in LEAVES.as_slice() {
        let found = hash_of(&rt, column);
        same(&rt, found.as_str(), *hash);
    }
}

// The roots of the trees over 1, 2, 4, 8 and 16 leaves.
static ROOTS: [&str; 5] = [
    "3e7077fd2f66d689e0cee6a7cf5b37bf2dca7c979af356d0a31cbc5c85605c7d",
    "656675c027a9afdd7b83f5dfef7fca33883f07039f8a9a67c23188aa5b7f2143",
    "9656f8043dfd7640896c81198d4fd347e03483cce7a1bfb081cd1fa3f7f916b1",
    EIGHT,
    "2d442bdcfbe1fdf00c78bbc256d5e9390adf2b230845c086c7ce4bde58a4f961",
];

#[test]
fn roots(rt: HostRuntime) {
    for depth in 0..5u32 {
        let found = root_text(&rt, depth);
        same(&rt, found.as_str(), ROOTS[depth as usize]);
    }
}

// The hashes of a path, from the leaf up.
fn text_of<R: AllocGlobal + Abort>(rt: &R, path: &[[u8; 32]]) -> String {
    let mut bytes = Vec::new(rt.alloc());
    for sibling in path {
        bytes.extend_from_slice(sibling).expect(rt, "memory");
    }
    hex::encode(rt.alloc(), &bytes).expect(rt, "memory")
}

// The path of leaf 5 of 8, and where it leads.
#[test]
fn path_of_a_leaf(rt: HostRuntime) {
    let tree = tree_of(&rt, 3);
    let path = tree.path(rt.alloc(), 5).expect(&rt, "memory");
    let text = text_of(&rt, &path);
    same(
        &rt,
        text.as_str(),
        "47b5bab475da2f3f91ed6fd44b895fe8e74024319ed2b9bc0fb0c46b3a605a75\
         3fb6c7c29dd8a307953654cfa671f57d2c66bf944c43ab3e9b155bddaadc8df8\
         9656f8043dfd7640896c81198d4fd347e03483cce7a1bfb081cd1fa3f7f916b1",
    );
    let root = root_of(&leaf(&[gold(5)]), 5, &path);
    let found = hex::encode(rt.alloc(), &root).expect(&rt, "memory");
    same(&rt, found.as_str(), EIGHT);
}

// The leaves at these places.
fn leaves_at<R: AllocGlobal + Abort>(rt: &R, places: &[u32]) -> Vec<Hash>
    ensures { vec_len result ≡ length places.now }
{
    let mut leaves = Vec::new(rt.alloc());
    for place in places {
        let hash = leaf(&[gold(u64::from(*place))]);
        leaves.push(hash).expect(rt, "memory");
    }
    leaves
}

// With these leaves of 8 opened, so many nodes are shared, these, and they lead to the root.
fn share<R: AllocGlobal + Abort>(rt: &R, opened: &[u32], count: u32, text: &str)
    requires { AreOpened 3 opened.now }
{
    let found = shared(rt.alloc(), 3, opened).expect(rt, "memory");
    same(rt, found, count);
    let nodes = tree_of(rt, 3)
        .nodes(rt.alloc(), opened)
        .expect(rt, "memory");
    let spelled = text_of(rt, &nodes);
    same(rt, spelled.as_str(), text);
    let leaves = leaves_at(rt, opened);
    let root = root_of_many(rt.alloc(), 3, opened, &leaves, &nodes).expect(rt, "memory");
    let spelled_root = hex::encode(rt.alloc(), &root).expect(rt, "memory");
    same(rt, spelled_root.as_str(), EIGHT);
}

#[test]
fn nodes_that_leaves_share(rt: HostRuntime) {
    share(
        &rt,
        &[1, 2, 6],
        4,
        "3e7077fd2f66d689e0cee6a7cf5b37bf2dca7c979af356d0a31cbc5c85605c7d\
         5808c92598bb39efe08f1f64cba66bcce9d2e5e97ff3c2319e47b5c94817ad22\
         7dd1657a36197d82bfae690c3212ef9b3c0d7bbaef12ddb8ef8f9f30b2373185\
         33d138e6bbabc3270cdf24a7fd2a0edbf82f2092dc59204f119f1bbe58e7dd3a",
    );
    share(
        &rt,
        &[0, 7],
        4,
        "51b09ceccfbec44595dd4241e6e2a693d279b72c899c8f60ec63524fe58b1d4f\
         9ffc24afb6c7dd3c717d0b911151af02e3cdb5bf1e67f18ab69d52b65c1b601e\
         85b8941e16bf66ff2d11640e945cd7ced2464736a4d88f920c83aab045a6ec8e\
         33d138e6bbabc3270cdf24a7fd2a0edbf82f2092dc59204f119f1bbe58e7dd3a",
    );
    share(
        &rt,
        &[2, 3, 5],
        3,
        "47b5bab475da2f3f91ed6fd44b895fe8e74024319ed2b9bc0fb0c46b3a605a75\
         656675c027a9afdd7b83f5dfef7fca33883f07039f8a9a67c23188aa5b7f2143\
         3fb6c7c29dd8a307953654cfa671f57d2c66bf944c43ab3e9b155bddaadc8df8",
    );
}

//! The hashes of leaves and nodes.

ghost use Rattle.std.specs.Prelude.{◌≡◌};
ghost use Rattle.lig_merkle.specs.Merkle.{leaf_hash, node_hash, root_of, column_bytes};
ghost use Rattle.lig_merkle.specs.Hashing.{Absorbs};

use gold_field::Gold;
use sha2::{Digest, Sha256};

/// A SHA-256 digest.
pub type Hash = [u8; 32];

// What the messages of leaves and nodes begin with.
const LEAF: u8 = 0;

const NODE: u8 = 1;

/// The hash of the leaf that holds a column: of a byte 0, and the column's values as 8 bytes each,
/// low byte first. It takes no memory.
pub fn leaf(column: &[Gold]) -> Hash
    ensures { result ≡ leaf_hash column.now }
{
    let mut hasher = Sha256::new();
    hasher.update([LEAF]);
    absorb(&mut hasher, column);
    hasher.finalize()
}

/// Adds values to the message of a hasher, as 8 bytes each, low byte first. It takes no memory.
pub fn absorb(hasher: &mut Sha256, values: &[Gold])
    ensures { Absorbs (column_bytes values.now) hasher.old hasher.new }
{
    for value in values {
        hasher.update(value.get().to_le_bytes());
    }
}

// The hash of a node: of a byte 1, and the hashes of its two children.
pub fn node(left: &Hash, right: &Hash) -> Hash
    ensures { result ≡ node_hash left.now right.now }
{
    let mut hasher = Sha256::new();
    hasher.update([NODE]);
    hasher.update(left.as_slice());
    hasher.update(right.as_slice());
    hasher.finalize()
}

/// The root to which a path of siblings, from the leaf up, leads. Bit `k` of the index tells the
/// side on level `k`: where it is 0, the hash at hand is the left child. Higher bits don't count.
/// It takes no memory.
pub fn root_of(leaf: &Hash, index: u32, path: &[Hash]) -> Hash
    ensures { result ≡ root_of leaf.now index path.now }
{
    let mut at = index;
    let mut hash = *leaf;
    for sibling in path {
        hash = if at % 2 == 0 {
            node(&hash, sibling)
        } else {
            node(sibling, &hash)
        };
        at /= 2;
    }
    hash
}

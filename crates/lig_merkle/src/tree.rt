//! A tree with all its nodes.

ghost use Rattle.std.specs.Prelude.{◌≡◌, ◌<◌, ◌+◌, ◌*◌, ◌^◌, ◌++◌, ℕ, [], All, IfOk, OnOk, length};
ghost use Rattle.std.specs.Prelude.{map, drop, slice_index_or, vec_len};
ghost use Rattle.std.specs.Int.{IsPowerOfTwo};
ghost use Rattle.lig_merkle.specs.Merkle.{root_at, path_at};
ghost use Rattle.lig_merkle.specs.Nodes.{AreJoined, SameLeaves};
ghost use Rattle.lig_merkle.specs.Shared.{AreOpened, shared_nodes, shared_count};

use crate::hash::{Hash, node};
use crate::opened::{missing, parents, places, sibling_of};
use std::alloc::{AllocError, Global};
use std::marker::Model;

/// A Merkle tree over `2^depth` leaves.
#[derive(Drop)]
pub struct Tree {
    // The root at 1, the children of place `i` at `2 * i` and `2 * i + 1`, and so the leaves from
    // `2^depth` on. Nothing stands at 0.
    nodes: Vec<Hash>,
    depth: u32,
}

impl Model for Tree {
    ghost use Rattle.std.specs.Prelude.{◌^◌, drop};
    ghost use Rattle.lig_merkle.specs.Merkle.{Leaves};
    ghost use Rattle.lig_merkle.specs.Nodes.{IsTree};

    ghost Value = { Leaves };

    ghost view = { λ t. record { depth = t.depth; hashes = drop (2 ^ t.depth) t.nodes.items } };

    ghost invariant = { λ t. IsTree t.depth t.nodes.items };
}

impl Tree {
    /// The tree over these leaves.
    pub fn make(alloc: Global, leaves: &[Hash]) -> Result<Tree, AllocError>
        requires { IsPowerOfTwo (length leaves.now) }
        ensures leaves { IfOk result (λ t. t.hashes ≡ leaves.now) }
        ensures depth { IfOk result (λ t. length leaves.now ≡ 2 ^ t.depth) }
        ensures same_depth { IfOk result (λ t. (d : ℕ) → length leaves.now ≡ 2 ^ d → t.depth ≡ d) }
    {
        let mut nodes = placed(alloc, leaves)?;
        join(&mut nodes, leaves.len());
        Ok(Tree {
            nodes,
            depth: leaves.len().ilog2(),
        })
    }

    /// The root. It takes no memory.
    pub fn root(&self) -> Hash
        ensures { result ≡ root_at self.now.depth self.now.hashes }
    {
        self.nodes[1]
    }

    /// The siblings on the way from a leaf to the root, from the leaf up.
    pub fn path(&self, alloc: Global, index: u32) -> Result<Vec<Hash>, AllocError>
        requires { index < length self.now.hashes }
        ensures path { IfOk result (λ path. path.items
            ≡ path_at self.now.depth self.now.hashes index) }
        ensures count { IfOk result (λ path. vec_len path ≡ self.now.depth) }
    {
        let mut path = Vec::with_capacity(alloc, self.depth as usize)?;
        let mut at = self.nodes.len() / 2 + index as usize;
        for _ in 0..self.depth {
            path.push(self.nodes[sibling_of(at)])?;
            at /= 2;
        }
        Ok(path)
    }

    /// The nodes that lead from these leaves to the root, each once: level by level from the leaves
    /// up, and on each level by rising places.
    pub fn nodes(&self, alloc: Global, opened: &[u32]) -> Result<Vec<Hash>, AllocError>
        requires { AreOpened self.now.depth opened.now }
        ensures nodes { IfOk result (λ nodes. nodes.items
            ≡ shared_nodes self.now.depth (λ i. slice_index_or self.now.hashes i []) opened.now) }
        ensures count { IfOk result (λ nodes. vec_len nodes
            ≡ shared_count self.now.depth opened.now) }
    {
        let mut nodes = Vec::new(alloc);
        let mut known = places(alloc, opened)?;
        let mut first = self.nodes.len() / 2;
        for _ in 0..self.depth {
            put_level(&mut nodes, &self.nodes, first, &missing(alloc, &known)?)?;
            known = parents(alloc, &known)?;
            first /= 2;
        }
        Ok(nodes)
    }
}

// Appends the nodes at these places of the level that begins at `first`.
fn put_level(
    out: &mut Vec<Hash>,
    nodes: &[Hash],
    first: usize,
    level: &[usize],
) -> Result<(), AllocError>
    requires { All (λ place. first + place < length nodes.now) level.now }
    ensures { OnOk result (out.new.items
        ≡ out.old.items ++ map (λ place. slice_index_or nodes.now (first + place) []) level.now) }
{
    for place in level {
        out.push(nodes[first + *place])?;
    }
    Ok(())
}

// The leaves in their places; the places of the inner nodes are 0 as yet.
fn placed(alloc: Global, leaves: &[Hash]) -> Result<Vec<Hash>, AllocError>
    ensures length { IfOk result (λ nodes. length nodes.items ≡ 2 * length leaves.now) }
    ensures leaves { IfOk result (λ nodes. drop (length leaves.now) nodes.items ≡ leaves.now) }
{
    let count = leaves.len();
    let mut nodes = Vec::with_capacity(alloc, 2 * count)?;
    nodes.resize(count, [0; 32])?;
    nodes.extend_from_slice(leaves)?;
    Ok(nodes)
}

// Hashes each inner node, the last first, from its two children.
fn join(nodes: &mut [Hash], count: usize)
    requires { length nodes.old ≡ 2 * count }
    ensures length { length nodes.new ≡ 2 * count }
    ensures joined { AreJoined count nodes.new }
    ensures leaves { SameLeaves count nodes.old nodes.new }
{
    for step in 1..count {
        let at = count - step;
        nodes[at] = node(&nodes[2 * at], &nodes[2 * at + 1]);
    }
}

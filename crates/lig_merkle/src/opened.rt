//! Many leaves under one root, with the nodes that lead to it, each once.

ghost use Rattle.std.specs.Prelude.{◌≡◌, ◌≤◌, ◌<◌, ◌/◌, ◌^◌, ◌++◌, All, IfOk, IsTrue, length, map};
ghost use Rattle.std.specs.List.Sorted.{IsStrictlyIncreasing};
ghost use Rattle.lig_merkle.specs.Nodes.{sibling_of};
ghost use Rattle.lig_merkle.specs.Shared.{AreOpened, is_known, missing, parents, shared_count};
ghost use Rattle.lig_merkle.specs.Shared.{hash_at, parent_hashes, root_of_many};

use crate::hash::{Hash, node};
use std::alloc::{AllocError, Global};

/// How many nodes lead from these leaves of a tree of this depth to its root.
pub fn shared(alloc: Global, depth: u32, opened: &[u32]) -> Result<u32, AllocError>
    requires depth { depth ≤ 32 }
    requires opened { AreOpened depth opened.now }
    ensures { IfOk result (λ count. count ≡ shared_count depth opened.now) }
{
    let mut known = places(alloc, opened)?;
    let mut count = 0;
    for _ in 0..depth {
        count += missing(alloc, &known)?.len() as u32;
        known = parents(alloc, &known)?;
    }
    Ok(count)
}

/// The root to which these leaves of a tree lead, with the nodes that they share.
pub fn root_of_many(
    alloc: Global,
    depth: u32,
    opened: &[u32],
    leaves: &[Hash],
    nodes: &[Hash],
) -> Result<Hash, AllocError>
    requires depth { depth ≤ 32 }
    requires opened { AreOpened depth opened.now }
    requires leaves { length leaves.now ≡ length opened.now }
    requires nodes { length nodes.now ≡ shared_count depth opened.now }
    ensures { IfOk result (λ root. root ≡ root_of_many depth opened.now leaves.now nodes.now) }
{
    let mut known = places(alloc, opened)?;
    let mut hashes = Vec::from_slice(alloc, leaves)?;
    let mut left = nodes;
    for _ in 0..depth {
        let beside = missing(alloc, &known)?;
        let above = parents(alloc, &known)?;
        let (here, further) = left.split_at(beside.len());
        let level = Level {
            known: &known,
            hashes: &hashes,
            beside: &beside,
            nodes: here,
        };
        let joined = level.join(alloc, &above)?;
        hashes = joined;
        known = above;
        left = further;
    }
    Ok(hashes[0])
}

// A level: its known places and the missing ones, and the hashes of both.
#[derive(Clone, Copy)]
struct Level<'a> {
    known: &'a [usize],
    hashes: &'a [Hash],
    beside: &'a [usize],
    nodes: &'a [Hash],
}

impl Level<'_> {
    ghost use Rattle.lig_merkle.specs.Levels.{IsLevel};

    // The hashes of the places above.
    fn join(&self, alloc: Global, above: &[usize]) -> Result<Vec<Hash>, AllocError>
        requires level { IsLevel self.now }
        requires above { above.now ≡ parents self.now.known.now }
        ensures { IfOk result (λ v. v.items
            ≡ parent_hashes self.now.known.now self.now.hashes.now self.now.nodes.now) }
    {
        let mut joined = Vec::with_capacity(alloc, above.len())?;
        for place in above {
            let left = self.hash_at(2 * *place);
            let right = self.hash_at(2 * *place + 1);
            joined.push(node(&left, &right))?;
        }
        Ok(joined)
    }

    fn hash_at(&self, place: usize) -> Hash
        requires level { IsLevel self.now }
        requires found { IsTrue (is_known (self.now.known.now ++ self.now.beside.now) place) }
        ensures { let places = self.now.known.now ++ self.now.beside.now in
            result ≡ hash_at places (self.now.hashes.now ++ self.now.nodes.now) place }
    {
        if let Ok(at) = self.known.binary_search(&place) {
            return self.hashes[at];
        }
        match self.beside.binary_search(&place) {
            Ok(at) => self.nodes[at],
            Err(_) => unreachable!(),
        }
    }
}

/// Indices of leaves as places of the lowest level.
pub fn places(alloc: Global, opened: &[u32]) -> Result<Vec<usize>, AllocError>
    ensures { IfOk result (λ v. v.items ≡ opened.now) }
{
    opened.iter().map(|place| *place as usize).collect(alloc)
}

/// The siblings of known places that aren't known.
pub fn missing(alloc: Global, known: &[usize]) -> Result<Vec<usize>, AllocError>
    requires rising { IsStrictlyIncreasing known.now }
    requires small { All (λ place. place < 2 ^ 63) known.now }
    ensures { IfOk result (λ v. v.items ≡ missing known.now) }
{
    let mut beside = Vec::new(alloc);
    for place in known {
        let sibling = sibling_of(*place);
        if known.binary_search(&sibling).is_err() {
            beside.push(sibling)?;
        }
    }
    Ok(beside)
}

/// The places above, each once.
pub fn parents(alloc: Global, known: &[usize]) -> Result<Vec<usize>, AllocError>
    ensures { IfOk result (λ v. v.items ≡ parents known.now) }
{
    let mut above = halves(alloc, known)?;
    above.dedup();
    Ok(above)
}

fn halves(alloc: Global, places: &[usize]) -> Result<Vec<usize>, AllocError>
    ensures { IfOk result (λ v. v.items ≡ map (λ place. place / 2) places.now) }
{
    places.iter().map(|place| *place / 2).collect(alloc)
}

/// The place beside a place, under the same node.
pub fn sibling_of(place: usize) -> usize
    requires { place < 2 ^ 63 }
    ensures { result ≡ sibling_of place }
{
    if place % 2 == 0 { place + 1 } else { place - 1 }
}

// A graph from what its strands read and write.
ghost use Rattle.std.specs.Prelude.{◌≡◌, ℕ, ◌<◌, ◌≤◌, ◌↔◌, length, IfOk, IfSome, IsTrue};
ghost use Rattle.std.specs.Prelude.{slice_index, Err, MatchOption, ⊤};
ghost use Rattle.std.specs.Bool.{MatchBool};
ghost use Rattle.flow_core.specs.Drawn.{NamesOnce, OneWriter, IsDrawn, CanMark, IsMarked};
ghost use Rattle.flow_core.specs.Drawn.{IsClaimed};

use crate::graph::Graph;
use crate::linking::{Linked, link_all};
use items::Items;
use numbers::Numbers;
use std::alloc::{AllocError, Global};

/// Why there is no graph.
#[derive(Clone, Copy, PartialEq, Eq)]
pub enum GraphFault {
    /// A list names a cell twice or out of range, a cell is written twice, a strand reads what it
    /// or a later one writes, or there is not one list of each kind for each strand.
    Unfit,
    OutOfMemory,
}

impl From<AllocError> for GraphFault {
    ghost use Rattle.std.specs.Prelude.{◌≡◌};
    ghost use Rattle.flow_core.specs.declared.drawing.GraphFault.TheVariants.{OutOfMemory};

    ghost from_gives = { λ _ fault. fault ≡ OutOfMemory };

    fn from(_: AllocError) -> GraphFault {
        GraphFault::OutOfMemory
    }
}

/// Gives each cell of a list a tag, if each has a mark below the bound and stands in the list once.
fn mark(marks: &mut [u32], cells: &[u32], tag: u32, bound: u32) -> bool
    requires { bound ≤ tag }
    ensures { MatchBool result (IsMarked marks.old marks.new cells.now tag bound)
        (CanMark marks.old cells.now bound → ⊥) }
{
    for cell in cells {
        let at = *cell as usize;
        if at >= marks.len() || marks[at] >= bound {
            return false;
        }
        marks[at] = tag;
    }
    true
}

/// Whether each list names each cell once, and in range. The marks are blank before.
fn names_once(marks: &mut [u32], lists: &[Numbers]) -> bool
    requires blank { (c : ℕ) → slice_index marks.old c ≡ 0 }
    requires narrow { length lists.now < 4294967296 }
    ensures { IsTrue result ↔ NamesOnce (length marks.old) lists.now }
{
    for (strand, list) in lists.iter().enumerate() {
        let tag = strand as u32 + 1;
        if !mark(marks, list.as_slice(), tag, tag) {
            return false;
        }
    }
    true
}

/// Gives each cell one more than the strand that writes it as its mark, and leaves it 0 where none
/// does; false where a list names a cell twice or out of range, or two lists name one.
fn claim(marks: &mut [u32], writes: &[Numbers]) -> bool
    requires blank { (c : ℕ) → slice_index marks.old c ≡ 0 }
    requires narrow { length writes.now < 4294967296 }
    ensures { MatchBool result (IsClaimed marks.new writes.now)
        (NamesOnce (length marks.old) writes.now → OneWriter writes.now → ⊥) }
{
    for (strand, list) in writes.iter().enumerate() {
        if !mark(marks, list.as_slice(), strand as u32 + 1, 1) {
            return false;
        }
    }
    true
}

/// Whether what strands read names each cell once, and in range.
fn reads_once(alloc: Global, cells: u32, reads: &[Numbers]) -> Result<bool, AllocError>
    requires { length reads.now < 4294967296 }
    ensures { IfOk result (λ b. IsTrue b ↔ NamesOnce cells reads.now) }
{
    let mut marks = vec![in alloc; 0u32; cells as usize]?;
    let once = names_once(&mut marks, reads);
    Ok(once)
}

/// The marks of the strands that write the cells, if they can be had.
fn claimed(alloc: Global, cells: u32, writes: &[Numbers]) -> Result<Option<Vec<u32>>, AllocError>
    requires { length writes.now < 4294967296 }
    ensures some { IfOk result (λ o. IfSome o (λ marks. IsClaimed marks.items writes.now
        × (length marks.items ≡ cells))) }
    ensures none { IfOk result (λ o. MatchOption o (NamesOnce cells writes.now
        → OneWriter writes.now → ⊥) (λ _. ⊤)) }
{
    let mut marks = vec![in alloc; 0u32; cells as usize]?;
    if claim(&mut marks, writes) {
        Ok(Some(marks))
    } else {
        Ok(None)
    }
}

impl Graph {
    /// The graph of strands that read and write these cells, one list of each for each strand. Its
    /// predecessors and successors are found in one pass over the lists.
    pub fn new(
        alloc: Global,
        cells: u32,
        reads: Vec<Numbers>,
        writes: Vec<Numbers>,
    ) -> Result<Graph, GraphFault>
        ensures cells { IfOk result (λ g. g.cells ≡ cells) }
        ensures reads { IfOk result (λ g. g.reads ≡ reads.items) }
        ensures writes { IfOk result (λ g. g.writes ≡ writes.items) }
        ensures unfit { result ≡ Err GraphFault.Unfit → IsDrawn cells reads.items writes.items → ⊥ }
    {
        if reads.len() != writes.len() || reads.len() > u32::MAX as usize {
            return Err(GraphFault::Unfit);
        }
        let strands = reads.len() as u32;
        if !reads_once(alloc, cells, reads.as_slice())? {
            return Err(GraphFault::Unfit);
        }
        let Some(marks) = claimed(alloc, cells, writes.as_slice())? else {
            return Err(GraphFault::Unfit);
        };
        let Some(links) = link_all(alloc, marks.as_slice(), reads.as_slice())? else {
            return Err(GraphFault::Unfit);
        };
        let Linked { preds, succs } = links;
        Ok(Graph {
            strands,
            cells,
            reads: Items::of(reads),
            writes: Items::of(writes),
            preds: Items::of(preds),
            succs: Items::of(succs),
        })
    }
}

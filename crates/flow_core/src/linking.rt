// The predecessors and successors of strands, from what they read and who writes it.
ghost use Rattle.std.specs.Prelude.{◌≡◌, ℕ, ◌+◌, ◌-◌, ◌<◌, ◌≤◌, ◌↔◌, ◌++◌, List, [], ◌∷◌, length};
ghost use Rattle.std.specs.Prelude.{IfOk, IfSome, IsTrue, slice_index, slice_set, MatchOption};
ghost use Rattle.std.specs.Prelude.{replicate, ⊤};
ghost use Rattle.std.specs.List.Sorted.{IsStrictlyIncreasing};
ghost use Rattle.flow_core.specs.Counts.{IsIn, times};
ghost use Rattle.flow_core.specs.Drawn.{row, Links, LinksLate, AreLinked, IsLate};

use numbers::Numbers;
use std::alloc::{AllocError, Global};

/// Whether a list ends in a number.
fn ends_in(list: &[u32], strand: u32) -> bool
    ensures { IsTrue result ↔ ((0 < length list.now)
        × (slice_index list.now (length list.now - 1) ≡ strand)) }
{
    if list.is_empty() {
        return false;
    }
    list[list.len() - 1] == strand
}

/// Puts a number behind one of the lists.
fn push_at(lists: &mut [Numbers], at: u32, strand: u32) -> Result<(), AllocError>
    requires { at < length lists.old }
    ensures { IfOk result (λ _. lists.new ≡ slice_set lists.old at
        (row lists.old at ++ strand ∷ [])) }
{
    let list = &mut lists[at as usize];
    list.push(strand)?;
    Ok(())
}

/// Adds a strand to the successors of the strands that write what it reads, and gives those; None
/// where one of them has no smaller number.
fn link(
    alloc: Global,
    marks: &[u32],
    succs: &mut [Numbers],
    strand: u32,
    cells: &[u32],
) -> Result<Option<Numbers>, AllocError>
    requires near { (c : ℕ) → IsIn c cells.now → c < length marks.now }
    requires narrow { strand < length succs.old }
    requires rises { (q : ℕ) → IsStrictlyIncreasing (row succs.old q) }
    requires bounded { (q j : ℕ) → IsIn j (row succs.old q) → j < strand }
    ensures some { IfOk result (λ o. IfSome o
        (λ preds. Links marks.now strand cells.now succs.old succs.new preds)) }
    ensures none { IfOk result (λ o. MatchOption o (LinksLate marks.now strand cells.now)
        (λ _. ⊤)) }
{
    let mut preds = Numbers::new(alloc);
    for cell in cells {
        let writer = marks[*cell as usize];
        if writer == 0 {
            continue;
        }
        let pred = writer - 1;
        if pred >= strand {
            return Ok(None);
        }
        if !ends_in(succs[pred as usize].as_slice(), strand) {
            preds.push(pred)?;
            push_at(succs, pred, strand)?;
        }
    }
    Ok(Some(preds))
}

/// The predecessors and the successors of each strand.
#[derive(Drop)]
pub struct Linked {
    pub preds: Vec<Numbers>,
    pub succs: Vec<Numbers>,
}

fn empty_lists(alloc: Global, count: usize) -> Result<Vec<Numbers>, AllocError>
    ensures { IfOk result (λ lists. lists.items ≡ replicate count []) }
{
    let mut lists = Vec::with_capacity(alloc, count)?;
    for made in 0..count {
        lists.push(Numbers::new(alloc))?;
    }
    Ok(lists)
}

/// Links every strand to the writers of what it reads, and gives their predecessors; None where one
/// of those has no smaller number.
fn link_rows(
    alloc: Global,
    marks: &[u32],
    reads: &[Numbers],
    succs: &mut [Numbers],
) -> Result<Option<Vec<Numbers>>, AllocError>
    requires near { (k c : ℕ) → IsIn c (row reads.now k) → c < length marks.now }
    requires narrow { length reads.now < 4294967296 }
    requires empty { succs.old ≡ replicate (length reads.now) [] }
    ensures some { IfOk result (λ o. IfSome o
        (λ preds. AreLinked marks.now reads.now preds.items succs.new (length reads.now))) }
    ensures none { IfOk result (λ o. MatchOption o (IsLate marks.now reads.now) (λ _. ⊤)) }
{
    let mut preds = Vec::with_capacity(alloc, reads.len())?;
    for (strand, cells) in reads.iter().enumerate() {
        let Some(found) = link(alloc, marks, succs, strand as u32, cells.as_slice())? else {
            return Ok(None);
        };
        preds.push(found)?;
    }
    Ok(Some(preds))
}

/// The predecessors and the successors of each strand; None where a strand reads what it or a later
/// one writes.
pub fn link_all(
    alloc: Global,
    marks: &[u32],
    reads: &[Numbers],
) -> Result<Option<Linked>, AllocError>
    requires near { (k c : ℕ) → IsIn c (row reads.now k) → c < length marks.now }
    requires narrow { length reads.now < 4294967296 }
    ensures some { IfOk result (λ o. IfSome o
        (λ l. AreLinked marks.now reads.now l.preds.items l.succs.items (length reads.now)
        × (length l.succs.items ≡ length reads.now))) }
    ensures none { IfOk result (λ o. MatchOption o (IsLate marks.now reads.now) (λ _. ⊤)) }
{
    let mut succs = empty_lists(alloc, reads.len())?;
    let Some(preds) = link_rows(alloc, marks, reads, &mut succs)? else {
        return Ok(None);
    };
    Ok(Some(Linked { preds, succs }))
}

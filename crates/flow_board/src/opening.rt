// The words of a board before the first step.
ghost use Rattle.std.specs.Prelude.{◌≡◌, ℕ, ◌+◌, ◌<◌, ◌≤◌, length, IfOk, slice_index};
ghost use Rattle.flow_core.specs.Net.{preds_of};
ghost use Rattle.flow_core.specs.Flow.{start_of, IsFlow};
ghost use Rattle.flow_core.specs.Events.{opening};
ghost use Rattle.flow_board.specs.Shows.{cell_word, Shows};
ghost use Rattle.flow_board.specs.Rule.{HasNumbers};
ghost use Rattle.flow_board.specs.Seats.{ListsStarts};

use crate::answers::Answers;
use flow_core::Graph;
use gold_field::Gold;
use std::alloc::{AllocError, Global};

/// Each counter word becomes the number of its strand's predecessors.
fn write_counters(graph: &Graph, words: &mut [u64])
    requires { length words.old ≡ 1 + graph.now.cells + graph.now.strands }
    ensures counters { (k : ℕ) → k < graph.now.strands
        → slice_index words.new (1 + graph.now.cells + k) ≡ length (preds_of graph.now k) }
    ensures others { (i : ℕ) → i < 1 + graph.now.cells
        → slice_index words.new i ≡ slice_index words.old i }
{
    let base = 1 + graph.cells as usize;
    for strand in 0..graph.strands {
        words[base + strand as usize] = graph.preds_of(strand).len() as u64;
    }
}

/// Each start cell's word gets its value.
fn write_starts<A: Answers>(graph: &Graph, start: &[(u32, Gold)], answers: &A, words: &mut [u64])
    requires net { (A.flow answers.now).net ≡ graph.now }
    requires flow { IsFlow (A.flow answers.now) }
    requires starts { ListsStarts (A.flow answers.now) start.now }
    requires wide { length words.old ≡ 1 + graph.now.cells + graph.now.strands }
    requires blank { (c : ℕ) → c < graph.now.cells → slice_index words.old (1 + c) ≡ 0 }
    ensures cells { (c : ℕ) → c < graph.now.cells
        → slice_index words.new (1 + c) ≡ cell_word (start_of (A.flow answers.now) c) }
    ensures numbers { HasNumbers (A.flow answers.now).start }
    ensures least { slice_index words.new 0 ≡ slice_index words.old 0 }
    ensures counters { (i : ℕ) → 1 + graph.now.cells ≤ i
        → slice_index words.new i ≡ slice_index words.old i }
{
    for pair in start {
        let (cell, value) = *pair;
        words[1 + cell as usize] = value.get() + 1;
    }
}

/// The words that show a run's opening state.
pub fn opening_words<A: Answers>(
    alloc: Global,
    graph: &Graph,
    start: &[(u32, Gold)],
    answers: &A,
) -> Result<Vec<u64>, AllocError>
    requires net { (A.flow answers.now).net ≡ graph.now }
    requires flow { IsFlow (A.flow answers.now) }
    requires starts { ListsStarts (A.flow answers.now) start.now }
    ensures shows { IfOk result (λ ws. Shows (A.flow answers.now)
        (opening (A.flow answers.now)) ws.items) }
    ensures numbers { IfOk result (λ _. HasNumbers (A.flow answers.now).start) }
{
    let count = 1 + graph.cells as usize + graph.strands as usize;
    let mut words = vec![in alloc; 0u64; count]?;
    words[0] = u64::from(graph.strands);
    write_counters(graph, &mut words);
    write_starts(graph, start, answers, &mut words);
    Ok(words)
}

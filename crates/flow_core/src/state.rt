ghost use Rattle.std.specs.Prelude.{◌≡◌, ◌<◌, ◌^◌, length, map, IfOk, IfSome, MatchOption, ⊤};
ghost use Rattle.std.specs.Bool.{MatchBool};
ghost use Rattle.flow_core.specs.Core.{IsSound};
ghost use Rattle.flow_core.specs.Events.{holding, opening_of, CanStart};

use crate::graph::Graph;
use gold_field::Gold;
use items::Items;
use std::alloc::{AllocError, Global};

/// Where a strand stands.
#[derive(Clone, Copy)]
pub enum Phase {
    /// No worker has taken it.
    Waiting,
    /// A worker has it. It has put the first `published` of its cells, and has told the first
    /// `released` of its successors.
    Held {
        worker: u32,
        published: u32,
        released: u32,
    },
    /// All its cells are put and all its successors are told.
    Done,
    /// It stopped, and has put nothing.
    Refused,
}

/// What a worker does to a state in one step.
#[derive(Clone, Copy)]
pub enum Event {
    /// The worker takes a strand that waits for nothing.
    Take { worker: u32, strand: u32 },
    /// The worker puts a value into the next cell of its strand.
    Publish { worker: u32, value: Gold },
    /// The worker tells the next successor of its strand.
    Release { worker: u32 },
    /// The worker gives up its strand as done.
    Finish { worker: u32 },
    /// The worker gives up its strand as refused.
    Refuse { worker: u32 },
}

/// A strand that a worker holds, with its two counts.
#[derive(Clone, Copy)]
pub struct Hold {
    pub strand: u32,
    /// How many of its cells are published.
    pub published: u32,
    /// How many of its successors are told.
    pub released: u32,
}

/// A run of a graph's strands, at one moment.
#[derive(Drop)]
pub struct State {
    /// The value of each cell, where it has one.
    pub cells: Items<Option<Gold>>,
    /// How many predecessors each strand still waits for.
    pub missing: Items<u32>,
    /// Where each strand stands.
    pub phase: Items<Phase>,
    /// The least refused strand.
    pub least: Option<u32>,
}

/// Whether every cell that a strand writes is without a start value.
fn leaves_written(graph: &Graph, start: &[Option<Gold>]) -> bool
    requires { length start.now ≡ graph.now.cells }
    ensures { MatchBool result (CanStart graph.now start.now) (CanStart graph.now start.now → ⊥) }
{
    graph.facts();
    for strand in 0..graph.strands {
        for cell in graph.writes_of(strand) {
            if start[*cell as usize].is_some() {
                return false;
            }
        }
    }
    true
}

/// How many predecessors each strand has.
fn missing_counts(alloc: Global, graph: &Graph) -> Result<Vec<u32>, AllocError>
    ensures { IfOk result (λ counts. counts.items ≡ map length graph.now.preds) }
{
    graph.facts();
    let mut counts = Vec::with_capacity(alloc, graph.strands as usize)?;
    for strand in 0..graph.strands {
        counts.push(graph.preds_of(strand).len() as u32)?;
    }
    Ok(counts)
}

impl State {
    /// The state before the first event. `start` has one place for each cell: its start value, or
    /// None where a strand writes it. None where it has another length, or a value for such a cell.
    pub fn opening(
        alloc: Global,
        graph: &Graph,
        start: &[Option<Gold>],
    ) -> Result<Option<State>, AllocError>
        ensures value { IfOk result (λ o. IfSome o (λ s. s ≡ opening_of graph.now start.now)) }
        ensures sound { IfOk result (λ o. IfSome o (IsSound graph.now)) }
        ensures none { IfOk result (λ o. MatchOption o (CanStart graph.now start.now
            → ⊥) (λ _. ⊤)) }
    {
        graph.facts();
        if start.len() != graph.cells as usize || !leaves_written(graph, start) {
            return Ok(None);
        }
        let cells = Items::from_slice(alloc, start)?;
        let missing = missing_counts(alloc, graph)?;
        let phase = vec![in alloc; Phase::Waiting; graph.strands as usize]?;
        Ok(Some(State {
            cells,
            missing: Items::of(missing),
            phase: Items::of(phase),
            least: None,
        }))
    }

    /// The strand that a worker holds, found by a look at each strand in turn: a worker's number
    /// may be any, and a step takes no memory in which an index could be kept.
    pub fn holding(&self, worker: u32) -> Option<Hold>
        requires { length self.now.phase < 2 ^ 32 }
        ensures { result ≡ holding self.now worker }
    {
        for (strand, phase) in self.phase.as_slice().iter().enumerate() {
            if let Phase::Held {
                worker: holder,
                published,
                released,
            } = *phase
                && holder == worker
            {
                return Some(Hold {
                    strand: strand as u32,
                    published,
                    released,
                });
            }
        }
        None
    }
}

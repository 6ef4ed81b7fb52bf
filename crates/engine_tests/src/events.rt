use crate::checks::same;
use flow_core::{Event, Graph, GraphFault, State, quiet, step};
use gold_field::Gold;
use numbers::Numbers;
use std::alloc::{AllocError, Global};
use std::marker::Model;
use std::process::Abort;

fn lists(alloc: Global, rows: &[&[u32]]) -> Result<Vec<Numbers>, AllocError> {
    let mut lists = Vec::new(alloc);
    for row in rows {
        lists.push(Numbers::from_slice(alloc, row)?)?;
    }
    Ok(lists)
}

fn graph(
    alloc: Global,
    cells: u32,
    reads: &[&[u32]],
    writes: &[&[u32]],
) -> Result<Graph, GraphFault> {
    let reads = lists(alloc, reads)?;
    let writes = lists(alloc, writes)?;
    Graph::new(alloc, cells, reads, writes)
}

/// Strand 0 reads cell 0 and writes cell 1, and strand 1 reads that and writes cell 2.
fn two_in_a_row<R: AllocGlobal + Abort>(rt: &R) -> Graph {
    let made = graph(rt.alloc(), 3, &[&[0], &[1]], &[&[1], &[2]]).ok();
    made.expect(rt, "a graph")
}

#[test]
fn links_are_found(rt: HostRuntime) {
    let made = graph(
        rt.alloc(),
        4,
        &[&[0], &[1, 0], &[1, 2]],
        &[&[1], &[2], &[3]],
    );
    let graph = made.ok().expect(&rt, "a graph");
    assert!(rt; graph.strands == 3);
    same(&rt, graph.preds_of(2), &[0, 1]);
    same(&rt, graph.succs_of(0), &[1, 2]);
}

#[test]
fn a_later_writer_is_unfit(rt: HostRuntime) {
    let made = graph(rt.alloc(), 2, &[&[1], &[]], &[&[0], &[1]]);
    assert!(rt; matches!(made, Err(GraphFault::Unfit)));
}

/// A graph with a state that fits it, of which a test's proof knows nothing more.
#[derive(Drop)]
struct Run<'g> {
    graph: &'g Graph,
    state: State,
}

impl<'g> Model for Run<'g> {
    ghost use Rattle.std.specs.Prelude.{ℕ};
    ghost use Rattle.flow_core.specs.Core.{IsSound};

    ghost Value = { ℕ };

    ghost view = { λ _. 0 };

    ghost invariant = { λ r. IsSound r.graph.now r.state };
}

impl<'g> Run<'g> {
    /// The graph's cell 0 starts with 3, and its other two are empty.
    fn start<R: AllocGlobal + Abort>(rt: &R, graph: &'g Graph) -> Run<'g> {
        let start = [Some(Gold::from_wide(3)), None, None];
        let state = State::opening(rt.alloc(), graph, &start).expect(rt, "memory");
        let state = state.expect(rt, "a start");
        Run { graph, state }
    }

    fn bring(&mut self, event: Event) -> bool {
        step(self.graph, &mut self.state, event)
    }

    fn is_quiet(&self) -> bool {
        quiet(self.graph, &self.state)
    }

    fn cell(&self, at: usize) -> Option<Gold> {
        self.state.cells.get(at).copied().flatten()
    }

    fn least(&self) -> Option<u32> {
        self.state.least
    }
}

/// Each of the events is enabled, or isn't, as stands beside it.
fn go(rt: &impl Abort, run: &mut Run<'_>, events: &[(Event, bool)]) {
    for (event, is_enabled) in events {
        assert!(rt; run.bring(*event) == *is_enabled);
    }
}

// A worker takes strand 0 and runs it whole, and another refuses strand 1.
#[test]
fn one_after_the_other(rt: HostRuntime) {
    let graph = two_in_a_row(&rt);
    let mut run = Run::start(&rt, &graph);
    let value = Gold::from_wide(4);
    let first = [
        (
            Event::Take {
                worker: 7,
                strand: 0,
            },
            true,
        ),
        (Event::Publish { worker: 7, value }, true),
        (Event::Release { worker: 7 }, true),
        (Event::Finish { worker: 7 }, true),
    ];
    go(&rt, &mut run, &first);
    same(&rt, run.is_quiet(), false);
    let second = [
        (
            Event::Take {
                worker: 9,
                strand: 1,
            },
            true,
        ),
        (Event::Refuse { worker: 9 }, true),
    ];
    go(&rt, &mut run, &second);
    same(&rt, run.is_quiet(), true);
    same(&rt, (run.least(), run.cell(1)), (Some(1), Some(value)));
}

#[test]
fn what_is_not_enabled(rt: HostRuntime) {
    let graph = two_in_a_row(&rt);
    let mut run = Run::start(&rt, &graph);
    let value = Gold::from_wide(4);
    let events = [
        (
            Event::Take {
                worker: 7,
                strand: 1,
            },
            false,
        ),
        (
            Event::Take {
                worker: 7,
                strand: 0,
            },
            true,
        ),
        (
            Event::Take {
                worker: 9,
                strand: 0,
            },
            false,
        ),
        (Event::Release { worker: 7 }, false),
        (Event::Publish { worker: 7, value }, true),
        (Event::Refuse { worker: 7 }, false),
    ];
    go(&rt, &mut run, &events);
}

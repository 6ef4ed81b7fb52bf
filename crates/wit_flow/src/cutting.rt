ghost use Rattle.std.specs.Prelude.{◌≡◌, IfOk};
ghost use Rattle.wit_flow.specs.Cut.{CanCut};
ghost use Rattle.wit_flow.specs.Plan.{IsPlan, AreByRule};

use crate::drafting::{Draft, draft_of};
use crate::flow::Flow;
use flow_core::{Graph, GraphFault};
use items::Items;
use std::alloc::{AllocError, Global};
use wit_code::{Proc, Step};

/// Cuts steps into strands: a step joins the strand of the step before it where that strand has
/// fewer than 256 steps and writes a cell that the step reads. In time linear in all that the steps
/// name.
pub fn cut(
    alloc: Global,
    steps: Vec<Step>,
    procs: Vec<Proc>,
    cells: u32,
    starts: Vec<u32>,
) -> Result<Flow, AllocError>
    requires { CanCut steps.items procs.items cells starts.items }
    ensures steps { IfOk result (λ f. f.steps ≡ steps.items) }
    ensures procs { IfOk result (λ f. f.procs ≡ procs.items) }
    ensures starts { IfOk result (λ f. f.starts ≡ starts.items) }
    ensures cells { IfOk result (λ f. f.graph.cells ≡ cells) }
    ensures plan { IfOk result IsPlan }
    ensures by_rule { IfOk result AreByRule }
{
    let draft = draft_of(alloc, steps.as_slice(), cells)?;
    let Draft {
        strands,
        reads,
        writes,
        sources,
        first: _,
        count: _,
        open_reads: _,
        open_writes: _,
        marks: _,
    } = draft;
    let graph = match Graph::new(alloc, cells, reads.into_vec(), writes.into_vec()) {
        Ok(graph) => graph,
        Err(GraphFault::OutOfMemory) => return Err(AllocError),
        Err(GraphFault::Unfit) => unreachable!(),
    };
    graph.facts();
    Ok(Flow {
        strands,
        steps: Items::of(steps),
        procs: Items::of(procs),
        starts: Items::of(starts),
        graph,
        sources,
    })
}

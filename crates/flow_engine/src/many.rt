ghost use Rattle.std.specs.Prelude.{◌≡◌, ◌<◌, ◌≤◌, IfOk, length};
ghost use Rattle.std.specs.List.{AllZip};
ghost use Rattle.wit_flow.specs.OneThread.{IsOutcome, one_thread};
ghost use Rattle.flow_engine.specs.Task.{AreNumbered, IsOneThread};

use crate::answers::FlowAnswers;
use crate::boards::{Boards, close_boards, make_boards};
use crate::gate::Gate;
use crate::lend::lend_all;
use crate::work::Batch;
use flow_pool::{Pool, PoolState};
use gold_field::Gold;
use std::alloc::{AllocError, AllocGlobal, Global};
use std::sync::Wait;
use std::thread::Threads;
use wit_flow::{Flow, Outcome};

// A pool of all tasks' items, at none of which a worker has looked.
fn first_pool(
    alloc: Global,
    tasks: &[FlowAnswers<'_>],
    strands: u32,
    workers: u32,
) -> Result<Pool, AllocError>
    requires { AreNumbered strands tasks.now }
{
    let items = tasks.len() * strands as usize;
    let state = PoolState::make(alloc, items as u32, &[])?;
    Ok(Pool::make(state, workers))
}

/// Runs the strands of all tasks on 1 to 64 workers, over one pool. Each outcome is that of one
/// thread on its task, whatever the workers' number and whatever comes first in time; want of
/// memory in a worker is want of memory of the call. The workers wait for each other, so this holds
/// if it returns.
pub fn run_each<R: Threads + Wait + AllocGlobal + Sync, G: Gate>(
    rt: &R,
    tasks: &[FlowAnswers<'_>],
    strands: u32,
    workers: u32,
    gate: &G,
) -> Result<Vec<Outcome>, AllocError>
    requires items { AreNumbered strands tasks.now }
    requires some { 0 < workers }
    requires few { workers ≤ 64 }
    ensures { IfOk result (λ outcomes. AllZip IsOneThread tasks.now outcomes.items) }
{
    let alloc = rt.alloc();
    let pool = first_pool(alloc, tasks, strands, workers)?;
    let Boards { boards, own, hands } = make_boards(alloc, tasks, workers)?;
    let batch = Batch {
        boards: boards.as_slice(),
        tasks,
        strands,
        pool: &pool,
        gate,
    };
    let hands = lend_all(rt, alloc, &batch, hands)?;
    close_boards(alloc, tasks, boards, own, hands)
}

/// Runs a flow's strands on 1 to 64 workers. The answer is that of one thread, whatever the
/// workers' number and whatever comes first in time; want of memory in a worker is want of memory
/// of the call. This holds if it returns.
pub fn run_many<R: Threads + Wait + AllocGlobal + Sync, G: Gate>(
    rt: &R,
    flow: &Flow,
    start: &[Gold],
    fuel: u64,
    workers: u32,
    gate: &G,
) -> Result<Outcome, AllocError>
    requires each { length start.now ≡ length flow.now.starts }
    requires some { 0 < workers }
    requires few { workers ≤ 64 }
    ensures { IfOk result (λ o. IsOutcome flow.now.graph.cells o
        (one_thread flow.now start.now fuel)) }
{
    let task = FlowAnswers::of(flow, start, fuel);
    let graph = task.graph();
    graph.facts();
    let mut outcomes = run_each(rt, &[task], graph.strands, workers, gate)?;
    match outcomes.pop() {
        Some(outcome) => Ok(outcome),
        None => unreachable!(),
    }
}

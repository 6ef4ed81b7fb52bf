ghost use Rattle.std.specs.Prelude.{◌≡◌, ◌<◌, ◌≤◌, ◌↔◌, All, IfOk, IsTrue};
ghost use Rattle.std.specs.Prelude.{length, map};
ghost use Rattle.std.specs.List.{AllZip};
ghost use Rattle.wit_flow.specs.OneThread.{IsOutcome, one_thread};
ghost use Rattle.flow_engine.specs.Task.{task};
ghost use Rattle.flow_batch.specs.Batch.{AreFew};

use flow_engine::{FlowAnswers, Gate, run_each};
use gold_field::Gold;
use std::alloc::{AllocError, AllocGlobal, Global};
use std::sync::Wait;
use std::thread::Threads;
use wit_flow::{Flow, Outcome};

const MOST: u64 = 33554432;

/// Whether a flow can be run on so many lists at once.
pub fn fits(flow: &Flow, lists: usize) -> bool
    ensures { IsTrue result ↔ AreFew flow.now lists }
{
    let graph = &flow.graph;
    let each = u64::from(graph.cells) + u64::from(graph.strands) + 64;
    lists as u64 <= MOST / each
}

// The flow with each of the lists.
fn tasks<'s>(
    alloc: Global,
    flow: &'s Flow,
    starts: &'s [Vec<Gold>],
    fuel: u64,
) -> Result<Vec<FlowAnswers<'s>>, AllocError>
    requires { All (λ start. length start.items ≡ length flow.now.starts) starts.now }
    ensures { IfOk result
        (λ v. v.items ≡ map (λ start. task flow.now start.items fuel) starts.now) }
{
    let mut tasks = Vec::with_capacity(alloc, starts.len())?;
    for start in starts {
        tasks.push(FlowAnswers::of(flow, start.as_slice(), fuel))?;
    }
    Ok(tasks)
}

fn strands_of(flow: &Flow) -> u32
    ensures { result ≡ flow.now.graph.strands }
{
    flow.graph.strands
}

/// Runs a flow on each list of start values, with 1 to 64 workers for all of them. Each outcome is
/// that of one thread on its list, whatever the workers' number and whatever comes first in time;
/// so no list's stop touches another. Want of memory in a worker is want of memory of the call. The
/// gate is told the strand k of the list i as `i * strands + k`. The workers wait for each other, so
/// this holds if it returns.
pub fn run_batch<R: Threads + Wait + AllocGlobal + Sync, G: Gate>(
    rt: &R,
    flow: &Flow,
    starts: &[Vec<Gold>],
    fuel: u64,
    workers: u32,
    gate: &G,
) -> Result<Vec<Outcome>, AllocError>
    requires each { All (λ start. length start.items ≡ length flow.now.starts) starts.now }
    requires some { 0 < workers }
    requires few { workers ≤ 64 }
    requires small { AreFew flow.now (length starts.now) }
    ensures { IfOk result (λ outcomes. AllZip (λ start o. IsOutcome flow.now.graph.cells o
        (one_thread flow.now start.items fuel)) starts.now outcomes.items) }
{
    let tasks = tasks(rt.alloc(), flow, starts, fuel)?;
    run_each(rt, tasks.as_slice(), strands_of(flow), workers, gate)
}

ghost use Rattle.std.specs.Prelude.{◌≡◌, ◌<◌, ◌≤◌, [], ◌∷◌};

use crate::checks::same;
use crate::flow::{
    MINUS_ONE, add, assert_at, chain_flow, flow_of, has, in_order, number, wide_flow,
};
use crate::gates::{Counts, Meeting};
use flow_engine::{Gate, OpenGate, run_many};
use std::process::Abort;
use std::sync::Wait;
use std::thread::Threads;
use wit_flow::{Flow, Outcome};

fn are_same(one: &Outcome, many: &Outcome) -> bool {
    match (one, many) {
        (Outcome::Done(a), Outcome::Done(b)) => a.as_slice() == b.as_slice(),
        (
            Outcome::Refused {
                step: a,
                stop: why_a,
                cells: cells_a,
            },
            Outcome::Refused {
                step: b,
                stop: why_b,
                cells: cells_b,
            },
        ) => *a == *b && *why_a == *why_b && cells_a.as_slice() == cells_b.as_slice(),
        _ => false,
    }
}

fn strands_of(flow: &Flow) -> u32 {
    flow.graph.strands
}

/// Runs a flow on so many workers, with a gate before each strand.
fn on_workers<R: Threads + Wait + AllocGlobal + Sync + Abort, G: Gate>(
    rt: &R,
    flow: &Flow,
    start: u64,
    workers: u32,
    gate: &G,
) -> Outcome
    requires starts { flow.now.starts ≡ 0 ∷ [] }
    requires some { 0 < workers }
    requires few { workers ≤ 64 }
{
    run_many(rt, flow, &[number(start)], 0, workers, gate).expect(rt, "memory")
}

/// Runs a flow on one thread and on 1, 4 and 64 workers, which must give the same outcome.
fn on_all<R: Threads + Wait + AllocGlobal + Sync + Abort>(
    rt: &R,
    flow: &Flow,
    start: u64,
) -> Outcome
    requires { flow.now.starts ≡ 0 ∷ [] }
{
    let one = in_order(rt, flow, start);
    for workers in [1u32, 4, 64] {
        let many = on_workers(rt, flow, start, workers, &OpenGate);
        assert!(rt; are_same(&one, &many));
    }
    one
}

// 5 + 16 in each cell.
#[test]
fn a_wide_flow_on_many_workers(rt: HostRuntime) {
    let flow = wide_flow(&rt, 200, 1);
    same(&rt, strands_of(&flow), 200);
    let outcome = on_all(&rt, &flow, 5);
    has(&rt, &outcome, &[(200, Some(21))]);
}

// 5 + 16 * 1000, by strands of 256 steps.
#[test]
fn a_chain_on_many_workers(rt: HostRuntime) {
    let flow = chain_flow(&rt, 1000, 1);
    same(&rt, strands_of(&flow), 4);
    let outcome = on_all(&rt, &flow, 5);
    has(&rt, &outcome, &[(1000, Some(16005))]);
}

// 4800 is 16 * 300, and the step that comes to 0 stands inside the second strand.
#[test]
fn a_step_stops_within_a_strand(rt: HostRuntime) {
    let flow = chain_flow(&rt, 600, MINUS_ONE);
    let outcome = on_all(&rt, &flow, 4800);
    same(&rt, assert_at(&outcome), Some(299));
    has(&rt, &outcome, &[(299, Some(16)), (300, None)]);
}

// Two steps that stop, between one before them and one behind that.
fn two_stops<R: AllocGlobal + Abort>(rt: &R) -> Flow
    ensures { result.starts ≡ 0 ∷ [] }
{
    let mut links = Vec::new(rt.alloc());
    add(rt, &mut links, 0, 1);
    add(rt, &mut links, 0, MINUS_ONE);
    add(rt, &mut links, 0, MINUS_ONE);
    add(rt, &mut links, 1, 1);
    flow_of(rt, links.as_slice())
}

// Both strands refuse, and the lesser is the answer. Neither an order of the strands on one thread
// nor the caller's own run gets them past the gate.
#[test]
fn two_strands_run_at_once(rt: HostRuntime) {
    let flow = two_stops(&rt);
    let gate = Meeting::of(1, 2);
    let outcome = on_workers(&rt, &flow, 16, 8, &gate);
    same(&rt, gate.entered(), (1, 1, 0));
    same(&rt, assert_at(&outcome), Some(1));
    has(&rt, &outcome, &[(1, Some(32)), (2, None)]);
}

/// A tree: each step reads what the step at half its place wrote, and is a strand of its own.
fn tree<R: AllocGlobal + Abort>(rt: &R, steps: u32) -> Flow
    ensures { result.starts ≡ 0 ∷ [] }
{
    let mut links = Vec::new(rt.alloc());
    for place in 0..steps {
        add(rt, &mut links, place / 2, 1);
    }
    flow_of(rt, links.as_slice())
}

#[test]
fn each_strand_is_run_by_a_worker(rt: HostRuntime) {
    let flow = tree(&rt, 100);
    same(&rt, strands_of(&flow), 100);
    let gate = Counts::of(&rt, 100);
    let many = on_workers(&rt, &flow, 5, 8, &gate);
    assert!(rt; are_same(&in_order(&rt, &flow, 5), &many));
    assert!(rt; gate.are_all_once());
}

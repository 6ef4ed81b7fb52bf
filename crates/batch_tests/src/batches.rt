//! Each outcome of a batch is that of one thread on its list, and workers run all lists at once.
ghost use Rattle.std.specs.Prelude.{◌≡◌, ◌<◌, ◌≤◌, [], ◌∷◌, All, length};

use crate::gates::{Counts, Pair};
use flow_batch::{fits, run_batch};
use flow_engine::{Gate, OpenGate};
use flow_samples::{chain, tree, wide};
use gold_field::{Gold, P};
use std::process::Abort;
use std::sync::Wait;
use std::thread::Threads;
use wit_flow::{Flow, Outcome, run_one};

// A step of the samples adds a number 16 times, and stops where the sum is 0.
const ADDED: u64 = 3;

fn number(n: u64) -> Gold {
    Gold::from_wide(n as u128)
}

fn are_same(one: &Outcome, other: &Outcome) -> bool {
    match (one, other) {
        (Outcome::Done(a), Outcome::Done(b)) => a.as_slice() == b.as_slice(),
        (
            Outcome::Refused {
                step: a,
                stop: why_a,
                cells: cells_a,
            },
            Outcome::Refused {
                step: b,
                stop: why_b,
                cells: cells_b,
            },
        ) => *a == *b && *why_a == *why_b && cells_a.as_slice() == cells_b.as_slice(),
        _ => false,
    }
}

/// Lists of one start value each: of so many numbers below 2^20, and after each tenth of them
/// one with which the first step of a sample stops, or a step of a chain after it.
fn starts_of<R: AllocGlobal + Abort>(rt: &R, count: u32) -> Vec<Vec<Gold>>
    ensures { All (λ start. length start.items ≡ 1) result.items }
{
    let mut starts = Vec::new(rt.alloc());
    let mut seed = 7u32;
    for at in 0..count {
        seed = seed.wrapping_mul(1_664_525).wrapping_add(1_013_904_223);
        let drawn = u64::from(seed >> 12);
        let value = if at % 10 == 9 {
            P - 16 * ADDED * (1 + drawn % 4)
        } else {
            drawn
        };
        let mut start = Vec::new(rt.alloc());
        start.push(number(value)).expect(rt, "memory");
        starts.push(start).expect(rt, "memory");
    }
    starts
}

fn run<R: Threads + Wait + AllocGlobal + Sync + Abort, G: Gate>(
    rt: &R,
    flow: &Flow,
    starts: &[Vec<Gold>],
    workers: u32,
    gate: &G,
) -> Vec<Outcome>
    requires starts { flow.now.starts ≡ 0 ∷ [] }
    requires each { All (λ start. length start.items ≡ 1) starts.now }
    requires some { 0 < workers }
    requires few { workers ≤ 64 }
{
    if !fits(flow, starts.len()) {
        panic!(rt; "too many lists");
    }
    run_batch(rt, flow, starts, 1000, workers, gate).expect(rt, "memory")
}

fn in_order<R: AllocGlobal + Abort>(rt: &R, flow: &Flow, start: &[Gold]) -> Outcome
    requires starts { flow.now.starts ≡ 0 ∷ [] }
    requires each { length start.now ≡ 1 }
{
    run_one(rt.alloc(), flow, start, 1000).expect(rt, "memory")
}

/// Compares the outcomes of a batch with those of one thread. How many of them are stops.
fn stops<R: AllocGlobal + Abort>(
    rt: &R,
    flow: &Flow,
    starts: &[Vec<Gold>],
    outcomes: &[Outcome],
) -> u32
    requires starts { flow.now.starts ≡ 0 ∷ [] }
    requires each { All (λ start. length start.items ≡ 1) starts.now }
{
    assert!(rt; starts.len() == outcomes.len());
    let mut stops = 0u32;
    for at in 0..starts.len() {
        let start = &starts[at];
        let one = in_order(rt, flow, start.as_slice());
        assert!(rt; are_same(&one, &outcomes[at]));
        if matches!(one, Outcome::Refused { .. }) {
            stops = stops.saturating_add(1);
        }
    }
    stops
}

/// So many lists on 1, 2 and 4 workers, each of whose strands a worker runs just once where none of
/// them stops. How many of the lists stop.
fn on_all<R: Threads + Wait + AllocGlobal + Sync + Abort>(rt: &R, flow: &Flow, lists: u32) -> u32
    requires { flow.now.starts ≡ 0 ∷ [] }
{
    let starts = starts_of(rt, lists);
    let mut stopped = 0;
    for workers in [1u32, 2, 4] {
        let gate = Counts::of(rt, lists.saturating_mul(flow.graph.strands));
        let outcomes = run(rt, flow, starts.as_slice(), workers, &gate);
        stopped = stops(rt, flow, starts.as_slice(), outcomes.as_slice());
        assert!(rt; stopped > 0 || gate.are_all_once());
    }
    stopped
}

#[test]
fn many_lists_over_one_strand(rt: HostRuntime) {
    let made = wide(rt.alloc(), 1, number(ADDED)).expect(&rt, "memory");
    let flow = made.expect(&rt, "a flow");
    assert!(&rt; flow.graph.strands == 1);
    assert!(&rt; on_all(&rt, &flow, 1000) > 0);
}

#[test]
fn lists_over_a_tree(rt: HostRuntime) {
    let made = tree(rt.alloc(), 60, 2, number(ADDED)).expect(&rt, "memory");
    let flow = made.expect(&rt, "a flow");
    assert!(&rt; on_all(&rt, &flow, 9) == 0);
    assert!(&rt; on_all(&rt, &flow, 100) > 0);
}

#[test]
fn lists_over_a_chain(rt: HostRuntime) {
    let made = chain(rt.alloc(), 300, number(ADDED)).expect(&rt, "memory");
    let flow = made.expect(&rt, "a flow");
    assert!(&rt; on_all(&rt, &flow, 5) == 0);
    assert!(&rt; on_all(&rt, &flow, 20) > 0);
}

#[test]
fn no_lists(rt: HostRuntime) {
    let made = chain(rt.alloc(), 10, number(ADDED)).expect(&rt, "memory");
    let flow = made.expect(&rt, "a flow");
    assert!(&rt; on_all(&rt, &flow, 0) == 0);
}

// The one strand of each of two lists is held until that of the other has entered.
#[test]
fn two_lists_run_at_once(rt: HostRuntime) {
    let made = wide(rt.alloc(), 1, number(ADDED)).expect(&rt, "memory");
    let flow = made.expect(&rt, "a flow");
    let starts = starts_of(&rt, 2);
    let gate = Pair::new();
    let outcomes = run(&rt, &flow, starts.as_slice(), 2, &gate);
    assert!(&rt; stops(&rt, &flow, starts.as_slice(), outcomes.as_slice()) == 0);
    assert!(&rt; gate.have_both_entered());
    assert!(&rt; gate.in_vain() == 0);
}

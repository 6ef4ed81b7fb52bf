//! Workers as a gate sees them: as many as were asked for run at once, each is busy for as long as
//! its strand runs, and none waits for another's run.
ghost use Rattle.std.specs.Prelude.{◌≡◌, ◌<◌, ◌≤◌, [], ◌∷◌};

use crate::checks::same;
use flow_engine::{Gate, run_many};
use flow_samples::{Link, wide, with_spin};
use gold_field::Gold;
use std::process::Abort;
use std::sync::Wait;
use std::sync::atomic::{AtomicU64, Ordering};
use std::thread::Threads;
use wit_code::Stop;
use wit_flow::{Flow, Outcome};

// A strand that turns until this is spent takes far longer than one that waits in the gate.
const FUEL: u64 = 60_000_000;

// How often a strand looks for one that is to come, and for one that isn't.
const LONG: u32 = 100_000_000;

const SHORT: u32 = 10_000_000;

// How often a run is tried in which all that are waited for are to come: on a busy machine they may
// come too late.
const TIMES: u32 = 10;

/// Holds a strand until others have entered, or it has looked for them in vain.
#[derive(Drop)]
struct Waits {
    // A strand, one that it waits for, and how often it looks.
    waits: Vec<(u32, u32, u32)>,
    entered: Vec<AtomicU64>,
    in_vain: AtomicU64,
}

// Whether the word is more than 0 at one of the looks.
fn is_seen(word: &AtomicU64, looks: u32) -> bool {
    for _ in 0..looks {
        if word.load(Ordering::SeqCst) > 0 {
            return true;
        }
    }
    false
}

impl Gate for Waits {
    fn enter(&self, strand: u32) {
        if let Some(word) = self.entered.get(strand as usize) {
            word.fetch_add(1, Ordering::SeqCst);
        }
        for (waiting, awaited, looks) in self.waits.as_slice() {
            if *waiting == strand && self.in_vain() == 0 && !self.comes(*awaited, *looks) {
                self.in_vain.fetch_add(1, Ordering::SeqCst);
            }
        }
    }
}

impl Waits {
    fn of<R: AllocGlobal + Abort>(rt: &R, strands: u32, waits: &[(u32, u32, u32)]) -> Waits {
        let mut entered = Vec::new(rt.alloc());
        for _ in 0..strands {
            entered.push(AtomicU64::new(0)).expect(rt, "memory");
        }
        Waits {
            waits: waits.to_vec(rt.alloc()).expect(rt, "memory"),
            entered,
            in_vain: AtomicU64::new(0),
        }
    }

    fn comes(&self, strand: u32, looks: u32) -> bool {
        match self.entered.get(strand as usize) {
            Some(word) => is_seen(word, looks),
            None => false,
        }
    }

    /// How often a strand has waited for one that didn't come.
    fn in_vain(&self) -> u64 {
        self.in_vain.load(Ordering::SeqCst)
    }

    fn have_all_entered_once(&self) -> bool {
        for word in self.entered.as_slice() {
            if word.load(Ordering::SeqCst) != 1 {
                return false;
            }
        }
        true
    }
}

fn on_workers<R: Threads + Wait + AllocGlobal + Sync + Abort>(
    rt: &R,
    flow: &Flow,
    workers: u32,
    gate: &Waits,
) -> Outcome
    requires starts { flow.now.starts ≡ 0 ∷ [] }
    requires some { 0 < workers }
    requires few { workers ≤ 64 }
{
    run_many(rt, flow, &[Gold::ONE], FUEL, workers, gate).expect(rt, "memory")
}

/// Links that read these cells, and a step behind them that turns until its fuel is spent.
fn spinning<R: AllocGlobal + Abort>(rt: &R, cells: &[u32]) -> Flow
    ensures { result.starts ≡ 0 ∷ [] }
{
    let mut links = Vec::new(rt.alloc());
    for from in cells {
        let link = Link {
            from: *from,
            number: Gold::ONE,
        };
        links.push(link).expect(rt, "memory");
    }
    let made = with_spin(rt.alloc(), links.as_slice()).expect(rt, "memory");
    made.expect(rt, "a flow")
}

fn has_spun(outcome: &Outcome, at: u32) -> bool {
    match outcome {
        Outcome::Refused {
            step,
            stop: Stop::FuelSpent,
            ..
        } => *step == at,
        _ => false,
    }
}

/// Each of so many strands waits for all of them. Whether all have come.
fn meet<R: Threads + Wait + AllocGlobal + Sync + Abort>(rt: &R, flow: &Flow, workers: u32) -> bool
    requires starts { flow.now.starts ≡ 0 ∷ [] }
    requires some { 0 < workers }
    requires few { workers ≤ 64 }
{
    let mut waits = Vec::new(rt.alloc());
    for waiting in 0..workers {
        for awaited in 0..workers {
            waits.push((waiting, awaited, LONG)).expect(rt, "memory");
        }
    }
    let gate = Waits::of(rt, workers, waits.as_slice());
    let outcome = on_workers(rt, flow, workers, &gate);
    assert!(rt; matches!(outcome, Outcome::Done(_)));
    assert!(rt; gate.have_all_entered_once());
    gate.in_vain() == 0
}

fn all_at_once<R: Threads + Wait + AllocGlobal + Sync + Abort>(rt: &R, workers: u32)
    requires some { 0 < workers }
    requires few { workers ≤ 64 }
{
    let made = wide(rt.alloc(), workers, Gold::ONE).expect(rt, "memory");
    let flow = made.expect(rt, "a flow");
    for _ in 0..TIMES {
        if meet(rt, &flow, workers) {
            return;
        }
    }
    panic!(rt; "not at once");
}

#[test]
fn as_many_run_at_once_as_were_asked_for(rt: HostRuntime) {
    all_at_once(&rt, 8);
    all_at_once(&rt, 64);
}

// Strands 2 and 3 read what strand 0 writes, which waits until the long strand 4 has its worker. So
// one worker is left for them, and the first of them waits for the other in vain.
#[test]
fn a_worker_is_busy_while_its_strand_runs(rt: HostRuntime) {
    let flow = spinning(&rt, &[0, 0, 1, 1]);
    same(&rt, flow.graph.strands, 5);
    let gate = Waits::of(&rt, 5, &[(0, 4, LONG), (2, 3, SHORT), (3, 2, SHORT)]);
    let outcome = on_workers(&rt, &flow, 2, &gate);
    assert!(rt; has_spun(&outcome, 4));
    assert!(rt; gate.have_all_entered_once());
    same(&rt, gate.in_vain(), 1);
}

// Strands 5 to 8 each read what one of the strands 0 to 3 writes, and these wait until the long
// strand 9 has its worker. Whether strand 4 sees all four come while that one runs.
fn pass_by<R: Threads + Wait + AllocGlobal + Sync + Abort>(rt: &R, flow: &Flow) -> bool
    requires { flow.now.starts ≡ 0 ∷ [] }
{
    let waits = [
        (0, 9, LONG),
        (1, 9, LONG),
        (2, 9, LONG),
        (3, 9, LONG),
        (4, 9, LONG),
        (4, 5, LONG),
        (4, 6, LONG),
        (4, 7, LONG),
        (4, 8, LONG),
    ];
    let gate = Waits::of(rt, 10, &waits);
    let outcome = on_workers(rt, flow, 6, &gate);
    assert!(rt; has_spun(&outcome, 9));
    assert!(rt; gate.have_all_entered_once());
    gate.in_vain() == 0
}

#[test]
fn no_strand_waits_for_the_run_of_another(rt: HostRuntime) {
    let flow = spinning(&rt, &[0, 0, 0, 0, 0, 1, 2, 3, 4]);
    same(&rt, flow.graph.strands, 10);
    for _ in 0..TIMES {
        if pass_by(&rt, &flow) {
            return;
        }
    }
    panic!(rt; "one after another");
}

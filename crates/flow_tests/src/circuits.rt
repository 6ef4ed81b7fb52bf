//! Flows made of sources, run by eight workers through gates.
ghost use Rattle.cir_ast.specs.Program.{bare_program};
ghost use Rattle.cir_checks.specs.Checked.{IsChecked};
ghost use Rattle.cir_names.specs.Loading.{IsOfSources};

use crate::checks::same;
use crate::flow::{assert_at, has, number};
use crate::gates::{Counts, Meeting};
use cir_ast::program::Program;
use cir_body::circuit_code;
use cir_names::load;
use flow_engine::{Gate, run_many};
use gold_field::Gold;
use out_io::{MemStore, Store};
use std::alloc::Global;
use std::process::Abort;
use std::sync::Wait;
use std::thread::Threads;
use wit_flow::{Flow, Outcome};
use wit_run::CutCircuit;

fn program_of<R: AllocGlobal + Abort>(rt: &R, text: &str) -> Program
    ensures checked { IsChecked (bare_program result) }
    ensures theirs { IsOfSources (bare_program result) }
{
    let mut store = MemStore::new(rt.alloc());
    let written = store.write(rt.alloc(), "t.circom", text.as_bytes());
    written.expect(rt, "no fault");
    match load(rt.alloc(), &mut store, "t.circom", None) {
        Ok(program) => program,
        Err(_) => panic!(rt; "a program"),
    }
}

/// A program's circuit, cut into strands.
fn cut_of(alloc: Global, program: &Program) -> Option<CutCircuit>
    requires checked { IsChecked (bare_program program.now) }
    requires theirs { IsOfSources (bare_program program.now) }
{
    match circuit_code(alloc, program) {
        Ok((_, code)) => CutCircuit::of(alloc, code).ok(),
        Err(_) => None,
    }
}

/// The circuit of a source.
fn circuit_of<R: AllocGlobal + Abort>(rt: &R, text: &str) -> CutCircuit {
    let program = program_of(rt, text);
    cut_of(rt.alloc(), &program).expect(rt, "a circuit")
}

/// Runs a flow from 1 and these inputs on eight workers, with ample fuel.
fn on_workers<R: Threads + Wait + AllocGlobal + Sync + Abort, G: Gate>(
    rt: &R,
    flow: &Flow,
    inputs: &[u64],
    gate: &G,
) -> Outcome {
    let mut start = Vec::new(rt.alloc());
    start.push(Gold::ONE).expect(rt, "memory");
    for n in inputs {
        start.push(number(*n)).expect(rt, "memory");
    }
    assert!(rt; start.len() == flow.starts.len());
    run_many(rt, flow, start.as_slice(), 1000, 8, gate).expect(rt, "memory")
}

/// The number of the strand in which a step stands.
fn strand_of(rt: &impl Abort, flow: &Flow, step: u32) -> u32 {
    for (n, strand) in flow.strands.as_slice().iter().enumerate() {
        if strand.first <= step && step - strand.first < strand.count {
            return u32::try_from(n).ok().expect(rt, "a number");
        }
    }
    panic!(rt; "no such step");
}

static TWO_ASSERTS: &str = "template A(k) { signal input x; assert(x != k); }
template T() {
  signal input a; signal output out; component p = A(1); component q = A(1);
  log(\"start\", a); p.x <== a; q.x <== a; out <== a;
}
component main = T();
";

// Steps 2 and 4 are the asserts of p and of q. Both stop, each in a strand that another worker
// holds at the same time, and the lesser one is the answer.
#[test]
fn two_asserts_of_a_source_stop_at_once(rt: HostRuntime) {
    let CutCircuit { flow, .. } = circuit_of(&rt, TWO_ASSERTS);
    let gate = Meeting::of(strand_of(&rt, &flow, 2), strand_of(&rt, &flow, 4));
    let outcome = on_workers(&rt, &flow, &[1], &gate);
    same(&rt, gate.entered(), (1, 1, 0));
    same(&rt, assert_at(&outcome), Some(2));
}

static THREE_LINKS: &str = "template Link() {
  signal input x; signal input k; signal output y; y <== x * x + k;
}
template Links(n) {
  signal input s; signal input k[8]; signal output out; component l[n];
  for (var i = 0; i < n; i++) { l[i] = Link(); l[i].k <== k[i % 8]; l[i].x <== s; }
  out <== l[n - 1].y;
}
component main = Links(3);
";

/// How many steps a flow has, and how many strands.
fn has_sizes(rt: &impl Abort, flow: &Flow, steps: usize, strands: u32) {
    same(rt, flow.steps.len(), steps);
    same(rt, flow.graph.strands, strands);
}

// A step joins the strand before it where it reads what a step of that strand writes.
#[test]
fn steps_of_a_source_join_strands(rt: HostRuntime) {
    let CutCircuit { flow: links, .. } = circuit_of(&rt, THREE_LINKS);
    has_sizes(&rt, &links, 10, 6);
    let CutCircuit { flow: asserts, .. } = circuit_of(&rt, TWO_ASSERTS);
    has_sizes(&rt, &asserts, 6, 4);
}

static LESS_THAN: &str = "template Num2Bits(n) {
  signal input in; signal output out[n]; var lc1 = 0; var e2 = 1;
  for (var i = 0; i < n; i++) {
    out[i] <-- (in >> i) & 1; out[i]*(out[i] - 1) === 0; lc1 += out[i]*e2; e2 = e2 + e2;
  }
  lc1 === in;
}
template LessThan(n) {
  signal input in[2]; signal output out; component n2b = Num2Bits(n+1);
  n2b.in <== in[0] + (1<<n) - in[1]; out <== 1 - n2b.out[n];
}
component main {public [in]} = LessThan(8);
";

/// What comes out of the comparison of two numbers, each strand of which a worker has run once.
fn compared<R: Threads + Wait + AllocGlobal + Sync + Abort>(
    rt: &R,
    left: u64,
    right: u64,
    less: u64,
) {
    let CutCircuit { flow, homes, .. } = circuit_of(rt, LESS_THAN);
    let gate = Counts::of(rt, flow.graph.strands);
    let outcome = on_workers(rt, &flow, &[left, right], &gate);
    assert!(rt; gate.are_all_once());
    assert!(rt; matches!(&outcome, Outcome::Done(_)));
    // signal 1 is the output
    let out = homes.as_slice().get(1).copied().expect(rt, "a signal");
    has(rt, &outcome, &[(0, Some(1)), (out as usize, Some(less))]);
}

// Only workers call the gate.
#[test]
fn each_strand_of_a_source_is_run_by_a_worker(rt: HostRuntime) {
    compared(&rt, 3, 5, 1);
    compared(&rt, 5, 3, 0);
    compared(&rt, 5, 5, 0);
}

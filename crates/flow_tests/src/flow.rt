ghost use Rattle.std.specs.Prelude.{◌≡◌, [], ◌∷◌};

use crate::checks::same;
use flow_samples::{Link, chain, linked, wide};
use gold_field::Gold;
use std::process::Abort;
use wit_code::Stop;
use wit_flow::{Flow, Outcome, run_one};

// The number p - 1.
pub(crate) const MINUS_ONE: u64 = 18446744069414584320;

pub(crate) fn number(n: u64) -> Gold {
    Gold::from_wide(n as u128)
}

/// One more link, by the cell that it reads and the number that it adds.
pub(crate) fn add(rt: &impl Abort, links: &mut Vec<Link>, from: u32, n: u64) {
    let number = number(n);
    links.push(Link { from, number }).expect(rt, "memory");
}

pub(crate) fn flow_of<R: AllocGlobal + Abort>(rt: &R, links: &[Link]) -> Flow
    ensures { result.starts ≡ 0 ∷ [] }
{
    let made = linked(rt.alloc(), links).expect(rt, "memory");
    made.expect(rt, "a flow")
}

pub(crate) fn wide_flow<R: AllocGlobal + Abort>(rt: &R, steps: u32, n: u64) -> Flow
    ensures { result.starts ≡ 0 ∷ [] }
{
    let made = wide(rt.alloc(), steps, number(n)).expect(rt, "memory");
    made.expect(rt, "a flow")
}

pub(crate) fn chain_flow<R: AllocGlobal + Abort>(rt: &R, steps: u32, n: u64) -> Flow
    ensures { result.starts ≡ 0 ∷ [] }
{
    let made = chain(rt.alloc(), steps, number(n)).expect(rt, "memory");
    made.expect(rt, "a flow")
}

/// Runs a flow on one thread, with no fuel.
pub(crate) fn in_order<R: AllocGlobal + Abort>(rt: &R, flow: &Flow, start: u64) -> Outcome
    requires { flow.now.starts ≡ 0 ∷ [] }
{
    run_one(rt.alloc(), flow, &[number(start)], 0).expect(rt, "memory")
}

/// The number in a cell, if it has one.
pub(crate) fn value(outcome: &Outcome, cell: usize) -> Option<u64> {
    let value = match outcome {
        Outcome::Done(values) => values.get(cell).copied(),
        Outcome::Refused { cells, .. } => cells.get(cell).copied().unwrap_or(None),
    };
    value.map(|v| v.get())
}

/// The step at which an assert stopped the run, if one did.
pub(crate) fn assert_at(outcome: &Outcome) -> Option<u32> {
    match outcome {
        Outcome::Refused {
            step,
            stop: Stop::AssertFails,
            ..
        } => Some(*step),
        _ => None,
    }
}

/// The cells have these numbers, or none.
pub(crate) fn has(rt: &impl Abort, outcome: &Outcome, cells: &[(usize, Option<u64>)]) {
    for (cell, number) in cells {
        same(rt, value(outcome, *cell), *number);
    }
}

// 3 + 16 * 2 = 35, and 35 + 16 * 10 = 195.
#[test]
fn each_step_reads_what_is_there(rt: HostRuntime) {
    let mut links = Vec::new(rt.alloc());
    add(&rt, &mut links, 0, 2);
    add(&rt, &mut links, 1, 10);
    let flow = flow_of(&rt, links.as_slice());
    let outcome = in_order(&rt, &flow, 3);
    same(&rt, assert_at(&outcome), None);
    has(
        &rt,
        &outcome,
        &[(0, Some(3)), (1, Some(35)), (2, Some(195))],
    );
}

// 16 + 16 = 32, and 16 - 16 stops.
#[test]
fn a_refusal_keeps_the_cells_before_it(rt: HostRuntime) {
    let mut links = Vec::new(rt.alloc());
    add(&rt, &mut links, 0, 1);
    add(&rt, &mut links, 0, MINUS_ONE);
    let flow = flow_of(&rt, links.as_slice());
    let outcome = in_order(&rt, &flow, 16);
    same(&rt, assert_at(&outcome), Some(1));
    has(&rt, &outcome, &[(1, Some(32)), (2, None)]);
}

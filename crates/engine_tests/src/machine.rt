use crate::checks::same;
use gold_field::{Gold, Op1, Op2};
use items::Items;
use std::process::Abort;
use wit_code::{Machine, Op, Proc, Stop, is_well_formed};

fn gold(n: u64) -> Gold {
    Gold::from_wide(u128::from(n))
}

fn proc<R: AllocGlobal + Abort>(rt: &R, params: u32, slots: u32, body: &[Op]) -> Proc {
    Proc {
        params,
        slots,
        body: Items::from_slice(rt.alloc(), body).expect(rt, "memory"),
    }
}

// The outcome of a step's code that is well formed.
fn outcome<R: AllocGlobal + Abort>(
    rt: &R,
    procs: &[Proc],
    code: &Proc,
    reads: &[Gold],
    fuel: u64,
) -> Result<Vec<Gold>, Stop> {
    assert!(rt; is_well_formed(procs, reads.len(), code));
    Machine::run(rt.alloc(), procs, code, reads, fuel)
}

// A run wrote these numbers.
fn wrote<R: AllocGlobal + Abort>(rt: &R, outcome: Result<Vec<Gold>, Stop>, numbers: &[u64]) {
    let values = outcome.ok().expect(rt, "an end");
    same(rt, values.len(), numbers.len());
    for (value, number) in values.iter().zip(numbers) {
        same(rt, value.get(), *number);
    }
}

// Code of four slots without procedures, that reads 5 and 12.
fn outcome_of<R: AllocGlobal + Abort>(rt: &R, body: &[Op], fuel: u64) -> Result<Vec<Gold>, Stop> {
    let code = proc(rt, 0, 4, body);
    outcome(rt, &[], &code, &[gold(5), gold(12)], fuel)
}

#[test]
fn a_turn_costs_a_unit(rt: HostRuntime) {
    wrote(&rt, outcome_of(&rt, &[Op::Turn], 1), &[]);
    same(
        &rt,
        outcome_of(&rt, &[Op::Turn], 0).err(),
        Some(Stop::FuelSpent),
    );
}

// 12 + 5, 12 / 5 as whole numbers, 12 % 5, -12 and the sum of 1 to 5.
const EACH: [Op; 25] = [
    Op::Read(0, 0),
    Op::Read(1, 1),
    Op::Bin(Op2::Add, 2, 1, 0),
    Op::Write(2),
    Op::Bin(Op2::Quot, 2, 1, 0),
    Op::Write(2),
    Op::Bin(Op2::Rem, 2, 1, 0),
    Op::Write(2),
    Op::Un(Op1::Neg, 2, 1),
    Op::Write(2),
    Op::Const(1, Gold::ZERO),
    Op::Turn,
    Op::JumpZero(0, 17),
    Op::Bin(Op2::Add, 1, 1, 0),
    Op::Const(3, Gold::ONE),
    Op::Bin(Op2::Sub, 0, 0, 3),
    Op::Jump(11),
    Op::Write(1),
    Op::Move(0, 3),
    Op::Bound(0, 2),
    Op::Assert(0),
    Op::Check(0, 3),
    Op::Store(2, 0, 1),
    Op::Load(2, 2, 0),
    Op::Write(2),
];

#[test]
fn each_instruction(rt: HostRuntime) {
    let numbers = [17, 2, 2, 18446744069414584309, 15, 15];
    wrote(&rt, outcome_of(&rt, &EACH, 6), &numbers);
    same(&rt, outcome_of(&rt, &EACH, 5).err(), Some(Stop::FuelSpent));
}

fn stops<R: AllocGlobal + Abort>(rt: &R, body: &[Op], stop: Stop) {
    same(rt, outcome_of(rt, body, 0).err(), Some(stop));
}

#[test]
fn what_is_false_stops(rt: HostRuntime) {
    let check = [Op::Read(0, 0), Op::Check(0, 1)];
    stops(&rt, &check, Stop::ConstraintFails);
    stops(&rt, &[Op::Assert(0)], Stop::AssertFails);
    stops(&rt, &[Op::Bin(Op2::Div, 0, 1, 2)], Stop::ZeroDivisor);
}

#[test]
fn an_index_out_of_bounds_stops(rt: HostRuntime) {
    let bound = [Op::Read(0, 0), Op::Bound(0, 6), Op::Bound(0, 5)];
    stops(&rt, &bound, Stop::IndexOut);
    stops(&rt, &[Op::Read(0, 0), Op::Load(1, 0, 0)], Stop::IndexOut);
    stops(&rt, &[Op::Store(4, 0, 0)], Stop::IndexOut);
}

// A procedure that calls itself n times and answers n, and a step that calls it with what it reads.
const DOWN: [Op; 6] = [
    Op::JumpZero(0, 6),
    Op::Const(1, Gold::ONE),
    Op::Bin(Op2::Sub, 0, 0, 1),
    Op::Call(0, 0, 2),
    Op::Bin(Op2::Add, 2, 2, 1),
    Op::Return(2),
];

const CALL: [Op; 3] = [Op::Read(1, 0), Op::Call(0, 1, 0), Op::Write(0)];

fn depth_of<R: AllocGlobal + Abort>(rt: &R, n: u64, fuel: u64) -> Result<Vec<Gold>, Stop> {
    let procs = [proc(rt, 1, 3, &DOWN)];
    let code = proc(rt, 0, 2, &CALL);
    outcome(rt, &procs, &code, &[gold(n)], fuel)
}

#[test]
fn at_most_256_calls_are_open(rt: HostRuntime) {
    wrote(&rt, depth_of(&rt, 255, 256), &[255]);
    same(&rt, depth_of(&rt, 255, 255).err(), Some(Stop::FuelSpent));
    same(&rt, depth_of(&rt, 256, 257).err(), Some(Stop::TooDeep));
    same(&rt, depth_of(&rt, 256, 256).err(), Some(Stop::FuelSpent));
}

// Code of one slot, how many numbers it reads, and whether it is well formed.
const FORMS: [(Op, usize, bool); 5] = [
    (Op::Move(0, 1), 0, false),
    (Op::Jump(0), 0, false),
    (Op::Read(0, 2), 2, false),
    (Op::Read(0, 2), 3, true),
    (Op::Return(0), 0, false),
];

#[test]
fn ill_formed_code_is_found(rt: HostRuntime) {
    for (op, reads, is_formed) in FORMS.as_slice() {
        let code = proc(&rt, 0, 1, &[*op]);
        same(&rt, is_well_formed(&[], *reads, &code), *is_formed);
    }
}

ghost use Rattle.std.specs.Prelude.{◌≡◌, ◌+◌, ◌<◌, ◌≤◌, ◌↔◌, IsTrue, Some, not};
ghost use Rattle.wit_code.specs.Code.{AreProcs, EachFits, Fits, IsCode, IsWellFormed, Leads};
ghost use Rattle.wit_code.specs.Code.{MayCall, MayJump, MayRead, Names, StandsInProc, StandsInStep};

use crate::code::{Op, Proc, Stands};
use gold_field::P;

/// Whether the code of a step that reads `reads` numbers is well formed, with the procedures that
/// it calls. In time linear in all the code.
pub fn is_well_formed(procs: &[Proc], reads: usize, code: &Proc) -> bool
    ensures { IsTrue result ↔ IsWellFormed procs.now reads code.now }
{
    if code.params != 0 {
        return false;
    }
    is_code(procs, Stands::InStep(reads), code) && are_procs(procs)
}

fn are_procs(procs: &[Proc]) -> bool
    ensures { IsTrue result ↔ AreProcs procs.now }
{
    for proc in procs {
        if !is_code(procs, Stands::InProc, proc) {
            return false;
        }
    }
    true
}

fn is_code(procs: &[Proc], stands: Stands, code: &Proc) -> bool
    ensures { IsTrue result ↔ IsCode procs.now stands code.now }
{
    code.params <= code.slots && each_fits(procs, stands, code)
}

fn each_fits(procs: &[Proc], stands: Stands, code: &Proc) -> bool
    ensures { IsTrue result ↔ EachFits procs.now stands code.now }
{
    let body = code.body.as_slice();
    for place in 0..body.len() {
        if !fits(procs, stands, code, place, &body[place]) {
            return false;
        }
    }
    true
}

fn fits(procs: &[Proc], stands: Stands, code: &Proc, place: usize, op: &Op) -> bool
    ensures { IsTrue result ↔ Fits procs.now stands code.now place op.now }
{
    names(procs, stands, code.slots, op) && may_jump(code.body.as_slice(), place, op)
}

fn names(procs: &[Proc], stands: Stands, slots: u32, op: &Op) -> bool
    ensures { IsTrue result ↔ Names procs.now stands slots op.now }
{
    match *op {
        Op::Const(d, v) => {
            prove!(v.get() < P);
            d < slots
        }
        Op::Move(d, a) => d < slots && a < slots,
        Op::Read(d, i) => d < slots && may_read(stands, i),
        Op::Un(_, d, a) => d < slots && a < slots,
        Op::Bin(_, d, a, b) => d < slots && a < slots && b < slots,
        Op::Bound(a, _) => a < slots,
        Op::Load(d, _, a) => d < slots && a < slots,
        Op::Store(_, a, b) => a < slots && b < slots,
        Op::Jump(_) => true,
        Op::JumpZero(a, _) => a < slots,
        Op::Turn => true,
        Op::Call(f, first, d) => d < slots && may_call(procs, slots, f, first),
        Op::Return(a) => a < slots && !in_step(stands),
        Op::Check(a, b) => a < slots && b < slots && in_step(stands),
        Op::Assert(a) => a < slots,
        Op::Write(a) => a < slots && in_step(stands),
    }
}

fn in_step(stands: Stands) -> bool
    ensures step { IsTrue result ↔ StandsInStep stands }
    ensures proc { IsTrue (not result) ↔ StandsInProc stands }
{
    match stands {
        Stands::InStep(_) => true,
        Stands::InProc => false,
    }
}

fn may_read(stands: Stands, i: u32) -> bool
    ensures { IsTrue result ↔ MayRead stands i }
{
    match stands {
        Stands::InStep(reads) => (i as usize) < reads,
        Stands::InProc => false,
    }
}

fn may_call(procs: &[Proc], slots: u32, f: u32, first: u32) -> bool
    ensures { IsTrue result ↔ MayCall procs.now slots f first }
{
    match procs.get(f as usize) {
        Some(callee) => first as u64 + callee.params as u64 <= slots as u64,
        None => false,
    }
}

fn may_jump(body: &[Op], place: usize, op: &Op) -> bool
    ensures { IsTrue result ↔ MayJump body.now place op.now }
{
    match *op {
        Op::Jump(to) => leads(body, place, to as usize),
        Op::JumpZero(_, to) => leads(body, place, to as usize),
        _ => true,
    }
}

fn leads(body: &[Op], place: usize, to: usize) -> bool
    ensures { IsTrue result ↔ Leads body.now place to }
{
    if place < to {
        to <= body.len()
    } else {
        to < body.len() && matches!(body[to], Op::Turn)
    }
}

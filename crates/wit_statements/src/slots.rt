//! How many slots a frame has.
ghost use Rattle.std.specs.Prelude.{◌≡◌, map, IfOk};
ghost use Rattle.cir_rules.specs.Shown.{made_of};
ghost use Rattle.wit_lower.specs.Pieces as L;
ghost use Rattle.wit_lower.specs.Procedures.{params_at, params_of};

use cir_arrays::made_elements;
use cir_rules::Made;
use numbers::{TooLarge, behind};
use wit_code::Op;

/// How many slots the arguments of a procedure take.
pub fn params_of(key: &Made) -> Result<u32, TooLarge>
    ensures { IfOk result (λ n. n ≡ params_of (made_of key.now)) }
{
    let mut params = 0;
    for dims in key.shapes.as_slice() {
        params = behind(params, made_elements(dims.as_slice()))?;
    }
    Ok(params)
}

fn params_at(keys: &[Made], f: u32) -> Result<u32, TooLarge>
    ensures { IfOk result (λ n. n ≡ params_at (map made_of keys.now) f) }
{
    match keys.get(f as usize) {
        Some(key) => params_of(key),
        None => Ok(0),
    }
}

/// How many slots an instruction names.
fn named(keys: &[Made], op: &Op) -> Result<u32, TooLarge>
    ensures { IfOk result (λ n. n ≡ L.named (params_at (map made_of keys.now)) op.now) }
{
    match *op {
        Op::Const(d, _) | Op::Read(d, _) => behind(d, 1),
        Op::Move(d, a) | Op::Un(_, d, a) | Op::Load(d, _, a) => behind(d.max(a), 1),
        Op::Bin(_, d, a, b) => behind(d.max(a.max(b)), 1),
        Op::Store(_, s, a) => behind(s.max(a), 1),
        Op::Check(a, b) => behind(a.max(b), 1),
        Op::Bound(s, _) | Op::JumpZero(s, _) => behind(s, 1),
        Op::Return(s) | Op::Assert(s) | Op::Write(s) => behind(s, 1),
        Op::Jump(_) | Op::Turn => Ok(0),
        Op::Call(f, first, d) => {
            let arguments = behind(first, u64::from(params_at(keys, f)?))?;
            Ok(behind(d, 1)?.max(arguments))
        }
    }
}

/// A frame has the slots that its code names.
pub fn most_named(keys: &[Made], code: &[Op]) -> Result<u32, TooLarge>
    ensures { IfOk result (λ n. n ≡ L.most_named (params_at (map made_of keys.now)) code.now) }
{
    let mut most = 0;
    for op in code {
        most = most.max(named(keys, op)?);
    }
    Ok(most)
}

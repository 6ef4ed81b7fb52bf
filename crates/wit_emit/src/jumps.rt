//! Jumps whose ends are told later.
ghost use Rattle.std.specs.Prelude.{◌≡◌, ◌+◌, ◌<◌, [], ◌∷◌, ◌++◌, length, slice_set, IfOk, OnOk};
ghost use Rattle.std.specs.Prelude.{◌≤◌, IfErr};
ghost use Rattle.wit_code.specs.declared.code.Op.TheVariants as op;

use items::Items;
use numbers::{TooLarge, narrow};
use std::alloc::AllocError;
use wit_code::Op;

/// The place so far behind another one, as a jump names it.
pub fn narrow_place(place: usize, count: u64) -> Result<u32, TooLarge>
    ensures ok { IfOk result (λ n. n ≡ place + count) }
    ensures err { IfErr result (λ _. 4294967296 ≤ place + count) }
{
    narrow((place as u64).checked_add(count).ok_or(TooLarge)?)
}

/// The place of a jump that stands here until its end is told.
pub fn begin_jump(code: &mut Items<Op>, s: u32) -> Result<usize, AllocError>
    ensures place { IfOk result (λ n. n ≡ length code.old) }
    ensures code { OnOk result (code.new ≡ code.old ++ op.JumpZero s 0 ∷ []) }
{
    let place = code.len();
    code.push(Op::JumpZero(s, 0))?;
    Ok(place)
}

/// The first of two pieces ends here: the jump over it leads behind the one that stands here until
/// its end is told.
pub fn begin_other(code: &mut Items<Op>, jump: usize, s: u32) -> Result<usize, AllocError>
    requires { jump < length code.old }
    ensures place { IfOk result (λ n. n ≡ length code.old) }
    ensures code { OnOk result (code.new ≡ slice_set (code.old ++ op.JumpZero s 0 ∷ []) jump
        (op.JumpZero s (length code.old + 1))) }
{
    let place = code.len();
    let end = narrow_place(place, 1)?;
    code.push(Op::JumpZero(s, 0))?;
    code.set(jump, Op::JumpZero(s, end));
    Ok(place)
}

/// The jump leads to the end of the code so far, where slot `s` is 0.
pub fn end_jump_zero(code: &mut Items<Op>, jump: usize, s: u32) -> Result<(), AllocError>
    requires { jump < length code.old }
    ensures { OnOk result (code.new ≡ slice_set code.old jump
        (op.JumpZero s (length code.old))) }
{
    let end = narrow_place(code.len(), 0)?;
    code.set(jump, Op::JumpZero(s, end));
    Ok(())
}

/// The jump leads to the end of the code so far.
pub fn end_jump(code: &mut Items<Op>, jump: usize) -> Result<(), AllocError>
    requires { jump < length code.old }
    ensures { OnOk result (code.new ≡ slice_set code.old jump (op.Jump (length code.old))) }
{
    let end = narrow_place(code.len(), 0)?;
    code.set(jump, Op::Jump(end));
    Ok(())
}

/// A loop begins with its body: the jump to the test stands here until its end is told.
pub fn begin_turns(code: &mut Items<Op>) -> Result<usize, AllocError>
    ensures place { IfOk result (λ n. n ≡ length code.old) }
    ensures code { OnOk result (code.new ≡ code.old ++ op.Jump 0 ∷ op.Turn ∷ []) }
{
    let place = code.len();
    code.push(Op::Jump(0))?;
    code.push(Op::Turn)?;
    Ok(place)
}

/// Behind the test, whose number is in slot `s`, the loop ends or takes a turn.
pub fn end_turns(code: &mut Items<Op>, jump: usize, s: u32) -> Result<(), AllocError>
    ensures { OnOk result (code.new ≡ code.old
        ++ op.JumpZero s (length code.old + 2) ∷ op.Jump (jump + 1) ∷ []) }
{
    let end = narrow_place(code.len(), 2)?;
    code.push(Op::JumpZero(s, end))?;
    code.push(Op::Jump(narrow_place(jump, 1)?))?;
    Ok(())
}

//! Pieces of code.
ghost use Rattle.std.specs.Prelude.{◌≡◌, ◌+◌, ◌%◌, ◌==◌, ◌++◌, [], ◌∷◌, if◌then◌else◌, OnOk};
ghost use Rattle.gold_field.specs.declared.gold.TheConstants.{P};
ghost use Rattle.cir_meaning.specs.Places.{elements};
ghost use Rattle.wit_lower.specs.Pieces as L;
ghost use Rattle.wit_code.specs.declared.code.Op.TheVariants as op;
ghost use Rattle.gold_field.specs.declared.operators.Op2.TheVariants as op2;

use gold_field::{Gold, Op1, Op2};
use items::Items;
use numbers::{behind, narrow};
use std::alloc::AllocError;
use wit_code::Op;

/// 1 in the place of every number but 0.
pub fn truth(code: &mut Items<Op>, s: u32) -> Result<(), AllocError>
    ensures { OnOk result (code.new ≡ code.old ++ L.truth_code s) }
{
    code.push(Op::Un(Op1::Not, s, s))?;
    code.push(Op::Un(Op1::Not, s, s))?;
    Ok(())
}

/// Numbers in a row to other slots.
pub fn moves(code: &mut Items<Op>, to: u32, from: u32, count: u64) -> Result<(), AllocError>
    ensures { OnOk result (code.new ≡ code.old ++ L.moves to from count) }
{
    let mut left = count;
    while left > 0 {
        left -= 1;
        code.push(Op::Move(behind(to, left)?, behind(from, left)?))?;
    }
    Ok(())
}

/// Elements in a row, from the place that slot `to` holds on.
pub fn loads(code: &mut Items<Op>, to: u32, base: u32, count: u64) -> Result<(), AllocError>
    ensures { OnOk result (code.new ≡ code.old ++ L.loads to base count) }
{
    let mut left = count;
    while left > 0 {
        left -= 1;
        code.push(Op::Load(behind(to, left)?, behind(base, left)?, to))?;
    }
    Ok(())
}

/// Numbers in a row into such elements.
pub fn stores(
    code: &mut Items<Op>,
    base: u32,
    s: u32,
    from: u32,
    count: u64,
) -> Result<(), AllocError>
    ensures { OnOk result (code.new ≡ code.old ++ L.stores base s from count) }
{
    let mut left = count;
    let mut to = base;
    let mut at = from;
    while left > 0 {
        code.push(Op::Store(to, s, at))?;
        to = behind(to, 1)?;
        at = behind(at, 1)?;
        left -= 1;
    }
    Ok(())
}

/// A row of zeros.
pub fn zeros(code: &mut Items<Op>, to: u32, count: u64) -> Result<(), AllocError>
    ensures { OnOk result (code.new ≡ code.old ++ L.zeros to count) }
{
    let mut left = count;
    let mut at = to;
    while left > 0 {
        code.push(Op::Const(at, Gold::ZERO))?;
        at = behind(at, 1)?;
        left -= 1;
    }
    Ok(())
}

/// Numbers that are known.
pub fn constants(code: &mut Items<Op>, to: u32, numbers: &[u64]) -> Result<(), AllocError>
    ensures { OnOk result (code.new ≡ code.old ++ L.constants to numbers.now) }
{
    let mut at = to;
    for n in numbers {
        code.push(Op::Const(at, Gold::from_wide(u128::from(*n))))?;
        at = behind(at, 1)?;
    }
    Ok(())
}

/// Each index, in a row from slot `s` on, is tested against its dimension.
pub fn bounds(code: &mut Items<Op>, s: u32, dims: &[u64], count: usize) -> Result<(), AllocError>
    ensures { OnOk result (code.new ≡ code.old ++ L.bounds s dims.now count) }
{
    let Some((d, rest)) = dims.split_first() else {
        return Ok(());
    };
    if count == 0 {
        return Ok(());
    }
    code.push(Op::Bound(s, narrow(*d)?))?;
    bounds(code, behind(s, 1)?, rest, count - 1)?;
    Ok(())
}

/// How many elements a row has, modulo `P`.
#[tactic(auto, using(crate::proofs::Rows::row_times))]
fn row(dims: &[u64]) -> Gold
    ensures { result ≡ elements dims.now % P }
{
    match dims.split_first() {
        None => Gold::ONE,
        Some((d, rest)) => Gold::from_wide(u128::from(*d)).mul(row(rest)),
    }
}

#[tactic(auto, using(crate::proofs::Rows::not_one))]
fn is_one(dims: &[u64]) -> bool
    ensures { result ≡ (elements dims.now == 1) }
{
    match dims.split_first() {
        None => true,
        Some((d, rest)) => *d == 1 && is_one(rest),
    }
}

/// The place that `n + 1` indices mean comes to slot `s`.
pub fn offset(code: &mut Items<Op>, s: u32, dims: &[u64], n: usize) -> Result<(), AllocError>
    ensures { OnOk result (code.new ≡ code.old ++ L.offset_code s dims.now n) }
{
    let Some((d, rest)) = dims.split_first() else {
        return Ok(());
    };
    code.push(Op::Bound(s, narrow(*d)?))?;
    let next = behind(s, 1)?;
    if n == 0 {
        return scaled(code, s, next, rest);
    }
    offset(code, next, rest, n - 1)?;
    let behind_next = behind(s, 2)?;
    code.push(Op::Const(behind_next, row(rest)))?;
    code.push(Op::Bin(Op2::Mul, s, s, behind_next))?;
    code.push(Op::Bin(Op2::Add, s, s, next))?;
    Ok(())
}

/// The index in slot `s` counts whole rows.
fn scaled(code: &mut Items<Op>, s: u32, next: u32, rest: &[u64]) -> Result<(), AllocError>
    requires { next ≡ s + 1 }
    ensures { OnOk result (code.new ≡ code.old ++ (if elements rest.now == 1 then []
        else op.Const (s + 1) (elements rest.now % P) ∷ op.Bin op2.Mul s s (s + 1) ∷ [])) }
{
    if !is_one(rest) {
        code.push(Op::Const(next, row(rest)))?;
        code.push(Op::Bin(Op2::Mul, s, s, next))?;
    }
    Ok(())
}

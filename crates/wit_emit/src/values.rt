//! The code of expressions. The numbers of a value come to the slots from `top` on, which are free.
ghost use Rattle.std.specs.Prelude.{◌≡◌, [], ◌++◌, length, IfOk, OnOk};
ghost use Rattle.cir_ast.specs.Tree.{bare, bare_exprs, as_accessors};
ghost use Rattle.wit_lower.specs.Homes as L;
ghost use Rattle.wit_lower.specs.Pieces as P;
ghost use Rattle.wit_lower.specs.Values as V;
ghost use Rattle.cir_evaluate.specs.Parts.{operator_by};
ghost use Rattle.wit_emit.specs.Emitted as E;
ghost use Rattle.wit_sourced.specs.Shown.{homes_of};
ghost use Rattle.wit_emit.specs.Grounds.{ground_of};

use crate::calls::emit_call;
use crate::ground::{Front, Ground};
use crate::jumps::{begin_jump, begin_other, end_jump, end_jump_zero};
use crate::pieces::{bounds, constants, truth};
use crate::reading::read;
use crate::shapes::size_of;
use cir_ast::program::{Accessor, Expr, Meant};
use cir_evaluate::{Operator, op_of, operator_of};
use gold_field::Gold;
use items::Items;
use numbers::behind;
use std::alloc::AllocError;
use wit_code::Op;
use wit_sourced::Scope;

/// What a known left operand decides.
fn decided(op: Operator, left: Option<u64>) -> Option<Gold>
    ensures { result ≡ P.decided (operator_by op) left }
{
    match (op, left) {
        (Operator::And, Some(0)) => Some(Gold::ZERO),
        (Operator::And, _) => None,
        (Operator::Or, Some(0)) => None,
        (Operator::Or, Some(_)) => Some(Gold::ONE),
        (Operator::Or, None) => None,
        (Operator::Strict(_), _) => None,
    }
}

/// What the left operand decides; only a lazy operator asks for its number.
pub fn decided_by(ground: &Ground, op: Operator, left: &Expr) -> Result<Option<Gold>, AllocError>
    ensures { IfOk result (λ n. n
        ≡ P.decided (operator_by op) ((ground_of ground.now).known (bare left.now))) }
{
    match op {
        Operator::Strict(_) => Ok(None),
        Operator::And | Operator::Or => {
            let number = ground.known(left)?;
            Ok(decided(op, number))
        }
    }
}

/// The code of an expression.
#[cycle(emitting)]
pub fn emit(
    ground: &Ground,
    scope: &Scope,
    code: &mut Items<Op>,
    top: u32,
    e: &Expr,
) -> Result<(), AllocError>
    ensures { OnOk result (code.new ≡ code.old ++ V.expr_code (ground_of ground.now)
        (homes_of scope.now.homes.items) top (length code.old) (bare e.now)) }
{
    match e {
        Expr::Number(n) => {
            code.push(Op::Const(top, Gold::from_wide(*n)))?;
            Ok(())
        }
        Expr::Place(place) => {
            emit_place(
                ground,
                scope,
                code,
                top,
                place.meant,
                place.accessors.as_slice(),
            )?;
            Ok(())
        }
        Expr::Parentheses(inner) => emit(ground, scope, code, top, inner),
        Expr::Array(elements) => {
            emit_all(ground, scope, code, top, elements.as_slice())?;
            Ok(())
        }
        Expr::Unary(op, a) => {
            emit(ground, scope, code, top, a)?;
            code.push(Op::Un(op_of(*op), top, top))?;
            Ok(())
        }
        Expr::Binary(op, a, b) => {
            emit(ground, scope, code, top, a)?;
            let op = operator_of(*op);
            let known = decided_by(ground, op, a)?;
            emit_right(ground, scope, code, top, known, op, b)?;
            Ok(())
        }
        Expr::Choice(c, a, b) => {
            emit(ground, scope, code, top, c)?;
            let condition = ground.known(c)?;
            match condition {
                Some(0) => emit(ground, scope, code, top, b),
                Some(_) => emit(ground, scope, code, top, a),
                None => {
                    let other = begin_jump(code, top)?;
                    emit(ground, scope, code, top, a)?;
                    let last = begin_other(code, other, top)?;
                    emit(ground, scope, code, top, b)?;
                    end_jump(code, last)?;
                    Ok(())
                }
            }
        }
        Expr::Call(_, _, meant, arguments) => match ground.called(e) {
            Some(value) => {
                constants(code, top, value.items.as_slice())?;
                Ok(())
            }
            None => {
                emit_all(ground, scope, code, top, arguments.as_slice())?;
                emit_call(ground, scope, code, top, *meant, arguments.as_slice())?;
                Ok(())
            }
        },
        Expr::Anonymous(_) => Ok(()),
    }
}

/// An operator behind its left operand, which may decide.
#[cycle(emitting)]
pub fn emit_right(
    ground: &Ground,
    scope: &Scope,
    code: &mut Items<Op>,
    top: u32,
    decided: Option<Gold>,
    op: Operator,
    b: &Expr,
) -> Result<(), AllocError>
    ensures { OnOk result (code.new ≡ code.old ++ E.right_code (ground_of ground.now)
        (homes_of scope.now.homes.items) top (length code.old) decided (operator_by op)
        (bare b.now)) }
{
    if let Some(n) = decided {
        code.push(Op::Const(top, n))?;
        return Ok(());
    }
    match op {
        Operator::Strict(op) => {
            let next = behind(top, 1)?;
            emit(ground, scope, code, next, b)?;
            code.push(Op::Bin(op, top, top, next))?;
        }
        Operator::And => {
            let jump = begin_jump(code, top)?;
            emit(ground, scope, code, top, b)?;
            truth(code, top)?;
            end_jump_zero(code, jump, top)?;
        }
        Operator::Or => {
            let other = begin_jump(code, top)?;
            code.push(Op::Const(top, Gold::ONE))?;
            let last = begin_other(code, other, top)?;
            emit(ground, scope, code, top, b)?;
            truth(code, top)?;
            end_jump(code, last)?;
        }
    }
    Ok(())
}

/// One value behind the other.
#[cycle(emitting)]
pub fn emit_all(
    ground: &Ground,
    scope: &Scope,
    code: &mut Items<Op>,
    top: u32,
    es: &[Expr],
) -> Result<(), AllocError>
    ensures { OnOk result (code.new ≡ code.old ++ V.exprs_code (ground_of ground.now)
        (homes_of scope.now.homes.items) top (length code.old) (bare_exprs es.now)) }
{
    let mut at = top;
    for e in es {
        emit(ground, scope, code, at, e)?;
        at = behind(at, size_of(ground, scope, e)?)?;
    }
    Ok(())
}

/// The code of a place; the indices so far stand from `top` on.
#[cycle(emitting)]
pub fn emit_place(
    ground: &Ground,
    scope: &Scope,
    code: &mut Items<Op>,
    top: u32,
    meant: Meant,
    accessors: &[Accessor],
) -> Result<(), AllocError>
    ensures { OnOk result (code.new ≡ code.old ++ V.place_code (ground_of ground.now)
        (homes_of scope.now.homes.items) top (length code.old) (L.Named meant) []
        (as_accessors accessors.now)) }
{
    let mut front = Front::Named(meant);
    let mut indices = Vec::new(ground.alloc);
    for accessor in accessors {
        let next = behind(top, indices.len() as u64)?;
        match accessor {
            Accessor::Index(e) => {
                emit(ground, scope, code, next, e)?;
                let index = ground.known(e)?;
                indices.push(index)?;
            }
            Accessor::Member(name) => {
                bounds(code, top, ground.component_dims(front), indices.len())?;
                front = ground.port_of(scope, front, indices.as_slice(), name.as_slice())?;
                indices = Vec::new(ground.alloc);
            }
        }
    }
    read(code, front.home(scope), top, indices.len())?;
    Ok(())
}

//! The code of assignments: the value, the indices, then the write.
ghost use Rattle.std.specs.Prelude.{◌≡◌, ◌+◌, [], ◌∷◌, ◌++◌, length, OnOk};
ghost use Rattle.cir_ast.specs.Tree.{bare_assign, as_accessors, place_accessors};
ghost use Rattle.cir_meaning.specs.Reached.{indices_count as count_of};
ghost use Rattle.wit_lower.specs.Homes as L;
ghost use Rattle.wit_lower.specs.Values as V;
ghost use Rattle.wit_lower.specs.Statements as S;
ghost use Rattle.wit_code.specs.declared.code.Op.TheVariants as op;
ghost use Rattle.wit_statements.specs.Parts as E;
ghost use Rattle.wit_sourced.specs.Shown.{homes_of, scope_of};
ghost use Rattle.wit_emit.specs.Grounds.{ground_of};

use cir_ast::program::{Accessor, Assign, Expr, Place};
use cir_evaluate::{Operator, compound_operator};
use gold_field::{Gold, Op2};
use items::Items;
use numbers::behind;
use std::alloc::AllocError;
use wit_code::Op;
use wit_emit::{Front, Ground, emit, emit_place, emit_right, size_of, write};
use wit_sourced::Scope;

/// The code of an assignment.
pub fn emit_assign(
    ground: &Ground,
    scope: &Scope,
    code: &mut Items<Op>,
    a: &Assign,
) -> Result<(), AllocError>
    ensures { OnOk result (code.new ≡ code.old ++ S.assign_code (ground_of ground.now)
        (scope_of scope.now) (length code.old) (bare_assign a.now)) }
{
    match a {
        Assign::Set(place, e) => {
            emit(ground, scope, code, scope.top, e)?;
            emit_write(ground, scope, code, size_of(ground, scope, e)?, place)?;
            Ok(())
        }
        Assign::Compound(place, op, e) => {
            emit_read(ground, scope, code, place)?;
            let op = Operator::Strict(compound_operator(*op));
            emit_right(ground, scope, code, scope.top, None, op, e)?;
            emit_write(ground, scope, code, 1, place)?;
            Ok(())
        }
        Assign::Increment(place) => {
            emit_read(ground, scope, code, place)?;
            emit_one(code, scope.top, Op2::Add)?;
            emit_write(ground, scope, code, 1, place)?;
            Ok(())
        }
        Assign::Decrement(place) => {
            emit_read(ground, scope, code, place)?;
            emit_one(code, scope.top, Op2::Sub)?;
            emit_write(ground, scope, code, 1, place)?;
            Ok(())
        }
        Assign::Left(_, _, _) => Ok(()),
    }
}

/// The value that a place has.
fn emit_read(
    ground: &Ground,
    scope: &Scope,
    code: &mut Items<Op>,
    place: &Place,
) -> Result<(), AllocError>
    ensures { OnOk result (code.new ≡ code.old ++ V.place_code (ground_of ground.now)
        (homes_of scope.now.homes.items) scope.now.top (length code.old)
        (L.Named place.now.meant) [] (place_accessors place.now)) }
{
    let accessors = place.accessors.as_slice();
    emit_place(ground, scope, code, scope.top, place.meant, accessors)?;
    Ok(())
}

/// An operator whose right operand is 1.
fn emit_one(code: &mut Items<Op>, top: u32, operator: Op2) -> Result<(), AllocError>
    ensures { OnOk result (code.new ≡ code.old
        ++ op.Const (top + 1) 1 ∷ op.Bin operator top top (top + 1) ∷ []) }
{
    let next = behind(top, 1)?;
    code.push(Op::Const(next, Gold::ONE))?;
    code.push(Op::Bin(operator, top, top, next))?;
    Ok(())
}

/// The value, which has so many numbers, is written to a place.
fn emit_write(
    ground: &Ground,
    scope: &Scope,
    code: &mut Items<Op>,
    size: u64,
    place: &Place,
) -> Result<(), AllocError>
    ensures { OnOk result (code.new ≡ code.old ++ E.write_behind (ground_of ground.now)
        (scope_of scope.now) (length code.old) size place.now.meant
        (place_accessors place.now)) }
{
    let accessors = place.accessors.as_slice();
    let top = behind(scope.top, size)?;
    emit_indices(ground, scope, code, top, accessors)?;
    let home = Front::Named(place.meant).home(scope);
    write(code, home, top, indices_count(accessors), scope.top, size)?;
    Ok(())
}

/// The numbers of the indices, one behind the other.
fn emit_indices(
    ground: &Ground,
    scope: &Scope,
    code: &mut Items<Op>,
    top: u32,
    accessors: &[Accessor],
) -> Result<(), AllocError>
    ensures { OnOk result (code.new ≡ code.old ++ V.indices_code (ground_of ground.now)
        (homes_of scope.now.homes.items) top (length code.old) (as_accessors accessors.now)) }
{
    let mut at = top;
    for accessor in accessors {
        match accessor {
            Accessor::Index(e) => emit(ground, scope, code, at, e)?,
            Accessor::Member(_) => return Ok(()),
        }
        at = behind(at, 1)?;
    }
    Ok(())
}

fn indices_count(accessors: &[Accessor]) -> usize
    ensures { result ≡ count_of (as_accessors accessors.now) }
{
    let mut count = 0;
    for accessor in accessors {
        if let Accessor::Index(_) = accessor {
            count += 1;
        }
    }
    count
}

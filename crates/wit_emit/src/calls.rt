//! Calls of procedures.
ghost use Rattle.std.specs.Prelude.{◌≡◌, ◌++◌, OnOk};
ghost use Rattle.cir_ast.specs.Tree.{bare_exprs};
ghost use Rattle.wit_lower.specs.Values as V;
ghost use Rattle.wit_sourced.specs.Shown.{homes_of};
ghost use Rattle.wit_emit.specs.Grounds.{ground_of};

use crate::ground::Ground;
use crate::keys::place_of;
use crate::shapes::shapes_of;
use cir_ast::program::{Expr, Meant};
use cir_rules::Made;
use items::Items;
use numbers::narrow;
use std::alloc::AllocError;
use wit_code::Op;
use wit_sourced::Scope;

/// The call behind its arguments.
pub fn emit_call(
    ground: &Ground,
    scope: &Scope,
    code: &mut Items<Op>,
    top: u32,
    meant: Meant,
    arguments: &[Expr],
) -> Result<(), AllocError>
    ensures { OnOk result (code.new ≡ code.old ++ V.call_code (ground_of ground.now).keys top
        meant (V.shapes_of (ground_of ground.now) (homes_of scope.now.homes.items)
        (bare_exprs arguments.now))) }
{
    let Meant::Function(function) = meant else {
        return Ok(());
    };
    let shapes = shapes_of(ground, scope, arguments)?;
    let number = narrow(place_of(ground.keys, &Made { function, shapes }) as u64)?;
    code.push(Op::Call(number, top, top))?;
    Ok(())
}

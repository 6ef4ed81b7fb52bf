//! What expressions read.
ghost use Rattle.std.specs.Prelude.{◌≡◌, [], IfOk, OnOk, is_some};
ghost use Rattle.cir_ast.specs.Tree.{as_accessors, bare, bare_exprs};
ghost use Rattle.cir_evaluate.specs.Parts.{operator_by};
ghost use Rattle.wit_lower.specs.Pieces.{decided};
ghost use Rattle.cir_emit.specs.Reads as E;
ghost use Rattle.wit_sourced.specs.Loaded.{called_in};
ghost use Rattle.wit_sources.specs.Given.{Reads};
ghost use Rattle.wit_sources.specs.Collected.{Collects, ground_with, homes_in, seen, shapes_in};
ghost use Rattle.wit_sources.specs.Fronts.{front_of};

use crate::found::Found;
use crate::fronts::{Front, port_of};
use crate::inputs::Inputs;
use crate::parts::add_part;
use crate::setting::Setting;
use cir_ast::program::{Accessor, Expr, Meant};
use cir_evaluate::{Operator, operator_of};
use std::alloc::AllocError;
use wit_sourced::{Loaded, number_of};

/// The number that an expression has, as far as sources are found.
pub fn known(setting: &Setting, found: &Found, e: &Expr) -> Result<Option<u64>, AllocError>
    ensures { IfOk result (λ n. n ≡ (ground_with setting.now (shapes_in found.now)
        (seen found.now).list).known (bare e.now)) }
{
    let loaded = Loaded {
        sources: &found.sources,
        components: setting.components,
        changed: setting.changed,
        calls: setting.calls,
    };
    let number = loaded.known(setting.alloc, e)?;
    Ok(number_of(number))
}

/// Whether the value of a call is known.
fn is_called(setting: &Setting, found: &Found, call: &Expr) -> bool
    ensures { result ≡ is_some (called_in setting.now.calls.now (bare call.now)) }
{
    let loaded = Loaded {
        sources: &found.sources,
        components: setting.components,
        changed: setting.changed,
        calls: setting.calls,
    };
    loaded.called(call).is_some()
}

/// Whether a known left operand decides.
fn decides(op: Operator, left: Option<u64>) -> bool
    ensures { result ≡ is_some (decided (operator_by op) left) }
{
    match (op, left) {
        (Operator::And, Some(n)) => n == 0,
        (Operator::Or, Some(n)) => n != 0,
        (Operator::And | Operator::Or, None) | (Operator::Strict(_), _) => false,
    }
}

/// Whether the left operand decides; only a lazy operator asks for its number.
fn is_decided(
    setting: &Setting,
    found: &Found,
    op: Operator,
    left: &Expr,
) -> Result<bool, AllocError>
    ensures { IfOk result (λ decides. decides ≡ is_some (decided (operator_by op)
        ((ground_with setting.now (shapes_in found.now) (seen found.now).list).known
        (bare left.now)))) }
{
    match op {
        Operator::Strict(_) => Ok(false),
        Operator::And | Operator::Or => {
            let number = known(setting, found, left)?;
            Ok(decides(op, number))
        }
    }
}

/// What an expression reads.
#[cycle(collecting)]
pub fn collect<'a, I: Inputs>(
    setting: &Setting,
    inputs: &I,
    found: &mut Found<'a>,
    e: &'a Expr,
) -> Result<(), AllocError>
    ensures shapes { found.new.sources.named.now.shapes
        ≡ found.old.sources.named.now.shapes }
    ensures reads { OnOk result (Collects setting.now (I.offer inputs.now) found.old found.new
        (λ g homes. E.expr_reads g homes (bare e.now))) }
{
    match e {
        Expr::Number(_) | Expr::Anonymous(_) => Ok(()),
        Expr::Place(place) => {
            collect_place(
                setting,
                inputs,
                found,
                place.meant,
                place.accessors.as_slice(),
            )
        }
        Expr::Call(_, _, _, arguments) => {
            if is_called(setting, found, e) {
                return Ok(());
            }
            collect_all(setting, inputs, found, arguments.as_slice())
        }
        Expr::Parentheses(inner) => collect(setting, inputs, found, inner),
        Expr::Array(elements) => collect_all(setting, inputs, found, elements.as_slice()),
        Expr::Unary(_, a) => collect(setting, inputs, found, a),
        Expr::Binary(op, a, b) => {
            collect(setting, inputs, found, a)?;
            if is_decided(setting, found, operator_of(*op), a)? {
                return Ok(());
            }
            collect(setting, inputs, found, b)
        }
        Expr::Choice(c, a, b) => {
            collect(setting, inputs, found, c)?;
            let condition = known(setting, found, c)?;
            match condition {
                Some(0) => collect(setting, inputs, found, b),
                Some(_) => collect(setting, inputs, found, a),
                None => {
                    collect(setting, inputs, found, a)?;
                    collect(setting, inputs, found, b)
                }
            }
        }
    }
}

/// One behind the other.
#[cycle(collecting)]
pub fn collect_all<'a, I: Inputs>(
    setting: &Setting,
    inputs: &I,
    found: &mut Found<'a>,
    es: &'a [Expr],
) -> Result<(), AllocError>
    ensures shapes { found.new.sources.named.now.shapes
        ≡ found.old.sources.named.now.shapes }
    ensures reads { OnOk result (Collects setting.now (I.offer inputs.now) found.old found.new
        (λ g homes. E.exprs_reads g homes (bare_exprs es.now))) }
{
    for e in es {
        collect(setting, inputs, found, e)?;
    }
    Ok(())
}

/// What a place reads: its indices, and the elements that they may mean.
#[cycle(collecting)]
pub fn collect_place<'a, I: Inputs>(
    setting: &Setting,
    inputs: &I,
    found: &mut Found<'a>,
    meant: Meant,
    accessors: &'a [Accessor],
) -> Result<(), AllocError>
    ensures shapes { found.new.sources.named.now.shapes
        ≡ found.old.sources.named.now.shapes }
    ensures reads { OnOk result (Collects setting.now (I.offer inputs.now) found.old found.new
        (λ g homes. E.place_reads g homes (E.Written meant) [] (as_accessors accessors.now))) }
{
    let mut front = Front::Written(meant);
    let mut indices = Vec::new(setting.alloc);
    for accessor in accessors {
        match accessor {
            Accessor::Index(e) => {
                collect(setting, inputs, found, e)?;
                let index = known(setting, found, e)?;
                indices.push(index)?;
            }
            Accessor::Member(name) => {
                front = port_of(setting, front, indices.as_slice(), name.as_slice())?;
                indices = Vec::new(setting.alloc);
            }
        }
    }
    collect_end(setting, inputs, found, front, indices.as_slice())
}

/// The elements of what is named.
fn collect_end<'a, I: Inputs>(
    setting: &Setting,
    inputs: &I,
    found: &mut Found<'a>,
    front: Front<'a>,
    indices: &[Option<u64>],
) -> Result<(), AllocError>
    ensures shapes { found.new.sources.named.now.shapes
        ≡ found.old.sources.named.now.shapes }
    ensures reads { OnOk result (Reads (homes_in found.old) (I.offer inputs.now) (seen found.old)
        (seen found.new) (E.named_part (homes_in found.old) (E.name_of (front_of front.entry))
        indices.now)) }
{
    match front.name() {
        Some(name) => add_part(setting.alloc, inputs, found, name, indices),
        None => Ok(()),
    }
}

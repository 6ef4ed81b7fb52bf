//! Whether the names of expressions have homes, and their calls keys.
ghost use Rattle.std.specs.Prelude.{◌≡◌, [], OnOk, is_some};
ghost use Rattle.cir_ast.specs.Tree.{as_accessors, bare, bare_exprs};
ghost use Rattle.cir_emit.specs.Sourced as H;
ghost use Rattle.wit_lower.specs.Homes as L;
ghost use Rattle.wit_lower.specs.Values as V;
ghost use Rattle.wit_emit.specs.Grounds.{ground_of};
ghost use Rattle.wit_sourced.specs.Shown.{homes_of};

use crate::lack::Lack;
use crate::names::{Arrays, has_end, has_port};
use cir_ast::program::{Accessor, Expr, Meant};
use cir_evaluate::operator_of;
use cir_rules::Made;
use wit_emit::{Front, Ground, decided_by, place_of, shapes_of};
use wit_sourced::Scope;

/// The key of a call.
fn has_key(ground: &Ground, scope: &Scope, meant: Meant, arguments: &[Expr]) -> Result<(), Lack>
    ensures { OnOk result (H.KeyHas (ground_of ground.now).keys meant (V.shapes_of
        (ground_of ground.now) (homes_of scope.now.homes.items) (bare_exprs arguments.now))) }
{
    let Meant::Function(function) = meant else {
        return Ok(());
    };
    let shapes = shapes_of(ground, scope, arguments)?;
    let key = Made { function, shapes };
    if place_of(ground.keys, &key) < ground.keys.calls.len() {
        return Ok(());
    }
    Err(Lack::Key(key))
}

/// An expression.
#[cycle(having)]
pub fn has<A: Arrays>(arrays: &A, ground: &Ground, scope: &Scope, e: &Expr) -> Result<(), Lack>
    ensures { OnOk result (H.HasAll (A.there arrays.now) (ground_of ground.now)
        (homes_of scope.now.homes.items) (bare e.now)) }
{
    match e {
        Expr::Number(_) | Expr::Anonymous(_) => Ok(()),
        Expr::Place(place) => {
            has_place(
                arrays,
                ground,
                scope,
                place.meant,
                place.accessors.as_slice(),
            )
        }
        Expr::Call(_, _, meant, arguments) => {
            if ground.called(e).is_some() {
                return Ok(());
            }
            has_each(arrays, ground, scope, arguments.as_slice())?;
            has_key(ground, scope, *meant, arguments.as_slice())
        }
        Expr::Parentheses(inner) => has(arrays, ground, scope, inner),
        Expr::Array(elements) => {
            if elements.as_slice().is_empty() {
                return Err(Lack::Home);
            }
            has_each(arrays, ground, scope, elements.as_slice())
        }
        Expr::Unary(_, a) => has(arrays, ground, scope, a),
        Expr::Binary(op, a, b) => {
            has(arrays, ground, scope, a)?;
            if decided_by(ground, operator_of(*op), a)?.is_some() {
                return Ok(());
            }
            has(arrays, ground, scope, b)
        }
        Expr::Choice(c, a, b) => {
            has(arrays, ground, scope, c)?;
            match ground.known(c)? {
                Some(0) => has(arrays, ground, scope, b),
                Some(_) => has(arrays, ground, scope, a),
                None => {
                    has(arrays, ground, scope, a)?;
                    has(arrays, ground, scope, b)
                }
            }
        }
    }
}

#[cycle(having)]
fn has_each<A: Arrays>(arrays: &A, ground: &Ground, scope: &Scope, es: &[Expr]) -> Result<(), Lack>
    ensures { OnOk result (H.EachHas (A.there arrays.now) (ground_of ground.now)
        (homes_of scope.now.homes.items) (bare_exprs es.now)) }
{
    for e in es {
        has(arrays, ground, scope, e)?;
    }
    Ok(())
}

/// A place that is read.
#[cycle(having)]
pub fn has_place<A: Arrays>(
    arrays: &A,
    ground: &Ground,
    scope: &Scope,
    meant: Meant,
    accessors: &[Accessor],
) -> Result<(), Lack>
    ensures { OnOk result (H.PlaceHas (A.there arrays.now) (ground_of ground.now)
        (homes_of scope.now.homes.items) (L.Named meant) [] (as_accessors accessors.now)) }
{
    let mut front = Front::Named(meant);
    let mut indices = Vec::new(ground.alloc);
    for accessor in accessors {
        match accessor {
            Accessor::Index(e) => {
                has(arrays, ground, scope, e)?;
                let index = ground.known(e)?;
                indices.push(index)?;
            }
            Accessor::Member(name) => {
                has_port(
                    arrays,
                    ground,
                    scope,
                    front,
                    indices.as_slice(),
                    name.as_slice(),
                )?;
                front = ground.port_of(scope, front, indices.as_slice(), name.as_slice())?;
                indices = Vec::new(ground.alloc);
            }
        }
    }
    has_end(arrays, scope, front)
}

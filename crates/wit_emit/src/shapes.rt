//! The dimensions of expressions.
ghost use Rattle.std.specs.Prelude.{◌≡◌, suc, [], ◌∷◌, map, option_map, IfOk};
ghost use Rattle.std.specs.Option.{option_copied};
ghost use Rattle.cir_ast.specs.Tree.{Array, bare, bare_exprs, as_accessors};
ghost use Rattle.wit_lower.specs.Homes as L;
ghost use Rattle.wit_lower.specs.Values as V;
ghost use Rattle.wit_sourced.specs.Shown.{home_of, homes_of};
ghost use Rattle.wit_emit.specs.Grounds.{ground_of};
ghost use Rattle.wit_sourced.specs.Loaded.{called_of};

use crate::ground::{Front, Ground};
use crate::reading::left;
use cir_arrays::made_elements;
use cir_ast::program::{Accessor, Expr, Meant};
use std::alloc::{AllocError, Global};
use wit_sourced::{Called, Home, Scope};

/// The dimensions of an expression; a call that is made gives a number.
#[cycle(shaping)]
pub fn shape_of(ground: &Ground, scope: &Scope, e: &Expr) -> Result<Vec<u64>, AllocError>
    ensures { IfOk result (λ dims. dims.items ≡ V.shape_of (ground_of ground.now)
        (homes_of scope.now.homes.items) (bare e.now)) }
{
    match e {
        Expr::Place(place) => {
            place_shape(ground, scope, place.meant, place.accessors.as_slice())
        }
        Expr::Parentheses(inner) => shape_of(ground, scope, inner),
        Expr::Array(elements) => literal_shape(ground, scope, elements.as_slice()),
        Expr::Call(_, _, _, _) => called_shape(ground.alloc, ground.called(e)),
        Expr::Number(_)
        | Expr::Anonymous(_)
        | Expr::Unary(_, _)
        | Expr::Binary(_, _, _)
        | Expr::Choice(_, _, _) => Ok(Vec::new(ground.alloc)),
    }
}

fn called_shape(alloc: Global, called: Option<&Called>) -> Result<Vec<u64>, AllocError>
    ensures { IfOk result (λ dims. dims.items
        ≡ V.called_shape (option_map called_of (option_copied called.entry))) }
{
    match called {
        None => Ok(Vec::new(alloc)),
        Some(value) => Ok(Vec::from_slice(alloc, value.dims.as_slice())?),
    }
}

/// The dimensions of an array literal.
#[cycle(shaping)]
fn literal_shape(ground: &Ground, scope: &Scope, es: &[Expr]) -> Result<Vec<u64>, AllocError>
    ensures { IfOk result (λ dims. dims.items ≡ V.shape_of (ground_of ground.now)
        (homes_of scope.now.homes.items) (Array (bare_exprs es.now))) }
{
    match es.split_first() {
        None => Ok(Vec::new(ground.alloc)),
        Some((first, rest)) => {
            let inner = shape_of(ground, scope, first)?;
            behind_count(ground.alloc, rest, inner.as_slice())
        }
    }
}

/// One more dimension in front.
#[tactic(auto, using(crate::proofs::Trees::count_is))]
fn behind_count(alloc: Global, rest: &[Expr], inner: &[u64]) -> Result<Vec<u64>, AllocError>
    ensures { IfOk result (λ dims. dims.items
        ≡ suc (V.count_of (bare_exprs rest.now)) ∷ inner.now) }
{
    let count = (rest.len() as u64).checked_add(1).ok_or(AllocError)?;
    let mut dims = Vec::new(alloc);
    dims.push(count)?;
    dims.extend_from_slice(inner)?;
    Ok(dims)
}

/// The dimensions of a place.
fn place_shape(
    ground: &Ground,
    scope: &Scope,
    meant: Meant,
    accessors: &[Accessor],
) -> Result<Vec<u64>, AllocError>
    ensures { IfOk result (λ dims. dims.items ≡ V.place_shape (ground_of ground.now)
        (homes_of scope.now.homes.items) (L.Named meant) [] (as_accessors accessors.now)) }
{
    let mut front = Front::Named(meant);
    let mut indices = Vec::new(ground.alloc);
    for accessor in accessors {
        match accessor {
            Accessor::Index(e) => {
                let index = ground.known(e)?;
                indices.push(index)?;
            }
            Accessor::Member(name) => {
                front = ground.port_of(scope, front, indices.as_slice(), name.as_slice())?;
                indices = Vec::new(ground.alloc);
            }
        }
    }
    part_shape(ground.alloc, front.home(scope), indices.len())
}

fn part_shape(alloc: Global, home: Option<&Home>, count: usize) -> Result<Vec<u64>, AllocError>
    ensures { IfOk result (λ dims. dims.items
        ≡ V.part_shape (option_map home_of (option_copied home.entry)) count) }
{
    match home {
        None => Ok(Vec::new(alloc)),
        Some(home) => Ok(Vec::from_slice(alloc, left(home.dims.as_slice(), count))?),
    }
}

/// How many slots an expression's value has.
pub fn size_of(ground: &Ground, scope: &Scope, e: &Expr) -> Result<u64, AllocError>
    ensures { IfOk result (λ n. n ≡ V.size_of (ground_of ground.now)
        (homes_of scope.now.homes.items) (bare e.now)) }
{
    let dims = shape_of(ground, scope, e)?;
    Ok(made_elements(dims.as_slice()))
}

/// The dimensions of arguments.
pub fn shapes_of(ground: &Ground, scope: &Scope, es: &[Expr]) -> Result<Vec<Vec<u64>>, AllocError>
    ensures { IfOk result (λ shapes. map (λ d. d.items) shapes.items ≡ V.shapes_of
        (ground_of ground.now) (homes_of scope.now.homes.items) (bare_exprs es.now)) }
{
    let mut shapes = Vec::new(ground.alloc);
    for e in es {
        shapes.push(shape_of(ground, scope, e)?)?;
    }
    Ok(shapes)
}

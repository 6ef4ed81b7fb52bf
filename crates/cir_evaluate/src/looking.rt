//! Dimensions, arguments of templates, and indices of places that are written.
ghost use Rattle.std.specs.Prelude.{◌≡◌, false, [], List, drop, length, map};
ghost use Rattle.cir_ast.specs.Tree.{as_accessors, bare_exprs};
ghost use Rattle.cir_arrays.specs.Stopped.{Gives};
ghost use Rattle.cir_arrays.specs.Shown.{datum_of};
ghost use Rattle.cir_frame.specs.Shown.{state_of};
ghost use Rattle.cir_meaning.specs.Source.{Equation};
ghost use Rattle.cir_meaning.specs.Evaluate as E;
ghost use Rattle.cir_evaluate.specs.Within.{Means, context_at, kept_of, where_at};
ghost use Rattle.cir_evaluate.specs.Parts.{indexed};

use crate::context::Here;
use crate::evaluate::{datum, number};
use crate::operands::number_told;
use cir_arrays::{Datum, Fault};
use cir_ast::Kind;
use cir_ast::program::{Accessor, Expr, Spot};
use cir_frame::{Frame, World};

/// Numbers that must be known: dimensions.
pub fn dims_in<C: Fn(Spot, u32, Vec<Datum>, &mut World) -> Result<Datum, Fault>>(
    here: &Here<C>,
    es: &[Expr],
    frame: &Frame,
    world: &mut World,
) -> Result<Vec<u64>, Fault>
    requires calls { C.IsAlwaysCallable here.now.context.now.call.now }
    ensures value { (m : Means (C.post here.now.context.now.call.now) here.now.context.now)
        (qs : List Equation) → Gives (λ ds. (ds.items, state_of frame.now world.new qs)) result
        (E.dims_in (context_at here.now m) (where_at here.now) here.now.shaded (bare_exprs es.now)
        (state_of frame.now world.old qs)) }
    ensures keeps { Means (C.post here.now.context.now.call.now) here.now.context.now
        → kept_of world.new ≡ kept_of world.old }
{
    let mut dims = Vec::new(here.alloc());
    for e in es {
        let x = number(here, e, frame, world)?;
        match number_told(x) {
            Some(n) => dims.push(n)?,
            None => return Err(here.refused(Kind::UnknownIndex)),
        }
    }
    Ok(dims)
}

/// And the arguments of a template.
pub fn arguments_in<C: Fn(Spot, u32, Vec<Datum>, &mut World) -> Result<Datum, Fault>>(
    here: &Here<C>,
    es: &[Expr],
    frame: &Frame,
    world: &mut World,
) -> Result<Vec<Datum>, Fault>
    requires calls { C.IsAlwaysCallable here.now.context.now.call.now }
    ensures value { (m : Means (C.post here.now.context.now.call.now) here.now.context.now)
        (qs : List Equation) → here.now.shaded ≡ false
        → Gives (λ ds. (map datum_of ds.items, state_of frame.now world.new qs)) result
        (E.arguments_in (context_at here.now m) (where_at here.now) (bare_exprs es.now)
        (state_of frame.now world.old qs)) }
    ensures keeps { Means (C.post here.now.context.now.call.now) here.now.context.now
        → kept_of world.new ≡ kept_of world.old }
{
    let mut all = Vec::with_capacity(here.alloc(), es.len())?;
    for e in es {
        let d = datum(here, e, frame, world)?;
        if !d.is_all_known() {
            return Err(here.refused(Kind::UnknownIndex));
        }
        all.push(d)?;
    }
    Ok(all)
}

/// The indices up to a member or the end, and how many accessors they are.
pub fn indices_in<C: Fn(Spot, u32, Vec<Datum>, &mut World) -> Result<Datum, Fault>>(
    here: &Here<C>,
    accessors: &[Accessor],
    frame: &Frame,
    world: &mut World,
) -> Result<Vec<Option<u64>>, Fault>
    requires calls { C.IsAlwaysCallable here.now.context.now.call.now }
    ensures value { (m : Means (C.post here.now.context.now.call.now) here.now.context.now)
        (qs : List Equation) → Gives (λ is. (
          is.items,
          (as_accessors (drop (length is.items) accessors.now), state_of frame.now world.new qs),
        )) result
        (E.indices_in (context_at here.now m) (where_at here.now) here.now.shaded []
        (as_accessors accessors.now) (state_of frame.now world.old qs) indexed) }
    ensures keeps { Means (C.post here.now.context.now.call.now) here.now.context.now
        → kept_of world.new ≡ kept_of world.old }
{
    let mut indices = Vec::new(here.alloc());
    for accessor in accessors {
        match accessor {
            Accessor::Index(e) => {
                let x = number(here, e, frame, world)?;
                indices.push(number_told(x))?;
            }
            Accessor::Member(_) => return Ok(indices),
        }
    }
    Ok(indices)
}

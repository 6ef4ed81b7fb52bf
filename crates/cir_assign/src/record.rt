//! Constraints that are recorded.
ghost use Rattle.std.specs.Prelude.{◌≡◌, List, Some};
ghost use Rattle.cir_values.specs.Meant.{meant};
ghost use Rattle.cir_meaning.specs.Compile.{group_size};
ghost use Rattle.cir_meaning.specs.Source.{Equation, parts_from};
ghost use Rattle.cir_meaning.specs.Tried.{Where};
ghost use Rattle.cir_meaning.specs.Values.{Value as AnyValue, difference_of, parts_of};
ghost use Rattle.cir_meaning.specs.Frame as M;
ghost use Rattle.cir_meaning.specs.Writing as W;
ghost use Rattle.cir_frame.specs.declared.frame.Frame.{Frame as AnyFrame};
ghost use Rattle.cir_frame.specs.Shown.{state_of, world_of};
ghost use Rattle.cir_evaluate.specs.Within.{where_at};
ghost use Rattle.cir_assign.specs.Leads.{Leads};

use crate::terms::{is_formed, term_count};
use cir_arrays::Fault;
use cir_ast::Kind;
use cir_evaluate::Here;
use cir_frame::World;
use cir_lc::{Quad, in_order, normal};
use cir_values::{Value, difference, quad_of};
use std::alloc::Global;

/// One more constraint, that two values are equal: their difference may not be opaque.
pub fn constrain<C>(here: &Here<C>, x: Value, y: Value, world: &mut World) -> Result<(), Fault>
    ensures equation { (k : M.Context) (f : AnyFrame) (qs : List Equation)
        → k.group_size ≡ group_size → Leads qs world.old f world.new result
        (W.constrained k (where_at here.now) (meant x) (meant y) (state_of f world.old qs)) }
    ensures world { (qs : List Equation) → world_of world.new qs ≡ world_of world.old qs }
{
    let alloc = here.alloc();
    let Some(q) = quad_of(alloc, difference(alloc, x, y)?)? else {
        return Err(here.refused(Kind::NonQuadratic));
    };
    recorded(alloc, &q, world)
}

/// The constraint of a difference of two values.
fn recorded(alloc: Global, q: &Quad, world: &mut World) -> Result<(), Fault>
    ensures equation { (k : M.Context) (w : Where) (x y : AnyValue) (f : AnyFrame)
        (qs : List Equation) → k.group_size ≡ group_size
        → parts_of (difference_of x y) ≡ Some (parts_from q.now)
        → Leads qs world.old f world.new result
        (W.constrained k w x y (state_of f world.old qs)) }
    ensures world { (qs : List Equation) → world_of world.new qs ≡ world_of world.old qs }
{
    let constraint = normal(alloc, q)?;
    is_formed(&q.a);
    is_formed(&q.b);
    is_formed(&q.c);
    in_order(&constraint);
    let terms = term_count(alloc, q, &constraint)?;
    world.added.constraints = world.added.constraints.saturating_add(1);
    world.added.terms = world.added.terms.saturating_add(terms);
    world.constraints.push(constraint)?;
    Ok(())
}

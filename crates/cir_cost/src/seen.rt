//! What an expression is where it stands, asked for once more: nothing is counted, and nothing that
//! is made stays.
ghost use Rattle.std.specs.Prelude.{◌≡◌, List, IfOk, OnOk, option_map};
ghost use Rattle.cir_ast.specs.Tree.{bare};
ghost use Rattle.cir_values.specs.Meant.{meant};
ghost use Rattle.cir_frame.specs.declared.frame.Frame.{Frame as AnyFrame};
ghost use Rattle.cir_arrays.specs.Shown.{datum_of};
ghost use Rattle.cir_frame.specs.Shown.{state_of};
ghost use Rattle.cir_meaning.specs.Source.{Equation};
ghost use Rattle.cir_meaning.specs.Values as V;
ghost use Rattle.cir_meaning.specs.Operators as O;
ghost use Rattle.cir_meaning.specs.Costs as M;
ghost use Rattle.cir_evaluate.specs.Within.{Means, context_at, kept_of, where_at};
ghost use Rattle.cir_evaluate.specs.Parts.{look_shading};

use cir_arrays::{Counts, Datum, Fault};
use cir_ast::program::{Binary, Expr, Spot};
use cir_evaluate::{Here, Look, Operator, datum, operator_of, right_look, side_looks};
use cir_frame::{Frame, World};
use cir_values::{Value, side_of};
use std::alloc::AllocError;

/// What an expression is; none where it is refused.
pub fn seen<C: Fn(Spot, u32, Vec<Datum>, &mut World) -> Result<Datum, Fault>>(
    here: &Here<C>,
    e: &Expr,
    frame: &Frame,
    world: &mut World,
) -> Result<Option<Datum>, AllocError>
    requires calls { C.IsAlwaysCallable here.now.context.now.call.now }
    ensures value { (m : Means (C.post here.now.context.now.call.now) here.now.context.now)
        (qs : List Equation) → IfOk result (λ d. option_map datum_of d
        ≡ M.seen (context_at here.now m) (where_at here.now) here.now.shaded (bare e.now)
        (state_of frame.now world.old qs)) }
    ensures same { (m : Means (C.post here.now.context.now.call.now) here.now.context.now)
        (f : AnyFrame) (qs : List Equation)
        → OnOk result (state_of f world.new qs ≡ state_of f world.old qs) }
    ensures keeps { Means (C.post here.now.context.now.call.now) here.now.context.now
        → kept_of world.new ≡ kept_of world.old }
{
    let counts = world.counts;
    let added = world.added;
    let marks = world.marks();
    world.counts = Counts::NOTHING;
    world.added = Counts::NOTHING;
    let result = datum(here, e, frame, world);
    world.restore(&marks);
    world.counts = counts;
    world.added = added;
    match result {
        Ok(d) => Ok(Some(d)),
        Err(Fault::Refused(_)) => Ok(None),
        Err(Fault::OutOfMemory) => Err(AllocError),
    }
}

/// The number that it is, opaque where it is refused.
pub fn value_seen<C: Fn(Spot, u32, Vec<Datum>, &mut World) -> Result<Datum, Fault>>(
    here: &Here<C>,
    e: &Expr,
    frame: &Frame,
    world: &mut World,
) -> Result<Value, AllocError>
    requires calls { C.IsAlwaysCallable here.now.context.now.call.now }
    ensures value { (m : Means (C.post here.now.context.now.call.now) here.now.context.now)
        (qs : List Equation) → IfOk result (λ v. meant v
        ≡ M.value_of (M.seen (context_at here.now m) (where_at here.now) here.now.shaded
        (bare e.now) (state_of frame.now world.old qs))) }
    ensures same { (m : Means (C.post here.now.context.now.call.now) here.now.context.now)
        (f : AnyFrame) (qs : List Equation)
        → OnOk result (state_of f world.new qs ≡ state_of f world.old qs) }
    ensures keeps { Means (C.post here.now.context.now.call.now) here.now.context.now
        → kept_of world.new ≡ kept_of world.old }
{
    match seen(here, e, frame, world)? {
        None => Ok(Value::Opaque),
        Some(d) => Ok(d.into_item()),
    }
}

/// The number that is known of an index.
pub fn index_seen<C: Fn(Spot, u32, Vec<Datum>, &mut World) -> Result<Datum, Fault>>(
    here: &Here<C>,
    e: &Expr,
    frame: &Frame,
    world: &mut World,
) -> Result<Option<u64>, AllocError>
    requires calls { C.IsAlwaysCallable here.now.context.now.call.now }
    ensures value { (m : Means (C.post here.now.context.now.call.now) here.now.context.now)
        (qs : List Equation) → IfOk result (λ n. n ≡ V.known_number
        (M.value_of (M.seen (context_at here.now m) (where_at here.now) here.now.shaded (bare e.now)
        (state_of frame.now world.old qs)))) }
    ensures same { (m : Means (C.post here.now.context.now.call.now) here.now.context.now)
        (f : AnyFrame) (qs : List Equation)
        → OnOk result (state_of f world.new qs ≡ state_of f world.old qs) }
    ensures keeps { Means (C.post here.now.context.now.call.now) here.now.context.now
        → kept_of world.new ≡ kept_of world.old }
{
    let x = value_seen(here, e, frame, world)?;
    Ok(x.known_number())
}

/// How the right side of an operator is looked at.
pub fn right_look_in<C: Fn(Spot, u32, Vec<Datum>, &mut World) -> Result<Datum, Fault>>(
    here: &Here<C>,
    op: Binary,
    a: &Expr,
    frame: &Frame,
    world: &mut World,
) -> Result<Look, AllocError>
    requires calls { C.IsAlwaysCallable here.now.context.now.call.now }
    ensures look { (m : Means (C.post here.now.context.now.call.now) here.now.context.now)
        (qs : List Equation) → IfOk result (λ look. look_shading look here.now.shaded
        ≡ O.shading (O.left_tells (O.operator_of op) (M.value_of (M.seen (context_at here.now m)
        (where_at here.now) here.now.shaded (bare a.now) (state_of frame.now world.old qs))))
        here.now.shaded) }
    ensures same { (m : Means (C.post here.now.context.now.call.now) here.now.context.now)
        (f : AnyFrame) (qs : List Equation)
        → OnOk result (state_of f world.new qs ≡ state_of f world.old qs) }
    ensures keeps { Means (C.post here.now.context.now.call.now) here.now.context.now
        → kept_of world.new ≡ kept_of world.old }
{
    match operator_of(op) {
        Operator::Strict(_) => Ok(Look::Plain),
        Operator::And | Operator::Or => {
            let x = value_seen(here, a, frame, world)?;
            Ok(right_look(op, &x))
        }
    }
}

/// How the operands of `?:` are looked at.
pub fn side_looks_in<C: Fn(Spot, u32, Vec<Datum>, &mut World) -> Result<Datum, Fault>>(
    here: &Here<C>,
    c: &Expr,
    frame: &Frame,
    world: &mut World,
) -> Result<(Look, Look), AllocError>
    requires calls { C.IsAlwaysCallable here.now.context.now.call.now }
    ensures first { (m : Means (C.post here.now.context.now.call.now) here.now.context.now)
        (qs : List Equation) → IfOk result (λ looks. look_shading looks.0 here.now.shaded
        ≡ O.first_shading (V.side_of (M.value_of (M.seen (context_at here.now m)
        (where_at here.now) here.now.shaded (bare c.now) (state_of frame.now world.old qs))))
        here.now.shaded) }
    ensures second { (m : Means (C.post here.now.context.now.call.now) here.now.context.now)
        (qs : List Equation) → IfOk result (λ looks. look_shading looks.1 here.now.shaded
        ≡ O.second_shading (V.side_of (M.value_of (M.seen (context_at here.now m)
        (where_at here.now) here.now.shaded (bare c.now) (state_of frame.now world.old qs))))
        here.now.shaded) }
    ensures same { (m : Means (C.post here.now.context.now.call.now) here.now.context.now)
        (f : AnyFrame) (qs : List Equation)
        → OnOk result (state_of f world.new qs ≡ state_of f world.old qs) }
    ensures keeps { Means (C.post here.now.context.now.call.now) here.now.context.now
        → kept_of world.new ≡ kept_of world.old }
{
    let x = value_seen(here, c, frame, world)?;
    Ok(side_looks(side_of(&x)))
}

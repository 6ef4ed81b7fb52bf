//! The values that calls of a step have already.
ghost use Rattle.std.specs.Prelude.{◌≡◌, [], List, map, option_map, IfOk, OnOk};
ghost use Rattle.cir_ast.specs.Tree.{bare};
ghost use Rattle.cir_arrays.specs.Shown.{datum_of};
ghost use Rattle.cir_values.specs.Meant.{meant};
ghost use Rattle.cir_frame.specs.declared.frame.Frame.{Frame as AnyFrame};
ghost use Rattle.cir_frame.specs.Shown.{state_of};
ghost use Rattle.cir_meaning.specs.Arrays as A;
ghost use Rattle.cir_meaning.specs.Evaluate.{value_in};
ghost use Rattle.cir_meaning.specs.Frame.{uncounted};
ghost use Rattle.cir_meaning.specs.Run.{known_numbers, known_value, settled, settled_items};
ghost use Rattle.cir_meaning.specs.Source.{Equation};
ghost use Rattle.cir_evaluate.specs.Within.{Means, context_at, kept_of, where_at};
ghost use Rattle.wit_sourced.specs.Loaded.{AreTold, called_of};

use cir_arrays::{Datum, Fault};
use cir_ast::program::{Expr, Spot};
use cir_cost::seen_value;
use cir_evaluate::Here;
use cir_frame::{Frame, World};
use cir_values::Value;
use items::Items;
use std::alloc::{AllocError, Global};
use wit_sourced::{CallValue, Called};

/// The number of a value that is known.
fn settled(v: &Value) -> u64
    ensures { result ≡ settled (meant v.now) 0 }
{
    match v.known_number() {
        Some(n) => n,
        None => 0,
    }
}

fn settled_items(alloc: Global, values: &[Value]) -> Result<Items<u64>, AllocError>
    ensures { IfOk result (λ ns. ns ≡ settled_items (map meant values.now) []) }
{
    let mut numbers = Items::new(alloc);
    for v in values {
        numbers.push(settled(v))?;
    }
    Ok(numbers)
}

/// The numbers of a value, where all of them are known.
fn known_numbers(alloc: Global, d: &Datum) -> Result<Option<Called>, AllocError>
    ensures { IfOk result (λ c. option_map called_of c ≡ known_numbers (datum_of d.now)) }
{
    if !d.is_all_known() {
        return Ok(None);
    }
    match d {
        Datum::Number(v) => {
            let mut items = Items::new(alloc);
            items.push(settled(v))?;
            Ok(Some(Called {
                dims: Items::new(alloc),
                items,
            }))
        }
        Datum::Array(array) => {
            let items = settled_items(alloc, array.items.as_slice())?;
            let dims = Items::from_slice(alloc, array.dims.as_slice())?;
            Ok(Some(Called { dims, items }))
        }
    }
}

/// The value that a call has already where it stands, with what is known there.
fn call_value<C: Fn(Spot, u32, Vec<Datum>, &mut World) -> Result<Datum, Fault>>(
    here: &Here<C>,
    call: &Expr,
    frame: &Frame,
    world: &mut World,
) -> Result<Option<Called>, AllocError>
    requires calls { C.IsAlwaysCallable here.now.context.now.call.now }
    ensures value { (m : Means (C.post here.now.context.now.call.now) here.now.context.now)
        (qs : List Equation) → IfOk result (λ c. option_map called_of c
        ≡ known_value (value_in (context_at here.now m) (where_at here.now) here.now.shaded A.Whole
        (bare call.now) (uncounted (state_of frame.now world.old qs)))) }
    ensures same { (m : Means (C.post here.now.context.now.call.now) here.now.context.now)
        (f : AnyFrame) (qs : List Equation)
        → OnOk result (state_of f world.new qs ≡ state_of f world.old qs) }
    ensures keeps { Means (C.post here.now.context.now.call.now) here.now.context.now
        → kept_of world.new ≡ kept_of world.old }
{
    match seen_value(here, call, frame, world)? {
        None => Ok(None),
        Some(d) => known_numbers(here.alloc(), &d),
    }
}

/// Calls with the values that they have already where they stand.
pub fn call_values<'e, C: Fn(Spot, u32, Vec<Datum>, &mut World) -> Result<Datum, Fault>>(
    here: &Here<C>,
    calls: &[&'e Expr],
    frame: &Frame,
    world: &mut World,
) -> Result<Vec<CallValue<'e>>, AllocError>
    requires calls { C.IsAlwaysCallable here.now.context.now.call.now }
    ensures told { (m : Means (C.post here.now.context.now.call.now) here.now.context.now)
        (qs : List Equation) → IfOk result (λ values. AreTold (λ e. known_value
        (value_in (context_at here.now m) (where_at here.now) here.now.shaded A.Whole e
        (uncounted (state_of frame.now world.old qs)))) values.items) }
    ensures same { (m : Means (C.post here.now.context.now.call.now) here.now.context.now)
        (f : AnyFrame) (qs : List Equation)
        → OnOk result (state_of f world.new qs ≡ state_of f world.old qs) }
    ensures keeps { Means (C.post here.now.context.now.call.now) here.now.context.now
        → kept_of world.new ≡ kept_of world.old }
{
    let mut values = Vec::new(here.alloc());
    for call in calls {
        let value = call_value(here, call, frame, world)?;
        values.push(CallValue { call: *call, value })?;
    }
    Ok(values)
}

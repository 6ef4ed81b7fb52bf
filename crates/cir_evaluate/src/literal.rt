//! Array literals, and what is told of values together.
ghost use Rattle.std.specs.Prelude.{◌≡◌, [], List, ◌++◌, flat_map, map, IfOk, OnOk};
ghost use Rattle.std.specs.List.{list_all};
ghost use Rattle.cir_values.specs.Meant.{meant};
ghost use Rattle.cir_meaning.specs.Arrays.{is_all_known};
ghost use Rattle.cir_meaning.specs.Source.{Equation};
ghost use Rattle.cir_meaning.specs.Evaluate as E;
ghost use Rattle.cir_frame.specs.declared.frame.Frame.{Frame as AnyFrame};
ghost use Rattle.cir_arrays.specs.Stopped.{Gives};
ghost use Rattle.cir_arrays.specs.Shown.{datum_of};
ghost use Rattle.cir_frame.specs.Shown.{state_of};
ghost use Rattle.cir_evaluate.specs.Within.{kept_of, where_at};
ghost use Rattle.cir_evaluate.specs.Literal.{are_of_one_shape, dims_of};

use crate::context::Here;
use cir_arrays::{Contents, Datum, Fault, add_array, same_dims};
use cir_ast::Kind;
use cir_frame::World;
use cir_values::Value;
use std::alloc::{AllocError, Global};
use std::mem::replace;

/// The elements of a literal have one shape.
pub fn gathered<C>(here: &Here<C>, all: Vec<Datum>, world: &mut World) -> Result<Datum, Fault>
    ensures value { (f : AnyFrame) (qs : List Equation)
        → Gives (λ d. (datum_of d, state_of f world.new qs)) result
        (E.gathered (where_at here.now) (map datum_of all.items) (state_of f world.old qs)) }
    ensures keeps { kept_of world.new ≡ kept_of world.old }
{
    if all.is_empty() {
        return Ok(Datum::Number(Value::Opaque));
    }
    if !have_one_shape(all.as_slice()) {
        return Err(here.refused(Kind::ShapeDiffers));
    }
    let dims = literal_dims(here.alloc(), all.as_slice())?;
    add_array(&mut world.added, dims.as_slice());
    let items = items_in(here.alloc(), all)?;
    Ok(Datum::made(here.alloc(), dims, items))
}

fn have_one_shape(all: &[Datum]) -> bool
    ensures { result ≡ are_of_one_shape (map datum_of all.now) }
{
    let [first, rest @ ..] = all else {
        return true;
    };
    for d in rest {
        if !same_dims(d.dims(), first.dims()) {
            return false;
        }
    }
    true
}

fn literal_dims(alloc: Global, all: &[Datum]) -> Result<Vec<u64>, AllocError>
    ensures { IfOk result (λ dims. dims.items ≡ dims_of (map datum_of all.now)) }
{
    let mut dims = Vec::new(alloc);
    if let [first, ..] = all {
        dims.push(all.len() as u64)?;
        dims.extend_from_slice(first.dims())?;
    }
    Ok(dims)
}

fn items_in(alloc: Global, mut all: Vec<Datum>) -> Result<Vec<Value>, AllocError>
    ensures { IfOk result (λ items. map meant items.items
        ≡ flat_map (λ d. d.items) (map datum_of all.items)) }
{
    let mut items = Vec::new(alloc);
    for at in 0..all.len() {
        let d = replace(&mut all[at], Datum::Number(Value::Opaque));
        add_items(&mut items, d)?;
    }
    Ok(items)
}

fn add_items(items: &mut Vec<Value>, d: Datum) -> Result<(), AllocError>
    ensures { OnOk result (map meant items.new.items
        ≡ map meant items.old.items ++ (datum_of d).items) }
{
    match d.into_contents() {
        Contents::Number(v) => {
            items.push(v)?;
            Ok(())
        }
        Contents::Items(more) => add_all(items, more),
    }
}

fn add_all(items: &mut Vec<Value>, mut more: Vec<Value>) -> Result<(), AllocError>
    ensures { OnOk result (map meant items.new.items
        ≡ map meant items.old.items ++ map meant more.items) }
{
    for at in 0..more.len() {
        let v = replace(&mut more[at], Value::Opaque);
        items.push(v)?;
    }
    Ok(())
}

/// Whether all items of all arguments are known.
pub fn is_each_known(all: &[Datum]) -> bool
    ensures { result ≡ list_all is_all_known (map datum_of all.now) }
{
    for d in all {
        if !d.is_all_known() {
            return false;
        }
    }
    true
}

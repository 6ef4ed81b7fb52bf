//! The elements of a part of an array.
ghost use Rattle.std.specs.Prelude.{◌≡◌, [], ◌∷◌, ◌++◌, map, IfOk, IfSome, OnOk, IsTrue, Some};
ghost use Rattle.std.specs.Prelude.{is_some, true};
ghost use Rattle.wit_lower.specs.Homes as L;
ghost use Rattle.wit_lower.specs.Sources as R;
ghost use Rattle.wit_lower.specs.Steps.{IsInput};
ghost use Rattle.cir_arrays.specs.Reached.{places_within};
ghost use Rattle.cir_emit.specs.Reads as E;
ghost use Rattle.wit_sourced.specs.Loads.{input_of, source_of};
ghost use Rattle.wit_sourced.specs.Shown.{home_of, sought_name};
ghost use Rattle.wit_sources.specs.Given.{IsSourceOf, Reads};
ghost use Rattle.wit_sources.specs.Collected.{homes_in, seen};

use crate::found::Found;
use crate::inputs::Inputs;
use cir_arrays::{all_known, made_elements, places_of};
use numbers::behind;
use std::alloc::{AllocError, Global};
use wit_sourced::{Home, Input, Sought, Source, is_inside, offset};

/// A constant is a number of the field.
fn is_constant(input: &Input) -> bool
    ensures { IsInput (input_of input.now) }
{
    match input {
        Input::Constant(n) => {
            let _number = n.get();
            true
        }
        Input::Cell(_) => false,
    }
}

/// So many sources are looked at one by one; the map tells of those behind.
const FEW: usize = 8;

/// One more source, which stands for a slot.
fn push<'a>(
    found: &mut Found<'a>,
    slot: u32,
    name: Sought<'a>,
    element: u64,
    input: Input,
) -> Result<(), AllocError>
    ensures shapes { found.new.sources.named.now.shapes
        ≡ found.old.sources.named.now.shapes }
    ensures list { OnOk result (map source_of found.new.sources.list
        ≡ map source_of found.old.sources.list ++ record {
          name = sought_name name.entry;
          element = element;
          input = input_of input;
        } ∷ []) }
    ensures whole { OnOk result (found.new.is_whole ≡ found.old.is_whole) }
    ensures number { IsInput (input_of input) }
{
    let _constant = is_constant(&input);
    let place = found.sources.list.len();
    found.sources.list.push(Source {
        name,
        element,
        input,
    })?;
    if place >= FEW {
        found.places.insert(slot, place)?;
    }
    Ok(())
}

/// Whether this is an element's source.
fn is_of(source: &Source, name: Sought, element: u64) -> bool
    ensures { IsTrue result → IsSourceOf (sought_name name.entry) element source.now }
{
    source.name.is(name) && source.element == element
}

/// Whether one of the first sources is this element's.
fn is_among_few(list: &[Source], name: Sought, element: u64) -> bool
    ensures { IsTrue result → is_some (R.input_of (sought_name name.entry)
        (map source_of list.now) element) ≡ true }
{
    for n in 0..list.len().min(FEW) {
        if is_of(&list[n], name, element) {
            return true;
        }
    }
    false
}

/// Whether this element has a source, which may be that of its slot.
fn has(found: &Found, slot: u32, name: Sought, element: u64) -> bool
    ensures { IsTrue result → is_some (R.input_of (sought_name name.entry)
        (map source_of found.now.sources.list) element) ≡ true }
{
    let list = found.sources.list.as_slice();
    if is_among_few(list, name, element) {
        return true;
    }
    let Some(place) = found.places.get(&slot) else {
        return false;
    };
    match list.get(*place) {
        Some(source) => is_of(source, name, element),
        None => false,
    }
}

/// An element of an array with a home.
fn add_element<'a, I: Inputs>(
    inputs: &I,
    found: &mut Found<'a>,
    name: Sought<'a>,
    home: &Home,
    element: u64,
) -> Result<(), AllocError>
    requires { L.find (sought_name name) (homes_in found.old) ≡ Some (home_of home.now) }
    ensures shapes { found.new.sources.named.now.shapes
        ≡ found.old.sources.named.now.shapes }
    ensures reads { OnOk result (Reads (homes_in found.old) (I.offer inputs.now) (seen found.old)
        (seen found.new) (record { name = sought_name name.entry; element = element } ∷ [])) }
{
    if element >= made_elements(home.dims.as_slice()) {
        found.is_whole = false;
        return Ok(());
    }
    let slot = behind(home.base, element)?;
    if has(found, slot, name, element) {
        return Ok(());
    }
    match inputs.input(name, element)? {
        Some(input) => {
            push(found, slot, name, element, input)?;
            Ok(())
        }
        None => {
            found.is_whole = false;
            Ok(())
        }
    }
}

/// The one place that known indices mean, one for each dimension.
fn one_place(
    alloc: Global,
    dims: &[u64],
    indices: &[Option<u64>],
) -> Result<Option<u64>, AllocError>
    ensures { IfOk result (λ place. IfSome place (λ k. places_within dims.now indices.now
        ≡ k ∷ [])) }
{
    if indices.len() != dims.len() {
        return Ok(None);
    }
    let Some(known) = all_known(alloc, indices)? else {
        return Ok(None);
    };
    if !is_inside(dims, known.as_slice()) {
        return Ok(None);
    }
    let place = offset(dims, known.as_slice())?;
    Ok(Some(place))
}

/// The elements of the part of an array that indices may mean.
pub fn add_part<'a, I: Inputs>(
    alloc: Global,
    inputs: &I,
    found: &mut Found<'a>,
    name: Sought<'a>,
    indices: &[Option<u64>],
) -> Result<(), AllocError>
    ensures shapes { found.new.sources.named.now.shapes
        ≡ found.old.sources.named.now.shapes }
    ensures reads { OnOk result (Reads (homes_in found.old) (I.offer inputs.now) (seen found.old)
        (seen found.new) (E.named_part (homes_in found.old) (Some (sought_name name.entry))
        indices.now)) }
{
    let named = found.sources.named;
    let Some(home) = named.scope.find(name) else {
        return Ok(());
    };
    let dims = home.dims.as_slice();
    if let Some(place) = one_place(alloc, dims, indices)? {
        return add_element(inputs, found, name, home, place);
    }
    let places = places_of(alloc, dims, indices)?;
    for place in places.as_slice() {
        add_element(inputs, found, name, home, *place)?;
    }
    Ok(())
}

/// One element.
pub fn add_named_element<'a, I: Inputs>(
    inputs: &I,
    found: &mut Found<'a>,
    name: Sought<'a>,
    element: u64,
) -> Result<(), AllocError>
    ensures shapes { found.new.sources.named.now.shapes
        ≡ found.old.sources.named.now.shapes }
    ensures reads { OnOk result (Reads (homes_in found.old) (I.offer inputs.now) (seen found.old)
        (seen found.new) (record { name = sought_name name.entry; element = element } ∷ [])) }
{
    let named = found.sources.named;
    let Some(home) = named.scope.find(name) else {
        found.is_whole = false;
        return Ok(());
    };
    add_element(inputs, found, name, home, element)
}

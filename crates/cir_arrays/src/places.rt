//! Places of an array's elements in row order, and which of them indices mean.
ghost use Rattle.std.specs.Prelude.{◌≡◌, ◌+◌, ◌*◌, ◌++◌, ◌≤◌, [], ◌∷◌, true, is_some, map};
ghost use Rattle.std.specs.Prelude.{flat_map, length, IfOk, OnOk, IfSome, OnSome, Some, IfErr};
ghost use Rattle.cir_meaning.specs.Limits.{standing};
ghost use Rattle.cir_meaning.specs.Places.{is_inside as are_inside, all_known as known_ones};
ghost use Rattle.cir_meaning.specs.Places.{numbers_from, left_of, elements as element_count};
ghost use Rattle.cir_meaning.specs.Places.{places_of as places_in};
ghost use Rattle.cir_meaning.specs.Arrays.{same_dims as are_same};
ghost use Rattle.cir_arrays.specs.Reached.{items_of, first_of, is_under, parts_at, places_within};

use crate::counts::elements;
use numbers::TooLarge;
use std::alloc::{AllocError, Global};

/// More places than any array within the limits has.
const MOST_PLACES: u64 = 67108864;

/// Whether each known index is below its dimension.
pub fn is_inside(dims: &[u64], indices: &[Option<u64>]) -> bool
    ensures { result ≡ are_inside dims.now indices.now }
{
    let mut at = 0;
    while at < dims.len() && at < indices.len() {
        if !is_below(dims[at], indices[at]) {
            return false;
        }
        at += 1;
    }
    true
}

fn is_below(dimension: u64, index: Option<u64>) -> bool
    ensures { result ≡ is_under dimension index }
{
    match index {
        Some(i) => i < dimension,
        None => true,
    }
}

/// Whether each index is known; one that isn't is `None`.
pub fn is_all_known(indices: &[Option<u64>]) -> bool
    ensures { result ≡ is_some (known_ones indices.now) }
{
    for i in indices {
        if i.is_none() {
            return false;
        }
    }
    true
}

/// The indices, where all of them are known.
pub fn all_known(alloc: Global, indices: &[Option<u64>]) -> Result<Option<Vec<u64>>, AllocError>
    ensures { IfOk result (λ known. items_of known ≡ known_ones indices.now) }
{
    let mut known = Vec::with_capacity(alloc, indices.len())?;
    for i in indices {
        match i {
            Some(i) => known.push(*i)?,
            None => return Ok(None),
        }
    }
    Ok(Some(known))
}

/// The place of the first element of the part that known indices mean. Within an array that is too
/// large it may be any place.
pub fn first_place(dims: &[u64], indices: &[Option<u64>]) -> u64
    ensures { result ≡ standing (first_of dims.now indices.now) }
{
    let mut place = 0u64;
    let mut at = 0;
    while at < dims.len() && at < indices.len() {
        let i = indices[at].unwrap_or(0);
        let rest = elements(&dims[at + 1..]);
        place = place.saturating_add(i.saturating_mul(rest));
        at += 1;
    }
    place
}

/// All places that indices mean, rising. An index that isn't known may mean each place of its
/// dimension.
pub fn places_of(
    alloc: Global,
    dims: &[u64],
    indices: &[Option<u64>],
) -> Result<Vec<u64>, AllocError>
    ensures { IfOk result (λ places. places.items ≡ places_within dims.now indices.now) }
{
    let count = elements(dims);
    if count > MOST_PLACES {
        return Err(AllocError);
    }
    if !is_inside(dims, indices) || indices.len() > dims.len() {
        return Ok(Vec::new(alloc));
    }
    if count == 0 {
        return Ok(Vec::new(alloc));
    }
    if is_all_known(indices) {
        let run = run_of(alloc, dims, indices)?;
        return Ok(run);
    }
    // the first places of the parts that the indices so far mean
    let mut firsts = Vec::new(alloc);
    firsts.push(0u64)?;
    for at in 0..indices.len() {
        let rest = elements(&dims[at + 1..]);
        firsts = parts_in(alloc, firsts.as_slice(), dims[at], indices[at], rest)?;
    }
    let rest = elements(&dims[indices.len()..]);
    let places = spread(alloc, firsts.as_slice(), rest)?;
    Ok(places)
}

/// The places that known indices mean.
fn run_of(alloc: Global, dims: &[u64], indices: &[Option<u64>]) -> Result<Vec<u64>, AllocError>
    requires few { length indices.now ≤ length dims.now }
    requires inside { are_inside dims.now indices.now ≡ true }
    requires known { is_some (known_ones indices.now) ≡ true }
    requires small { element_count dims.now ≤ 67108864 }
    ensures { IfOk result (λ places. places.items ≡ places_in dims.now indices.now) }
{
    let count = elements(&dims[indices.len()..]);
    let mut places = Vec::with_capacity(alloc, count as usize)?;
    push_run(&mut places, first_place(dims, indices), count, 1)?;
    Ok(places)
}

/// The place that known indices mean, one for each dimension. None where they mean no place, or
/// where the array is too large.
pub fn place_of(dims: &[u64], indices: &[Option<u64>]) -> Option<u64>
    ensures place { IfSome result (λ place. places_within dims.now indices.now ≡ place ∷ []) }
    ensures inside { OnSome result (are_inside dims.now indices.now ≡ true) }
    ensures whole { OnSome result (left_of dims.now indices.now ≡ Some []) }
{
    if indices.len() != dims.len() || elements(dims) > MOST_PLACES {
        return None;
    }
    if !is_all_known(indices) || !is_inside(dims, indices) {
        return None;
    }
    Some(first_place(dims, indices))
}

fn parts_in(
    alloc: Global,
    firsts: &[u64],
    dimension: u64,
    index: Option<u64>,
    rest: u64,
) -> Result<Vec<u64>, AllocError>
    ensures { IfOk result (λ parts. parts.items ≡ flat_map (parts_at dimension index rest)
        firsts.now) }
{
    let mut parts = Vec::new(alloc);
    for first in firsts {
        push_parts(&mut parts, *first, dimension, index, rest)?;
    }
    Ok(parts)
}

fn push_parts(
    parts: &mut Vec<u64>,
    first: u64,
    dimension: u64,
    index: Option<u64>,
    rest: u64,
) -> Result<(), AllocError>
    ensures { OnOk result (parts.new.items
        ≡ parts.old.items ++ parts_at dimension index rest first) }
{
    match index {
        Some(i) => {
            parts.push(place_at(first, i, rest)?)?;
            Ok(())
        }
        None => push_run(parts, first, dimension, rest),
    }
}

/// As many places, each a step behind the one before it.
fn push_run(places: &mut Vec<u64>, first: u64, count: u64, step: u64) -> Result<(), AllocError>
    ensures { OnOk result (places.new.items
        ≡ places.old.items ++ map (λ i. first + i * step) (numbers_from 0 count)) }
{
    for i in 0..count {
        places.push(place_at(first, i, step)?)?;
    }
    Ok(())
}

/// No array within the limits has places past the end of the type.
fn place_at(first: u64, i: u64, rest: u64) -> Result<u64, TooLarge>
    ensures ok { IfOk result (λ place. place ≡ first + i * rest) }
    ensures err { IfErr result (λ _. 18446744073709551616 ≤ first + i * rest) }
{
    let before = i.checked_mul(rest).ok_or(TooLarge)?;
    first.checked_add(before).ok_or(TooLarge)
}

fn spread(alloc: Global, firsts: &[u64], count: u64) -> Result<Vec<u64>, AllocError>
    ensures { IfOk result (λ places. places.items
        ≡ flat_map (λ first. numbers_from first count) firsts.now) }
{
    let mut places = Vec::new(alloc);
    for first in firsts {
        push_run(&mut places, *first, count, 1)?;
    }
    Ok(places)
}

/// Whether both are of one shape: only then can one be assigned to the other.
pub fn same_dims(dims: &[u64], others: &[u64]) -> bool
    ensures { result ≡ are_same dims.now others.now }
{
    dims == others
}

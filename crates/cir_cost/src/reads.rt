//! The cells that a step may read.
ghost use Rattle.std.specs.Prelude.{◌≡◌, ◌+◌, [], ◌∷◌, ◌++◌, true, not, length, map, IfOk, OnOk};
ghost use Rattle.cir_arrays.specs.Shown.{datum_of};
ghost use Rattle.cir_frame.specs.Shown.{signal_of};
ghost use Rattle.cir_frame.specs.Read.{origin_from};
ghost use Rattle.cir_arrays.specs.Stopped.{Gives};
ghost use Rattle.cir_meaning.specs.Tried.{Tried};
ghost use Rattle.cir_meaning.specs.Arrays as A;
ghost use Rattle.cir_meaning.specs.Places.{elements, numbers_from};
ghost use Rattle.cir_meaning.specs.Reading as N;
ghost use Rattle.cir_meaning.specs.Costs as M;
ghost use Rattle.cir_evaluate.specs.Within.{where_at};
ghost use Rattle.cir_cost.specs.Adds.{cell_of};

use cir_arrays::{Datum, Fault, Want, places_of, reach_of};
use cir_evaluate::Here;
use cir_frame::{SignalEntry, Source, number_of};
use std::alloc::AllocError;

/// What a step may read.
#[derive(Clone, Copy, PartialEq, Eq, PartialOrd, Ord)]
pub enum Cell {
    /// An element of a variable.
    Element { variable: u32, element: u64 },
    /// A signal.
    Wire(u32),
}

/// The places that indices mean; none where they are refused.
pub fn places_in<C>(
    here: &Here<C>,
    dims: &[u64],
    indices: &[Option<u64>],
) -> Result<Vec<u64>, AllocError>
    ensures { IfOk result (λ places. places.items
        ≡ M.places_in (A.reach (where_at here.now) true A.Whole dims.now indices.now)) }
{
    match reach_of(here.alloc(), &here.site(), true, Want::Whole, dims, indices) {
        Ok(_) => places_of(here.alloc(), dims, indices),
        Err(Fault::Refused(_)) => Ok(Vec::new(here.alloc())),
        Err(Fault::OutOfMemory) => Err(AllocError),
    }
}

/// Where a signal is refused, nothing is read.
pub fn source_or_lost<'f>(found: Result<Source<'f>, Fault>) -> Result<Source<'f>, AllocError>
    ensures { (m : Tried N.Origin) → Gives origin_from found.entry m
        → IfOk result (λ source. N.Found (origin_from source) ≡ M.root_of m) }
{
    match found {
        Ok(source) => Ok(source),
        Err(Fault::Refused(_)) => Ok(Source::Lost),
        Err(Fault::OutOfMemory) => Err(AllocError),
    }
}

/// The elements of a signal.
pub fn add_wires(
    reads: &mut Vec<Cell>,
    entry: &SignalEntry,
    places: &[u64],
) -> Result<(), AllocError>
    ensures { OnOk result (map cell_of reads.new.items ≡ map cell_of reads.old.items
        ++ map (λ k. M.Wire ((signal_of entry.now).first + k)) places.now) }
{
    for place in places {
        let number = number_of(entry, *place)?;
        reads.push(Cell::Wire(number))?;
    }
    Ok(())
}

/// The elements of a variable at these places, but those that are known.
pub fn add_unknown(
    reads: &mut Vec<Cell>,
    variable: u32,
    d: &Datum,
    places: &[u64],
) -> Result<(), AllocError>
    ensures { OnOk result (map cell_of reads.new.items ≡ map cell_of reads.old.items
        ++ M.unknown_at variable (datum_of d.now) places.now) }
{
    for place in places {
        add_if_unknown(reads, variable, d, *place)?;
    }
    Ok(())
}

/// All elements of a variable, but those that are known.
pub fn add_all_unknown(reads: &mut Vec<Cell>, variable: u32, d: &Datum) -> Result<(), AllocError>
    ensures { OnOk result (map cell_of reads.new.items ≡ map cell_of reads.old.items
        ++ M.unknown_at variable (datum_of d.now)
        (numbers_from 0 (elements (datum_of d.now).dims))) }
{
    for element in 0..item_count(d) {
        add_if_unknown(reads, variable, d, element)?;
    }
    Ok(())
}

fn add_if_unknown(
    reads: &mut Vec<Cell>,
    variable: u32,
    d: &Datum,
    element: u64,
) -> Result<(), AllocError>
    ensures { OnOk result (map cell_of reads.new.items ≡ map cell_of reads.old.items
        ++ M.unknown_at variable (datum_of d.now) (element ∷ [])) }
{
    if is_unknown(d, element) {
        reads.push(Cell::Element { variable, element })?;
    }
    Ok(())
}

pub fn item_count(d: &Datum) -> u64
    ensures { result ≡ length (datum_of d.now).items }
{
    match d {
        Datum::Number(_) => 1,
        Datum::Array(array) => array.items.len() as u64,
    }
}

fn is_unknown(d: &Datum, place: u64) -> bool
    ensures { result ≡ not (A.is_known (A.item_at (datum_of d.now).items place)) }
{
    match d.item(place) {
        Some(v) => !v.is_known(),
        None => false,
    }
}

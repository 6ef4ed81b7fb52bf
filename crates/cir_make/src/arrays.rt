//! The arrays of a step: the variables and signals that it names, with where their elements have
//! their numbers from.
ghost use Rattle.std.specs.Prelude.{◌≡◌, ℕ, List, slice_get, IfSome, IfOk, Some, false, map};
ghost use Rattle.std.specs.Prelude.{option_map};
ghost use Rattle.std.specs.Option.{option_copied};
ghost use Rattle.cir_arrays.specs.Shown.{datum_of};
ghost use Rattle.cir_emit.specs.Lowered.{cell_input, source_input};
ghost use Rattle.cir_values.specs.Meant.{meant_option};
ghost use Rattle.cir_frame.specs.Shown.{signal_of};
ghost use Rattle.cir_meaning.specs.Arrays.{is_known};
ghost use Rattle.cir_meaning.specs.Run.{Wires, wires_of};
ghost use Rattle.cir_meaning.specs.Values.{Value as AnyValue};
ghost use Rattle.cir_steps.specs.RunSteps.{shaped_map};
ghost use Rattle.cir_steps.specs.Step as S;
ghost use Rattle.wit_sourced.specs.Loads.{input_of};
ghost use Rattle.wit_sourced.specs.declared.names.Sought.TheVariants as name;
ghost use Rattle.cir_make.specs.Arrays.{IsArray, IsArrayOf, StandsIn, input_at, sourced_by};
ghost use Rattle.cir_make.specs.Arrays.{stored_at, value_behind};
ghost use Rattle.cir_make.specs.Cells.{cell_in, source_by};
ghost use Rattle.cir_make.specs.Shows.{source_in};

use crate::cells::{Cells, Run, Source, VariableCells};
use crate::make::Before;
use cir_arrays::{Datum, is_too_large};
use cir_frame::{Frame, SignalEntry};
use cir_values::Value;
use gold_field::Gold;
use numbers::{TooLarge, behind};
use std::alloc::AllocError;
use wit_sourced::{Input, Sought};

/// Where the elements of an array have their numbers from.
#[derive(Clone, Copy)]
pub enum Stands<'a> {
    /// Those of a variable: what isn't known has a source.
    Stored(&'a Datum, &'a [Source]),
    /// So many of a signal: from cells.
    Wired(&'a [Run], u64),
}

/// An array that a step names.
#[derive(Drop)]
pub struct StepArray<'a> {
    pub name: Sought<'a>,
    pub dims: &'a [u64],
    pub stands: Stands<'a>,
}

impl Stands<'_> {
    /// Where an element has its number from, if it has one.
    pub fn input(&self, element: u64) -> Result<Option<Input>, TooLarge>
        ensures { IfOk result (λ i. option_map input_of i ≡ input_at self.now element) }
    {
        match self {
            Stands::Stored(value, sources) => Ok(stored_input(
                value.item(element),
                sources,
                element,
            )),
            Stands::Wired(rows, count) => {
                if element < *count {
                    wired_input(rows, element)
                } else {
                    Ok(None)
                }
            }
        }
    }
}

/// That of an item of a variable: a number that is known, or a source.
fn stored_input(value: Option<&Value>, sources: &[Source], element: u64) -> Option<Input>
    ensures { option_map input_of result ≡ stored_at (meant_option (option_copied value.entry))
        (source_in (map source_by sources.now) element) }
{
    match value {
        None => None,
        Some(Value::Known(n)) => Some(Input::Constant(*n)),
        Some(_) => Some(source_at(sources, element)),
    }
}

fn source_at(sources: &[Source], element: u64) -> Input
    ensures { Some (input_of result)
        ≡ source_input (source_in (map source_by sources.now) element) }
{
    match sources.get(element as usize) {
        None => Input::Constant(Gold::ZERO),
        Some(Source::Constant(n)) => Input::Constant(*n),
        Some(Source::Cell(cell)) => Input::Cell(*cell),
    }
}

/// The cell of an element of a signal.
fn wired_input(rows: &[Run], element: u64) -> Result<Option<Input>, TooLarge>
    ensures { IfOk result (λ i. option_map input_of i ≡ cell_input (cell_in rows.now element)) }
{
    for row in rows {
        if element < row.count {
            return Ok(Some(Input::Cell(behind(row.first, element)?)));
        }
    }
    Ok(None)
}

/// What stands there, if there is so much.
pub fn at<T>(items: &[T], n: usize) -> Option<&T>
    ensures { option_copied result ≡ slice_get items.now n }
{
    items.get(n)
}

/// The variable of a step of this number.
pub fn variable_array<'a>(
    frame: &'a Frame,
    cells: &'a Cells,
    befores: &'a [Before],
    n: u32,
) -> Option<StepArray<'a>>
    ensures { (step : S.Step) (components : ℕ → List ℕ)
        → StandsIn frame.now cells.now befores.now step
        → IfSome result (IsArrayOf step components) }
{
    let Some(first) = frame.variable(n) else {
        return None;
    };
    match at(cells.variables.as_slice(), n as usize) {
        Some(standing) => stored(n, value_before(befores, n, first), standing),
        None => None,
    }
}

/// The value that a variable had before.
fn value_before<'a>(befores: &'a [Before], n: u32, first: &'a Datum) -> &'a Datum
    ensures { datum_of result.now ≡ value_behind befores.now n (datum_of first.now) }
{
    let mut value = first;
    for before in befores {
        if before.variable == n {
            value = &before.value;
        }
    }
    value
}

/// A variable with its sources. One that is lost is no array, nor is one that is too large.
fn stored<'a>(n: u32, value: &'a Datum, standing: &'a VariableCells) -> Option<StepArray<'a>>
    ensures name { IfSome result (λ a. a.name ≡ name.Variable n) }
    ensures array { (sources : List S.Source)
        → ((k : ℕ) (u : AnyValue) → standing.now.is_lost ≡ false
        → slice_get (datum_of value.now).items k ≡ Some u → is_known u ≡ false
        → source_in sources k ≡ source_in (map source_by standing.now.sources.items) k)
        → IfSome result (IsArray (sourced_by (datum_of value.now) sources)) }
{
    if standing.is_lost || is_too_large(value.dims()) {
        return None;
    }
    Some(StepArray {
        name: Sought::Variable(n),
        dims: value.dims(),
        stands: Stands::Stored(value, standing.sources.as_slice()),
    })
}

/// The signal of a step of this number.
pub fn signal_array<'a>(frame: &'a Frame, cells: &'a Cells, n: u32) -> Option<StepArray<'a>>
    ensures { (step : S.Step) (components : ℕ → List ℕ) (befores : List Before)
        → StandsIn frame.now cells.now befores step
        → IfSome result (IsArrayOf step components) }
{
    let Some(entry) = frame.signal(n) else {
        return None;
    };
    match at(cells.signals.as_slice(), n as usize) {
        Some(rows) => wired(Sought::Signal(n), entry, rows.as_slice()),
        None => None,
    }
}

/// A signal with its cells, unless it is too large.
pub fn wired<'a>(name: Sought<'a>, entry: &'a SignalEntry, rows: &'a [Run]) -> Option<StepArray<'a>>
    ensures name { IfSome result (λ a. a.name ≡ name.entry) }
    ensures array { (wires : Wires) (n : ℕ) → ((k : ℕ) → wires n k ≡ cell_in rows.now k)
        → IfSome result (IsArray (shaped_map cell_input (wires_of wires n
        (signal_of entry.now)))) }
{
    if is_too_large(entry.dims.as_slice()) {
        return None;
    }
    Some(StepArray {
        name,
        dims: entry.dims.as_slice(),
        stands: Stands::Wired(rows, entry.written.as_slice().len() as u64),
    })
}

//! Declarations of variables, signals and components, and what the creation of a component adds.
ghost use Rattle.std.specs.Prelude.{◌≡◌, ◌≤◌, ◌^◌, ◌-◌, List, [], ◌∷◌, Option, Some, map};
ghost use Rattle.std.specs.Prelude.{replicate, IfOk, OnOk};
ghost use Rattle.cir_meaning.specs.Limits.{Counts as AnyCounts, with_array};
ghost use Rattle.cir_meaning.specs.Source.{Equation};
ghost use Rattle.cir_meaning.specs.Arrays as A;
ghost use Rattle.cir_meaning.specs.Frame as M;
ghost use Rattle.cir_meaning.specs.Writing.{put_variable};
ghost use Rattle.cir_meaning.specs.Declaring as D;
ghost use Rattle.cir_arrays.specs.Made.{made_count};
ghost use Rattle.cir_frame.specs.Missing.{missing_in};
ghost use Rattle.cir_arrays.specs.Shown.{datum_of, filling_of};
ghost use Rattle.cir_frame.specs.Shown.{Declares, frame_of, part_of, signals_of, state_of};

use cir_arrays::{Datum, Filling, add_array, elements, made_elements};
use cir_ast::Text;
use cir_ast::program::{Direction, Spot};
use cir_frame::{ComponentEntry, Frame, Grouping, Part, Row, SignalEntry, World};
use smallvec::SmallVec;
use std::alloc::{AllocError, Global};

/// How many variables, signals and components a body declares; its parameters aren't counted.
#[derive(Clone, Copy)]
pub struct Room {
    pub variables: u32,
    pub signals: u32,
    pub components: u32,
}

/// A body begins with its parameters. The other variables, the signals and the components aren't
/// declared yet.
pub fn begun(alloc: Global, arguments: Vec<Datum>, room: Room) -> Result<Frame, AllocError>
    ensures { (c : AnyCounts) → IfOk result (λ f. frame_of f c
        ≡ record (M.begun (map datum_of arguments.items) room.variables room.signals
        room.components) { added = c }) }
{
    let mut variables = arguments;
    for _n in 0..room.variables {
        variables.push(Datum::zero())?;
    }
    let signals = undeclared(alloc, room.signals)?;
    let components = undeclared(alloc, room.components)?;
    Ok(Frame {
        variables,
        signals,
        components,
        parts: Vec::new(alloc),
    })
}

/// Entries that aren't declared yet.
fn undeclared<T: Drop>(alloc: Global, count: u32) -> Result<Vec<Option<T>>, AllocError>
    ensures { IfOk result (λ entries. entries.items ≡ replicate count None) }
{
    let mut entries = Vec::with_capacity(alloc, count as usize)?;
    for _n in 0..count {
        entries.push(None)?;
    }
    Ok(entries)
}

/// A variable begins with the same value in each element.
pub fn declare_variable(
    alloc: Global,
    n: u32,
    dims: Vec<u64>,
    with: Filling,
    frame: &mut Frame,
    world: &mut World,
) -> Result<(), AllocError>
    ensures state { (qs : List Equation) → OnOk result (state_of frame.new world.new qs
        ≡ M.adding (with_array dims.items) (put_variable n (A.filled dims.items (filling_of with))
        (state_of frame.old world.old qs))) }
    ensures constraints { world.new.constraints.items ≡ world.old.constraints.items }
{
    add_array(&mut world.added, dims.as_slice());
    let value = Datum::filled(alloc, dims, with)?;
    frame.set_variable(n, value);
    Ok(())
}

/// A signal that is declared.
#[derive(Clone, Copy)]
pub struct NewSignal<'a> {
    pub spot: Spot,
    pub direction: Direction,
    pub number: u32,
    pub name: &'a [u8],
    pub instance: u32,
    pub grouping: Grouping<'a>,
}

/// A signal's elements are created in row order, and an input counts as written.
pub fn declare_signal(
    alloc: Global,
    new: &NewSignal,
    dims: Vec<u64>,
    frame: &mut Frame,
    world: &mut World,
) -> Result<(), AllocError>
    ensures state { (k : M.Context) (qs : List Equation)
        → Declares new.now.grouping new.now.instance k
        → OnOk result (state_of frame.new world.new qs
        ≡ D.declare_signal k new.now.spot new.now.direction new.now.number new.now.name.now
        dims.items (state_of frame.old world.old qs)) }
    ensures constraints { world.new.constraints.items ≡ world.old.constraints.items }
{
    let count = elements(dims.as_slice());
    world.added.signals = world.added.signals.saturating_add(count);
    world.added.cells = world.added.cells.saturating_add(count);
    add_array(&mut world.added, dims.as_slice());
    let group = new.grouping.of(new.direction, new.name);
    let first = world.next_number(group);
    let row_dims = Vec::from_slice(alloc, dims.as_slice())?;
    let written = marks(alloc, dims.as_slice(), new.direction)?;
    let entry = SignalEntry {
        name: Text::from_slice(alloc, new.name)?,
        direction: new.direction,
        spot: new.spot,
        dims,
        first,
        written,
    };
    frame.put_signal(new.number, entry)?;
    world.rows.push(Row {
        group,
        instance: new.instance,
        name: Text::from_slice(alloc, new.name)?,
        dims: row_dims,
    })?;
    world.sizes.add(group, count);
    Ok(())
}

fn marks(alloc: Global, dims: &[u64], direction: Direction) -> Result<SmallVec<bool, 8>, AllocError>
    ensures { IfOk result (λ marks. marks.items
        ≡ replicate (made_count dims.now) (M.is_input direction)) }
{
    let is_input = matches!(direction, Direction::Input);
    SmallVec::from_elem(alloc, is_input, made_elements(dims) as usize)
}

/// A component's elements aren't created yet.
pub fn declare_component(
    alloc: Global,
    n: u32,
    name: &[u8],
    dims: Vec<u64>,
    frame: &mut Frame,
    world: &mut World,
) -> Result<(), AllocError>
    ensures state { (qs : List Equation) → OnOk result (state_of frame.new world.new qs
        ≡ D.declare_component n name.now dims.items (state_of frame.old world.old qs)) }
    ensures constraints { world.new.constraints.items ≡ world.old.constraints.items }
{
    add_array(&mut world.added, dims.as_slice());
    let parts = no_parts(alloc, dims.as_slice())?;
    let entry = ComponentEntry {
        name: Text::from_slice(alloc, name)?,
        dims,
        parts,
        first: None,
    };
    frame.put_component(n, entry)?;
    Ok(())
}

fn no_parts(alloc: Global, dims: &[u64]) -> Result<Vec<Option<u32>>, AllocError>
    ensures { IfOk result (λ parts. parts.items ≡ replicate (made_count dims.now) None) }
{
    vec![in alloc; None; made_elements(dims) as usize]
}

/// The inputs of a new component are to be written by its parent.
pub fn opened(spot: Spot, template: u32, mut signals: Vec<Option<SignalEntry>>) -> Part
    ensures { part_of result ≡ record {
      spot = spot;
      template = template;
      signals = D.opened (signals_of signals.items);
    } }
{
    let mut missing = 0u128;
    for n in 0..signals.len() {
        missing += open(&mut signals[n]);
    }
    Part {
        spot,
        template,
        signals,
        missing,
    }
}

/// No element of an input is written. How many there are.
fn open(entry: &mut Option<SignalEntry>) -> u128
    ensures signal { signals_of (entry.new ∷ []) ≡ D.opened (signals_of (entry.old ∷ [])) }
    ensures missing { result ≡ missing_in (entry.new ∷ []) }
    ensures few { result ≤ 2 ^ 64 - 1 }
{
    if let Some(signal) = entry {
        if signal.is_input() {
            signal.unmark();
            return signal.written.len() as u128;
        }
    }
    0
}

/// A new part, at its place among the elements of the component.
pub fn add_part(n: u32, place: u64, part: Part, frame: &mut Frame) -> Result<(), AllocError>
    ensures { (c : AnyCounts) (e : M.ComponentEntry)
        → M.entry_at (frame_of frame.old c).components n ≡ Some e
        → OnOk result (frame_of frame.new c
        ≡ D.add_part n e place (part_of part) (frame_of frame.old c)) }
{
    let Ok(j) = u32::try_from(frame.parts.len()) else {
        return Err(AllocError);
    };
    frame.parts.push(part)?;
    if (n as usize) < frame.components.len() {
        if let Some(entry) = &mut frame.components[n as usize] {
            entry.set_part(place, j);
        }
    }
    Ok(())
}

//! The arrays of a step are collected.
ghost use Rattle.std.specs.Prelude.{ℕ, List, IfOk, IfSome, OnOk};
ghost use Rattle.cir_frame.specs.declared.frame.Frame.{Frame as AnyFrame};
ghost use Rattle.cir_steps.specs.Step as S;
ghost use Rattle.cir_make.specs.declared.cells.Cells.{Cells as AnyCells};
ghost use Rattle.cir_make.specs.Arrays.{AreArrays, IsArrayOf, IsSizedBy, StandsIn};

use crate::arrays::{StepArray, signal_array, variable_array};
use crate::cells::Cells;
use crate::make::Before;
use crate::ports::port_array;
use cir_frame::Frame;
use std::alloc::{AllocError, Global};
use wit_named::{Member, Naming};
use wit_sourced::{CallValue, is_inside, offset};

/// Where a step stands.
#[derive(Clone, Copy)]
pub struct Standing<'a> {
    pub frame: &'a Frame,
    pub cells: &'a Cells,
    pub befores: &'a [Before],
}

/// One more array, if there is one.
fn add<'a>(arrays: &mut Vec<StepArray<'a>>, array: Option<StepArray<'a>>) -> Result<(), AllocError>
    ensures { (f : AnyFrame) (c : AnyCells) (befores : List Before)
        → AreArrays f c befores arrays.old.items
        → ((step : S.Step) (components : ℕ → List ℕ) → StandsIn f c befores step
        → IsSizedBy f components → IfSome array.entry (IsArrayOf step components))
        → OnOk result (AreArrays f c befores arrays.new.items) }
{
    if let Some(array) = array {
        arrays.push(array)?;
    }
    Ok(())
}

fn add_variable<'a>(
    standing: &Standing<'a>,
    arrays: &mut Vec<StepArray<'a>>,
    n: u32,
) -> Result<(), AllocError>
    ensures { AreArrays standing.now.frame.now standing.now.cells.now standing.now.befores.now
        arrays.old.items → OnOk result (AreArrays standing.now.frame.now standing.now.cells.now
        standing.now.befores.now arrays.new.items) }
{
    let array = variable_array(standing.frame, standing.cells, standing.befores, n);
    add(arrays, array)
}

fn add_signal<'a>(
    standing: &Standing<'a>,
    arrays: &mut Vec<StepArray<'a>>,
    n: u32,
) -> Result<(), AllocError>
    ensures { AreArrays standing.now.frame.now standing.now.cells.now standing.now.befores.now
        arrays.old.items → OnOk result (AreArrays standing.now.frame.now standing.now.cells.now
        standing.now.befores.now arrays.new.items) }
{
    let array = signal_array(standing.frame, standing.cells, n);
    add(arrays, array)
}

/// A signal of a component, where the indices of the component are known.
fn add_member<'a>(
    alloc: Global,
    standing: &Standing<'a>,
    arrays: &mut Vec<StepArray<'a>>,
    member: Member<'a>,
    values: &[CallValue],
) -> Result<(), AllocError>
    ensures { AreArrays standing.now.frame.now standing.now.cells.now standing.now.befores.now
        arrays.old.items → OnOk result (AreArrays standing.now.frame.now standing.now.cells.now
        standing.now.befores.now arrays.new.items) }
{
    let Some(element) = element_of(alloc, standing.frame, member, values)? else {
        return Ok(());
    };
    let array = port_array(
        standing.frame,
        standing.cells,
        member.component,
        element,
        member.name,
    );
    add(arrays, array)
}

/// The element of the component that known indices inside its dimensions mean.
fn element_of(
    alloc: Global,
    frame: &Frame,
    member: Member,
    values: &[CallValue],
) -> Result<Option<u64>, AllocError> {
    let Some(entry) = frame.component(member.component) else {
        return Ok(None);
    };
    let mut indices = Vec::new(alloc);
    for k in 0..member.count {
        match index_at(values, member.first.saturating_add(k)) {
            Some(index) => indices.push(index)?,
            None => return Ok(None),
        }
    }
    let dims = entry.dims.as_slice();
    if !is_inside(dims, indices.as_slice()) {
        return Ok(None);
    }
    let element = offset(dims, indices.as_slice())?;
    Ok(Some(element))
}

fn index_at(values: &[CallValue], at: usize) -> Option<u64> {
    let value = values.get(at)?;
    match &value.value {
        Some(called) => called.items.as_slice().first().copied(),
        None => None,
    }
}

/// The arrays of what a task names. `values` are those of the indices of components, where they are
/// known.
pub fn arrays_of<'a>(
    alloc: Global,
    standing: &Standing<'a>,
    naming: &Naming<'a>,
    values: &[CallValue],
) -> Result<Vec<StepArray<'a>>, AllocError>
    ensures { IfOk result (λ arrays. AreArrays standing.now.frame.now standing.now.cells.now
        standing.now.befores.now arrays.items) }
{
    let mut arrays = Vec::new(alloc);
    for n in naming.variables.as_slice() {
        add_variable(standing, &mut arrays, *n)?;
    }
    for n in naming.signals.as_slice() {
        add_signal(standing, &mut arrays, *n)?;
    }
    for member in naming.members.as_slice() {
        add_member(alloc, standing, &mut arrays, *member, values)?;
    }
    Ok(arrays)
}

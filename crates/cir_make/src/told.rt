//! The code of a task over what is told of the names in it.
ghost use Rattle.std.specs.Prelude.{◌≡◌, true, map, IfOk, OnOk};
ghost use Rattle.cir_emit.specs.Tasks.{step_task};
ghost use Rattle.cir_make.specs.Arrays.{AreArraysOf, is_there, shape_by};
ghost use Rattle.cir_rules.specs.Shown.{made_of};
ghost use Rattle.cir_steps.specs.Step as S;
ghost use Rattle.wit_circuit.specs.Coded.{IsCodeOfStep};
ghost use Rattle.wit_procs.specs.Table.{Grows};
ghost use Rattle.wit_sourced.specs.Loaded.{AreTold, components_in};
ghost use Rattle.wit_sourced.specs.Loads.{shape_of};
ghost use Rattle.wit_statements.specs.Asked.{task_of};

use crate::arrays::StepArray;
use crate::offered::Offered;
use crate::ports::has_port;
use cir_frame::Frame;
use cir_has::{Arrays, add_keys};
use cir_rules::CallTable;
use items::Items;
use numbers::Numbers;
use std::alloc::{AllocError, Global};
use wit_code::Step;
use wit_sourced::{Named, Shape, Sought};
use wit_sources::{Collected, sources_of};
use wit_statements::{StepTask, emit_step};

/// What is known of the names of a step: the body that it stands in, and its arrays.
#[derive(Clone, Copy)]
pub struct Told<'a> {
    pub frame: &'a Frame,
    pub arrays: &'a [StepArray<'a>],
}

impl Arrays for Told<'_> {
    ghost there = { λ t name. is_there t.frame.now name ≡ true };

    fn is_there(&self, name: Sought) -> bool {
        match name {
            Sought::Variable(n) => (n as usize) < self.frame.variables.as_slice().len(),
            Sought::Signal(n) => self.frame.signal(n).is_some(),
            Sought::Port(n, element, name) => has_port(self.frame, n, element, name),
        }
    }
}

fn shapes<'a>(alloc: Global, arrays: &'a [StepArray<'a>]) -> Result<Items<Shape<'a>>, AllocError>
    ensures { IfOk result (λ shapes. map shape_of shapes ≡ map shape_by arrays.now) }
{
    let mut shapes = Vec::with_capacity(alloc, arrays.len())?;
    for array in arrays {
        shapes.push(Shape {
            name: array.name,
            dims: array.dims,
        })?;
    }
    Ok(Items::of(shapes))
}

/// The code of a step's task over what it names.
fn code_named<'x>(
    alloc: Global,
    told: &Told<'x>,
    named: &Named<'x>,
    step: &StepTask<'x>,
    targets: Numbers,
    keys: &mut CallTable,
) -> Result<Step, AllocError>
    ensures grows { OnOk result (Grows (map made_of keys.old.calls.items)
        (map made_of keys.new.calls.items)) }
    ensures code { (of : S.Step) → AreTold of.names.known step.now.calls.now
        → AreArraysOf told.now.frame.now of (components_in step.now.components.now)
        told.now.arrays.now → map shape_of named.now.shapes ≡ map shape_by told.now.arrays.now
        → step_task of ≡ task_of step.now.task → of.targets ≡ targets
        → IfOk result (IsCodeOfStep (map made_of keys.new.calls.items) of) }
{
    let offered = Offered::of(alloc, told.arrays)?;
    let found = sources_of(alloc, &*named, &*step, &offered)?;
    let Collected { sources, is_whole } = found;
    if !is_whole || !add_keys(alloc, keys, &*step, &sources, told)? {
        return Err(AllocError);
    }
    let (code, reads) = emit_step(alloc, &*keys, &*step, &sources)?;
    Ok(Step {
        code,
        reads,
        writes: targets,
    })
}

/// The code of a step's task, which writes these cells. Calls that it makes get their keys.
pub fn code_of<'x>(
    alloc: Global,
    told: &Told<'x>,
    step: &StepTask<'x>,
    targets: Numbers,
    keys: &mut CallTable,
) -> Result<Step, AllocError>
    ensures grows { OnOk result (Grows (map made_of keys.old.calls.items)
        (map made_of keys.new.calls.items)) }
    ensures code { (of : S.Step) → AreTold of.names.known step.now.calls.now
        → AreArraysOf told.now.frame.now of (components_in step.now.components.now)
        told.now.arrays.now
        → step_task of ≡ task_of step.now.task → of.targets ≡ targets
        → IfOk result (IsCodeOfStep (map made_of keys.new.calls.items) of) }
{
    let named = Named::of(alloc, shapes(alloc, told.arrays)?)?;
    code_named(alloc, told, &named, step, targets, keys)
}

//! The code of what a step does.
ghost use Rattle.std.specs.Prelude.{◌≡◌, ◌++◌, List, map, IfOk, OnOk};
ghost use Rattle.cir_emit.specs.Tasks as E;
ghost use Rattle.cir_emit.specs.Tasks.{step_task};
ghost use Rattle.cir_evaluate.specs.Within.{Means, context_at, kept_of, where_at};
ghost use Rattle.cir_execute.specs.Rests.{rest_by};
ghost use Rattle.cir_frame.specs.Shown.{state_of};
ghost use Rattle.cir_frame.specs.declared.frame.Frame.{Frame as AnyFrame};
ghost use Rattle.cir_meaning.specs.Places.{numbers_from};
ghost use Rattle.cir_meaning.specs.Source.{Equation};
ghost use Rattle.cir_rules.specs.Shown.{made_of};
ghost use Rattle.cir_steps.specs.Step as S;
ghost use Rattle.wit_circuit.specs.Coded.{IsCodeOfStep};
ghost use Rattle.wit_procs.specs.Table.{Grows};
ghost use Rattle.wit_statements.specs.Asked.{element_of, task_of};
ghost use Rattle.cir_make.specs.Arrays.{StandsIn};
ghost use Rattle.cir_make.specs.Steps.{IsKnownAt, elements_of, work_of};

use crate::assigned::assign_copy;
use crate::calls::call_values;
use crate::collecting::{Standing, arrays_of};
use crate::make::{Doing, Elements};
use crate::told::{Told, code_of};
use cir_arrays::{Datum, Fault};
use cir_ast::program::Spot;
use cir_evaluate::Here;
use cir_execute::Rest;
use cir_frame::World;
use cir_rules::CallTable;
use numbers::Numbers;
use std::alloc::{AllocError, Global};
use wit_code::Step;
use wit_named::names_of;
use wit_statements::{Element, StepTask, Task, asked_calls};

/// The elements at these places of a variable.
fn elements_at(alloc: Global, variable: u32, places: &[u64]) -> Result<Vec<Element>, AllocError>
    ensures { IfOk result (λ es. map element_of es.items ≡ E.elements_at variable places.now) }
{
    let mut elements = Vec::new(alloc);
    for element in places {
        elements.push(Element {
            variable,
            element: *element,
        })?;
    }
    Ok(elements)
}

/// The first elements of a variable, so many.
fn add_elements(elements: &mut Vec<Element>, variable: u32, count: u64) -> Result<(), AllocError>
    ensures { OnOk result (map element_of elements.new.items
        ≡ map element_of elements.old.items ++ E.elements_at variable (numbers_from 0 count)) }
{
    for element in 0..count {
        elements.push(Element { variable, element })?;
    }
    Ok(())
}

/// So many elements of each variable.
fn all_elements(alloc: Global, wanted: &[Elements]) -> Result<Vec<Element>, AllocError>
    ensures { IfOk result (λ es. map element_of es.items
        ≡ E.all_elements (map elements_of wanted.now)) }
{
    let mut elements = Vec::new(alloc);
    for each in wanted {
        add_elements(&mut elements, each.variable, each.count)?;
    }
    Ok(elements)
}

/// The task of what is left where a condition isn't known.
fn left<'a>(spot: Spot, rest: &Rest<'a>, elements: &'a [Element]) -> Task<'a>
    ensures { (wanted : List S.Elements) → map element_of elements.now ≡ E.all_elements wanted
        → task_of result ≡ E.work_task spot (S.Deciding (rest_by spot rest.now) wanted) }
{
    match *rest {
        Rest::Whole(statement) => Task::Executes(statement, elements),
        Rest::Loop(turns) => Task::Repeats(spot, turns.condition, turns.step, turns.body, elements),
    }
}

/// The code of a task where it stands.
fn code_at<C: Fn(Spot, u32, Vec<Datum>, &mut World) -> Result<Datum, Fault>>(
    here: &Here<C>,
    standing: &Standing,
    task: Task,
    targets: Numbers,
    keys: &mut CallTable,
    world: &mut World,
) -> Result<Step, AllocError>
    requires calls { C.IsAlwaysCallable here.now.context.now.call.now }
    ensures grows { OnOk result (Grows (map made_of keys.old.calls.items)
        (map made_of keys.new.calls.items)) }
    ensures code { (m : Means (C.post here.now.context.now.call.now) here.now.context.now)
        (qs : List Equation) (step : S.Step)
        → IsKnownAt (context_at here.now m) (where_at here.now)
        (state_of standing.now.frame.now world.old qs) step
        → StandsIn standing.now.frame.now standing.now.cells.now standing.now.befores.now step
        → step_task step ≡ task_of task.entry → step.targets ≡ targets
        → IfOk result (IsCodeOfStep (map made_of keys.new.calls.items) step) }
    ensures same { (m : Means (C.post here.now.context.now.call.now) here.now.context.now)
        (f : AnyFrame) (qs : List Equation)
        → OnOk result (state_of f world.new qs ≡ state_of f world.old qs) }
    ensures keeps { Means (C.post here.now.context.now.call.now) here.now.context.now
        → kept_of world.new ≡ kept_of world.old }
{
    let alloc = here.alloc();
    let dark = here.dark();
    let frame = standing.frame;
    let asked = asked_calls(alloc, task)?;
    let calls = call_values(&dark, asked.as_slice(), frame, world)?;
    let naming = names_of(alloc, task)?;
    let indices = call_values(&dark, naming.indices.as_slice(), frame, world)?;
    let arrays = arrays_of(alloc, &*standing, &naming, indices.as_slice())?;
    let told = Told {
        frame,
        arrays: arrays.as_slice(),
    };
    let components = frame.components.as_slice();
    let step = StepTask::of(alloc, task, components, calls.as_slice())?;
    code_of(alloc, &told, &step, targets, keys)
}

/// The code of what a step does.
pub fn code_for<C: Fn(Spot, u32, Vec<Datum>, &mut World) -> Result<Datum, Fault>>(
    here: &Here<C>,
    standing: &Standing,
    doing: Doing,
    targets: Numbers,
    keys: &mut CallTable,
    world: &mut World,
) -> Result<Step, AllocError>
    requires calls { C.IsAlwaysCallable here.now.context.now.call.now }
    ensures grows { OnOk result (Grows (map made_of keys.old.calls.items)
        (map made_of keys.new.calls.items)) }
    ensures code { (m : Means (C.post here.now.context.now.call.now) here.now.context.now)
        (qs : List Equation) (step : S.Step)
        → IsKnownAt (context_at here.now m) (where_at here.now)
        (state_of standing.now.frame.now world.old qs) step
        → StandsIn standing.now.frame.now standing.now.cells.now standing.now.befores.now step
        → step_task step ≡ E.work_task here.now.spot (work_of here.now.spot doing.entry)
        → step.targets ≡ targets
        → IfOk result (IsCodeOfStep (map made_of keys.new.calls.items) step) }
    ensures same { (m : Means (C.post here.now.context.now.call.now) here.now.context.now)
        (f : AnyFrame) (qs : List Equation)
        → OnOk result (state_of f world.new qs ≡ state_of f world.old qs) }
    ensures keeps { Means (C.post here.now.context.now.call.now) here.now.context.now
        → kept_of world.new ≡ kept_of world.old }
{
    let alloc = here.alloc();
    match doing {
        Doing::Gives(e) => code_at(here, standing, Task::Gives(e), targets, keys, world),
        Doing::Compares(a, b) => code_at(here, standing, Task::Equal(a, b), targets, keys, world),
        Doing::Asserts(e) => {
            let task = Task::Asserts(here.spot, e);
            code_at(here, standing, task, targets, keys, world)
        }
        Doing::Logs(arguments) => {
            code_at(here, standing, Task::Logs(arguments), targets, keys, world)
        }
        Doing::Sets(written, places) => {
            let assign = assign_copy(alloc, written)?;
            let elements = elements_at(alloc, written.variable, places)?;
            let task = Task::Assigns(here.spot, &assign, elements.as_slice());
            code_at(here, standing, task, targets, keys, world)
        }
        Doing::Decides(rest, wanted) => {
            let elements = all_elements(alloc, wanted)?;
            let task = left(here.spot, rest, elements.as_slice());
            code_at(here, standing, task, targets, keys, world)
        }
    }
}

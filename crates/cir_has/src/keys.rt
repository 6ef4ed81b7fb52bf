//! The keys of a task's calls.
ghost use Rattle.std.specs.Prelude.{IsTrue, map, IfOk, OnOk};
ghost use Rattle.cir_emit.specs.Sourced as H;
ghost use Rattle.cir_has.specs.Lowering.{ground_by};
ghost use Rattle.cir_rules.specs.Shown.{made_of};
ghost use Rattle.wit_lower.specs.Sources as R;
ghost use Rattle.wit_lower.specs.Tasks as T;
ghost use Rattle.wit_procs.specs.Table.{Grows};
ghost use Rattle.wit_sourced.specs.Loaded.{AreTold, Calls, called_in, changed_of};
ghost use Rattle.wit_statements.specs.Asked.{step_sources, task_of};

use crate::lack::Lack;
use crate::names::Arrays;
use crate::tasks::has_task;
use cir_rules::CallTable;
use std::alloc::{AllocError, Global};
use wit_emit::{Ground, Knowing};
use wit_sourced::{Loaded, Sources};
use wit_statements::StepTask;

/// A step's task over these keys.
fn has_loaded<'x, A: Arrays>(
    arrays: &A,
    alloc: Global,
    keys: &'x CallTable,
    step: &'x StepTask<'x>,
    sources: &'x Sources<'x>,
) -> Result<(), Lack>
    ensures { OnOk result (H.TaskHas (A.there arrays.now) (ground_by
        (map made_of keys.now.calls.items)
        (step_sources step.now.components.now (called_in step.now.calls.now) sources.now)
        (changed_of step.now.changed))
        (R.scope_of (step_sources step.now.components.now (called_in step.now.calls.now)
        sources.now)) (task_of step.now.task)) }
{
    let loaded = Loaded {
        sources,
        components: step.components,
        changed: step.changed.as_ref(),
        calls: step.calls,
    };
    let ground = Ground {
        alloc,
        keys,
        knowing: Knowing::Loaded(&loaded),
        components: step.components,
    };
    has_task(arrays, &ground, &sources.named.scope, step.task)
}

/// Each call of the step's task that needs a key gets it. Whether each name of the task has a home,
/// where the step has an array of it: then nothing is wanting.
pub fn add_keys<'x, A: Arrays>(
    alloc: Global,
    keys: &mut CallTable,
    step: &'x StepTask<'x>,
    sources: &'x Sources<'x>,
    arrays: &A,
) -> Result<bool, AllocError>
    ensures grows { OnOk result (Grows (map made_of keys.old.calls.items)
        (map made_of keys.new.calls.items)) }
    ensures has { (called : Calls) → AreTold called step.now.calls.now
        → IfOk result (λ has. IsTrue has
        → H.TaskHas (A.there arrays.now) (T.step_ground (map made_of keys.new.calls.items)
        (step_sources step.now.components.now called sources.now) (task_of step.now.task))
        (R.scope_of (step_sources step.now.components.now called sources.now))
        (task_of step.now.task)) }
{
    for _ in 0..u64::MAX {
        match has_loaded(arrays, alloc, keys, &*step, &*sources) {
            Ok(()) => return Ok(true),
            Err(Lack::Key(key)) => keys.add(alloc, key)?,
            Err(Lack::Home) => return Ok(false),
            Err(Lack::OutOfMemory) => return Err(AllocError),
        }
    }
    Ok(false)
}

//! The code of a step with its frame.
ghost use Rattle.std.specs.Prelude.{◌≡◌, map, IfOk};
ghost use Rattle.cir_rules.specs.Shown.{made_of};
ghost use Rattle.wit_lower.specs.Sources as R;
ghost use Rattle.wit_lower.specs.Tasks as T;
ghost use Rattle.wit_statements.specs.Asked.{step_sources, task_of};
ghost use Rattle.wit_sourced.specs.Loaded.{AreTold, Calls, sources_in};
ghost use Rattle.wit_sourced.specs.Loads.{source_of};
ghost use Rattle.wit_emit.specs.Grounds.{ground_of};

use crate::asked::StepTask;
use crate::slots::most_named;
use crate::tasks::{Task, emit_task};
use cir_rules::CallTable;
use items::Items;
use numbers::Numbers;
use std::alloc::{AllocError, Global};
use wit_code::Proc;
use wit_emit::{Ground, Knowing};
use wit_sourced::{Loaded, Reads, Sources, emit_sources};

/// The code of a step, and the cells that it reads. Sources are loaded; then the task is done.
pub fn emit_step<'a>(
    alloc: Global,
    keys: &'a CallTable,
    step: &'a StepTask<'a>,
    sources: &'a Sources<'a>,
) -> Result<(Proc, Numbers), AllocError>
    ensures code { (called : Calls) → AreTold called step.now.calls.now → IfOk result (λ r. r.0
        ≡ T.step_code (T.step_ground (map made_of keys.now.calls.items)
        (step_sources step.now.components.now called sources.now) (task_of step.now.task))
        (step_sources step.now.components.now called sources.now) (task_of step.now.task)) }
    ensures reads { IfOk result (λ r. r.1 ≡ R.cells_read (map source_of sources.now.list)) }
{
    let loaded = Loaded {
        sources,
        components: step.components,
        changed: step.changed.as_ref(),
        calls: step.calls,
    };
    let ground = Ground {
        alloc,
        keys,
        knowing: Knowing::Loaded(&loaded),
        components: step.components,
    };
    let made = emit_loaded(&ground, sources, step.task)?;
    Ok(made)
}

fn emit_loaded(
    ground: &Ground,
    sources: &Sources,
    task: Task,
) -> Result<(Proc, Numbers), AllocError>
    ensures code { IfOk result (λ r. r.0 ≡ T.step_code (ground_of ground.now)
        (sources_in (ground_of ground.now) sources.now) (task_of task.entry)) }
    ensures reads { IfOk result (λ r. r.1 ≡ R.cells_read
        (sources_in (ground_of ground.now) sources.now).list) }
{
    let list = sources.list.as_slice();
    let scope = &sources.named.scope;
    let reads = Reads::of(ground.alloc, list)?;
    let mut code = Items::new(ground.alloc);
    emit_sources(&mut code, scope, &reads, list)?;
    emit_task(ground, scope, &mut code, task)?;
    let slots = most_named(ground.keys.calls.as_slice(), code.as_slice())?;
    let body = code;
    Ok((
        Proc {
            params: 0,
            slots,
            body,
        },
        reads.into_cells(),
    ))
}

//! The run-time statements, each a step: what each costs is counted, and the functions that it
//! calls are tested, here and here alone.
ghost use Rattle.std.specs.Prelude.{◌≡◌, List, Option, map};
ghost use Rattle.cir_ast.specs.Program.{bare_program};
ghost use Rattle.cir_frame.specs.declared.frame.Frame.{Frame as AnyFrame};
ghost use Rattle.cir_arrays.specs.Stopped.{Gives};
ghost use Rattle.cir_frame.specs.Shown.{state_of};
ghost use Rattle.cir_meaning.specs.Source.{Equation};
ghost use Rattle.cir_meaning.specs.Frame.{Caller, Maker};
ghost use Rattle.cir_meaning.specs.Steps as S;
ghost use Rattle.cir_meaning.specs.Costs as M;
ghost use Rattle.cir_rules.specs.Shown.{made_of};
ghost use Rattle.cir_evaluate.specs.Within.{context_of, kept_of, where_at};
ghost use Rattle.cir_cost.specs.Adds.{IsCost, IsJudged, cell_of};

use crate::cost::Cost;
use crate::reads::Cell;
use cir_arrays::Fault;
use cir_evaluate::Here;
use cir_frame::World;
use cir_rules::{Made, Verdict, judge};

/// A step that writes as many cells of variables and of logs.
pub fn stepped<C>(here: &Here<C>, cost: Cost, cells: u64, world: &mut World) -> Result<(), Fault>
    ensures step { (call : Caller) (make : Option Maker) (c : M.Cost) (f : AnyFrame)
        (qs : List Equation) → IsCost cost c → Gives (λ _. state_of f world.new qs) result
        (S.stepped (context_of here.now.context.now call make) (where_at here.now) c cells
        (state_of f world.old qs)) }
    ensures keeps { kept_of world.new ≡ kept_of world.old }
{
    let nodes = cost.nodes;
    let (mut reads, calls) = cost.into_lists();
    let too_many = judged(here, calls.as_slice())?;
    let added = &mut world.added;
    added.cells = added.cells.saturating_add(cells);
    added.steps = added.steps.saturating_add(1);
    added.nodes = added.nodes.saturating_add(nodes);
    added.reads = added.reads.saturating_add(distinct(&mut reads));
    if added.elements == 0 {
        added.elements = too_many;
    }
    Ok(())
}

/// How many elements the first function has that has too many, or 0.
fn judged<C>(here: &Here<C>, calls: &[Made]) -> Result<u64, Fault>
    ensures { IsJudged (where_at here.now) (bare_program here.now.context.now.program.now)
        (map made_of calls.now) result }
{
    if calls.is_empty() {
        return Ok(0);
    }
    match judge(here.alloc(), here.context.program, calls)? {
        Verdict::Faulty(kind) => Err(here.refused(kind)),
        Verdict::Fine(elements) => Ok(elements),
    }
}

/// Each cell that may be read is read once.
fn distinct(reads: &mut Vec<Cell>) -> u64
    ensures { result ≡ S.distinct (map cell_of reads.old.items) }
{
    reads.sort_unstable();
    reads.dedup();
    reads.len() as u64
}

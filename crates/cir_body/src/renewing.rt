//! New cells of variables, and variables that are lost, so that nothing can name them.
ghost use Rattle.std.specs.Prelude.{◌≡◌, ◌≢◌, ◌+◌, ℕ, List, Some, length, map, true, IfOk};
ghost use Rattle.std.specs.Prelude.{OnOk, slice_get};
ghost use Rattle.cir_frame.specs.declared.world.World.{World as AnyWorld};
ghost use Rattle.cir_frame.specs.Shown.{frame_of, state_of};
ghost use Rattle.cir_meaning.specs.Frame as M;
ghost use Rattle.cir_meaning.specs.Limits.{Counts as AnyCounts};
ghost use Rattle.cir_meaning.specs.Source.{Equation};
ghost use Rattle.cir_steps.specs.Making.{count_of, wanted_of};
ghost use Rattle.cir_make.specs.declared.cells.VariableCells.{VariableCells as AnyCells};
ghost use Rattle.cir_make.specs.Cells.{source_by};
ghost use Rattle.cir_make.specs.Steps.{elements_of};
ghost use Rattle.cir_body.specs.Renewed.{AreLost, AreRenewed, IsRenewed, cells_from};

use cir_frame::Frame;
use cir_make::{Elements, Source, VariableCells};
use cir_write::item_count;
use numbers::{TooLarge, behind};
use std::alloc::{AllocError, Global};

/// All elements of variables.
pub fn wanted(alloc: Global, variables: &[u32], frame: &Frame) -> Result<Vec<Elements>, AllocError>
    ensures { (w : AnyWorld) (qs : List Equation) → IfOk result (λ es.
        map elements_of es.items ≡ wanted_of variables.now (state_of frame.now w qs)) }
{
    let mut wanted = Vec::new(alloc);
    for n in variables {
        wanted.push(Elements {
            variable: *n,
            count: count_at(*n, frame),
        })?;
    }
    Ok(wanted)
}

fn count_at(n: u32, frame: &Frame) -> u64
    ensures { (c : AnyCounts) → result
        ≡ length (M.variable_at (frame_of frame.now c) n).items }
{
    match frame.variable(n) {
        Some(value) => item_count(value),
        None => 1,
    }
}

/// How many elements these are.
pub fn count_all(wanted: &[Elements]) -> Result<u64, TooLarge>
    ensures { IfOk result (λ count. count ≡ count_of (map elements_of wanted.now)) }
{
    let mut count = 0u64;
    for e in wanted {
        count = count.checked_add(e.count).ok_or(TooLarge)?;
    }
    Ok(count)
}

/// The elements have new cells in turn, from one on. The next cell is answered.
pub fn renew(
    variables: &mut Vec<VariableCells>,
    wanted: &[Elements],
    first: u32,
) -> Result<u32, AllocError>
    ensures cells { OnOk result (AreRenewed (map elements_of wanted.now) first
        variables.old.items variables.new.items) }
    ensures next { IfOk result (λ next. next ≡ first + count_of (map elements_of wanted.now)) }
{
    let mut next = first;
    for e in wanted {
        next = renew_one(variables, *e, next)?;
    }
    Ok(next)
}

fn renew_one(variables: &mut Vec<VariableCells>, e: Elements, first: u32) -> Result<u32, AllocError>
    ensures cells { OnOk result (IsRenewed (elements_of e) first
        variables.old.items variables.new.items) }
    ensures next { IfOk result (λ next. next ≡ first + e.count) }
{
    let next = behind(first, e.count)?;
    if (e.variable as usize) < variables.len() {
        fill(&mut variables[e.variable as usize].sources, first, e.count)?;
    }
    Ok(next)
}

/// So many cells, from one on.
fn fill(sources: &mut Vec<Source>, first: u32, count: u64) -> Result<(), AllocError>
    ensures { OnOk result (map source_by sources.new.items ≡ cells_from first count) }
{
    sources.clear();
    for at in 0..count {
        sources.push(Source::Cell(behind(first, at)?))?;
    }
    Ok(())
}

/// The variables are lost.
pub fn lose(declared: &[u32], variables: &mut Vec<VariableCells>)
    ensures { AreLost declared.now variables.old.items variables.new.items }
{
    for n in declared {
        lose_one(*n, variables);
    }
}

fn lose_one(n: u32, variables: &mut Vec<VariableCells>)
    ensures others { (m : ℕ) → m ≢ n
        → slice_get variables.new.items m ≡ slice_get variables.old.items m }
    ensures itself { (v : AnyCells) → slice_get variables.new.items n ≡ Some v
        → v.is_lost ≡ true }
{
    if (n as usize) < variables.len() {
        variables[n as usize].is_lost = true;
    }
}

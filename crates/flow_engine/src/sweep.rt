// The run in order behind the workers: what they have done is copied, and all else is run.
ghost use Rattle.std.specs.Prelude.{◌≡◌, ℕ, ◌+◌, ◌<◌, IfOk, IsTrue, length, map, slice_index};
ghost use Rattle.std.specs.Prelude.{unwrap_or};
ghost use Rattle.flow_core.specs.Quiet.{IsBelow};
ghost use Rattle.flow_board.specs.Closed.{cell_in, done_in, least_in};
ghost use Rattle.wit_flow.specs.OneThread.{IsOutcome, one_thread};
ghost use Rattle.flow_engine.specs.Task.{answers_of};
ghost use Rattle.flow_engine.specs.Sweep.{AreClosed, AreAllDone, HasCome, Goes};

use crate::answers::FlowAnswers;
use flow_board::Words;
use gold_field::Gold;
use items::Items;
use std::alloc::{AllocError, Global};
use wit_code::{Room, Stop};
use wit_flow::{Outcome, StrandOut, first_cells, look, put, values_of};

// Whether a strand is done, as the words say.
fn is_done(words: &Words, strand: u32) -> bool
    requires { strand < words.now.strands }
    ensures done { IsTrue result → IsTrue (done_in words.now strand) }
    ensures below { IsTrue result → IsBelow (least_in words.now) strand }
{
    match words.least() {
        Some(least) if strand >= least => false,
        _ => words.done(strand),
    }
}

// The values that the words have for cells; 0 stands for a cell without one.
fn copied(alloc: Global, words: &Words, cells: &[u32]) -> Result<Vec<Gold>, AllocError>
    requires { (i : ℕ) → i < length cells.now → slice_index cells.now i < words.now.cells }
    ensures { IfOk result (λ v. v.items ≡ map (λ c. unwrap_or (cell_in words.now c) 0) cells.now) }
{
    let mut values = Vec::with_capacity(alloc, cells.len())?;
    for cell in cells {
        values.push(words.cell(*cell).unwrap_or(Gold::ZERO))?;
    }
    Ok(values)
}

// The cells of a strand that is done get the values that the words have.
fn copy_done(
    alloc: Global,
    answers: &FlowAnswers<'_>,
    words: &Words,
    cells: &mut Items<Option<Gold>>,
    strand: u32,
) -> Result<(), AllocError>
    requires closed { AreClosed (answers_of answers.now) words.now }
    requires near { strand < answers.now.plan.graph.strands }
    requires done { IsTrue (done_in words.now strand) }
    requires below { IsBelow (least_in words.now) strand }
    requires come { HasCome answers.now strand cells.old }
    ensures { IfOk result (λ _. HasCome answers.now (strand + 1) cells.new) }
{
    answers.facts();
    let graph = answers.graph();
    let writes = graph.writes_of(strand);
    let values = copied(alloc, words, writes)?;
    put(cells, writes, values.as_slice());
    Ok(())
}

// Runs a strand on the cells. Its stop, if it has one.
fn run_next(
    alloc: Global,
    room: &mut Room,
    answers: &FlowAnswers<'_>,
    cells: &mut Items<Option<Gold>>,
    strand: u32,
) -> Result<Option<(u32, Stop)>, AllocError>
    requires near { strand < answers.now.plan.graph.strands }
    requires come { HasCome answers.now strand cells.old }
    ensures { IfOk result (Goes answers.now strand cells.new) }
{
    answers.facts();
    let graph = answers.graph();
    let reads = look(alloc, cells.as_slice(), graph.reads_of(strand))?;
    let writes = graph.writes_of(strand);
    match answers.run_in_order(alloc, room, strand, reads.as_slice())? {
        StrandOut::Values(values) => {
            put(cells, writes, values.as_slice());
            Ok(None)
        }
        StrandOut::Refused { step, stop, before } => {
            put(cells, &writes[..before.len()], before.as_slice());
            Ok(Some((step, stop)))
        }
    }
}

// Goes on by one strand: with its stop, if it has one.
fn sweep_one(
    alloc: Global,
    room: &mut Room,
    answers: &FlowAnswers<'_>,
    words: &Words,
    cells: &mut Items<Option<Gold>>,
    strand: u32,
) -> Result<Option<(u32, Stop)>, AllocError>
    requires closed { AreClosed (answers_of answers.now) words.now }
    requires near { strand < answers.now.plan.graph.strands }
    requires come { HasCome answers.now strand cells.old }
    ensures { IfOk result (Goes answers.now strand cells.new) }
{
    if is_done(words, strand) {
        copy_done(alloc, answers, words, cells, strand)?;
        return Ok(None);
    }
    run_next(alloc, room, answers, cells, strand)
}

// The outcome once all strands have answered.
fn finish(
    alloc: Global,
    answers: &FlowAnswers<'_>,
    cells: &[Option<Gold>],
) -> Result<Outcome, AllocError>
    requires { HasCome answers.now answers.now.plan.graph.strands cells.now }
    ensures { IfOk result (λ o. IsOutcome answers.now.plan.graph.cells o
        (one_thread answers.now.plan answers.now.start answers.now.fuel)) }
{
    answers.facts();
    let values = values_of(alloc, cells)?;
    Ok(Outcome::Done(Items::of(values)))
}

// Whether no strand is refused and all are done.
fn are_all_done(words: &Words, strands: u32) -> bool
    requires { strands ≡ words.now.strands }
    ensures { IsTrue result → AreAllDone words.now }
{
    if words.least().is_some() {
        return false;
    }
    for strand in 0..strands {
        if !words.done(strand) {
            return false;
        }
    }
    true
}

// The numbers that the words have for all cells; 0 stands for a cell without one.
fn all_numbers(alloc: Global, words: &Words, cells: u32) -> Result<Vec<Gold>, AllocError>
    requires { cells ≡ words.now.cells }
    ensures each { IfOk result (λ v. length v.items ≡ cells) }
    ensures numbers { IfOk result (λ v. (c : ℕ) → c < length v.items
        → slice_index v.items c ≡ unwrap_or (cell_in words.now c) 0) }
{
    let mut numbers = Vec::with_capacity(alloc, cells as usize)?;
    for cell in 0..cells {
        numbers.push(words.cell(cell).unwrap_or(Gold::ZERO))?;
    }
    Ok(numbers)
}

// The outcome where the workers have run all strands.
fn outcome_in(
    alloc: Global,
    answers: &FlowAnswers<'_>,
    words: &Words,
) -> Result<Outcome, AllocError>
    requires closed { AreClosed (answers_of answers.now) words.now }
    requires all { AreAllDone words.now }
    ensures { IfOk result (λ o. IsOutcome answers.now.plan.graph.cells o
        (one_thread answers.now.plan answers.now.start answers.now.fuel)) }
{
    answers.facts();
    let graph = answers.graph();
    let numbers = all_numbers(alloc, words, graph.cells)?;
    Ok(Outcome::Done(Items::of(numbers)))
}

// The run in order of all strands that aren't done.
fn run_rest(alloc: Global, answers: &FlowAnswers<'_>, words: &Words) -> Result<Outcome, AllocError>
    requires { AreClosed (answers_of answers.now) words.now }
    ensures { IfOk result (λ o. IsOutcome answers.now.plan.graph.cells o
        (one_thread answers.now.plan answers.now.start answers.now.fuel)) }
{
    answers.facts();
    let graph = answers.graph();
    let mut cells = first_cells(alloc, answers.flow(), answers.start())?;
    let mut room = Room::new(alloc);
    for strand in 0..graph.strands {
        let stop = sweep_one(alloc, &mut room, answers, words, &mut cells, strand)?;
        if let Some((step, stop)) = stop {
            return Ok(Outcome::Refused { step, stop, cells });
        }
    }
    finish(alloc, answers, cells.as_slice())
}

/// The answer of one thread, from the words of a closed board.
pub fn sweep(alloc: Global, answers: &FlowAnswers<'_>, words: &Words) -> Result<Outcome, AllocError>
    requires { AreClosed (answers_of answers.now) words.now }
    ensures { IfOk result (λ o. IsOutcome answers.now.plan.graph.cells o
        (one_thread answers.now.plan answers.now.start answers.now.fuel)) }
{
    let graph = answers.graph();
    if are_all_done(words, graph.strands) {
        outcome_in(alloc, answers, words)
    } else {
        run_rest(alloc, answers, words)
    }
}

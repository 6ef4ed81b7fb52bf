ghost use Rattle.std.specs.Prelude.{◌≡◌, ℕ, ◌<◌, ◌++◌, All, IfOk, OnOk, length, map, replicate};
ghost use Rattle.std.specs.Prelude.{[], unwrap_or};
ghost use Rattle.flow_core.specs.Counts.{IsIn};
ghost use Rattle.flow_core.specs.Net.{reads_of};
ghost use Rattle.wit_code.specs.Code.{IsWellFormed};
ghost use Rattle.wit_code.specs.Table.{outcome_of};
ghost use Rattle.wit_flow.specs.Cells.{held, no_values, numbers_at, with_values, Shows};
ghost use Rattle.wit_flow.specs.Run.{reads_at, writes_at};
ghost use Rattle.wit_flow.specs.Answers.{start_cells, strand_end};
ghost use Rattle.wit_flow.specs.Steps.{IsAmid, step_outcome, strand_cells};
ghost use Rattle.wit_flow.specs.OneThread.{IsCodeEnd, IsOutcome, IsStrandOut, one_thread};
ghost use Rattle.wit_flow.specs.Sources.{AreThere, IsThere, number_of};

use crate::flow::{Flow, Outcome, Source, StrandOut};
use gold_field::{Gold, P};
use items::Items;
use std::alloc::{AllocError, Global};
use wit_code::{Machine, Proc, Room, Stop};

// The values that code writes, or its stop.
fn run_code(
    alloc: Global,
    room: &mut Room,
    procs: &[Proc],
    code: &Proc,
    reads: &[Gold],
    fuel: u64,
) -> Result<Result<Vec<Gold>, Stop>, AllocError>
    requires { IsWellFormed procs.now (length reads.now) code.now }
    ensures { IfOk result (λ r. IsCodeEnd r (outcome_of procs.now code.now reads.now fuel)) }
{
    match Machine::run_in(alloc, room, procs, code, reads, fuel) {
        Ok(values) => Ok(Ok(values)),
        Err(Stop::OutOfMemory) => Err(AllocError),
        Err(stop) => Ok(Err(stop)),
    }
}

// The values that the code of a step writes, or its stop.
fn run_step(
    alloc: Global,
    room: &mut Room,
    flow: &Flow,
    at: usize,
    reads: &[Gold],
    fuel: u64,
) -> Result<Result<Vec<Gold>, Stop>, AllocError>
    requires near { at < length flow.now.steps }
    requires fits { length reads.now ≡ length (reads_at flow.now.steps at) }
    requires below { All (λ x. x < P) reads.now }
    ensures end { IfOk result (λ r. IsCodeEnd r (step_outcome flow.now at reads.now fuel)) }
    ensures each { IfOk result (λ r. IfOk r
        (λ ys. length ys.items ≡ length (writes_at flow.now.steps at))) }
{
    flow.facts();
    let step = flow.step(at);
    let procs = flow.procs.as_slice();
    let end = run_code(alloc, room, procs, &step.code, reads, fuel)?;
    Ok(end)
}

/// The numbers in cells of a list; 0 stands for a cell without a value.
pub fn look(
    alloc: Global,
    held_cells: &[Option<Gold>],
    cells: &[u32],
) -> Result<Vec<Gold>, AllocError>
    requires { (c : ℕ) → IsIn c cells.now → c < length held_cells.now }
    ensures numbers { IfOk result (λ v. v.items ≡ numbers_at (held held_cells.now) cells.now) }
    ensures below { IfOk result (λ v. All (λ x. x < P) v.items) }
{
    let mut numbers = Vec::with_capacity(alloc, cells.len())?;
    for cell in cells {
        let number = held_cells[*cell as usize].unwrap_or(Gold::ZERO);
        prove!(number.get() < P);
        numbers.push(number)?;
    }
    Ok(numbers)
}

/// Puts values into cells.
pub fn put(held_cells: &mut Items<Option<Gold>>, cells: &[u32], values: &[Gold])
    requires near { (c : ℕ) → IsIn c cells.now → c < length held_cells.old }
    requires each { length values.now ≡ length cells.now }
    ensures wide { length held_cells.new ≡ length held_cells.old }
    ensures put { held held_cells.new ≡ with_values (held held_cells.old) cells.now values.now }
{
    for (at, cell) in cells.iter().enumerate() {
        held_cells.set(*cell as usize, Some(values[at]));
    }
}

fn empty_cells(alloc: Global, count: u32) -> Result<Vec<Option<Gold>>, AllocError>
    ensures { IfOk result (λ v. v.items ≡ replicate count None) }
{
    let mut cells = Vec::with_capacity(alloc, count as usize)?;
    for made in 0..count {
        cells.push(None)?;
    }
    Ok(cells)
}

/// The start cells with their values.
pub fn first_cells(
    alloc: Global,
    flow: &Flow,
    start: &[Gold],
) -> Result<Items<Option<Gold>>, AllocError>
    requires { length start.now ≡ length flow.now.starts }
    ensures { IfOk result (λ v. Shows flow.now.graph.cells v (start_cells flow.now start.now)) }
{
    flow.facts();
    let starts = flow.starts.as_slice();
    let empty = empty_cells(alloc, flow.cells())?;
    let mut cells = Items::of(empty);
    put(&mut cells, starts, start);
    Ok(cells)
}

/// The values of cells that all have one.
pub fn values_of(alloc: Global, cells: &[Option<Gold>]) -> Result<Vec<Gold>, AllocError>
    ensures { IfOk result (λ v. v.items ≡ map (λ o. unwrap_or o 0) cells.now) }
{
    let mut values = Vec::with_capacity(alloc, cells.len())?;
    for cell in cells {
        values.push(cell.unwrap_or(Gold::ZERO))?;
    }
    Ok(values)
}

/// Runs all steps in order on one thread, each with this fuel.
pub fn run_one(alloc: Global, flow: &Flow, start: &[Gold], fuel: u64) -> Result<Outcome, AllocError>
    requires { length start.now ≡ length flow.now.starts }
    ensures { IfOk result
        (λ o. IsOutcome flow.now.graph.cells o (one_thread flow.now start.now fuel)) }
{
    flow.facts();
    let mut cells = first_cells(alloc, flow, start)?;
    let mut room = Room::new(alloc);
    for at in 0..flow.step_count() {
        let step = flow.step(at);
        let reads = look(alloc, cells.as_slice(), step.reads.as_slice())?;
        match run_step(alloc, &mut room, flow, at, reads.as_slice(), fuel)? {
            Ok(values) => put(&mut cells, step.writes.as_slice(), values.as_slice()),
            Err(stop) => {
                return Ok(Outcome::Refused {
                    step: at as u32,
                    stop,
                    cells,
                });
            }
        }
    }
    let values = values_of(alloc, cells.as_slice())?;
    Ok(Outcome::Done(Items::of(values)))
}

fn find(source: Source, reads: &[Gold], written: &[Gold]) -> Gold
    requires { IsThere (length reads.now) (length written.now) source }
    ensures { result ≡ number_of reads.now written.now source }
{
    match source {
        Source::Read(place) => reads[place],
        Source::Written(place) => written[place],
    }
}

// The numbers that a step reads, by their places in what its strand reads and has written.
fn gather(
    alloc: Global,
    sources: &[Source],
    reads: &[Gold],
    written: &[Gold],
) -> Result<Vec<Gold>, AllocError>
    requires { AreThere (length reads.now) (length written.now) sources.now }
    ensures numbers { IfOk result
        (λ v. v.items ≡ map (number_of reads.now written.now) sources.now) }
    ensures below { IfOk result (λ v. All (λ x. x < P) v.items) }
{
    let mut numbers = Vec::with_capacity(alloc, sources.len())?;
    for source in sources {
        let number = find(*source, reads, written);
        prove!(number.get() < P);
        numbers.push(number)?;
    }
    Ok(numbers)
}

// The numbers that a strand's step reads, where its earlier steps wrote these values.
fn numbers_for(
    alloc: Global,
    flow: &Flow,
    strand: u32,
    at: usize,
    reads: &[Gold],
    written: &[Gold],
) -> Result<Vec<Gold>, AllocError>
    requires near { strand < length flow.now.strands }
    requires each { length reads.now ≡ length (reads_of flow.now.graph strand) }
    requires within { IsAmid flow.now strand at written.now }
    ensures numbers { IfOk result (λ v. v.items
        ≡ numbers_at (strand_cells flow.now strand reads.now at written.now)
        (reads_at flow.now.steps at)) }
    ensures below { IfOk result (λ v. All (λ x. x < P) v.items) }
{
    let sources = flow.sources.as_slice();
    let own = sources[at].as_slice();
    let numbers = gather(alloc, own, reads, written)?;
    Ok(numbers)
}

// Puts values behind those that there are. Where there are none and no room is taken, they become
// the list.
fn append(written: &mut Vec<Gold>, values: Vec<Gold>) -> Result<(), AllocError>
    ensures { OnOk result (written.new.items ≡ written.old.items ++ values.items) }
{
    if written.is_empty() && written.capacity() == 0 {
        *written = values;
        return Ok(());
    }
    written.extend_from_slice(values.as_slice())
}

// An empty list with room for all that a strand of several steps writes, so that it needn't grow.
// For one step it takes no room.
fn room_for(alloc: Global, flow: &Flow, strand: u32) -> Result<Vec<Gold>, AllocError>
    requires { strand < length flow.now.strands }
    ensures { IfOk result (λ v. v.items ≡ []) }
{
    flow.facts();
    if flow.strand(strand as usize).count == 1 {
        return Ok(Vec::new(alloc));
    }
    let graph = &flow.graph;
    Vec::with_capacity(alloc, graph.writes_of(strand).len())
}

/// Runs a strand's steps in order, each with this fuel. `reads` has the values of the cells that
/// the strand reads, in the order of the graph's list.
pub fn run_strand(
    alloc: Global,
    flow: &Flow,
    strand: u32,
    reads: &[Gold],
    fuel: u64,
) -> Result<StrandOut, AllocError>
    requires near { strand < length flow.now.strands }
    requires each { length reads.now ≡ length (reads_of flow.now.graph strand) }
    ensures { IfOk result (λ o. IsStrandOut o (strand_end flow.now fuel strand reads.now)) }
{
    run_strand_in(alloc, &mut Room::new(alloc), flow, strand, reads, fuel)
}

/// The same in a room that runs hand on.
pub fn run_strand_in(
    alloc: Global,
    room: &mut Room,
    flow: &Flow,
    strand: u32,
    reads: &[Gold],
    fuel: u64,
) -> Result<StrandOut, AllocError>
    requires near { strand < length flow.now.strands }
    requires each { length reads.now ≡ length (reads_of flow.now.graph strand) }
    ensures { IfOk result (λ o. IsStrandOut o (strand_end flow.now fuel strand reads.now)) }
{
    flow.facts();
    let part = flow.strand(strand as usize);
    let mut written = room_for(alloc, flow, strand)?;
    for at in part.first..part.first + part.count {
        let numbers = numbers_for(alloc, flow, strand, at as usize, reads, written.as_slice())?;
        match run_step(alloc, room, flow, at as usize, numbers.as_slice(), fuel)? {
            Ok(values) => append(&mut written, values)?,
            Err(stop) => {
                return Ok(StrandOut::Refused {
                    step: at,
                    stop,
                    before: Items::of(written),
                });
            }
        }
    }
    Ok(StrandOut::Values(Items::of(written)))
}

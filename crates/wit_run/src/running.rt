ghost use Rattle.std.specs.Prelude.{◌≡◌, ◌<◌, ◌≤◌, ℕ, All, List, IfOk, length};
ghost use Rattle.std.specs.Prelude.{map, slice_index};
ghost use Rattle.std.specs.List.{AllZip};
ghost use Rattle.cir_ast.specs.Program.{Program};
ghost use Rattle.cir_meaning.specs.RunBodies.{ran};
ghost use Rattle.cir_meaning.specs.Scoped.{IsResolved};
ghost use Rattle.cir_steps.specs.Places.{ArePlacesMeant};
ghost use Rattle.wit_circuit.specs.Whole.{IsCircuitOf};
ghost use Rattle.wit_run.specs.Batch.{HasTask, IsRunFrom, batch_size, most_batch};
ghost use Rattle.wit_run.specs.Ending.{IsEndOf};
ghost use Rattle.wit_flow.specs.declared.flow.Outcome.TheVariants.{Done, Refused};
ghost use Rattle.wit_run.specs.Task.{EndsBy, HasPlace, IsTask, code_in};

use crate::ending::RunEnd;
use crate::lines::{Held, lines_before};
use flow_batch::run_batch;
use flow_engine::{Gate, run_many};
use gold_field::Gold;
use items::Items;
use std::alloc::{AllocError, AllocGlobal, Global};
use std::sync::Wait;
use std::thread::Threads;
use wit_circuit::{CircuitCode, LogLine, StepPlace};
use wit_code::Stop;
use wit_flow::{Flow, Outcome, cut};

/// A circuit whose steps are cut into strands. It is run on any number of inputs.
#[derive(Drop)]
pub struct CutCircuit {
    pub flow: Flow,
    /// The cells of the signals by their numbers.
    pub homes: Items<u32>,
    pub places: Items<StepPlace>,
    pub logs: Items<LogLine>,
}

// The numbers in cells, each of which has one.
fn numbers_in(alloc: Global, values: &[Gold], cells: &[u32]) -> Result<Vec<Gold>, AllocError>
    ensures { IfOk result (λ v. v.items ≡ map (slice_index values.now) cells.now) }
{
    let mut numbers = Vec::with_capacity(alloc, cells.len())?;
    for cell in cells {
        let number = values.get(*cell as usize).copied().unwrap_or(Gold::ZERO);
        numbers.push(number)?;
    }
    Ok(numbers)
}

impl CutCircuit {
    /// In time linear in all that the steps name.
    pub fn of(alloc: Global, code: CircuitCode) -> Result<CutCircuit, AllocError>
        requires { (p : Program) × IsResolved p × ArePlacesMeant p × IsCircuitOf p code }
        ensures { IfOk result (λ x. code_in x ≡ code) }
    {
        let CircuitCode {
            steps,
            procs,
            cells,
            starts,
            homes,
            places,
            logs,
        } = code;
        let flow = cut(
            alloc,
            steps.into_vec(),
            procs.into_vec(),
            cells,
            starts.into_vec(),
        )?;
        Ok(CutCircuit {
            flow,
            homes,
            places,
            logs,
        })
    }

    // How the run ends where all steps end.
    fn ended(&self, alloc: Global, values: &[Gold]) -> Result<RunEnd, AllocError>
        ensures { IfOk result (EndsBy (code_in self.now) (Done values.now)) }
    {
        let numbers = numbers_in(alloc, values, self.homes.as_slice())?;
        let held = Held::All(values);
        let log = lines_before(alloc, self.logs.as_slice(), self.places.len(), held)?;
        Ok(RunEnd::Ended {
            values: Items::of(numbers),
            log: Items::of(log),
        })
    }

    // How it ends where a step stops.
    fn stopped(
        &self,
        alloc: Global,
        step: u32,
        stop: Stop,
        cells: &[Option<Gold>],
    ) -> Result<RunEnd, AllocError>
        requires { step < length self.now.places }
        ensures { IfOk result (EndsBy (code_in self.now) (Refused step stop cells.now)) }
    {
        let places = self.places.as_slice();
        let place = places[step as usize];
        let held = Held::Some(cells);
        let log = lines_before(alloc, self.logs.as_slice(), step as usize, held)?;
        Ok(RunEnd::Stopped {
            stop,
            place,
            log: Items::of(log),
        })
    }

    fn end_of(&self, alloc: Global, outcome: &Outcome) -> Result<RunEnd, AllocError>
        requires { HasPlace (code_in self.now) outcome.now }
        ensures { IfOk result (EndsBy (code_in self.now) outcome.now) }
    {
        match outcome {
            Outcome::Done(values) => self.ended(alloc, values.as_slice()),
            Outcome::Refused { step, stop, cells } => {
                self.stopped(alloc, *step, *stop, cells.as_slice())
            }
        }
    }

    // How the runs with these outcomes end.
    fn ends_of(&self, alloc: Global, outcomes: &[Outcome]) -> Result<Vec<RunEnd>, AllocError>
        requires { All (HasPlace (code_in self.now)) outcomes.now }
        ensures { IfOk result
            (λ ends. AllZip (EndsBy (code_in self.now)) outcomes.now ends.items) }
    {
        let mut ends = Vec::with_capacity(alloc, outcomes.len())?;
        for outcome in outcomes {
            let end = self.end_of(alloc, outcome)?;
            ends.push(end)?;
        }
        Ok(ends)
    }

    /// Runs the steps on 1 to 64 workers, each step with this fuel, from these numbers in the start
    /// cells: 1, and the inputs of the main component. Whatever the workers' number, and whatever
    /// comes first in time, the answer is the program's run.
    pub fn run_many<R: Threads + Wait + AllocGlobal + Sync, G: Gate>(
        &self,
        rt: &R,
        start: &[Gold],
        fuel: u64,
        workers: u32,
        gate: &G,
    ) -> Result<RunEnd, AllocError>
        requires task { (p : Program) × (inputs : List ℕ)
            × IsTask p (code_in self.now) start.now inputs }
        requires some { 0 < workers }
        requires few { workers ≤ 64 }
        ensures { (p : Program) (inputs : List ℕ)
            (task : IsTask p (code_in self.now) start.now inputs)
            → IfOk result (λ end. IsEndOf task.meaning.instances end (ran p fuel inputs)) }
    {
        let outcome = run_many(rt, &self.flow, start, fuel, workers, gate)?;
        self.end_of(rt.alloc(), &outcome)
    }

    /// Runs the steps from each of these lists of numbers, as `run_many` from one, with 1 to 64
    /// workers for all of them. Each end is that of the program's run on the inputs of its list,
    /// whatever the others are.
    pub fn run_batch<R: Threads + Wait + AllocGlobal + Sync, G: Gate>(
        &self,
        rt: &R,
        starts: &[Vec<Gold>],
        fuel: u64,
        workers: u32,
        gate: &G,
    ) -> Result<Vec<RunEnd>, AllocError>
        requires tasks { (p : Program)
            × All (λ start. HasTask p (code_in self.now) start.items) starts.now }
        requires some { 0 < workers }
        requires few { workers ≤ 64 }
        requires small { batch_size (code_in self.now) (length starts.now) ≤ most_batch }
        ensures { (p : Program) → IfOk result (λ ends. AllZip
            (λ start end. IsRunFrom p (code_in self.now) fuel start.items end)
            starts.now ends.items) }
    {
        self.flow.facts();
        let outcomes = run_batch(rt, &self.flow, starts, fuel, workers, gate)?;
        self.ends_of(rt.alloc(), outcomes.as_slice())
    }

    /// What so many lists count: for each of them a word for each cell and each step, and 64
    /// workers.
    pub fn batch_size(&self, lists: usize) -> u128
        ensures { result ≡ batch_size (code_in self.now) lists }
    {
        self.flow.facts();
        let each = u128::from(self.flow.cells()) + self.flow.steps.len() as u128 + 64;
        lists as u128 * each
    }
}

use flow_core::Graph;
use gold_field::Gold;
use items::Items;
use std::marker::Model;
use wit_code::{Proc, Step, Stop};

/// Consecutive steps that run as one: `count` of them, from step `first` on.
#[derive(Clone, Copy)]
pub struct Strand {
    pub first: u32,
    pub count: u32,
}

/// Where a step finds a number that it reads.
#[derive(Clone, Copy)]
pub enum Source {
    /// At this place of what its strand reads.
    Read(usize),
    /// At this place of what its strand's steps have written.
    Written(usize),
}

/// Steps that are cut into strands. The type keeps the conditions of `cut`, what the strands and
/// their graph are, and the rule by which they are cut.
#[derive(Drop)]
pub struct Flow {
    pub strands: Items<Strand>,
    pub steps: Items<Step>,
    /// What the steps' code calls.
    pub procs: Items<Proc>,
    /// The cells that have their values from the start.
    pub starts: Items<u32>,
    /// What the strands read and write, and which of them wait for which.
    pub graph: Graph,
    /// Where each step finds each number that it reads.
    pub sources: Items<Items<Source>>,
}

impl Model for Flow {
    ghost use Rattle.wit_flow.specs.Plan.{Plan, plan};
    ghost use Rattle.wit_flow.specs.Sources.{IsKept};

    ghost Value = { Plan };

    ghost view = { λ f. plan f.strands f.steps f.procs f.starts f.graph };

    ghost invariant = { λ f. IsKept (plan f.strands f.steps f.procs f.starts f.graph) f.sources };
}

impl Flow {
    ghost use Rattle.std.specs.Prelude.{◌≡◌, ◌<◌, length};
    ghost use Rattle.wit_flow.specs.Run.{step_at};
    ghost use Rattle.wit_flow.specs.Cut.{strand_at};
    ghost use Rattle.wit_flow.specs.Plan.{IsPlan, AreByRule};

    /// Does nothing: its clauses tell a caller what the type keeps.
    pub fn facts(&self)
        ensures plan { IsPlan self.now }
        ensures by_rule { AreByRule self.now }
    {
        let _strands = &self.strands;
    }

    /// The number of cells.
    pub fn cells(&self) -> u32
        ensures { result ≡ self.now.graph.cells }
    {
        self.graph.cells
    }

    pub(crate) fn step_count(&self) -> usize
        ensures { result ≡ length self.now.steps }
    {
        self.steps.len()
    }

    pub(crate) fn step(&self, at: usize) -> &Step
        requires { at < length self.now.steps }
        ensures { result.now ≡ step_at self.now.steps at }
    {
        let steps = self.steps.as_slice();
        &steps[at]
    }

    pub(crate) fn strand(&self, strand: usize) -> Strand
        requires { strand < length self.now.strands }
        ensures { result ≡ strand_at self.now.strands strand }
    {
        self.strands.as_slice()[strand]
    }
}

/// How the run of a whole flow ends.
#[derive(Drop)]
pub enum Outcome {
    /// The value of every cell.
    Done(Items<Gold>),
    /// The first step that stops, why, and the cells as they then are: the start cells and what
    /// earlier steps wrote.
    Refused {
        step: u32,
        stop: Stop,
        cells: Items<Option<Gold>>,
    },
}

/// How the run of a strand ends.
#[derive(Drop)]
pub enum StrandOut {
    /// The values of the cells that it writes, in the order of the graph's list.
    Values(Items<Gold>),
    /// The first step that stops, why, and what the strand's earlier steps wrote, in order.
    Refused {
        step: u32,
        stop: Stop,
        before: Items<Gold>,
    },
}

ghost use Rattle.std.specs.Prelude.{◌≡◌, ◌<◌, IfOk, length};
ghost use Rattle.wit_flow.specs.OneThread.{IsStrandOut};
ghost use Rattle.flow_core.specs.Flow.{answer_of};
ghost use Rattle.flow_engine.specs.Task.{IsTask, IsAnswer, task, answers_of, read_at, end_at};
ghost use Rattle.flow_engine.specs.Task.{AreRead};

use flow_board::Answers;
use flow_core::Graph;
use gold_field::Gold;
use std::alloc::{AllocError, Global};
use std::marker::Model;
use wit_code::Room;
use wit_flow::{Flow, StrandOut, run_strand_in};

/// A flow with start values and the fuel of each step: it stands for what the strands answer, and
/// runs them.
#[derive(Drop)]
pub struct FlowAnswers<'s> {
    flow: &'s Flow,
    start: &'s [Gold],
    fuel: u64,
}

impl<'s> Model for FlowAnswers<'s> {
    ghost use Rattle.std.specs.Prelude.{◌≡◌, length};
    ghost use Rattle.flow_engine.specs.Task.{Task, task};

    ghost Value = { Task };

    ghost view = { λ a. task a.flow.now a.start.now a.fuel };

    ghost invariant = { λ a. length a.start.now ≡ length a.flow.now.starts };
}

impl<'s> Answers for FlowAnswers<'s> {
    ghost flow = { answers_of };
}

impl<'s> FlowAnswers<'s> {
    /// Takes no memory. `start` has the values of the flow's start cells, in their order.
    pub fn of(flow: &'s Flow, start: &'s [Gold], fuel: u64) -> FlowAnswers<'s>
        requires { length start.now ≡ length flow.now.starts }
        ensures { result ≡ task flow.now start.now fuel }
    {
        FlowAnswers { flow, start, fuel }
    }

    /// The same once more. Takes no memory.
    pub(crate) fn again(&self) -> FlowAnswers<'s>
        ensures { result ≡ self.now }
    {
        FlowAnswers {
            flow: self.flow,
            start: self.start,
            fuel: self.fuel,
        }
    }

    /// Does nothing: its clauses tell a caller what the type keeps.
    pub fn facts(&self)
        ensures { IsTask self.now }
    {
        let flow = self.flow;
        flow.facts();
        // A look at a field opens the type, so that the proof has what it keeps.
        let _start = self.start;
    }

    pub(crate) fn flow(&self) -> &'s Flow
        ensures { result.now ≡ self.now.plan }
    {
        self.flow
    }

    pub(crate) fn start(&self) -> &'s [Gold]
        ensures { result.now ≡ self.now.start }
    {
        self.start
    }

    /// What the strands read and write.
    pub fn graph(&self) -> &'s Graph
        ensures { result.now ≡ self.now.plan.graph }
    {
        let flow = self.flow;
        &flow.graph
    }

    // Runs a strand on what it reads once all below it have answered.
    pub(crate) fn run_in_order(
        &self,
        alloc: Global,
        room: &mut Room,
        strand: u32,
        reads: &[Gold],
    ) -> Result<StrandOut, AllocError>
        requires near { strand < self.now.plan.graph.strands }
        requires reads { reads.now ≡ read_at self.now strand }
        ensures { IfOk result (λ o. IsStrandOut o (end_at self.now strand)) }
    {
        let flow = self.flow;
        flow.facts();
        run_strand_in(alloc, room, flow, strand, reads, self.fuel)
    }

    /// Runs a strand on the values of the cells that it reads, in a room that runs hand on.
    pub fn run(
        &self,
        alloc: Global,
        room: &mut Room,
        strand: u32,
        reads: &[Gold],
    ) -> Result<StrandOut, AllocError>
        requires near { strand < self.now.plan.graph.strands }
        requires reads { AreRead (answers_of self.now) strand reads.now }
        ensures { IfOk result (λ o. IsAnswer o (answer_of (answers_of self.now) strand)) }
    {
        self.facts();
        self.run_in_order(alloc, room, strand, reads)
    }
}

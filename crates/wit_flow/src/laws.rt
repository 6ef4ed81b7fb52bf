//! What holds of every plan, as contracts of functions that do nothing.
ghost use Rattle.std.specs.Prelude.{◌≡◌, ℕ, ◌<◌, List, length, slice_index};
ghost use Rattle.flow_core.specs.Net.{reads_of};
ghost use Rattle.flow_core.specs.Flow.{HasValue, IsFlow, answer_of};
ghost use Rattle.wit_flow.specs.Plan.{Plan, IsPlan};
ghost use Rattle.wit_flow.specs.Answers.{flow_of, answer_end, strand_end};
ghost use Rattle.wit_flow.specs.OneThread.{IsStrandByStrand};

/// The answer of one thread, which is told step by step, is that of the strands one after another,
/// whatever consecutive strands the steps are cut into.
pub fn one_thread_is_strand_by_strand()
    ensures { (p : Plan) (start : List ℕ) (fuel : ℕ) → IsPlan p → length start ≡ length p.starts
        → IsStrandByStrand p start fuel }
{}

/// The answers of a plan's strands have the shape of a flow: a strand is Unreached exactly where a
/// cell that it reads has no value, and each list has one value for each cell that its strand
/// writes.
pub fn a_plan_is_a_flow()
    ensures { (p : Plan) (start : List ℕ) (fuel : ℕ) → IsPlan p → length start ≡ length p.starts
        → IsFlow (flow_of p start fuel) }
{}

/// A strand answers as its steps end on the values of the cells that it reads.
pub fn a_strand_answers_for_its_values()
    ensures { (p : Plan) (start : List ℕ) (fuel k : ℕ) (xs : List ℕ) → IsPlan p
        → length start ≡ length p.starts → k < p.graph.strands
        → length xs ≡ length (reads_of p.graph k)
        → ((i : ℕ) → i < length xs
        → HasValue (flow_of p start fuel) (slice_index (reads_of p.graph k) i) (slice_index xs i))
        → answer_of (flow_of p start fuel) k ≡ answer_end (strand_end p fuel k xs) }
{}

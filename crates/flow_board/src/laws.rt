//! What the rule of a board says, as contracts of functions that do nothing.
ghost use Rattle.std.specs.Prelude.{◌≡◌, ℕ, ◌<◌, IsTrue, List, []};
ghost use mathlib.Core.Option.{some};
ghost use lib.ListN.{get_elem?};
ghost use Rattle.atomic_table.specs.Table.{State as TableState, opening as first_table};
ghost use Rattle.flow_core.specs.Flow.{Flow};
ghost use Rattle.flow_board.specs.declared.view.View.{View as AView};
ghost use Rattle.flow_core.specs.Events.{opening};
ghost use Rattle.flow_core.specs.Quiet.{IsBelow};
ghost use Rattle.flow_board.specs.Plays.{SeatState};
ghost use Rattle.flow_board.specs.Views.{first, CountsOneStep};
ghost use Rattle.flow_board.specs.Events.{Shown, WordSteps, SeatSteps};
ghost use Rattle.flow_board.specs.Rule.{Ruled, SaysWho};
ghost use Rattle.flow_board.specs.Closed.{ClosedWords, IsClosed, IsDoneBelow, HasOnlyAnswers};
ghost use Rattle.flow_board.specs.Closed.{done_in, least_in};

/// A board begins in the core's opening state: whatever words the first seat's table has under the
/// rule before any step, they show that state.
pub fn a_board_begins_in_the_opening_state()
    ensures { (f : Flow) (ws : List ℕ) → Ruled f (first_table ws [] (first f))
        → Shown f (first_table ws [] (first f)) (opening f) }
{}

/// Between any two steps the counter words say who has a strand, and the cell that a worker fills
/// next is empty.
pub fn the_rule_says_who_has_a_strand()
    ensures { (f : Flow) (t : TableState ℕ AView) → Ruled f t → SaysWho f t }
{}

/// In the words of a closed board a strand below the least refused one whose word is TAKEN is done,
/// and the cells that it writes have its answer's values.
pub fn a_taken_strand_below_the_least_is_done()
    ensures { (f : Flow) (done refused : List ℕ) (w : ClosedWords) (k : ℕ)
        → IsClosed f done refused w → k < f.net.strands
        → IsBelow (least_in w) k → IsTrue (done_in w k) → IsDoneBelow f done w k }
{}

/// The words of a closed board show the answers' values and refusals, and no others.
pub fn closed_words_have_only_answers()
    ensures { (f : Flow) (done refused : List ℕ) (w : ClosedWords)
        → IsClosed f done refused w → HasOnlyAnswers f w }
{}

/// The least refused strand that they name is the one of the core's state, if there is one.
pub fn closed_words_name_the_least_refused_strand()
    ensures { (f : Flow) (done refused : List ℕ) (w : ClosedWords)
        (h : IsClosed f done refused w) → least_in w ≡ h.closes.core.least }
{}

/// Each of the nine calls by a seat makes one step, which its view counts.
pub fn each_call_counts_one_step()
    ensures { (v : AView) → CountsOneStep v }
{}

/// Each kind of step on a word that a board's calls make is one event of the core, or leaves its
/// state as it was.
pub fn each_step_is_one_event_or_none()
    ensures { (f : Flow) (slots id : ℕ) (m : SeatState) → 0 < m.0.share → WordSteps f slots id m }
{}

/// Cutting a seat in two and joining two into one leave the core's state as it was.
pub fn seats_are_split_and_joined_without_an_event()
    ensures { (f : Flow) (t : TableState ℕ AView) (r : Ruled f t) (id : ℕ) (v : AView)
        → get_elem? t.views id ≡ some v → 0 < v.share → SeatSteps f t r id v }
{}

//! What holds of every run, as contracts of functions that do nothing.
ghost use Rattle.std.specs.Prelude.{◌≡◌, ℕ, ◌+◌, ◌<◌, List, Option, length};
ghost use Rattle.flow_core.specs.declared.state.Event.{Event as AnEvent};
ghost use Rattle.flow_core.specs.declared.state.State.{State as AState};
ghost use Rattle.flow_core.specs.Net.{Net, IsNet, preds_of};
ghost use Rattle.flow_core.specs.Flow.{Flow, IsFlow, HasValue};
ghost use Rattle.flow_core.specs.Core.{missing_of, IsSound, IsKept};
ghost use Rattle.flow_core.specs.Events.{opening, opening_of, CanStart, after, after_all, IsHonest};
ghost use Rattle.flow_core.specs.Events.{AreHonest};
ghost use Rattle.flow_core.specs.Told.{times_told, times_ready};
ghost use Rattle.flow_core.specs.Quiet.{IsQuiet, IsSettled, IsAnswered};

/// Every event, honest or not, keeps what a state is sound by.
pub fn every_event_keeps_a_state_sound()
    ensures { (n : Net) (s : AState) (e : AnEvent) → IsNet n → IsSound n s
        → IsSound n (after n s e) }
{}

/// Every honest event keeps the whole invariant.
pub fn every_honest_event_keeps_the_invariant()
    ensures { (f : Flow) (s : AState) (e : AnEvent) → IsNet f.net → IsFlow f → IsKept f s
        → IsHonest f s e → IsKept f (after f.net s e) }
{}

/// A cell has at most one value.
pub fn a_cell_has_one_value()
    ensures { (f : Flow) (c x y : ℕ) → IsNet f.net → IsFlow f → HasValue f c x → HasValue f c y
        → x ≡ y }
{}

/// A strand's missing count falls by one at each release that tells it, and by nothing else. Once
/// that of a strand with predecessors is 0, just one of the releases that told the strand has found
/// the count at 1, and before that none has.
pub fn one_release_finds_a_strand_ready()
    ensures told { (n : Net) (start : List (Option ℕ)) (es : List AnEvent) (k : ℕ) → IsNet n
        → CanStart n start
        → times_told n (opening_of n start) es k + missing_of
        (after_all n (opening_of n start) es) k
        ≡ length (preds_of n k) }
    ensures ready { (n : Net) (start : List (Option ℕ)) (es : List AnEvent) (k : ℕ) → IsNet n
        → CanStart n start
        → 0 < length (preds_of n k) → missing_of (after_all n (opening_of n start) es) k ≡ 0
        → times_ready n (opening_of n start) es k ≡ 1 }
    ensures not_yet { (n : Net) (start : List (Option ℕ)) (es : List AnEvent) (k : ℕ) → IsNet n
        → CanStart n start
        → 0 < missing_of (after_all n (opening_of n start) es) k
        → times_ready n (opening_of n start) es k ≡ 0 }
{}

/// Over every honest list of events from the opening state, whatever workers they come from and in
/// whatever order, the whole invariant holds.
pub fn every_honest_run_keeps_the_invariant()
    ensures { (f : Flow) (es : List AnEvent) → IsNet f.net → IsFlow f
        → AreHonest f (opening f) es → IsKept f (after_all f.net (opening f) es) }
{}

/// Where no strand is held and every strand below the least refused one is done, that one is the
/// first refusal of one thread, and the cells below it have the values of one thread.
pub fn settled_states_have_the_answer()
    ensures { (f : Flow) (s : AState) → IsNet f.net → IsFlow f → IsKept f s → IsSettled f.net s
        → IsAnswered f s }
{}

/// A state in which nothing is left to do is settled.
pub fn quiet_states_are_settled()
    ensures { (n : Net) (s : AState) → IsNet n → IsSound n s → IsQuiet n s → IsSettled n s }
{}

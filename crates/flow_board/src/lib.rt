//! The witness engine's core as a table of words that threads change in single atomic steps, with
//! no lock: each step is one event of the core, or leaves its state as it was.
#![tactic(auto)]

mod answers;
mod board;
mod laws;
mod making;
mod opening;
mod rule;
mod seat;
mod view;
mod words;

pub use answers::Answers;
pub use board::{Board, Released};
pub use laws::{
    a_board_begins_in_the_opening_state, a_taken_strand_below_the_least_is_done,
    closed_words_have_only_answers, closed_words_name_the_least_refused_strand,
    each_call_counts_one_step, each_step_is_one_event_or_none,
    seats_are_split_and_joined_without_an_event, the_rule_says_who_has_a_strand,
};
pub use seat::WorkSeat;
pub use words::Words;

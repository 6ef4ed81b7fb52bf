//! The lines that `circom_gold` prints, its exit statuses, and the circuit that `generate` makes.
#![tactic(auto)]

mod answer;
mod determined;
mod generated;
mod lines;
mod proving;
mod run_lines;
mod sources;
mod symbols;

pub use answer::{BadInput, LineCause, LineKind, Refusal, Verdict};
pub use determined::{confirmed_line, confirmed_status, determined_line, undetermined_line};
pub use generated::{generated_start, generated_text};
pub use lines::{compiled_line, fault_line, usage_line};
pub use proving::{audit_line, audit_status, proved_line, public_line};
pub use run_lines::{batch_line, generated_line, log_text, stop_line, witness_line};
pub use symbols::{named_line, symbols_line, wire_name};

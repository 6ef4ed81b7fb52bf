use cir_ast::Text;
use gold_field::Gold;
use items::Items;
use wit_circuit::StepPlace;
use wit_code::Stop;

/// How the run of a circuit ends.
#[derive(Drop)]
pub enum RunEnd {
    /// The numbers of the signals, that of signal 0 first, and the log lines.
    Ended {
        values: Items<Gold>,
        log: Items<Text>,
    },
    /// Why a step stops, where its statement stands, and the log lines of the steps before it.
    Stopped {
        stop: Stop,
        place: StepPlace,
        log: Items<Text>,
    },
}

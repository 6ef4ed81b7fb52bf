use cir_ast::Text;
use cir_ast::program::Spot;
use items::Items;
use wit_code::{Proc, Step};

/// Where the statement of a step stands: its file, by the order in which files are loaded, its
/// place there, and the number of the instance in which it is executed.
#[derive(Clone, Copy)]
pub struct StepPlace {
    pub file: u32,
    pub spot: Spot,
    pub instance: u32,
}

/// A part of a log line: text, or the number in a cell.
#[derive(Drop)]
pub enum LogPart {
    Words(Text),
    Cell(u32),
}

/// The log line of the step of this number.
pub struct LogLine {
    pub step: u32,
    pub parts: Items<LogPart>,
}

// Written out, so that the proof of an owner sees one call and not the drop of each part.
impl Drop for LogLine {
    fn drop(self) {
        let LogLine {
            step: _step,
            parts: _parts,
        } = self;
    }
}

/// The steps of a program's circuit as code for the witness machine.
#[derive(Drop)]
pub struct CircuitCode {
    pub steps: Items<Step>,
    /// What the steps' code calls.
    pub procs: Items<Proc>,
    /// The number of cells.
    pub cells: u32,
    /// The cells that have numbers at first: cell 0, which has 1, and those of main's inputs.
    pub starts: Items<u32>,
    /// The cells of the signals by their numbers, that of signal 0 first.
    pub homes: Items<u32>,
    /// Where the statement of each step stands.
    pub places: Items<StepPlace>,
    /// The lines of the steps that log, in the steps' order.
    pub logs: Items<LogLine>,
}

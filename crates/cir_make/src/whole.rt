//! What the execution of a body with its steps keeps.
use crate::cells::{Cells, Homes, Run};
use cir_evaluate::Context;
use cir_frame::{Frame, SignalEntry, World};
use cir_rules::CallTable;
use wit_circuit::MadeStep;

/// What the steps of the whole program need: the next cell, and the calls that have procedures, in
/// order.
#[derive(Drop)]
pub struct Made {
    pub next: u32,
    pub keys: CallTable,
}

/// A body while it is executed.
#[derive(Drop)]
pub struct Inside {
    pub frame: Frame,
    pub cells: Cells,
}

/// The program while it is executed.
#[derive(Drop)]
pub struct Whole {
    pub world: World,
    pub made: Made,
}

/// What a component's body gives: its signals with their cells, where the signals of the components
/// in it stand, and its steps.
#[derive(Drop)]
pub struct Cast {
    pub signals: Vec<Option<SignalEntry>>,
    pub ports: Vec<Vec<Run>>,
    pub inside: Vec<Homes>,
    pub steps: Vec<MadeStep>,
}

/// What stays the same while a body is executed, with what makes its components.
#[derive(Drop)]
pub struct Body<'p, C, M> {
    pub context: &'p Context<'p, C>,
    /// What a template is made to: by the place of the statement, the number of the template, its
    /// arguments and the component's path.
    pub make: &'p M,
    /// Whether a further template may be opened.
    pub may_make: bool,
}

//! The cells of a body: where the elements of its variables have their numbers from, and where
//! those of its signals stand.
use gold_field::Gold;
use wit_circuit::MadeStep;

/// Where an element that isn't known has its number from.
#[derive(Clone, Copy)]
pub enum Source {
    Constant(Gold),
    Cell(u32),
}

/// Where the elements of a variable have their numbers from that aren't known; those behind the end
/// have none. A variable is lost that was declared where a condition isn't known.
#[derive(Drop)]
pub struct VariableCells {
    pub sources: Vec<Source>,
    pub is_lost: bool,
}

/// So many cells in a row.
#[derive(Clone, Copy)]
pub struct Run {
    pub first: u32,
    pub count: u64,
}

/// So many elements of a signal by their numbers, the first of which is this, with the cell of the
/// first; those of the others follow it.
#[derive(Clone, Copy)]
pub struct Homes {
    pub number: u128,
    pub count: u64,
    pub cell: u32,
}

/// A component: the cells of its signals by the numbers of their declarations, where the signals of
/// the components in it stand, and its steps, which wait for its inputs.
#[derive(Drop)]
pub struct PartCells {
    pub ports: Vec<Vec<Run>>,
    pub inside: Vec<Homes>,
    pub steps: Vec<MadeStep>,
}

/// The cells of a body: of its variables, its signals, and its components in order of creation; and
/// its steps so far.
#[derive(Drop)]
pub struct Cells {
    pub variables: Vec<VariableCells>,
    pub signals: Vec<Vec<Run>>,
    pub parts: Vec<PartCells>,
    pub steps: Vec<MadeStep>,
}

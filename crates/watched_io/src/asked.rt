/// A call of the store, and how it ended.
#[derive(Drop)]
pub struct Asked {
    pub name: String,
    pub outcome: Outcome,
}

/// How a call of the store ended.
#[derive(Clone, Copy, PartialEq, Eq)]
pub enum Outcome {
    Read,
    NotThere,
    ReadFailed,
    Written,
    WriteFailed,
}

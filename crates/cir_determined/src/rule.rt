/// A step that shows something of wires, by the constraint at a place of the file, counted from 0.
#[derive(Clone, Copy)]
pub enum Rule {
    /// The wire is the one of the constraint that isn't known, and stands in its linear part alone:
    /// it becomes known.
    Solve { constraint: u32, wire: u32 },
    /// The constraint says that the wire is 0 or 1.
    Bool { constraint: u32, wire: u32 },
    /// The wires of the linear constraint that aren't known are the bits of one number: they become
    /// known.
    Bits { constraint: u32 },
}

/// What a list of rules is worth.
#[derive(Clone, Copy)]
pub enum Confirm {
    /// All apply, and make all outputs known.
    Confirmed,
    /// The first rule that doesn't apply, counted from 0.
    BadRule { index: u32 },
    /// All apply, and this is the least output that isn't known.
    Short { wire: u32 },
}

/// What a search for rules found.
#[derive(Drop)]
pub enum Answer {
    /// Rules that make all outputs known.
    Shown(Vec<Rule>),
    /// The least output that no rules make known.
    NotShown { wire: u32 },
}

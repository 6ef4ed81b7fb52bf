use cir_ast::Text;
use iden_files::FileCause;

/// Why a command refuses what it was given.
#[derive(Drop)]
pub enum Refusal {
    NoSuchFile {
        name: Text,
    },
    /// What is wrong with a file, and the place of the byte where it is.
    BadFile {
        name: Text,
        cause: FileCause,
        offset: u64,
    },
    /// What is wrong with a text of lines, and its line, counted from 1.
    BadLines {
        name: Text,
        kind: LineKind,
        cause: LineCause,
        line: u32,
    },
    /// What is wrong with a source, and where.
    BadSource(cir_ast::Refusal),
    /// What is wrong with inputs or public values.
    BadInput(BadInput),
    /// A batch counts so much, which is above the limit.
    LargeBatch {
        size: u128,
    },
}

/// What is wrong with a JSON file of inputs, or of public values, whose name is then `public`.
#[derive(Drop)]
pub enum BadInput {
    NotJson,
    Missing { name: Text },
    UnknownSignal { key: Text },
    WrongCount { name: Text, has: u64, wants: u32 },
    BadNumber { name: Text, index: u64 },
}

/// What `check` finds.
#[derive(Clone, Copy)]
pub enum Verdict {
    /// There aren't as many values as wires.
    CountsDiffer { values: u64, wires: u32 },
    /// The value of wire 0 isn't 1.
    WireZero,
    /// The least constraint that the values don't satisfy, counted from 0.
    ConstraintFails { index: u32 },
    Satisfied,
}

/// What the lines of a text are.
#[derive(Clone, Copy)]
pub enum LineKind {
    /// Rules of a certificate.
    Rule,
    /// Names of signals.
    Symbol,
}

/// What is wrong with a line of such a text.
#[derive(Clone, Copy)]
pub enum LineCause {
    /// It isn't of the form.
    BadLine,
    /// There are more lines than are read.
    Limit,
}

//! The field-less parts of a tree: operators, arrows, and what a signal is to its template.

/// An operator before its operand.
#[derive(Clone, Copy, PartialEq, Eq)]
pub enum Unary {
    /// `-`
    Negate,
    /// `!`
    Not,
    /// `~`
    Complement,
}

/// An operator between two operands.
#[derive(Clone, Copy, PartialEq, Eq)]
pub enum Binary {
    /// `**`
    Pow,
    Mul,
    Div,
    /// `\`
    Quotient,
    /// `%`
    Remainder,
    Add,
    Sub,
    ShiftLeft,
    ShiftRight,
    BitAnd,
    BitXor,
    BitOr,
    Equal,
    NotEqual,
    Less,
    LessEqual,
    Greater,
    GreaterEqual,
    /// `&&`
    And,
    /// `||`
    Or,
}

/// The operator of a symbol such as `+=`.
#[derive(Clone, Copy, PartialEq, Eq)]
pub enum Compound {
    Pow,
    ShiftLeft,
    ShiftRight,
    Add,
    Sub,
    Mul,
    Div,
    Quotient,
    Remainder,
    And,
    Or,
    Xor,
}

/// An arrow, in the direction that its statement says.
#[derive(Clone, Copy, PartialEq, Eq)]
pub enum Arrow {
    /// `<--` or `-->`: only writes.
    Assign,
    /// `<==` or `==>`: writes and constrains.
    Constrain,
}

/// What a signal is to its template.
#[derive(Clone, Copy, PartialEq, Eq)]
pub enum Direction {
    Inner,
    Input,
    Output,
}

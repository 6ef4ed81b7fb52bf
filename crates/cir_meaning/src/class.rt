/// How an expression depends on the signals, in rising order: not at all, by a linear combination,
/// by `a * b + c` of three linear combinations, or in any other way.
#[derive(Clone, Copy, PartialEq, Eq)]
pub enum Class {
    Known,
    Linear,
    Quadratic,
    Opaque,
}

//! What holds of every layout.

ghost use Rattle.lig_layout.specs.Laws.{CombiningIsLinear, VectorsSolve};
ghost use Rattle.lig_layout.specs.Solutions.{SystemIsFile};

/// The row vector times the system, times the values of a matrix, is the row vector times the
/// values of the left sides.
pub fn combining_is_linear()
    ensures { CombiningIsLinear }
{}

/// The vectors of a file solve its linear system, at any values of the wires that have 1 at wire 0.
pub fn vectors_solve()
    ensures { VectorsSolve }
{}

/// The linear system, with the products, is the file: vectors solve it, with given public values,
/// exactly where they are made of values that satisfy the file with these public values.
pub fn system_is_file()
    ensures { SystemIsFile }
{}

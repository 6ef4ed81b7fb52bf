//! What holds of every row of a matrix, and of every proof.

ghost use Rattle.lig_proof.specs.Encoding.{RowsHavePolynomials, PolynomialsAreOne};
ghost use Rattle.lig_proof.specs.Encoding.{MaskedRowsAreOne};
ghost use Rattle.lig_proof.specs.Proving.{ProofsAreOne};
ghost use Rattle.lig_proof.specs.Values.{EncodedHasDegrees, ProximityTestHasValues};
ghost use Rattle.lig_proof.specs.Values.{LinearTestHasValues, ProductTestHasValues};
ghost use Rattle.lig_proof.specs.Acceptance.{VerdictsAreOne};

/// Each row of numbers of the field has a polynomial of degree below the width, and only one; so it
/// has only one under a mask.
pub fn rows_have_polynomials()
    ensures exists { RowsHavePolynomials }
    ensures one { PolynomialsAreOne }
    ensures masked { MaskedRowsAreOne }
{}

/// A relation, the values of its vectors and a seed have only one proof in each version.
pub fn proofs_are_one()
    ensures { ProofsAreOne }
{}

/// The polynomials of an encoded matrix have the degrees that the tests count on, and at each point
/// those that a prover sends have the values of the rows and masks, combined.
pub fn tests_have_values()
    ensures degrees { EncodedHasDegrees }
    ensures proximity { ProximityTestHasValues }
    ensures linear { LinearTestHasValues }
    ensures product { ProductTestHasValues }
{}

/// A relation, public values and bytes have only one verdict.
pub fn verdicts_are_one()
    ensures { VerdictsAreOne }
{}

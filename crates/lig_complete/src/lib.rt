//! Verdicts on Ligero proofs (Ames, Hazay, Ishai, Venkitasubramaniam, CCS 2017): what is made of
//! values that satisfy the file is accepted, and what is made of anything else has the verdict that
//! is said here. It holds of the definitions, and so of every prover and every auditor that meet
//! them.
#![tactic(auto)]

ghost use Rattle.lig_complete.specs.Completeness.{MadeProofsAreAccepted, NoneIsRefused};
ghost use Rattle.lig_complete.specs.Completeness.{AnswersAreAccepted};
ghost use Rattle.lig_complete.specs.Offers.{OffersHaveVerdicts};
ghost use Rattle.lig_complete.specs.Verdicts.{AnyVectorsHaveVerdicts, AnyVectorsHaveProofs};
ghost use Rattle.lig_complete.specs.Verdicts.{SumIsNeeded, FalseProofsExist};

/// A proof in either version that is made of values which satisfy the file is accepted, for the
/// bytes of the same file and the public values among these values; and it has no other verdict.
pub fn made_proofs_are_accepted()
    ensures accepted { MadeProofsAreAccepted }
    ensures only { NoneIsRefused }
{}

/// What `prove` and `prove2` answer, where they answer a proof, is accepted for the bytes of the
/// same file and the public values among the values that were given; and it has no other verdict.
pub fn answers_are_accepted()
    ensures { AnswersAreAccepted }
{}

/// The verdict on a proof that commits to any matrix and sends any six polynomials, of as many
/// coefficients as are due: the first claim that fails, of these. Each polynomial has, at the
/// points of the columns that are drawn, the values of the matrix, combined; what is sent for the
/// system sums to the right sides; what is sent for the products is 0 at the message points.
pub fn offers_have_verdicts()
    ensures { OffersHaveVerdicts }
{}

/// The verdict on a proof that is made of any vectors, also of wrong ones: accepted exactly where
/// the linear system and the products, each combined by the numbers that were drawn, come out.
pub fn any_vectors_have_verdicts()
    ensures { AnyVectorsHaveVerdicts }
{}

/// Any vectors have a proof, in either version and with every seed.
pub fn any_vectors_have_proofs()
    ensures { AnyVectorsHaveProofs }
{}

/// An auditor that skips the sum over the message points accepts a proof of any vectors that are
/// products, also where they don't solve the linear system; so for every file and all public values
/// there is a false proof that he accepts.
pub fn sum_is_needed()
    ensures accepted { SumIsNeeded }
    ensures exist { FalseProofsExist }
{}

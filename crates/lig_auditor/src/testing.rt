//! The tests of opened columns that lead to the root.

ghost use Rattle.std.specs.Prelude.{◌≡◌, ◌*◌, ℕ, List, IfOk, length};
ghost use Rattle.iden_files.specs.File.{InLimits};
ghost use Rattle.lig_layout.specs.Sizes.{params_of};
ghost use Rattle.lig_layout.specs.System.{equation_count, public_count, right_sides};
ghost use Rattle.lig_proof.specs.Audit.{IsTested};
ghost use Rattle.lig_proof.specs.Proving.{AreSystems};
ghost use Rattle.lig_auditor.specs.Opened.{IsOpening, audit_in};

use crate::codewords::proximity;
use crate::opening::{Opening, points};
use crate::products::{quad_column, quad_zero};
use crate::right_sides::linear_sum;
use crate::system::linear_column;
use gold_field::Gold;
use iden_files::R1cs;
use lig_proof::Verdict;
use std::alloc::{AllocError, Global};
use std::thread::Threads;

/// The first test that fails, of those after the way to the root.
pub fn tested<R: Threads + Sync>(
    rt: &R,
    alloc: Global,
    file: &R1cs,
    publics: &[Gold],
    opening: &Opening<'_>,
) -> Result<Verdict, AllocError>
    requires limits { InLimits file.now }
    requires params { opening.now.params.now ≡ params_of file.now }
    requires publics { length publics.now ≡ public_count file.now }
    requires numbers { length opening.now.challenges.now.r ≡ 2 * equation_count file.now }
    requires opening { IsOpening opening.now }
    ensures { IfOk result (λ verdict. (system : ℕ → ℕ → List ℕ)
        × AreSystems file.now opening.now.challenges.now system
        × IsTested (audit_in opening.now (right_sides file.now publics.now) system) verdict) }
{
    let points = points(alloc, opening.params, opening.indices)?;
    if !proximity(rt, alloc, opening, &points)? {
        return Ok(Verdict::Proximity);
    }
    if !linear_sum(file, publics, opening) {
        return Ok(Verdict::LinearSum);
    }
    if !linear_column(rt, alloc, file, opening, &points)? {
        return Ok(Verdict::LinearColumn);
    }
    if !quad_zero(opening) {
        return Ok(Verdict::QuadZero);
    }
    if !quad_column(rt, alloc, opening, &points)? {
        return Ok(Verdict::QuadColumn);
    }
    Ok(Verdict::Accepted)
}

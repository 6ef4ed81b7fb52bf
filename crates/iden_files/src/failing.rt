ghost use Rattle.std.specs.Prelude.{◌≡◌, ◌≤◌, ◌<◌, ◌^◌, length, All};
ghost use Rattle.gold_field.specs.Form.{ConstraintBelow};
ghost use Rattle.iden_files.specs.File.{InLimits};
ghost use Rattle.iden_files.specs.Failing.{first_failing_from};

use crate::r1cs::R1cs;
use gold_field::{Constraint, Gold};

/// The least index of a constraint that the values of the wires don't satisfy.
pub fn first_failing(file: &R1cs, w: &[Gold]) -> Option<u32>
    requires limits { InLimits file.now }
    requires values { length w.now ≡ file.now.wires }
    ensures { result ≡ first_failing_from 0 w.now file.now.constraints }
{
    first_failing_of(file.constraints(), w)
}

fn first_failing_of(constraints: &[Constraint], w: &[Gold]) -> Option<u32>
    requires few { length constraints.now < 2 ^ 32 }
    requires below { All (ConstraintBelow (length w.now)) constraints.now }
    ensures { result ≡ first_failing_from 0 w.now constraints.now }
{
    for (i, k) in constraints.iter().enumerate() {
        if !k.holds(w) {
            return Some(i as u32);
        }
    }
    None
}

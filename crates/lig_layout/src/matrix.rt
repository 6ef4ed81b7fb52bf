//! The values that fill the matrix.

ghost use Rattle.std.specs.Prelude.{◌≡◌, All, IfOk, length, map, slice_index};
ghost use Rattle.gold_field.specs.Form.{ConstraintBelow, value_at};
ghost use Rattle.lig_layout.specs.Sides.{form_of};

use crate::side::{Side, value_of};
use gold_field::{Constraint, Gold};
use items::Items;
use std::alloc::{AllocError, Global};

/// The values of the wires, `w`, and those of the three sides of the constraints, `x = A w`,
/// `y = B w` and `z = C w`.
#[derive(Drop)]
pub struct Vectors {
    pub w: Items<Gold>,
    pub x: Items<Gold>,
    pub y: Items<Gold>,
    pub z: Items<Gold>,
}

/// The values of one side of the constraints where wire `i` has the value `w[i]`.
pub fn side_values(
    alloc: Global,
    side: Side,
    constraints: &[Constraint],
    w: &[Gold],
) -> Result<Vec<Gold>, AllocError>
    requires { All (ConstraintBelow (length w.now)) constraints.now }
    ensures { IfOk result
        (λ v. v.items ≡ map (λ k. value_at (slice_index w.now) (form_of side k)) constraints.now) }
{
    let mut values = Vec::with_capacity(alloc, constraints.len())?;
    for constraint in constraints {
        values.push(value_of(side, constraint, w))?;
    }
    Ok(values)
}

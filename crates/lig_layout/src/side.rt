//! The three sides of a constraint.

ghost use Rattle.std.specs.Prelude.{◌≡◌, length, slice_index};
ghost use Rattle.gold_field.specs.Form.{ConstraintBelow, SignalsBelow, value_at};
ghost use Rattle.lig_layout.specs.Sides.{form_of};

use gold_field::{Constraint, Gold, Term};

/// A side of the constraint `a * b - c = 0`.
#[derive(Clone, Copy, PartialEq, Eq)]
pub enum Side {
    A,
    B,
    C,
}

/// The terms of a side.
pub fn form_of(side: Side, constraint: &Constraint) -> &[Term]
    ensures { result.now ≡ form_of side constraint.now }
{
    match side {
        Side::A => constraint.a.as_slice(),
        Side::B => constraint.b.as_slice(),
        Side::C => constraint.c.as_slice(),
    }
}

/// The value of a side where wire `i` has the value `w[i]`.
pub fn value_of(side: Side, constraint: &Constraint, w: &[Gold]) -> Gold
    requires { ConstraintBelow (length w.now) constraint.now }
    ensures { result ≡ value_at (slice_index w.now) (form_of side constraint.now) }
{
    match side {
        Side::A => constraint.a.value(w),
        Side::B => constraint.b.value(w),
        Side::C => constraint.c.value(w),
    }
}

//! The vectors of a file.

ghost use Rattle.std.specs.Prelude.{◌≡◌, IfOk, length};
ghost use Rattle.iden_files.specs.File.{InLimits};
ghost use Rattle.lig_layout.specs.Layout.{vectors_of};

use crate::matrix::{Vectors, side_values};
use crate::side::Side;
use gold_field::Gold;
use iden_files::R1cs;
use items::Items;
use std::alloc::{AllocError, Global};

/// The vectors of a file where wire `i` has the value `w[i]`.
pub fn vectors(alloc: Global, file: &R1cs, w: &[Gold]) -> Result<Vectors, AllocError>
    requires limits { InLimits file.now }
    requires values { length w.now ≡ file.now.wires }
    ensures { IfOk result (λ v. v ≡ vectors_of file.now w.now) }
{
    let constraints = file.constraints();
    let x = side_values(alloc, Side::A, constraints, w)?;
    let y = side_values(alloc, Side::B, constraints, w)?;
    let z = side_values(alloc, Side::C, constraints, w)?;
    Ok(Vectors {
        w: Items::from_slice(alloc, w)?,
        x: Items::of(x),
        y: Items::of(y),
        z: Items::of(z),
    })
}

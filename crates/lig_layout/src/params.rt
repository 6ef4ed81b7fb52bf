//! The sizes of the matrix.

ghost use Rattle.std.specs.Prelude.{◌≡◌, ◌≤◌, ◌+◌, ◌*◌, ◌^◌, length};

use iden_files::R1cs;

/// The sizes of the matrix for a file.
#[derive(Clone, Copy, PartialEq, Eq)]
pub struct Params {
    /// The values of a row.
    pub l: u32,
    /// The binary logarithm of `8 * l`, which is how many columns the encoded matrix has: so a leaf
    /// has this many hashes on its path.
    pub depth: u32,
    /// The rows of the wires.
    pub wire_rows: u32,
    /// The rows of one side of the constraints.
    pub constraint_rows: u32,
    /// All rows.
    pub rows: u32,
}

impl Params {
    ghost use Rattle.iden_files.specs.File.{InLimits};
    ghost use Rattle.lig_layout.specs.Sizes.{params_of, IsParams, IsLeastWidth};

    /// The sizes for this file. It takes no memory.
    pub fn of(file: &R1cs) -> Params
        requires { InLimits file.now }
        ensures value { result ≡ params_of file.now }
        ensures params { IsParams result }
        // The width is the least power of two from 128 on with room for all values.
        ensures width { IsLeastWidth (file.now.wires + 3 * length file.now.constraints) result.l }
    {
        let constraints = file.constraints().len() as u32;
        let exponent = width_exponent(file.wires + 3 * constraints);
        let l = 1 << exponent;
        let wire_rows = file.wires.div_ceil(l);
        let constraint_rows = constraints.div_ceil(l);
        Params {
            l,
            depth: exponent + 3,
            wire_rows,
            constraint_rows,
            rows: wire_rows + 3 * constraint_rows,
        }
    }
}

ghost use Rattle.lig_layout.specs.Width.{width_exponent};

fn width_exponent(size: u32) -> u32
    ensures { result ≡ width_exponent size }
{
    if size <= 1 << 14 {
        7
    } else if size <= 1 << 16 {
        8
    } else if size <= 1 << 18 {
        9
    } else if size <= 1 << 20 {
        10
    } else {
        11
    }
}

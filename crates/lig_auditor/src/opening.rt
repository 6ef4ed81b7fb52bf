//! The opened columns of a proof, and the points at which they were encoded.

ghost use Rattle.std.specs.Prelude.{◌≡◌, ◌≤◌, ◌<◌, ◌+◌, ◌*◌, [], IfOk, ℕ, length, slice_index};
ghost use Rattle.std.specs.Prelude.{slice_index_or};
ghost use Rattle.lig_layout.specs.Sizes.{IsParams};
ghost use Rattle.gold_ntt.specs.Transform.{root_of};
ghost use Rattle.lig_layout.specs.declared.params.Params.{Params};
ghost use Rattle.lig_proof.specs.Points.{code_point};
ghost use Rattle.lig_proof.specs.Sent.{polynomials_of};
ghost use Rattle.lig_auditor.specs.Opened.{IsOpening, ArePoints};

use gold_field::Gold;
use gold_ntt::root;
use items::Items;
use lig_layout::Params;
use lig_proof::Challenges;
use std::alloc::{AllocError, Global};

/// What is tested of a proof whose columns lead to the root.
#[derive(Clone, Copy)]
pub struct Opening<'a> {
    pub params: &'a Params,
    pub challenges: &'a Challenges,
    /// The coefficients of the six polynomials.
    pub polys: &'a [Gold],
    /// The columns' indices.
    pub indices: &'a [u32],
    pub columns: &'a [Items<Gold>],
}

/// The points at which columns with these indices were encoded.
pub fn points(alloc: Global, params: &Params, indices: &[u32]) -> Result<Vec<Gold>, AllocError>
    requires { IsParams params.now }
    ensures { IfOk result (λ points. ArePoints params.now indices.now points.items) }
{
    let root = root(params.depth);
    let mut points = Vec::with_capacity(alloc, indices.len())?;
    for index in indices {
        points.push(point(root, *index))?;
    }
    Ok(points)
}

// 7 times a power of the root.
fn point(root: Gold, index: u32) -> Gold
    ensures { (p : Params) → root ≡ root_of p.depth → result ≡ code_point p index }
{
    Gold::from_wide(7).mul(root.pow(u64::from(index)))
}

/// An opened column.
pub fn column<'a>(opening: &Opening<'a>, q: usize) -> &'a [Gold]
    requires opening { IsOpening opening.now }
    requires column { q < length opening.now.columns.now }
    ensures value { result.now ≡ slice_index_or opening.now.columns.now q [] }
    ensures width { length result.now ≡ opening.now.params.now.rows + 6 }
{
    opening.columns[q].as_slice()
}

/// The polynomial that was sent to test that the rows are codewords, in a repetition.
pub fn proximity_polynomial<'a>(opening: &Opening<'a>, t: usize) -> &'a [Gold]
    requires opening { IsOpening opening.now }
    requires repetition { t < 2 }
    ensures value { result.now
        ≡ (polynomials_of opening.now.params.now opening.now.polys.now).proximity t }
    ensures count { length result.now ≡ 2 * opening.now.params.now.l }
{
    let l = opening.params.l as usize;
    let first = t * (9 * l);
    &opening.polys[first..first + 2 * l]
}

/// The one for the linear system.
pub fn linear_polynomial<'a>(opening: &Opening<'a>, t: usize) -> &'a [Gold]
    requires opening { IsOpening opening.now }
    requires repetition { t < 2 }
    ensures value { result.now
        ≡ (polynomials_of opening.now.params.now opening.now.polys.now).linear t }
    ensures count { length result.now ≡ 3 * opening.now.params.now.l }
{
    let l = opening.params.l as usize;
    let first = t * (9 * l) + 2 * l;
    &opening.polys[first..first + 3 * l]
}

/// The one for the products.
pub fn product_polynomial<'a>(opening: &Opening<'a>, t: usize) -> &'a [Gold]
    requires opening { IsOpening opening.now }
    requires repetition { t < 2 }
    ensures value { result.now
        ≡ (polynomials_of opening.now.params.now opening.now.polys.now).product t }
    ensures count { length result.now ≡ 4 * opening.now.params.now.l }
{
    let l = opening.params.l as usize;
    let first = t * (9 * l) + 5 * l;
    &opening.polys[first..first + 4 * l]
}

//! The rows of the matrix, and their polynomials.

ghost use Rattle.std.specs.Prelude.{◌≡◌, ◌<◌, ◌*◌, [], IfOk, length, slice_index_or};
ghost use Rattle.std.specs.List.{AllZip, range_with_len};
ghost use Rattle.lig_layout.specs.Layout.{row_at};
ghost use Rattle.lig_layout.specs.Sizes.{IsParams};
ghost use Rattle.lig_proof.specs.Encoding.{Interpolates, InterpolateRows};

use crate::parallel::each_place;
use gold_field::Gold;
use gold_ntt::intt;
use items::Items;
use lig_layout::Params;
use std::alloc::{AllocError, Global};
use std::thread::Threads;

/// Row `k` of values whose rows stand one after another.
pub fn row_at<'a>(params: &Params, values: &'a [Gold], k: usize) -> &'a [Gold]
    requires params { IsParams params.now }
    requires row { k < params.now.rows }
    requires whole { length values.now ≡ params.now.rows * params.now.l }
    ensures row { result.now ≡ row_at params.now values.now k }
    ensures width { length result.now ≡ params.now.l }
{
    let l = params.l as usize;
    let (_, from) = values.split_at(k * l);
    let (row, _) = from.split_at(l);
    row
}

/// The polynomial of a row.
pub fn row_polynomial(alloc: Global, params: &Params, row: &[Gold]) -> Result<Vec<Gold>, AllocError>
    requires params { IsParams params.now }
    requires row { length row.now ≡ params.now.l }
    ensures { IfOk result (λ v. Interpolates params.now row.now v.items) }
{
    let mut coefs = Vec::from_slice(alloc, row)?;
    intt(&mut coefs);
    Ok(coefs)
}

/// The polynomials of all rows of values whose rows stand one after another, in as many threads as
/// there are processors.
pub fn row_polynomials<R: Threads + Sync>(
    rt: &R,
    alloc: Global,
    params: &Params,
    values: &[Gold],
) -> Result<Vec<Items<Gold>>, AllocError>
    requires params { IsParams params.now }
    requires whole { length values.now ≡ params.now.rows * params.now.l }
    ensures count { IfOk result (λ v. length v.items ≡ params.now.rows) }
    ensures rows { IfOk result (λ v. InterpolateRows params.now values.now
        (λ k. slice_index_or v.items k [])) }
{
    let rows = each_place(
        rt,
        alloc,
        params.rows as usize,
        |k: usize| -> Result<Items<Gold>, AllocError>
            requires { IsParams params.now × (k < params.now.rows)
                × (length values.now ≡ params.now.rows * params.now.l) }
            ensures { IfOk result (Interpolates params.entry.now
                (row_at params.entry.now values.entry.now k)) }
        { polynomial_at(alloc, params, values, k) },
    )?;
    Ok(rows)
}

fn polynomial_at(
    alloc: Global,
    params: &Params,
    values: &[Gold],
    k: usize,
) -> Result<Items<Gold>, AllocError>
    requires params { IsParams params.now }
    requires row { k < params.now.rows }
    requires whole { length values.now ≡ params.now.rows * params.now.l }
    ensures { IfOk result (Interpolates params.now (row_at params.now values.now k)) }
{
    let coefs = row_polynomial(alloc, params, row_at(params, values, k))?;
    Ok(Items::of(coefs))
}

//! Places of elements in arrays.
ghost use Rattle.std.specs.Prelude.{◌≡◌, Some, map, IfOk};
ghost use Rattle.cir_meaning.specs.Places.{elements as places, is_inside as are_inside};
ghost use Rattle.wit_lower.specs.Homes as L;

use cir_arrays::elements;
use numbers::TooLarge;

/// Whether each index is below its dimension.
pub fn is_inside(dims: &[u64], indices: &[u64]) -> bool
    ensures { result ≡ are_inside dims.now (map Some indices.now) }
{
    match (dims.split_first(), indices.split_first()) {
        (Some((d, ds)), Some((i, is))) => i < d && is_inside(ds, is),
        _ => true,
    }
}

/// The place of an element in its array.
pub fn offset(dims: &[u64], indices: &[u64]) -> Result<u64, TooLarge>
    ensures { IfOk result (λ n. n ≡ L.offset dims.now indices.now) }
{
    match (dims.split_first(), indices.split_first()) {
        (Some((_, ds)), Some((i, is))) => {
            let behind = offset(ds, is)?;
            let row = row_of(ds)?;
            let before = i.checked_mul(row).ok_or(TooLarge)?;
            before.checked_add(behind).ok_or(TooLarge)
        }
        _ => Ok(0),
    }
}

fn row_of(dims: &[u64]) -> Result<u64, TooLarge>
    ensures { IfOk result (λ n. n ≡ places dims.now) }
{
    let row = elements(dims);
    if row == u64::MAX {
        return Err(TooLarge);
    }
    Ok(row)
}

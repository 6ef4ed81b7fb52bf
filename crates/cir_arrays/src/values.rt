//! Lists of values.
ghost use Rattle.std.specs.Prelude.{◌≡◌, not, count_by, map, replicate, IfOk};
ghost use Rattle.std.specs.List.{list_all};
ghost use Rattle.cir_meaning.specs.Arrays.{is_known};
ghost use Rattle.cir_meaning.specs.Values.{Opaque as OpaqueValue};
ghost use Rattle.cir_values.specs.Meant.{meant};
ghost use Rattle.cir_arrays.specs.Shown.{filling_of};

use crate::arrays::Filling;
use cir_values::Value;
use std::alloc::{AllocError, Global};

pub fn copies(alloc: Global, values: &[Value]) -> Result<Vec<Value>, AllocError>
    ensures { IfOk result (λ all. all.items ≡ values.now) }
{
    let mut all = Vec::with_capacity(alloc, values.len())?;
    for v in values {
        let v = v.copy(alloc)?;
        all.push(v)?;
    }
    Ok(all)
}

pub fn are_known(values: &[Value]) -> bool
    ensures { result ≡ list_all is_known (map meant values.now) }
{
    for v in values {
        if !v.is_known() {
            return false;
        }
    }
    true
}

/// How many of them aren't known.
pub fn unknown_among(values: &[Value]) -> u64
    ensures { result ≡ count_by (λ v. not (is_known v)) (map meant values.now) }
{
    let mut count = 0u64;
    for v in values {
        if !v.is_known() {
            count = count.saturating_add(1);
        }
    }
    count
}

/// As many of one value.
pub fn fillings(alloc: Global, count: u64, with: Filling) -> Result<Vec<Value>, AllocError>
    ensures { IfOk result (λ all. map meant all.items ≡ replicate count (filling_of with)) }
{
    let mut all = Vec::with_capacity(alloc, count as usize)?;
    for _k in 0..count {
        all.push(with.value())?;
    }
    Ok(all)
}

/// Makes each of them opaque.
pub fn forget_all(values: &mut [Value])
    ensures { map meant values.new ≡ map (λ v. OpaqueValue) (map meant values.old) }
{
    for v in values.iter_mut() {
        *v = Value::Opaque;
    }
}

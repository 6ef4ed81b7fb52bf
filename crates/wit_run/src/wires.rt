ghost use Rattle.std.specs.Prelude.{◌≡◌, IfOk, map, slice_index};

use gold_field::Gold;
use std::alloc::{AllocError, Global};

/// The values of the wires of a file with these labels: of each wire the number of the signal that
/// its label names.
pub fn values_by_wire(
    alloc: Global,
    numbers: &[Gold],
    labels: &[u64],
) -> Result<Vec<Gold>, AllocError>
    ensures { IfOk result (λ v. v.items ≡ map (slice_index numbers.now) labels.now) }
{
    let mut values = Vec::with_capacity(alloc, labels.len())?;
    for label in labels {
        let value = numbers.get(*label as usize).copied().unwrap_or(Gold::ZERO);
        values.push(value)?;
    }
    Ok(values)
}

//! The head and the fields of a proof.

ghost use Rattle.std.specs.Prelude.{◌≡◌, length};
ghost use Rattle.binary_format.specs.Reading.{Reads, repeated};
ghost use Rattle.lig_proof.specs.Reading.{refused, head_of, next_value, next_hash};
ghost use Rattle.lig_proof.specs.Reading.{TakesNoMemory};

use crate::fault::ProofFault;
use binary_format::Reader;
use gold_field::Gold;
use lig_merkle::Hash;
use std::alloc::Global;

// The first four bytes, as a number whose lowest byte stands first.
const MAGIC: u32 = 0x6767_696c;

/// What a proof of this version begins with.
#[tactic(auto, unfolding(crate::specs::Reading::head_of))]
pub fn read_head(fields: &mut Reader<'_>, version: u32) -> Result<(), ProofFault>
    requires { fields.old.end ≡ length fields.old.rest.now }
    ensures read { Reads refused (λ x. x) fields.new.rest.now result
        (head_of version fields.old.rest.now) }
    ensures end { fields.new.end ≡ fields.old.end }
    ensures memory { TakesNoMemory result }
{
    let end = fields.end;
    let (Some(magic), Some(named)) = (fields.u32(), fields.u32()) else {
        return Err(ProofFault::Malformed { offset: end });
    };
    if magic != MAGIC {
        return Err(ProofFault::Malformed { offset: 0 });
    }
    if named != version {
        return Err(ProofFault::Malformed { offset: 4 });
    }
    Ok(())
}

/// The next number of the field.
#[tactic(auto, unfolding(crate::specs::Reading::next_value))]
pub fn next_value(fields: &mut Reader<'_>) -> Result<Gold, ProofFault>
    ensures read { Reads refused (λ v. v) fields.new.rest.now result
        (next_value fields.old.end fields.old.rest.now) }
    ensures end { fields.new.end ≡ fields.old.end }
    ensures memory { TakesNoMemory result }
{
    let offset = fields.offset();
    let Some(number) = fields.u64() else {
        return Err(ProofFault::Malformed { offset: fields.end });
    };
    match Gold::new(number) {
        Some(value) => Ok(value),
        None => Err(ProofFault::Malformed { offset }),
    }
}

/// The next hash.
#[tactic(auto, unfolding(crate::specs::Reading::next_hash))]
pub fn next_hash(fields: &mut Reader<'_>) -> Result<Hash, ProofFault>
    ensures read { Reads refused (λ h. h) fields.new.rest.now result
        (next_hash fields.old.end fields.old.rest.now) }
    ensures end { fields.new.end ≡ fields.old.end }
    ensures memory { TakesNoMemory result }
{
    let Some(bytes) = fields.bytes(32) else {
        return Err(ProofFault::Malformed { offset: fields.end });
    };
    let mut hash = [0; 32];
    hash.copy_from_slice(bytes);
    Ok(hash)
}

/// The next numbers of the field.
pub fn next_values(
    alloc: Global,
    fields: &mut Reader<'_>,
    count: u32,
) -> Result<Vec<Gold>, ProofFault>
    ensures read { Reads refused (λ v. v.items) fields.new.rest.now result
        (repeated (next_value fields.old.end) count fields.old.rest.now) }
    ensures end { fields.new.end ≡ fields.old.end }
{
    let mut values = Vec::with_capacity(alloc, (count as usize).min(fields.rest.len() / 8))?;
    for _ in 0..count {
        let value = next_value(fields)?;
        values.push(value)?;
    }
    Ok(values)
}

/// The next hashes.
pub fn next_hashes(
    alloc: Global,
    fields: &mut Reader<'_>,
    count: u32,
) -> Result<Vec<Hash>, ProofFault>
    ensures read { Reads refused (λ v. v.items) fields.new.rest.now result
        (repeated (next_hash fields.old.end) count fields.old.rest.now) }
    ensures end { fields.new.end ≡ fields.old.end }
{
    let mut hashes = Vec::with_capacity(alloc, (count as usize).min(fields.rest.len() / 32))?;
    for _ in 0..count {
        let hash = next_hash(fields)?;
        hashes.push(hash)?;
    }
    Ok(hashes)
}

ghost use Rattle.std.specs.Prelude.{◌≡◌, ◌≤◌, length, IfOk};
ghost use Rattle.binary_format.specs.Reading.{Gives, Reads, repeated};
ghost use Rattle.iden_files.specs.Limits.{most_wires};
ghost use Rattle.iden_files.specs.Refusal.{refused, TakesNoMemory};
ghost use Rattle.iden_files.specs.Values.{number_at};
ghost use Rattle.iden_files.specs.ReadWtns.{value_count, values_of, wtns_of};
ghost use Rattle.iden_files.specs.Views.{section};

use crate::fault::{FileCause, FileFault};
use crate::fields::u32_at;
use crate::limits::MAX_WIRES;
use crate::sections::{Format, FoundSection, needed, sections_of};
use crate::sizes::field_of;
use crate::values::next_value;
use binary_format::Reader;
use gold_field::Gold;
use std::alloc::Global;

/// Reads the values of a file of any tool, within the limits.
#[tactic(auto, unfolding(crate::specs::ReadWtns::wtns_of))]
pub fn read_wtns(alloc: Global, bytes: &[u8]) -> Result<Vec<Gold>, FileFault>
    ensures exact { Gives refused (λ v. v.items) result (wtns_of bytes.now) }
    ensures limits { IfOk result (λ v. length v.items ≤ most_wires) }
{
    let length = bytes.len() as u64;
    let found = sections_of(alloc, Format::Wtns, bytes)?;
    let first = needed(1, length, &found)?;
    let second = needed(2, length, &found)?;
    let count = value_count(&first)?;
    values_of(alloc, count, second)
}

#[tactic(auto, unfolding(crate::specs::ReadWtns::value_count))]
fn value_count(found: &FoundSection<'_>) -> Result<u32, FileFault>
    ensures count { Gives refused (λ n. n) result (value_count (section found.now)) }
    ensures few { IfOk result (λ n. n ≤ most_wires) }
    ensures memory { TakesNoMemory result }
{
    field_of(16, found)?;
    let count = u32_at(found.body.rest, 12);
    if count > MAX_WIRES {
        return Err(FileFault::At {
            cause: FileCause::Limit,
            offset: found.body.offset() + 12,
        });
    }
    Ok(count)
}

#[tactic(auto, unfolding(crate::specs::ReadWtns::values_of))]
fn values_of(alloc: Global, count: u32, found: FoundSection<'_>) -> Result<Vec<Gold>, FileFault>
    ensures read { Gives refused (λ v. v.items) result (values_of count (section found.entry)) }
    ensures len { IfOk result (λ v. length v.items ≡ count) }
{
    let mut fields = found.body;
    if fields.rest.len() as u64 != 8 * u64::from(count) {
        return Err(FileFault::At {
            cause: FileCause::BadCount,
            offset: fields.offset(),
        });
    }
    repeated_values(alloc, &mut fields, count)
}

fn repeated_values(
    alloc: Global,
    fields: &mut Reader<'_>,
    count: u32,
) -> Result<Vec<Gold>, FileFault>
    ensures read { Reads refused (λ v. v.items) fields.new.rest.now result
        (repeated (number_at fields.old.end) count fields.old.rest.now) }
    ensures len { IfOk result (λ v. length v.items ≡ count) }
{
    let mut values = Vec::with_capacity(alloc, (count as usize).min(fields.rest.len() / 8))?;
    for _ in 0..count {
        let v = next_value(fields)?;
        values.push(v)?;
    }
    Ok(values)
}

ghost use Rattle.std.specs.Prelude.{◌≡◌, length, IfOk};
ghost use Rattle.std.specs.List.{range_with_len};
ghost use Rattle.std.specs.Option.{option_map};
ghost use Rattle.binary_format.specs.Reading.{Gives, Reads, repeated};
ghost use Rattle.iden_files.specs.Refusal.{refused};
ghost use Rattle.iden_files.specs.ReadR1cs.{label_at, labels_of};
ghost use Rattle.iden_files.specs.Views.{section};

use crate::fault::{FileCause, FileFault};
use crate::fields::next_u64;
use crate::sections::FoundSection;
use binary_format::Reader;
use std::alloc::{AllocError, Global};

/// The labels of section 3, one for each wire; where there is none, each wire's own number.
#[tactic(auto, unfolding(crate::specs::ReadR1cs::labels_of))]
pub fn labels_of(
    alloc: Global,
    wires: u32,
    found: Option<FoundSection<'_>>,
) -> Result<Vec<u64>, FileFault>
    ensures read { Gives refused (λ v. v.items) result
        (labels_of wires (option_map section found.entry)) }
    ensures len { IfOk result (λ v. length v.items ≡ wires) }
{
    match found {
        None => Ok(wire_numbers(alloc, wires)?),
        Some(s) => {
            let mut fields = s.body;
            if fields.rest.len() as u64 != 8 * u64::from(wires) {
                return Err(FileFault::At {
                    cause: FileCause::BadCount,
                    offset: fields.offset(),
                });
            }
            repeated_labels(alloc, &mut fields, wires)
        }
    }
}

fn wire_numbers(alloc: Global, wires: u32) -> Result<Vec<u64>, AllocError>
    ensures { IfOk result (λ v. v.items ≡ range_with_len 0 wires) }
{
    let mut labels = Vec::with_capacity(alloc, wires as usize)?;
    for i in 0..wires {
        labels.push(u64::from(i))?;
    }
    Ok(labels)
}

fn repeated_labels(
    alloc: Global,
    fields: &mut Reader<'_>,
    count: u32,
) -> Result<Vec<u64>, FileFault>
    ensures read { Reads refused (λ v. v.items) fields.new.rest.now result
        (repeated (label_at fields.old.end) count fields.old.rest.now) }
    ensures len { IfOk result (λ v. length v.items ≡ count) }
{
    let mut labels = Vec::with_capacity(alloc, (count as usize).min(fields.rest.len() / 8))?;
    for _ in 0..count {
        let label = next_u64(fields, FileCause::BadCount)?;
        labels.push(label)?;
    }
    Ok(labels)
}

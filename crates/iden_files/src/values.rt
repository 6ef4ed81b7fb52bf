ghost use Rattle.std.specs.Prelude.{◌≡◌, ◌<◌, IfOk};
ghost use Rattle.binary_format.specs.Reading.{Reads};
ghost use Rattle.iden_files.specs.Refusal.{refused, TakesNoMemory};
ghost use Rattle.iden_files.specs.Values.{number_at};

use crate::fault::{FileCause, FileFault};
use crate::fields::next_u64;
use binary_format::Reader;
use gold_field::{Gold, P};

/// The next number of the field.
#[tactic(auto, unfolding(crate::specs::Values::number_at))]
pub fn next_value(fields: &mut Reader<'_>) -> Result<Gold, FileFault>
    ensures read { Reads refused (λ v. v) fields.new.rest.now result
        (number_at fields.old.end fields.old.rest.now) }
    ensures end { fields.new.end ≡ fields.old.end }
    ensures below { IfOk result (λ v. v < P) }
    ensures memory { TakesNoMemory result }
{
    let place = fields.offset();
    let number = next_u64(fields, FileCause::BadCount)?;
    match Gold::new(number) {
        Some(v) => Ok(v),
        None => Err(FileFault::At {
            cause: FileCause::ValueTooLarge,
            offset: place,
        }),
    }
}

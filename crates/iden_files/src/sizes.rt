ghost use Rattle.std.specs.Prelude.{◌≡◌, ◌≤◌, length, OnOk, IfOk};
ghost use Rattle.binary_format.specs.Reading.{Gives};
ghost use Rattle.iden_files.specs.Refusal.{refused, TakesNoMemory};
ghost use Rattle.iden_files.specs.ReadR1cs.{field_of, sizes_of};
ghost use Rattle.iden_files.specs.Sizes.{AreAllowed};
ghost use Rattle.iden_files.specs.Views.{section};

use crate::fault::{FileCause, FileFault};
use crate::fields::{u32_at, u64_at};
use crate::limits::{MAX_CONSTRAINTS, MAX_WIRES};
use crate::sections::FoundSection;
use gold_field::P;

/// What section 1 of an `.r1cs` file says.
#[derive(Clone, Copy)]
pub struct Sizes {
    pub wires: u32,
    pub outputs: u32,
    pub public_inputs: u32,
    pub private_inputs: u32,
    pub label_count: u64,
    pub constraints: u32,
}

/// Tests the field that section 1 names, and that the section has this size.
#[tactic(auto, unfolding(crate::specs::ReadR1cs::field_of))]
pub fn field_of(size: usize, found: &FoundSection<'_>) -> Result<(), FileFault>
    requires { 12 ≤ size }
    ensures field { Gives refused (λ _. tt) result (field_of size (section found.now)) }
    ensures whole { OnOk result (length found.now.body.rest.now ≡ size) }
    ensures memory { TakesNoMemory result }
{
    let body = found.body.rest;
    let place = found.body.offset();
    if body.len() < 4 {
        return Err(FileFault::At {
            cause: FileCause::BadCount,
            offset: place,
        });
    }
    if u32_at(body, 0) != 8 {
        return Err(FileFault::At {
            cause: FileCause::WrongPrime,
            offset: place,
        });
    }
    if body.len() != size {
        return Err(FileFault::At {
            cause: FileCause::BadCount,
            offset: place,
        });
    }
    if u64_at(body, 4) != P {
        return Err(FileFault::At {
            cause: FileCause::WrongPrime,
            offset: place + 4,
        });
    }
    Ok(())
}

#[tactic(auto, unfolding(crate::specs::ReadR1cs::sizes_of))]
pub fn sizes_of(found: &FoundSection<'_>) -> Result<Sizes, FileFault>
    ensures sizes { Gives refused (λ s. s) result (sizes_of (section found.now)) }
    ensures allowed { IfOk result AreAllowed }
    ensures memory { TakesNoMemory result }
{
    field_of(40, found)?;
    let body = found.body.rest;
    let place = found.body.offset();
    let sizes = Sizes {
        wires: u32_at(body, 12),
        outputs: u32_at(body, 16),
        public_inputs: u32_at(body, 20),
        private_inputs: u32_at(body, 24),
        label_count: u64_at(body, 28),
        constraints: u32_at(body, 36),
    };
    if sizes.wires > MAX_WIRES {
        return Err(FileFault::At {
            cause: FileCause::Limit,
            offset: place + 12,
        });
    }
    let numbered = 1
        + u64::from(sizes.outputs)
        + u64::from(sizes.public_inputs)
        + u64::from(sizes.private_inputs);
    if numbered > u64::from(sizes.wires) {
        return Err(FileFault::At {
            cause: FileCause::BadCount,
            offset: place + 12,
        });
    }
    if sizes.constraints > MAX_CONSTRAINTS {
        return Err(FileFault::At {
            cause: FileCause::Limit,
            offset: place + 36,
        });
    }
    Ok(sizes)
}

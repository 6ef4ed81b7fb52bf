ghost use Rattle.std.specs.Prelude.{IfOk};
ghost use Rattle.binary_format.specs.Reading.{Gives};
ghost use Rattle.iden_files.specs.File.{InLimits};
ghost use Rattle.iden_files.specs.Refusal.{refused};
ghost use Rattle.iden_files.specs.ReadR1cs.{r1cs_of};

use crate::constraints::constraints_of;
use crate::fault::FileFault;
use crate::labels::labels_of;
use crate::r1cs::R1cs;
use crate::sections::{Format, needed, section_of, sections_of};
use crate::sizes::sizes_of;
use items::Items;
use std::alloc::Global;

/// Reads a file of any tool, within the limits: sections in any order, terms in any order.
#[tactic(auto, unfolding(crate::specs::ReadR1cs::r1cs_of))]
pub fn read_r1cs(alloc: Global, bytes: &[u8]) -> Result<R1cs, FileFault>
    ensures exact { Gives refused (λ f. f) result (r1cs_of bytes.now) }
    ensures limits { IfOk result InLimits }
{
    let length = bytes.len() as u64;
    let found = sections_of(alloc, Format::R1cs, bytes)?;
    let first = needed(1, length, &found)?;
    let second = needed(2, length, &found)?;
    let sizes = sizes_of(&first)?;
    let constraints = constraints_of(alloc, &sizes, second)?;
    let labels = labels_of(alloc, sizes.wires, section_of(3, &found))?;
    Ok(R1cs {
        wires: sizes.wires,
        outputs: sizes.outputs,
        public_inputs: sizes.public_inputs,
        private_inputs: sizes.private_inputs,
        label_count: sizes.label_count,
        labels: Items::of(labels),
        constraints: Items::of(constraints),
    })
}

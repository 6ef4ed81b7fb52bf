ghost use Rattle.std.specs.Prelude.{◌≡◌, ◌≤◌, length, IfOk};
ghost use Rattle.iden_files.specs.File.{IsFile, InLimits};
ghost use Rattle.cir_compile.specs.Written.{file_of};

use cir_inst::Circuit;
use cir_simplify::Simple;
use iden_files::R1cs;
use items::Items;
use std::alloc::{AllocError, Global};

/// The file of a circuit: the kept signals are the wires, and the label of each is its number.
pub fn file_of(alloc: Global, circuit: &Circuit, simple: Simple) -> Result<R1cs, AllocError>
    requires few { length circuit.now.signals.names ≤ 1048575 }
    requires file { IsFile (file_of circuit.now simple) }
    requires limits { InLimits (file_of circuit.now simple) }
    ensures { IfOk result (λ f. f ≡ file_of circuit.now simple) }
{
    let Simple {
        constraints,
        wires,
        solved: _,
    } = simple;
    let labels = labels_of(alloc, wires.as_slice())?;
    Ok(R1cs {
        wires: labels.len() as u32,
        outputs: circuit.signals.outputs,
        public_inputs: circuit.signals.public_inputs,
        private_inputs: circuit.signals.private_inputs,
        label_count: 1 + circuit.signals.names.len() as u64,
        labels: Items::of(labels),
        constraints,
    })
}

/// The numbers of the signals, as wide as a file has them.
fn labels_of(alloc: Global, signals: &[u32]) -> Result<Vec<u64>, AllocError>
    ensures { IfOk result (λ v. v.items ≡ signals.now) }
{
    let mut labels = Vec::with_capacity(alloc, signals.len())?;
    for signal in signals {
        labels.push(u64::from(*signal))?;
    }
    Ok(labels)
}

ghost use Rattle.std.specs.Prelude.{◌≡◌, ◌<◌, ◌≤◌, ◌^◌, length, All, IfOk};
ghost use Rattle.cir_ast.specs.Program.{bare_program};
ghost use Rattle.cir_checks.specs.Checked.{IsChecked};
ghost use Rattle.cir_names.specs.Loading.{IsOfSources};
ghost use Rattle.cir_symbols.specs.Symbols.{IsTextOfSignals, Names};
ghost use Rattle.sym_file.specs.Table.{AreKept, CanAllBeNamed};

use cir_ast::program::Program;
use cir_compile::{CompileFault, Level, file_from};
use cir_inst::{Circuit, instantiate};
use iden_files::R1cs;
use items::Items;
use std::alloc::{AllocError, Global};
use sym_file::write_sym;

/// The text of the lines that name signals, and how many lines there are.
#[derive(Drop)]
pub struct Symbols {
    pub count: u32,
    pub text: Items<u8>,
}

/// The lines that name the signals of a loaded program, with the wires of the file that it is
/// written as at the level; or why it isn't written.
pub fn symbols_of(alloc: Global, program: &Program, level: Level) -> Result<Symbols, CompileFault>
    requires checked { IsChecked (bare_program program.now) }
    requires theirs { IsOfSources (bare_program program.now) }
    ensures { Names (bare_program program.now) level result }
{
    let circuit = instantiate(alloc, program)?;
    let file = file_from(alloc, program, &circuit, level)?;
    let symbols = written(alloc, &circuit, &file)?;
    Ok(symbols)
}

/// The lines of a circuit's signals, with the wires of its file.
fn written(alloc: Global, circuit: &Circuit, file: &R1cs) -> Result<Symbols, AllocError>
    requires named { CanAllBeNamed circuit.now.signals circuit.now.instances }
    requires few { length circuit.now.signals.names ≤ 1048575 }
    requires kept { AreKept circuit.now.signals file.now.labels }
    ensures { IfOk result
        (IsTextOfSignals circuit.now.signals circuit.now.instances file.now.labels) }
{
    let table = &circuit.signals;
    let wires = signals_at(alloc, file.labels.as_slice())?;
    let text = write_sym(alloc, table, circuit.instances.as_slice(), wires.as_slice())?;
    Ok(Symbols {
        count: table.names.len() as u32,
        text: Items::of(text),
    })
}

/// The signals that are named by labels.
fn signals_at(alloc: Global, labels: &[u64]) -> Result<Vec<u32>, AllocError>
    requires { All (λ label. label < 2 ^ 32) labels.now }
    ensures { IfOk result (λ v. v.items ≡ labels.now) }
{
    let mut signals = Vec::with_capacity(alloc, labels.len())?;
    for label in labels {
        signals.push(*label as u32)?;
    }
    Ok(signals)
}

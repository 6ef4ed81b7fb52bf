//! What a source comes to before it is run.

ghost use Rattle.std.specs.Prelude.{◌≡◌, ℕ, List, IfOk};
ghost use Rattle.out_io.specs.Faults.{Rose};
ghost use Rattle.cir_ast.specs.Program.{bare_program};
ghost use Rattle.cir_checks.specs.Checked.{IsChecked};
ghost use Rattle.cir_compile.specs.Compiled.{faults_by as compile_faults};
ghost use Rattle.cir_names.specs.Loading.{IsOfSources};
ghost use Rattle.wit_input.specs.Input.{input_of};
ghost use Rattle.out_io.specs.Held.{OnlyReads};
ghost use Rattle.circom_files.specs.Running.{accepted_input, input_in};
ghost use Rattle.circom_files.specs.Steps.{Gets, Steps};
ghost use Rattle.circom_files.specs.Stops.{faults_by};
ghost use Rattle.circom_gold.specs.Source.{AreInputs, Codes, IsCoded, IsStopOf, LoadedFrom};
ghost use Rattle.circom_gold.specs.Source.{Sources, SourcesBy};
ghost use Rattle.circom_words.specs.Words.{Options as MeantOptions, meant_options};

use cir_ast::Text;
use cir_body::circuit_code;
use cir_compile::{CompileFault, Level, file_from};
use cir_inst::Circuit;
use cir_names::{Known, Loaded, load_all};
use cir_values::Signals;
use circom_files::{Stop, bytes_in, input_from};
use circom_lines::{BadInput, Refusal};
use circom_words::Options;
use gold_field::Gold;
use iden_files::R1cs;
use out_io::Store;
use std::alloc::Global;
use wit_circuit::CircuitCode;

/// As many inputs as have numbers. There is no memory for more.
pub const MOST_INPUTS: usize = 1 << 32;

/// A loaded program, what its main component compiles to, the file of its constraints, and the code
/// of its circuit.
pub struct Coded {
    pub loaded: Loaded,
    pub circuit: Circuit,
    pub file: R1cs,
    pub code: CircuitCode,
}

// Written out, so that the proof of an owner sees one call and not the drop of each part.
impl Drop for Coded {
    fn drop(self) {
        let Coded {
            loaded: _loaded,
            circuit: _circuit,
            file: _file,
            code: _code,
        } = self;
    }
}

/// The same without the code.
pub struct Built {
    pub loaded: Loaded,
    pub circuit: Circuit,
    pub file: R1cs,
}

// Written out for the same reason.
impl Drop for Built {
    fn drop(self) {
        let Built {
            loaded: _loaded,
            circuit: _circuit,
            file: _file,
        } = self;
    }
}

impl Coded {
    /// The code of the circuit, and the rest.
    pub fn take_code(self) -> (CircuitCode, Built)
        ensures code { result.0 ≡ self.code }
        ensures loaded { result.1.loaded ≡ self.loaded }
        ensures circuit { result.1.circuit ≡ self.circuit }
        ensures file { result.1.file ≡ self.file }
    {
        let Coded {
            loaded,
            circuit,
            file,
            code,
        } = self;
        let built = Built {
            loaded,
            circuit,
            file,
        };
        (code, built)
    }
}

/// What the source under the name comes to.
pub fn source_in<S: Store>(
    alloc: Global,
    store: &mut S,
    name: &str,
    options: Options<'_>,
) -> Result<Coded, Stop>
    ensures step { SourcesBy (S.may_hold store.new) name.now (meant_options options.entry)
        (Rose (S.faults store.old) (S.faults store.new)) result }
    ensures coded { IfOk result (IsCoded options.entry.level) }
    ensures counted { S.faults store.new ≡ faults_by result (S.faults store.old) }
    ensures store { OnlyReads (S.may_hold store.old) (S.may_hold store.new)
        (S.faults store.old) (S.faults store.new)
        (S.never_fails store.old) (S.never_fails store.new) }
{
    match coded_in(alloc, store, name, options) {
        Ok(coded) => Ok(coded),
        Err(fault) => Err(stop_of(alloc, name, fault)),
    }
}

fn coded_in<S: Store>(
    alloc: Global,
    store: &mut S,
    name: &str,
    options: Options<'_>,
) -> Result<Coded, CompileFault>
    ensures sources { Sources (S.may_hold store.new) name.now (meant_options options.entry)
        (Rose (S.faults store.old) (S.faults store.new)) result }
    ensures coded { IfOk result (IsCoded options.entry.level) }
    ensures counted { S.faults store.new ≡ compile_faults result (S.faults store.old) }
    ensures store { OnlyReads (S.may_hold store.old) (S.may_hold store.new)
        (S.faults store.old) (S.faults store.new)
        (S.never_fails store.old) (S.never_fails store.new) }
{
    let loaded = load_all(alloc, store, name, options.folder)?;
    coded_from(alloc, loaded, options.level)
}

// What a loaded program comes to.
fn coded_from(alloc: Global, loaded: Loaded, level: Level) -> Result<Coded, CompileFault>
    requires checked { IsChecked (bare_program loaded.program) }
    requires theirs { IsOfSources (bare_program loaded.program) }
    ensures codes { Codes loaded level result }
    ensures coded { IfOk result (IsCoded level) }
{
    let (circuit, code) = circuit_code(alloc, &loaded.program)?;
    let file = file_from(alloc, &loaded.program, &circuit, level)?;
    Ok(Coded {
        loaded,
        circuit,
        file,
        code,
    })
}

/// Why a command ends where the source under the name doesn't compile.
pub fn stop_of(alloc: Global, name: &str, fault: CompileFault) -> Stop
    ensures { IsStopOf name.now fault result }
{
    match fault {
        CompileFault::Missing => match Text::from_slice(alloc, name.as_bytes()) {
            Ok(name) => Stop::Refused(Refusal::NoSuchFile { name }),
            Err(_) => Stop::OutOfMemory,
        },
        CompileFault::Refused(refusal) => Stop::Refused(Refusal::BadSource(refusal)),
        CompileFault::Fault => Stop::StoreFailed,
        CompileFault::OutOfMemory => Stop::OutOfMemory,
    }
}

/// The numbers that the run of a source's program starts from, in the file under the name. A file
/// that was read or asked for while the source was loaded isn't read again: one of the source's own
/// is no input.
pub fn start_in<S: Store>(
    alloc: Global,
    store: &mut S,
    coded: &Coded,
    name: &str,
) -> Result<Vec<Gold>, Stop>
    ensures step { (source : List ℕ) (options : MeantOptions) → Steps (λ v. v.items)
        (LoadedFrom (S.may_hold store.new) source options coded.now.loaded)
        (λ files. input_in files name.now coded.now.circuit.signals.inputs)
        (Rose (S.faults store.old) (S.faults store.new)) result }
    ensures inputs { IfOk result (λ v. AreInputs coded.now v.items) }
    ensures counted { S.faults store.new ≡ faults_by result (S.faults store.old) }
    ensures store { OnlyReads (S.may_hold store.old) (S.may_hold store.new)
        (S.faults store.old) (S.faults store.new)
        (S.never_fails store.old) (S.never_fails store.new) }
{
    match coded.loaded.known(name) {
        Known::Source => Err(Stop::Refused(Refusal::BadInput(BadInput::NotJson))),
        Known::Missing => Err(Stop::Refused(Refusal::NoSuchFile {
            name: Text::from_slice(alloc, name.as_bytes())?,
        })),
        Known::Nothing => {
            let bytes = bytes_in(alloc, store, name)?;
            start_from(alloc, bytes.as_slice(), &coded.circuit.signals)
        }
    }
}

// The same in bytes that were read.
fn start_from(alloc: Global, bytes: &[u8], signals: &Signals) -> Result<Vec<Gold>, Stop>
    ensures { Gets (λ v. v.items)
        (accepted_input signals.now.inputs (input_of bytes.now signals.now.inputs)) result }
{
    if signals.inputs.len() > MOST_INPUTS {
        return Err(Stop::OutOfMemory);
    }
    input_from(alloc, bytes, signals)
}

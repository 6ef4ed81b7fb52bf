ghost use Rattle.std.specs.Prelude.{◌≡◌, ◌+◌, ◌≤◌, ◌↔◌, All, IfOk, Ok};
ghost use Rattle.std.specs.Prelude.{length, map};
ghost use Rattle.std.specs.Option.{option_copied};
ghost use Rattle.out_io.specs.Faults.{Rose};
ghost use Rattle.gold_field.specs.Form.{Holds};
ghost use Rattle.iden_files.specs.File.{InLimits};
ghost use Rattle.out_io.specs.Held.{OnlyReads};
ghost use Rattle.cir_ast.specs.Program.{bare_main, bare_program};
ghost use Rattle.cir_checks.specs.Checked.{IsChecked};
ghost use Rattle.cir_lc.specs.Number.{Assignment};
ghost use Rattle.cir_inst.specs.Compiled.{Instantiates, IsWithinLimits};
ghost use Rattle.cir_meaning.specs.Compile.{Satisfies};
ghost use Rattle.cir_meaning.specs.SignalFree.{AreFunctionsFree};
ghost use Rattle.cir_simplify.specs.Answer.{Simplifies};
ghost use Rattle.cir_simplify.specs.Index.{IsGood};
ghost use Rattle.cir_compile.specs.Compiled.{Compiles, Writes, faults_by, main_site, refusal_of};
ghost use Rattle.cir_compile.specs.Written.{own_count, rules_of};

use crate::fault::CompileFault;
use crate::file::file_of;
use cir_ast::program::{Main, Program, Spot};
use cir_ast::{Kind, Place, Refusal, Text, Which};
use cir_inst::{Circuit, instantiate};
use cir_names::load;
use cir_simplify::{Level, SimpFault, Simple, simplify};
use iden_files::R1cs;
use out_io::Store;
use std::alloc::{AllocError, Global};

/// The file of the constraints of the source of this name with all that it includes, beside it or
/// in the folder of libraries, simplified at the level; or its first refusal. Too many terms in
/// simplification are refused at the statement of the main component.
pub fn compile<S: Store>(
    alloc: Global,
    store: &mut S,
    name: &str,
    library: Option<&str>,
    level: Level,
) -> Result<R1cs, CompileFault>
    // The file is that of the program that the source means. Values satisfy it exactly when they
    // extend, by the labels of its wires, to an assignment that satisfies the program.
    ensures compiles { Compiles (S.may_hold store.new)
        record { name = name.now; library = option_copied library.entry; level = level }
        (Rose (S.faults store.old) (S.faults store.new)) result }
    ensures counted { S.faults store.new ≡ faults_by result (S.faults store.old) }
    ensures limits { IfOk result InLimits }
    ensures store { OnlyReads (S.may_hold store.old) (S.may_hold store.new)
        (S.faults store.old) (S.faults store.new)
        (S.never_fails store.old) (S.never_fails store.new) }
{
    let program = load(alloc, store, name, library)?;
    let file = written(alloc, &program, level)?;
    Ok(file)
}

/// The file of the constraints of a program.
fn written(alloc: Global, program: &Program, level: Level) -> Result<R1cs, CompileFault>
    requires checked { IsChecked (bare_program program.now) }
    requires free { AreFunctionsFree (bare_program program.now) }
    ensures writes { Writes (bare_program program.now) level result }
    ensures limits { IfOk result InLimits }
{
    let circuit = instantiate(alloc, program)?;
    file_from(alloc, program, &circuit, level)
}

/// The file of the constraints of a program's circuit, simplified at the level. Too many terms in
/// simplification are refused at the statement of the main component.
pub fn file_from(
    alloc: Global,
    program: &Program,
    circuit: &Circuit,
    level: Level,
) -> Result<R1cs, CompileFault>
    requires meaning { Instantiates (bare_program program.now) (Ok circuit.now) }
    requires satisfied { (s : Assignment)
        → Satisfies (bare_program program.now) s ↔ All (Holds s.at) circuit.now.constraints }
    requires fits { IsWithinLimits circuit.now }
    ensures writes { Writes (bare_program program.now) level result }
    ensures limits { IfOk result InLimits }
{
    let simple = match simple_of(alloc, circuit, level) {
        Ok(simple) => simple,
        Err(SimpFault::Terms { count }) => {
            let kind = Kind::Limit {
                which: Which::Terms,
                count,
            };
            let site = main_site(program.mains.as_slice());
            let refusal = refusal_at(alloc, program.files.as_slice(), site, kind, b"main")?;
            return Err(CompileFault::Refused(refusal));
        }
        Err(SimpFault::OutOfMemory) => return Err(CompileFault::OutOfMemory),
    };
    let file = file_of(alloc, circuit, simple)?;
    Ok(file)
}

/// The circuit's constraints, simplified. Main's own signals stay.
fn simple_of(alloc: Global, circuit: &Circuit, level: Level) -> Result<Simple, SimpFault>
    requires few { length circuit.now.signals.names ≤ 1048575 }
    requires own { own_count circuit.now ≤ length circuit.now.signals.names }
    requires good { All (IsGood (length circuit.now.signals.names + 1)) circuit.now.constraints }
    ensures { Simplifies (rules_of level circuit.now) circuit.now.constraints result }
{
    let table = &circuit.signals;
    let list = circuit.constraints.as_slice();
    let count = table.names.len() as u32;
    let own = table.outputs + (table.public_inputs + table.private_inputs);
    simplify(alloc, list, count, own, level)
}

/// The refusal of this kind at a site of the program, with the path of an instance.
fn refusal_at(
    alloc: Global,
    files: &[Text],
    site: Site,
    kind: Kind,
    path: &[u8],
) -> Result<Refusal, AllocError>
    ensures { IfOk result (λ r. r ≡ refusal_of files.now site kind path.now) }
{
    let file = match files.get(site.file as usize) {
        Some(name) => Text::from_slice(alloc, name.as_slice())?,
        None => Text::new(),
    };
    let path = Text::from_slice(alloc, path)?;
    Ok(Refusal {
        kind,
        place: Place {
            file,
            line: site.spot.line,
            column: site.spot.column,
            path,
        },
    })
}

/// A place in a file of the program.
#[derive(Clone, Copy)]
pub struct Site {
    pub file: u32,
    pub spot: Spot,
}

/// Where the statement of the main component stands.
fn main_site(mains: &[Main]) -> Site
    ensures { result ≡ main_site (map bare_main mains.now) }
{
    match mains {
        [main, ..] => Site {
            file: main.file,
            spot: main.spot,
        },
        [] => Site {
            file: 0,
            spot: Spot { line: 1, column: 1 },
        },
    }
}

//! From the files of a store to the program.
ghost use Rattle.std.specs.Prelude.{◌≡◌, map, IfOk};
ghost use Rattle.std.specs.Option.{option_copied};
ghost use Rattle.out_io.specs.Asked.{OnlyAsks};
ghost use Rattle.out_io.specs.Faults.{Rose};
ghost use Rattle.out_io.specs.Held.{OnlyReads};
ghost use Rattle.cir_ast.specs.Program.{bare_program};
ghost use Rattle.cir_checks.specs.Checked.{IsChecked};
ghost use Rattle.cir_sources.specs.Includes.{is_among, seen};
ghost use Rattle.cir_sources.specs.Loading.{AreSources, faults_by};
ghost use Rattle.cir_sources.specs.Steps.{Refuses};
ghost use Rattle.cir_names.specs.Loading.{Loads, Checks, IsOfSources};
ghost use Rattle.cir_names.specs.Programs.{refusal_of};
ghost use Rattle.cir_names.specs.Resting.{LoadsAll};

use crate::gathering::gather;
use crate::splitting::program_with;
use cir_ast::program::Program;
use cir_ast::{Kind, Refusal, Text};
use cir_checks::{Fault, Found, checks};
use cir_resolve::{Stop, resolve};
use cir_sources::{LoadFault, Reached, Source, reach};
use out_io::Store;
use std::alloc::{AllocError, Global};
use std::collections::BTreeSet;

/// A loaded program, and the names that were asked for and have no file.
#[derive(Drop)]
pub struct Loaded {
    pub program: Program,
    pub missing: BTreeSet<String>,
}

/// What is known of a file once a program is loaded.
#[derive(Clone, Copy)]
pub enum Known {
    /// It is one of the program's.
    Source,
    /// It was asked for, and there is none.
    Missing,
    /// It wasn't asked for.
    Nothing,
}

impl Loaded {
    ghost use Rattle.cir_names.specs.Resting.{IsKnown};

    /// What is known of the file under the name.
    pub fn known(&self, name: &str) -> Known
        ensures { IsKnown self.now.missing self.now.program.files name.now result }
    {
        if is_among(self.program.files.as_slice(), name.as_bytes()) {
            Known::Source
        } else if self.missing.contains(name) {
            Known::Missing
        } else {
            Known::Nothing
        }
    }
}

// Whether the name is one of these.
fn is_among(names: &[Text], name: &[u8]) -> bool
    ensures { result ≡ is_among names.now name.now }
{
    names.iter().any(|n| n.as_slice() == name)
}

/// The program of the file with this name and of all files that it includes, beside it or in the
/// folder of libraries; or its first refusal.
pub fn load<S: Store>(
    alloc: Global,
    store: &mut S,
    name: &str,
    library: Option<&str>,
) -> Result<Program, LoadFault>
    ensures loads { Loads (S.may_hold store.new) name.now (option_copied library.entry)
        (Rose (S.faults store.old) (S.faults store.new)) result }
    ensures counted { S.faults store.new ≡ faults_by result (S.faults store.old) }
    ensures checked { IfOk result (λ p. IsChecked (bare_program p)) }
    ensures theirs { IfOk result (λ p. IsOfSources (bare_program p)) }
    ensures store { OnlyReads (S.may_hold store.old) (S.may_hold store.new)
        (S.faults store.old) (S.faults store.new) (S.never_fails store.old)
        (S.never_fails store.new) }
    ensures asked { OnlyAsks (S.calls store.old) (S.calls store.new)
        (S.may_hold store.old) (S.may_hold store.new) }
{
    match load_all(alloc, store, name, library) {
        Ok(loaded) => Ok(loaded.program),
        Err(fault) => Err(fault),
    }
}

/// The same, with the names that were asked for and have no file.
pub fn load_all<S: Store>(
    alloc: Global,
    store: &mut S,
    name: &str,
    library: Option<&str>,
) -> Result<Loaded, LoadFault>
    ensures loads { LoadsAll (S.may_hold store.new) name.now (option_copied library.entry)
        (Rose (S.faults store.old) (S.faults store.new)) result }
    ensures counted { S.faults store.new ≡ faults_by result (S.faults store.old) }
    ensures checked { IfOk result (λ l. IsChecked (bare_program l.program)) }
    ensures theirs { IfOk result (λ l. IsOfSources (bare_program l.program)) }
    ensures store { OnlyReads (S.may_hold store.old) (S.may_hold store.new)
        (S.faults store.old) (S.faults store.new) (S.never_fails store.old)
        (S.never_fails store.new) }
    ensures asked { OnlyAsks (S.calls store.old) (S.calls store.new)
        (S.may_hold store.old) (S.may_hold store.new) }
{
    let reached = reach(alloc, store, name, library)?;
    let Reached { sources, missing } = reached;
    let program = program(alloc, sources)?;
    Ok(Loaded { program, missing })
}

fn program(alloc: Global, sources: Vec<Source>) -> Result<Program, LoadFault>
    requires { AreSources (map seen sources.items) }
    ensures program { Checks (map seen sources.items) result }
    ensures checked { IfOk result (λ p. IsChecked (bare_program p)) }
{
    let gathered = gather(alloc, sources)?;
    let files = gathered.files;
    match resolve(alloc, gathered.definitions) {
        Ok(definitions) => match checks(alloc, definitions.as_slice()) {
            Ok(()) => {
                let program = program_with(alloc, files, definitions)?;
                Ok(program)
            }
            Err(cir_checks::Stop::At(found)) => Err(refused(alloc, files.as_slice(), found)),
            Err(cir_checks::Stop::OutOfMemory) => Err(LoadFault::OutOfMemory),
        },
        Err(Stop::Twice(place)) => {
            let fault = Fault {
                kind: Kind::Duplicate,
                spot: place.spot,
            };
            let file = place.file;
            Err(refused(alloc, files.as_slice(), Found { file, fault }))
        }
        Err(Stop::OutOfMemory) => Err(LoadFault::OutOfMemory),
    }
}

// The refusal of a fault in the file of its place among these names.
fn refused(alloc: Global, names: &[Text], found: Found) -> LoadFault
    ensures { Refuses (λ r. r ≡ refusal_of names.now found) result }
{
    let name: &[u8] = match names.get(found.file as usize) {
        Some(name) => name.as_slice(),
        None => b"",
    };
    let Fault { kind, spot } = found.fault;
    match Refusal::at(alloc, name, kind, spot) {
        Ok(refusal) => LoadFault::Refused(refusal),
        Err(_) => LoadFault::OutOfMemory,
    }
}

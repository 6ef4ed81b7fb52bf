//! The file that an include names.
ghost use Rattle.std.specs.Prelude.{◌≡◌, IfOk};
ghost use Rattle.std.specs.Option.{option_copied};
ghost use Rattle.out_io.specs.Asked.{OnlyAsks};
ghost use Rattle.out_io.specs.Contents.{Contents};
ghost use Rattle.out_io.specs.Faults.{CountsFaults, faults_after};
ghost use Rattle.out_io.specs.Held.{OfAll};
ghost use Rattle.cir_sources.specs.Steps.{AreMissing, FindsTarget, Learns, Looks};

use crate::path::{beside, in_library};
use crate::source::Site;
use out_io::{IoFault, Store};
use std::alloc::Global;
use std::collections::BTreeSet;
use std::str;

/// What is known of a file.
#[derive(Drop)]
pub(crate) enum Target {
    /// It is loaded already.
    Loaded,
    /// There is none.
    Absent,
    Found { name: String, bytes: Vec<u8> },
}

// What lies under the name, which is read only where nothing is known of it. A name that isn't
// UTF-8 has no file.
fn look<S: Store>(
    alloc: Global,
    store: &mut S,
    names: &BTreeSet<String>,
    missing: &mut BTreeSet<String>,
    name: &[u8],
) -> Result<Target, IoFault>
    ensures learns { IfOk result (λ target.
        Learns (S.may_hold store.old) (S.may_hold store.new)
        missing.old missing.new target) }
    ensures looks { IfOk result (λ target. (files : Contents) →
        AreMissing files missing.new → Looks files names.now name.now target) }
    ensures still { OfAll (S.may_hold store.new) (S.may_hold store.old) }
    ensures asked { OnlyAsks (S.calls store.old) (S.calls store.new)
        (S.may_hold store.old) (S.may_hold store.new) }
    ensures cause { CountsFaults (S.faults store.old) (S.faults store.new) result }
    ensures counted { S.faults store.new ≡ faults_after result (S.faults store.old) }
    ensures steady { S.never_fails store.old
        → S.never_fails store.new × (S.faults store.new ≡ S.faults store.old) }
{
    let Ok(text) = str::from_utf8(name) else {
        return Ok(Target::Absent);
    };
    if names.contains(text) {
        return Ok(Target::Loaded);
    }
    if missing.contains(text) {
        return Ok(Target::Absent);
    }
    match store.read(alloc, text)? {
        None => {
            let name = String::from_str(alloc, text)?;
            missing.insert(name)?;
            Ok(Target::Absent)
        }
        Some(bytes) => {
            let name = String::from_str(alloc, text)?;
            Ok(Target::Found { name, bytes })
        }
    }
}

/// The file that the include names: beside its own file, else in the folder of libraries. Names
/// that have no file are added to those that are missing, which aren't asked for again.
pub(crate) fn search<S: Store>(
    alloc: Global,
    store: &mut S,
    names: &BTreeSet<String>,
    missing: &mut BTreeSet<String>,
    library: Option<&str>,
    site: &Site,
) -> Result<Target, IoFault>
    ensures learns { IfOk result (λ target.
        Learns (S.may_hold store.old) (S.may_hold store.new)
        missing.old missing.new target) }
    ensures targets { IfOk result (λ target.
        FindsTarget names.now missing.new (option_copied library.entry) site.now target) }
    ensures still { OfAll (S.may_hold store.new) (S.may_hold store.old) }
    ensures asked { OnlyAsks (S.calls store.old) (S.calls store.new)
        (S.may_hold store.old) (S.may_hold store.new) }
    ensures cause { CountsFaults (S.faults store.old) (S.faults store.new) result }
    ensures counted { S.faults store.new ≡ faults_after result (S.faults store.old) }
    ensures steady { S.never_fails store.old
        → S.never_fails store.new × (S.faults store.new ≡ S.faults store.old) }
{
    let name = beside(alloc, site)?;
    let target = look(alloc, store, names, missing, name.as_slice())?;
    match (target, library) {
        (Target::Absent, Some(folder)) => {
            let name = in_library(alloc, folder.as_bytes(), site)?;
            let target = look(alloc, store, names, missing, name.as_slice())?;
            Ok(target)
        }
        (target, _) => Ok(target),
    }
}

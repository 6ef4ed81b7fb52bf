//! The files that a program reaches.
ghost use Rattle.std.specs.Prelude.{◌≡◌, ◌≤◌, string_bytes, IfOk, OnOk, map};
ghost use Rattle.std.specs.Option.{option_copied};
ghost use Rattle.out_io.specs.Asked.{OnlyAsks};
ghost use Rattle.out_io.specs.Faults.{Rose};
ghost use Rattle.out_io.specs.Held.{OnlyReads};
ghost use Rattle.cir_sources.specs.Includes.{seen};
ghost use Rattle.cir_sources.specs.Loading.{AreSources, faults_by};
ghost use Rattle.cir_sources.specs.Reaching.{Reaches};
ghost use Rattle.cir_sources.specs.Steps.{Adds, Follows, to_go};

use crate::decode;
use crate::fault::{LoadFault, refusal};
use crate::search::{Target, search};
use crate::source::{MAX_FILES, Site, Source};
use cir_ast::{Kind, Which};
use out_io::Store;
use std::alloc::{AllocError, Global};
use std::collections::BTreeSet;

/// The sources that are loaded, and the includes that are left.
#[derive(Drop)]
struct Loading {
    sources: Vec<Source>,
    // The names of the sources.
    names: BTreeSet<String>,
    // The names that were asked for and have no file.
    missing: BTreeSet<String>,
    // The last one is followed first.
    pending: Vec<Site>,
}

impl Loading {
    // Its includes are followed before the ones that were left.
    fn add(&mut self, alloc: Global, name: String, source: Source) -> Result<(), AllocError>
        requires { string_bytes name ≡ source.name }
        ensures { OnOk result (Adds self.old (seen source) self.new) }
    {
        let mut sites = decode::sites(alloc, &source)?;
        sites.reverse();
        self.pending.append(&mut sites)?;
        self.names.insert(name)?;
        self.sources.push(source)?;
        Ok(())
    }

    // Loads the file that the include names, unless it is loaded already.
    fn follow<S: Store>(
        &mut self,
        alloc: Global,
        store: &mut S,
        library: Option<&str>,
        site: &Site,
    ) -> Result<(), LoadFault>
        ensures follows { Follows (S.may_hold store.old) (S.may_hold store.new)
            (option_copied library.entry) self.old site.now self.new
            (Rose (S.faults store.old) (S.faults store.new)) result }
        ensures counted { S.faults store.new ≡ faults_by result (S.faults store.old) }
        ensures less { OnOk result (to_go self.new ≤ to_go self.old) }
        ensures store { OnlyReads (S.may_hold store.old) (S.may_hold store.new)
            (S.faults store.old) (S.faults store.new) (S.never_fails store.old)
            (S.never_fails store.new) }
        ensures asked { OnlyAsks (S.calls store.old) (S.calls store.new)
            (S.may_hold store.old) (S.may_hold store.new) }
    {
        match search(alloc, store, &self.names, &mut self.missing, library, site)? {
            Target::Loaded => Ok(()),
            Target::Absent => {
                let file = site.file.as_slice();
                Err(refusal(alloc, file, Kind::Include, site.spot))
            }
            Target::Found { name, bytes } => {
                if self.sources.len() >= MAX_FILES {
                    let (which, count) = (Which::Files, MAX_FILES as u64 + 1);
                    let file = site.file.as_slice();
                    return Err(refusal(alloc, file, Kind::Limit { which, count }, site.spot));
                }
                let source = decode::source(alloc, name.as_bytes(), bytes)?;
                self.add(alloc, name, source)?;
                Ok(())
            }
        }
    }
}

/// The source files of a program, and the names that were asked for and have no file.
#[derive(Drop)]
pub struct Reached {
    pub sources: Vec<Source>,
    pub missing: BTreeSet<String>,
}

/// The source files of the program whose first file has this name: the ones that it reaches by
/// includes, depth first, each once. An include's file is looked for beside its own file, and then
/// in the folder of libraries.
pub fn reach<S: Store>(
    alloc: Global,
    store: &mut S,
    name: &str,
    library: Option<&str>,
) -> Result<Reached, LoadFault>
    ensures reaches { Reaches (S.may_hold store.new) name.now (option_copied library.entry)
        (Rose (S.faults store.old) (S.faults store.new)) result }
    ensures counted { S.faults store.new ≡ faults_by result (S.faults store.old) }
    ensures read { IfOk result (λ r. AreSources (map seen r.sources.items)) }
    ensures store { OnlyReads (S.may_hold store.old) (S.may_hold store.new)
        (S.faults store.old) (S.faults store.new) (S.never_fails store.old)
        (S.never_fails store.new) }
    ensures asked { OnlyAsks (S.calls store.old) (S.calls store.new)
        (S.may_hold store.old) (S.may_hold store.new) }
{
    let Some(bytes) = store.read(alloc, name)? else {
        return Err(LoadFault::Missing);
    };
    let source = decode::source(alloc, name.as_bytes(), bytes)?;
    let name = String::from_str(alloc, name)?;
    let mut loading = Loading {
        sources: Vec::new(alloc),
        names: BTreeSet::new(alloc),
        missing: BTreeSet::new(alloc),
        pending: Vec::new(alloc),
    };
    loading.add(alloc, name, source)?;
    while let Some(site) = loading.pending.pop() {
        loading.follow(alloc, store, library, &site)?;
    }
    Ok(Reached {
        sources: loading.sources,
        missing: loading.missing,
    })
}

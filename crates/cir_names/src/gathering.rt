//! The definitions of source files, in the order of loading.
ghost use Rattle.std.specs.Prelude.{◌≡◌, ◌<◌, ◌≤◌, ◌++◌, ◌∷◌, [], length, map, IfOk, OnOk};
ghost use Rattle.cir_resolve.specs.Definitions.{bare_definition, definitions_of};
ghost use Rattle.cir_sources.specs.Faults.{most_files};
ghost use Rattle.cir_sources.specs.Includes.{seen};
ghost use Rattle.cir_names.specs.Programs.{tree_of, definitions_from, names_of};

use cir_ast::Text;
use cir_resolve::Definition;
use cir_sources::Source;
use items::Items;
use std::alloc::{AllocError, Global};

/// The names of source files, and their definitions.
#[derive(Drop)]
pub(crate) struct Gathered {
    pub files: Items<Text>,
    pub definitions: Vec<Definition>,
}

impl Gathered {
    // Adds the definitions of one more source.
    fn add(&mut self, source: Source) -> Result<(), AllocError>
        requires { length self.old.files < most_files }
        ensures files { OnOk result (self.new.files ≡ self.old.files ++ source.name ∷ []) }
        ensures definitions { OnOk result (map bare_definition self.new.definitions.items
            ≡ map bare_definition self.old.definitions.items
            ++ definitions_of (length self.old.files) (tree_of source)) }
    {
        let Source { name, file } = source;
        let number = self.files.len() as u32;
        Definition::add(&mut self.definitions, number, file.items)?;
        self.files.push(name)
    }
}

/// The definitions of sources.
pub(crate) fn gather(alloc: Global, sources: Vec<Source>) -> Result<Gathered, AllocError>
    requires { length (map seen sources.items) ≤ most_files }
    ensures files { IfOk result (λ g. g.files ≡ names_of (map seen sources.items)) }
    ensures definitions { IfOk result (λ g. map bare_definition g.definitions.items
        ≡ definitions_from 0 (map tree_of sources.items)) }
{
    let mut gathered = Gathered {
        files: Items::new(alloc),
        definitions: Vec::new(alloc),
    };
    for source in sources {
        gathered.add(source)?;
    }
    Ok(gathered)
}

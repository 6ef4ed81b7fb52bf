//! The program of definitions.
ghost use Rattle.std.specs.Prelude.{◌≡◌, map, IfOk, OnOk};
ghost use Rattle.cir_ast.specs.Program.{bare_program};
ghost use Rattle.cir_resolve.specs.Definitions.{bare_definition};
ghost use Rattle.cir_names.specs.Splitting.{IsMore};
ghost use Rattle.cir_checks.specs.Checks.{program_with};

use cir_ast::Text;
use cir_ast::program::{Function, Main, Program, Template};
use cir_resolve::Definition;
use items::Items;
use std::alloc::{AllocError, Global};

/// Definitions by their kinds.
#[derive(Drop)]
struct Kinds {
    templates: Vec<Template>,
    functions: Vec<Function>,
    mains: Vec<Main>,
}

impl Kinds {
    /// Adds a definition to those of its kind.
    fn add(&mut self, definition: Definition) -> Result<(), AllocError>
        ensures { OnOk result (IsMore self.old self.new (bare_definition definition)) }
    {
        match definition {
            Definition::Template(template) => self.templates.push(template)?,
            Definition::Function(function) => self.functions.push(function)?,
            Definition::Main(main) => self.mains.push(main)?,
        }
        Ok(())
    }
}

/// The program of these definitions in the files of these names.
pub(crate) fn program_with(
    alloc: Global,
    files: Items<Text>,
    definitions: Vec<Definition>,
) -> Result<Program, AllocError>
    ensures { IfOk result
        (λ p. bare_program p ≡ program_with files (map bare_definition definitions.items)) }
{
    let mut kinds = Kinds {
        templates: Vec::new(alloc),
        functions: Vec::new(alloc),
        mains: Vec::new(alloc),
    };
    for definition in definitions {
        kinds.add(definition)?;
    }
    Ok(Program {
        files,
        templates: Items::of(kinds.templates),
        functions: Items::of(kinds.functions),
        mains: Items::of(kinds.mains),
    })
}

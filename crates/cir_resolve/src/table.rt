//! What the names of definitions mean.
ghost use Rattle.std.specs.Prelude.{◌≡◌, ◌+◌, map, IsTrue, IfOk, IfSome, OnOk};
ghost use Rattle.cir_resolve.specs.Scope.{nothing};
ghost use Rattle.cir_resolve.specs.Definitions.{bare_definition, first_numbers, with_new};
ghost use Rattle.cir_resolve.specs.Definitions.{with_definition, behind_definition, defined_by};
ghost use Rattle.cir_resolve.specs.Answers.{names_in, numbers_of};

use crate::definition::Definition;
use crate::names::Names;
use cir_ast::program::Meant;
use std::alloc::{AllocError, Global};

/// How many templates and functions come before.
#[derive(Clone, Copy)]
pub(crate) struct Numbers {
    pub(crate) templates: u32,
    pub(crate) functions: u32,
}

impl Numbers {
    /// Counts a definition, where its number still has a next one.
    pub(crate) fn pass(&mut self, definition: &Definition) -> bool
        ensures { IsTrue result
            → numbers_of self.new
            ≡ behind_definition (numbers_of self.old) (bare_definition definition.now) }
    {
        match definition {
            Definition::Template(_) => next(&mut self.templates),
            Definition::Function(_) => next(&mut self.functions),
            Definition::Main(_) => true,
        }
    }
}

/// Counts one more, where that still has a next number.
pub(crate) fn next(count: &mut u32) -> bool
    ensures { IsTrue result → count.new ≡ count.old + 1 }
{
    if *count == u32::MAX {
        return false;
    }
    *count += 1;
    true
}

impl Names {
    /// Gives the name a meaning, where it has none yet.
    fn add(&mut self, alloc: Global, name: &[u8], meant: Meant) -> Result<(), AllocError>
        ensures { OnOk result (names_in self.new ≡ with_new (names_in self.old) name.now meant) }
    {
        if self.get(name).is_some() {
            return Ok(());
        }
        let name = Vec::from_slice(alloc, name)?;
        self.insert(name, meant)
    }

    fn add_definition(
        &mut self,
        alloc: Global,
        numbers: Numbers,
        definition: &Definition,
    ) -> Result<(), AllocError>
        ensures { OnOk result
            (names_in self.new
            ≡ with_definition (names_in self.old) (numbers_of numbers)
            (bare_definition definition.now)) }
    {
        match definition {
            Definition::Template(template) => {
                let meant = Meant::Template(numbers.templates);
                self.add(alloc, template.name.as_slice(), meant)
            }
            Definition::Function(function) => {
                let meant = Meant::Function(numbers.functions);
                self.add(alloc, function.name.as_slice(), meant)
            }
            Definition::Main(_) => Ok(()),
        }
    }

    /// What the names of these definitions mean; none where there are too many for their numbers.
    pub(crate) fn of(alloc: Global, definitions: &[Definition]) -> Result<Option<Names>, AllocError>
        ensures { IfOk result
            (λ names. IfSome names
            (λ n. names_in n
            ≡ defined_by nothing first_numbers (map bare_definition definitions.now))) }
    {
        let mut names = Names::new(alloc);
        let mut numbers = Numbers {
            templates: 0,
            functions: 0,
        };
        for definition in definitions {
            names.add_definition(alloc, numbers, definition)?;
            if !numbers.pass(definition) {
                return Ok(None);
            }
        }
        Ok(Some(names))
    }
}

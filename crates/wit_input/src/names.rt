ghost use Rattle.std.specs.Prelude.{◌≡◌, ◌||◌, ℕ, List, IfOk, OnOk, false, bytes_eq};
ghost use Rattle.wit_input.specs.Input.{is_input};
ghost use Rattle.wit_input.specs.Names.{contained};

use cir_values::InputShape;
use std::alloc::{AllocError, Global};
use std::collections::BTreeMap;

/// A set of names, which it borrows.
#[derive(Drop)]
pub(crate) struct NameSet<'s> {
    names: BTreeMap<&'s [u8], ()>,
}

impl<'s> NameSet<'s> {
    fn new(alloc: Global) -> NameSet<'s>
        ensures { (name : List ℕ) → contained result name ≡ false }
    {
        NameSet {
            names: BTreeMap::new(alloc),
        }
    }

    /// The names of the inputs.
    pub(crate) fn of_inputs(
        alloc: Global,
        inputs: &'s [InputShape],
    ) -> Result<NameSet<'s>, AllocError>
        ensures { IfOk result (λ set. (name : List ℕ)
            → contained set name ≡ is_input inputs.now name) }
    {
        let mut names = NameSet::new(alloc);
        for input in inputs {
            names.insert(input.name.as_slice())?;
        }
        Ok(names)
    }

    pub(crate) fn contains(&self, name: &[u8]) -> bool
        ensures { result ≡ contained self.now name.now }
    {
        self.names.get(name).is_some()
    }

    fn insert(&mut self, name: &'s [u8]) -> Result<(), AllocError>
        ensures { OnOk result ((other : List ℕ) → contained self.new other
            ≡ (bytes_eq name.now other || contained self.old other)) }
    {
        self.names.insert(name, ())?;
        Ok(())
    }
}

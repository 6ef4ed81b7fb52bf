//! Sets of names.
ghost use Rattle.std.specs.Prelude.{◌≡◌, map, OnOk};
ghost use Rattle.cir_ast.specs.Tree.{bare_signal};
ghost use Rattle.cir_checks.specs.Faults.{no_names, and_name, and_names};
ghost use Rattle.cir_checks.specs.Answers.{contained};

use cir_ast::program::DeclaredSignal;
use std::alloc::{AllocError, Global};
use std::collections::BTreeMap;

/// A set of names, which it borrows.
#[derive(Drop)]
pub struct NameSet<'p> {
    names: BTreeMap<&'p [u8], ()>,
}

impl<'p> NameSet<'p> {
    pub(crate) fn new(alloc: Global) -> NameSet<'p>
        ensures { contained result ≡ no_names }
    {
        NameSet {
            names: BTreeMap::new(alloc),
        }
    }

    /// Whether a name is in the set.
    #[tactic(auto, unfolding(crate::specs::Answers::contained))]
    pub fn contains(&self, name: &[u8]) -> bool
        ensures { result ≡ contained self.now name.now }
    {
        self.names.get(name).is_some()
    }

    pub(crate) fn insert(&mut self, name: &'p [u8]) -> Result<(), AllocError>
        ensures { OnOk result (contained self.new ≡ and_name (contained self.old) name.now) }
    {
        self.names.insert(name, ())?;
        Ok(())
    }

    pub(crate) fn insert_signals(&mut self, signals: &'p [DeclaredSignal]) -> Result<(), AllocError>
        ensures { OnOk result (contained self.new
            ≡ and_names (contained self.old) (map (λ s. s.name) (map bare_signal signals.now))) }
    {
        for signal in signals {
            self.insert(signal.name.as_slice())?;
        }
        Ok(())
    }
}

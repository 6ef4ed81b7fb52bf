//! Calls in a table.
ghost use Rattle.std.specs.Prelude.{◌≡◌, [], ◌∷◌, map, IfOk, OnOk};
ghost use Rattle.cir_meaning.specs.Functions.{same_made};
ghost use Rattle.cir_meaning.specs.Reached.{new_ones};
ghost use Rattle.cir_rules.specs.Shown.{made_of};
ghost use Rattle.cir_rules.specs.Queue.{with_new};
ghost use Rattle.cir_rules.specs.Table.{AreTold, place_in};

use crate::made::Made;
use std::alloc::{AllocError, Global};
use std::collections::BTreeMap;

/// Calls, each once, and where each of them stands.
#[derive(Drop)]
pub struct CallTable {
    pub calls: Vec<Made>,
    places: BTreeMap<Made, usize>,
    ghost told: { AreTold places calls.items },
}

impl CallTable {
    /// No call is there yet.
    pub fn new(alloc: Global) -> CallTable
        ensures { map made_of result.calls.items ≡ [] }
    {
        CallTable {
            calls: Vec::new(alloc),
            places: BTreeMap::new(alloc),
        }
    }

    /// All these calls.
    pub fn of(alloc: Global, made: &[Made]) -> Result<CallTable, AllocError>
        ensures { IfOk result (λ table. map made_of table.calls.items
            ≡ new_ones same_made [] (map made_of made.now)) }
    {
        let mut table = CallTable::new(alloc);
        for call in made {
            let call = call.copy(alloc)?;
            table.add(alloc, call)?;
        }
        Ok(table)
    }

    /// The place of a call, where it is there.
    pub fn place(&self, call: &Made) -> Option<usize>
        ensures { result ≡ place_in (λ m. same_made m (made_of call.now))
            (map made_of self.now.calls.items) }
    {
        self.places.get(call).copied()
    }

    /// A call that isn't there is one more.
    pub fn add(&mut self, alloc: Global, call: Made) -> Result<(), AllocError>
        ensures { OnOk result (map made_of self.new.calls.items
            ≡ with_new same_made (map made_of self.old.calls.items) (made_of call ∷ [])) }
    {
        if self.places.contains_key(&call) {
            return Ok(());
        }
        let place = self.calls.len();
        let copy = call.copy(alloc)?;
        self.calls.push(call)?;
        if self.places.insert(copy, place).is_err() {
            self.calls.truncate(place);
            return Err(AllocError);
        }
        Ok(())
    }
}

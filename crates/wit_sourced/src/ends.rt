//! Where keys stand last in a list.
ghost use Rattle.std.specs.Prelude.{◌≡◌, [], ◌∷◌, ◌++◌, List, length, OnErr, OnOk};
ghost use Rattle.wit_sourced.specs.Ends.{AreEnds, end_of};

use std::alloc::{AllocError, Global};
use std::collections::BTreeMap;

/// So many at the front of a list are looked through.
const FEW: usize = 8;

/// For each key of a list a place that all of its items stand before. Nothing is kept of the first
/// few items.
#[derive(Drop)]
pub struct Ends<K: Ord> {
    places: BTreeMap<K, usize>,
}

impl<K: Ord + Copy> Ends<K> {
    /// Of no items.
    pub fn new(alloc: Global) -> Ends<K>
        ensures { AreEnds K.cmp result [] }
    {
        Ends {
            places: BTreeMap::new(alloc),
        }
    }

    /// A place that all items of the key stand before.
    pub fn of(&self, key: K) -> usize
        ensures { result ≡ end_of K.cmp self.now key }
    {
        match self.places.get(&key) {
            Some(end) => *end,
            None => FEW,
        }
    }

    /// The list has one item more, at this place.
    pub fn note(&mut self, key: K, place: usize) -> Result<(), AllocError>
        ensures more { (keys : List K) → AreEnds K.cmp self.old keys → place ≡ length keys
            → OnOk result (AreEnds K.cmp self.new (keys ++ key ∷ [])) }
        ensures kept { (keys : List K) → AreEnds K.cmp self.old keys
            → OnErr result (AreEnds K.cmp self.new keys) }
    {
        if place < FEW {
            return Ok(());
        }
        let Some(end) = place.checked_add(1) else {
            return Err(AllocError);
        };
        self.places.insert(key, end)?;
        Ok(())
    }
}

//! The arrays of a step by their names.
ghost use Rattle.std.specs.Prelude.{◌≡◌, None, IfOk, map};
ghost use Rattle.std.specs.Option.{option_copied};
ghost use Rattle.wit_sourced.specs.Ends.{AreEnds};
ghost use Rattle.wit_sourced.specs.Order.{key_cmp};
ghost use Rattle.wit_sourced.specs.Named.{sought_name};
ghost use Rattle.cir_make.specs.Arrays.{array_key, input_in, last_named};

use crate::arrays::StepArray;
use numbers::TooLarge;
use std::alloc::{AllocError, Global};
use wit_sourced::{Ends, Input, Key, Sought};
use wit_sources::Inputs;

/// Arrays, and where those of a name stand last.
#[derive(Drop)]
pub struct Offered<'a> {
    pub arrays: &'a [StepArray<'a>],
    ends: Ends<Key>,
    ghost ended: { AreEnds key_cmp ends (map array_key arrays.now) },
}

impl<'a> Offered<'a> {
    /// What these arrays offer.
    pub fn of(alloc: Global, arrays: &'a [StepArray<'a>]) -> Result<Offered<'a>, AllocError>
        ensures { IfOk result (λ offered. offered.arrays.now ≡ arrays.now) }
    {
        let mut ends = Ends::new(alloc);
        for place in 0..arrays.len() {
            ends.note(arrays[place].name.key(), place)?;
        }
        Ok(Offered { arrays, ends })
    }

    /// The array of this name.
    fn find(&self, name: Sought) -> Option<&StepArray<'a>>
        ensures { option_copied result
            ≡ last_named (sought_name name.entry) self.now.arrays.now None }
    {
        let arrays = self.arrays;
        let mut left = self.ends.of(name.key()).min(arrays.len());
        while left > 0 {
            left -= 1;
            let array = &arrays[left];
            if array.name.is(name) {
                return Some(array);
            }
        }
        None
    }
}

impl Inputs for Offered<'_> {
    ghost offer = { λ o. input_in o.arrays.now };

    fn input(&self, name: Sought, element: u64) -> Result<Option<Input>, TooLarge> {
        match self.find(name) {
            Some(array) => array.stands.input(element),
            None => Ok(None),
        }
    }
}

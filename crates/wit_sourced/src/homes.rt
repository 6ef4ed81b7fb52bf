//! Where numbers stand in a frame.
ghost use Rattle.wit_sourced.specs.Order.{AreEndsOf};

use crate::ends::Ends;
use crate::names::{Key, Sought};
use cir_arrays::made_elements;
use items::Items;
use numbers::behind;
use std::alloc::{AllocError, Global};

/// The first slot of an array, and its dimensions.
#[derive(Drop)]
pub struct Home {
    pub base: u32,
    pub dims: Items<u64>,
}

/// A name with the home that it has.
#[derive(Drop)]
pub struct Placed<'a> {
    pub name: Sought<'a>,
    pub home: Home,
}

/// What can be named, the newest last, and the first of the slots behind it, which are free.
#[derive(Drop)]
pub struct Scope<'a> {
    pub homes: Vec<Placed<'a>>,
    pub top: u32,
    ends: Ends<Key>,
    ghost ended: { AreEndsOf ends homes.items },
}

impl<'a> Scope<'a> {
    ghost use Rattle.std.specs.Prelude.{◌≡◌, [], ◌∷◌, ◌++◌, option_map, take, IfOk, OnOk};
    ghost use Rattle.std.specs.Option.{option_copied};
    ghost use Rattle.wit_lower.specs.Homes as L;
    ghost use Rattle.wit_sourced.specs.Behind.{IsBehind, with_home};
    ghost use Rattle.wit_sourced.specs.Named.{sought_name};
    ghost use Rattle.wit_sourced.specs.Shown.{home_of, homes_of, scope_of};

    /// Nothing can be named.
    pub fn new(alloc: Global) -> Scope<'a>
        ensures { scope_of result ≡ record { homes = []; top = 0 } }
    {
        Scope {
            homes: Vec::new(alloc),
            top: 0,
            ends: Ends::new(alloc),
        }
    }

    /// The home of a name.
    pub fn find(&self, sought: Sought) -> Option<&Home>
        ensures { option_map home_of (option_copied result)
            ≡ L.find (sought_name sought.entry) (homes_of self.now.homes.items) }
    {
        let homes = self.homes.as_slice();
        let mut left = self.ends.of(sought.key()).min(homes.len());
        while left > 0 {
            left -= 1;
            if homes[left].name.is(sought) {
                return Some(&homes[left].home);
            }
        }
        None
    }

    /// One more home.
    fn add(&mut self, name: Sought<'a>, home: Home) -> Result<(), AllocError>
        ensures homes { OnOk result (self.new.homes.items
            ≡ self.old.homes.items ++ record { name = name.entry; home = home } ∷ []) }
        ensures top { self.new.top ≡ self.old.top }
    {
        self.ends.note(name.key(), self.homes.len())?;
        self.homes.push(Placed { name, home })?;
        Ok(())
    }

    /// A new home is the next slots.
    pub fn place(&mut self, name: Sought<'a>, dims: Items<u64>) -> Result<(), AllocError>
        ensures { OnOk result (IsBehind self.old self.new
            (with_home (sought_name name.entry) dims (scope_of self.old))) }
    {
        let base = self.top;
        let top = behind(base, made_elements(dims.as_slice()))?;
        self.add(name, Home { base, dims })?;
        self.top = top;
        Ok(())
    }

    /// The home of a new variable.
    pub fn declare(&mut self, n: u32, dims: Items<u64>) -> Result<(), AllocError>
        ensures { OnOk result (IsBehind self.old self.new
            (L.with_variable n dims (scope_of self.old))) }
    {
        self.place(Sought::Variable(n), dims)?;
        Ok(())
    }

    /// The same homes again. What an inner block declares is placed in the copy.
    pub fn copied(&self, alloc: Global) -> Result<Scope<'a>, AllocError>
        ensures { IfOk result (λ s. scope_of s ≡ scope_of self.now) }
    {
        let mut copy = Scope {
            homes: Vec::with_capacity(alloc, self.homes.len())?,
            top: self.top,
            ends: Ends::new(alloc),
        };
        for placed in self.homes.as_slice() {
            let dims = Items::from_slice(alloc, placed.home.dims.as_slice())?;
            let base = placed.home.base;
            copy.add(placed.name, Home { base, dims })?;
        }
        Ok(copy)
    }

    /// What was declared since has no home any more.
    pub fn leave(&mut self, count: usize, top: u32)
        ensures homes { self.new.homes.items ≡ take count self.old.homes.items }
        ensures top { self.new.top ≡ top }
    {
        self.homes.truncate(count);
        self.top = top;
    }
}

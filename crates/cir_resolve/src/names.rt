//! Names and what they mean.
ghost use Rattle.std.specs.Prelude.{◌≡◌, Some, OnOk};
ghost use Rattle.std.specs.Map.{update};
ghost use Rattle.std.specs.Str.{bytes_eq};
ghost use Rattle.cir_resolve.specs.Scope.{nothing};
ghost use Rattle.cir_resolve.specs.Answers.{newest_in, names_in};

use cir_ast::program::Meant;
use std::alloc::{AllocError, Global};
use std::collections::HashMap;

// So many names are looked through one by one.
const FEW: usize = 8;

/// A name and what it means.
#[derive(Drop)]
pub(crate) struct Named {
    name: Vec<u8>,
    meant: Meant,
}

/// Names, each with what it means.
#[derive(Drop)]
pub(crate) struct Names {
    /// The first ones, the newest last; none where all stand in the map.
    few: Vec<Named>,
    /// The others, which hide those.
    many: HashMap<Vec<u8>, Meant>,
}

/// What the newest of these with the name means.
fn newest_in(few: &[Named], name: &[u8]) -> Option<Meant>
    ensures { result ≡ newest_in few.now name.now }
{
    let mut left = few;
    while let Some((newest, others)) = left.split_last() {
        if newest.name.as_slice() == name {
            return Some(newest.meant);
        }
        left = others;
    }
    None
}

impl Names {
    pub(crate) fn new(alloc: Global) -> Names
        ensures { names_in result ≡ nothing }
    {
        Names {
            few: Vec::new(alloc),
            many: HashMap::new(alloc),
        }
    }

    pub(crate) fn get(&self, name: &[u8]) -> Option<Meant>
        ensures { result ≡ names_in self.now name.now }
    {
        if self.many.is_empty() {
            return newest_in(self.few.as_slice(), name);
        }
        match self.many.get(name).copied() {
            Some(meant) => Some(meant),
            None => newest_in(self.few.as_slice(), name),
        }
    }

    /// Takes a name where there may be many.
    pub(crate) fn insert(&mut self, name: Vec<u8>, meant: Meant) -> Result<(), AllocError>
        ensures { OnOk result
            (names_in self.new ≡ update bytes_eq (names_in self.old) name.items (Some meant)) }
    {
        self.many.insert(name, meant)?;
        Ok(())
    }

    /// Takes a name where there are mostly few.
    pub(crate) fn push(&mut self, name: Vec<u8>, meant: Meant) -> Result<(), AllocError>
        ensures { OnOk result
            (names_in self.new ≡ update bytes_eq (names_in self.old) name.items (Some meant)) }
    {
        if self.few.len() == FEW || !self.many.is_empty() {
            return self.insert(name, meant);
        }
        self.few.push(Named { name, meant })?;
        Ok(())
    }
}

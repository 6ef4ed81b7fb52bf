//! The calls of a store or a sink so far. They exist only in proofs.
ghost use Rattle.std.specs.Prelude.{◌≡◌, List, [], ◌∷◌};
ghost use Rattle.std.specs.Borrow.{ftrue};
ghost use Rattle.out_io.specs.History.{Call, Put, Read, Write, found_of};

use crate::IoFault;
use std::marker::Model;

/// The calls so far, and their answers. It takes no memory.
#[derive(Drop)]
pub struct History {
    // The last one stands first.
    pub ghost calls: { List Call },
}

impl Model for History {
    ghost also_owns = { λ _. ftrue };
}

// A call and its answer.
#[derive(Clone, Copy)]
enum Made<'a> {
    Read {
        name: &'a str,
        found: &'a Result<Option<Vec<u8>>, IoFault>,
    },
    Write {
        name: &'a str,
        bytes: &'a [u8],
        done: &'a Result<(), IoFault>,
    },
    Put {
        bytes: &'a [u8],
        done: &'a Result<(), IoFault>,
    },
}

impl History {
    ghost use Rattle.out_io.specs.Made.{call_of};

    /// No calls.
    pub fn new() -> History
        ensures { result.calls ≡ [] }
    {
        History {}
    }

    // One more call.
    fn and(&self, _made: &Made<'_>) -> History
        ensures { result.calls ≡ call_of _made.now ∷ self.now.calls }
    {
        History {}
    }

    /// Adds a reading of `name`, and gives back what it found.
    pub fn add_read(
        &mut self,
        name: &str,
        found: Result<Option<Vec<u8>>, IoFault>,
    ) -> Result<Option<Vec<u8>>, IoFault>
        ensures same { result ≡ found }
        ensures added { self.new.calls ≡ Read name.now (found_of found) ∷ self.old.calls }
    {
        *self = self.and(&Made::Read {
            name,
            found: &found,
        });
        found
    }

    /// Adds a write of `bytes` under `name`, and gives back how it ended.
    pub fn add_write(
        &mut self,
        name: &str,
        bytes: &[u8],
        done: Result<(), IoFault>,
    ) -> Result<(), IoFault>
        ensures same { result ≡ done }
        ensures added { self.new.calls ≡ Write name.now bytes.now done ∷ self.old.calls }
    {
        *self = self.and(&Made::Write {
            name,
            bytes,
            done: &done,
        });
        done
    }

    /// Adds a put of `bytes`, and gives back how it ended.
    pub fn add_put(&mut self, bytes: &[u8], done: Result<(), IoFault>) -> Result<(), IoFault>
        ensures same { result ≡ done }
        ensures added { self.new.calls ≡ Put bytes.now done ∷ self.old.calls }
    {
        *self = self.and(&Made::Put { bytes, done: &done });
        done
    }
}

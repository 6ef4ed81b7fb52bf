ghost use Rattle.std.specs.Prelude.{◌≡◌};

use crate::asked::{Asked, Outcome};
use crate::watcher::{Step, Watcher};
use out_io::{IoFault, Store};
use std::alloc::{AllocError, Global};

/// A store, the calls that it was asked, and who is told of them. Where `notes` is off, and where
/// there is no memory for it, a call isn't noted.
#[derive(Drop)]
pub struct Watched<S: Store + Drop, W: Watcher + Drop> {
    inner: S,
    asked: Vec<Asked>,
    notes: bool,
    watcher: W,
}

impl<S: Store + Drop, W: Watcher + Drop> Watched<S, W> {
    /// The store, and nothing asked.
    pub fn new(alloc: Global, inner: S, watcher: W, notes: bool) -> Watched<S, W>
        ensures inner { result.inner ≡ inner }
    {
        Watched {
            inner,
            asked: Vec::new(alloc),
            notes,
            watcher,
        }
    }

    /// The calls so far, the earliest first.
    pub fn asked(&self) -> &[Asked]
        ensures { result.now ≡ self.now.asked.items }
    {
        self.asked.as_slice()
    }
}

// One more call, where there is memory for it.
fn note(alloc: Global, asked: &mut Vec<Asked>, name: &str, outcome: Outcome) {
    let _ = add(alloc, asked, name, outcome);
}

fn add(
    alloc: Global,
    asked: &mut Vec<Asked>,
    name: &str,
    outcome: Outcome,
) -> Result<(), AllocError> {
    let name = String::from_str(alloc, name)?;
    asked.push(Asked { name, outcome })?;
    Ok(())
}

impl<S: Store + Drop, W: Watcher + Drop> Store for Watched<S, W> {
    ghost may_hold = { λ s. S.may_hold s.inner };

    ghost calls = { λ s. S.calls s.inner };

    ghost faults = { λ s. S.faults s.inner };

    ghost never_fails = { λ s. S.never_fails s.inner };

    fn read(&mut self, alloc: Global, name: &str) -> Result<Option<Vec<u8>>, IoFault> {
        self.watcher.tell(Step::Reading(name));
        let found = self.inner.read(alloc, name);
        let outcome = match &found {
            Ok(Some(_)) => Outcome::Read,
            Ok(None) => Outcome::NotThere,
            Err(_) => Outcome::ReadFailed,
        };
        if self.notes {
            note(alloc, &mut self.asked, name, outcome);
        }
        self.watcher.tell(Step::Working);
        found
    }

    fn write(&mut self, alloc: Global, name: &str, bytes: &[u8]) -> Result<(), IoFault> {
        self.watcher.tell(Step::Writing(name));
        let done = self.inner.write(alloc, name, bytes);
        let outcome = match &done {
            Ok(()) => Outcome::Written,
            Err(_) => Outcome::WriteFailed,
        };
        if self.notes {
            note(alloc, &mut self.asked, name, outcome);
        }
        self.watcher.tell(Step::Working);
        done
    }
}

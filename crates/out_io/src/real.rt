ghost use Rattle.std.specs.Prelude.{◌≡◌, ℕ, []};
ghost use Rattle.out_io.specs.Faults.{CountsFaults, faults_after};
ghost use Rattle.out_io.specs.History.{MayHave, MayHold};

use crate::files::{read_file, write_file};
use crate::{History, IoFault, Sink, Store};
use std::alloc::Global;
use std::io::Write;
use std::rt::Files;

/// The system's files. A name is a path; one that doesn't begin with `/` is taken from the folder
/// in which the process runs. A name that the system doesn't find isn't there; every other error of
/// the system is a fault, and so is a file of more than 1 GB.
#[derive(Drop)]
pub struct RealStore<R: Files + Drop> {
    rt: R,
    pub history: History,
    pub faults: u64,
}

/// Standard output.
#[derive(Drop)]
pub struct RealSink<R: Print + Drop> {
    rt: R,
    pub history: History,
    pub faults: u64,
}

impl<R: Files + Drop> RealStore<R> {
    /// The files that this runtime opens.
    pub fn new(rt: R) -> RealStore<R>
        ensures history { result.history.calls ≡ [] }
        ensures faults { result.faults ≡ 0 }
    {
        RealStore {
            rt,
            history: History::new(),
            faults: 0,
        }
    }
}

impl<R: Print + Drop> RealSink<R> {
    /// The standard output of this runtime.
    pub fn new(rt: R) -> RealSink<R>
        ensures history { result.history.calls ≡ [] }
        ensures faults { result.faults ≡ 0 }
    {
        RealSink {
            rt,
            history: History::new(),
            faults: 0,
        }
    }
}

// The outcome as it is, with a failure counted.
fn counted<T>(faults: &mut u64, outcome: Result<T, IoFault>) -> Result<T, IoFault>
    ensures same { result ≡ outcome }
    ensures cause { CountsFaults faults.old faults.new result }
    ensures counted { faults.new ≡ faults_after result faults.old }
{
    if let Err(IoFault::Failed) = &outcome {
        *faults = faults.saturating_add(1);
    }
    outcome
}

impl<R: Files + Drop> Store for RealStore<R> {
    ghost may_hold = { λ s. MayHold s.history.calls };

    ghost calls = { λ s. s.history.calls };

    ghost faults = { λ s. s.faults };

    ghost never_fails = { λ s. ⊥ };

    fn read(&mut self, alloc: Global, name: &str) -> Result<Option<Vec<u8>>, IoFault> {
        let found = counted(&mut self.faults, read_file(&self.rt, alloc, name));
        self.history.add_read(name, found)
    }

    fn write(&mut self, alloc: Global, name: &str, bytes: &[u8]) -> Result<(), IoFault> {
        let done = counted(&mut self.faults, write_file(&self.rt, alloc, name, bytes));
        self.history.add_write(name, bytes, done)
    }
}

impl<R: Print + Drop> Sink for RealSink<R> {
    ghost may_have = { λ s. MayHave s.history.calls };

    ghost calls = { λ s. s.history.calls };

    ghost faults = { λ s. s.faults };

    ghost never_fails = { λ s. ⊥ };

    fn put(&mut self, bytes: &[u8]) -> Result<(), IoFault> {
        let outcome = match self.rt.write_all(bytes) {
            Ok(()) => Ok(()),
            Err(_) => Err(IoFault::Failed),
        };
        let done = counted(&mut self.faults, outcome);
        self.history.add_put(bytes, done)
    }
}

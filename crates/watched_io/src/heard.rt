ghost use Rattle.std.specs.Prelude.{◌≡◌};

use crate::watcher::{Step, Watcher};
use out_io::{IoFault, Sink};
use std::alloc::Global;

/// A sink, a copy of what was put, and who is told before it is. Where `notes` is off, and where
/// there is no memory for it, nothing is copied.
#[derive(Drop)]
pub struct Heard<K: Sink + Drop, W: Watcher + Drop> {
    inner: K,
    text: Vec<u8>,
    notes: bool,
    watcher: W,
}

impl<K: Sink + Drop, W: Watcher + Drop> Heard<K, W> {
    /// The sink, and nothing heard.
    pub fn new(alloc: Global, inner: K, watcher: W, notes: bool) -> Heard<K, W>
        ensures inner { result.inner ≡ inner }
    {
        Heard {
            inner,
            text: Vec::new(alloc),
            notes,
            watcher,
        }
    }

    /// What was put and copied, where each put went well.
    pub fn text(&self) -> &[u8]
        ensures { result.now ≡ self.now.text.items }
    {
        self.text.as_slice()
    }
}

impl<K: Sink + Drop, W: Watcher + Drop> Sink for Heard<K, W> {
    ghost may_have = { λ s. K.may_have s.inner };

    ghost calls = { λ s. K.calls s.inner };

    ghost faults = { λ s. K.faults s.inner };

    ghost never_fails = { λ s. K.never_fails s.inner };

    fn put(&mut self, bytes: &[u8]) -> Result<(), IoFault> {
        self.watcher.tell(Step::Printing);
        let done = self.inner.put(bytes);
        if self.notes && done.is_ok() {
            let _ = self.text.extend_from_slice(bytes);
        }
        done
    }
}

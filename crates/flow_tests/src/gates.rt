//! Gates that see which strands the workers run.

use flow_engine::Gate;
use std::process::Abort;
use std::sync::atomic::{AtomicU64, Ordering};

const LOOKS: u32 = 100_000_000;

/// Holds two strands, each until the other has entered.
#[derive(Drop)]
pub(crate) struct Meeting {
    strands: (u32, u32),
    first: AtomicU64,
    second: AtomicU64,
    alone: AtomicU64,
}

// Whether the word is more than 0 at one of the looks.
fn is_seen(word: &AtomicU64) -> bool {
    for _ in 0..LOOKS {
        if word.load(Ordering::SeqCst) > 0 {
            return true;
        }
    }
    false
}

impl Gate for Meeting {
    fn enter(&self, strand: u32) {
        let (own, other) = if strand == self.strands.0 {
            (&self.first, &self.second)
        } else if strand == self.strands.1 {
            (&self.second, &self.first)
        } else {
            return;
        };
        own.fetch_add(1, Ordering::SeqCst);
        if !is_seen(other) {
            self.alone.fetch_add(1, Ordering::SeqCst);
        }
    }
}

impl Meeting {
    pub(crate) fn of(first: u32, second: u32) -> Meeting {
        Meeting {
            strands: (first, second),
            first: AtomicU64::new(0),
            second: AtomicU64::new(0),
            alone: AtomicU64::new(0),
        }
    }

    /// How often each of the two has entered, and how often without the other.
    pub(crate) fn entered(&self) -> (u64, u64, u64) {
        (
            self.first.load(Ordering::SeqCst),
            self.second.load(Ordering::SeqCst),
            self.alone.load(Ordering::SeqCst),
        )
    }
}

/// Counts how often each strand enters.
#[derive(Drop)]
pub(crate) struct Counts(Vec<AtomicU64>);

impl Gate for Counts {
    fn enter(&self, strand: u32) {
        if let Some(count) = self.0.get(strand as usize) {
            count.fetch_add(1, Ordering::SeqCst);
        }
    }
}

impl Counts {
    pub(crate) fn of<R: AllocGlobal + Abort>(rt: &R, strands: u32) -> Counts {
        let mut counts = Vec::new(rt.alloc());
        for _ in 0..strands {
            counts.push(AtomicU64::new(0)).expect(rt, "memory");
        }
        Counts(counts)
    }

    /// Whether each strand has entered just once.
    pub(crate) fn are_all_once(&self) -> bool {
        for count in self.0.as_slice() {
            if count.load(Ordering::SeqCst) != 1 {
                return false;
            }
        }
        true
    }
}

use flow_engine::Gate;
use std::process::Abort;
use std::sync::atomic::{AtomicU64, Ordering};

// How often an item looks for the other.
const LOOKS: u32 = 100_000_000;

/// Holds the items 0 and 1, each until the other has entered, or it has looked for it in vain.
#[derive(Drop)]
pub(crate) struct Pair {
    entered: [AtomicU64; 2],
    in_vain: AtomicU64,
}

fn is_seen(word: &AtomicU64) -> bool {
    for _ in 0..LOOKS {
        if word.load(Ordering::SeqCst) > 0 {
            return true;
        }
    }
    false
}

impl Gate for Pair {
    fn enter(&self, item: u32) {
        if item < 2 {
            self.entered[item as usize].fetch_add(1, Ordering::SeqCst);
            if !is_seen(&self.entered[1 - item as usize]) {
                self.in_vain.fetch_add(1, Ordering::SeqCst);
            }
        }
    }
}

impl Pair {
    pub(crate) fn new() -> Pair {
        Pair {
            entered: [AtomicU64::new(0), AtomicU64::new(0)],
            in_vain: AtomicU64::new(0),
        }
    }

    /// Whether each has entered just once.
    pub(crate) fn have_both_entered(&self) -> bool {
        self.entered[0].load(Ordering::SeqCst) == 1 && self.entered[1].load(Ordering::SeqCst) == 1
    }

    /// How often one looked in vain.
    pub(crate) fn in_vain(&self) -> u64 {
        self.in_vain.load(Ordering::SeqCst)
    }
}

/// Counts how often each item enters.
#[derive(Drop)]
pub(crate) struct Counts(Vec<AtomicU64>);

impl Gate for Counts {
    fn enter(&self, item: u32) {
        if let Some(count) = self.0.get(item as usize) {
            count.fetch_add(1, Ordering::SeqCst);
        }
    }
}

impl Counts {
    pub(crate) fn of<R: AllocGlobal + Abort>(rt: &R, items: u32) -> Counts {
        let mut counts = Vec::new(rt.alloc());
        for _ in 0..items {
            counts.push(AtomicU64::new(0)).expect(rt, "memory");
        }
        Counts(counts)
    }

    /// Whether each item has entered just once.
    pub(crate) fn are_all_once(&self) -> bool {
        for count in self.0.as_slice() {
            if count.load(Ordering::SeqCst) != 1 {
                return false;
            }
        }
        true
    }
}

use crate::state::PoolState;
use std::collections::VecDeque;
use std::ops::Range;
use std::sync::atomic::{AtomicU64, Ordering};
use std::sync::{Condvar, Mutex, Wait};

/// A worker that asks for one strand gets at most so many more, and no more than one in `SHARE` of
/// those that are left.
const MOST: usize = 256;

const SHARE: usize = 64;

/// Ready strands, which any number of threads share. No clause says what the lock holds at a call,
/// and no answer of the engine rests on it.
#[derive(Drop)]
pub struct Pool {
    state: Mutex<PoolState>,
    changed: Condvar,
    // How many workers there are beside the one that asks.
    others: u64,
    // How many strands are ready, for a look without the lock.
    left: AtomicU64,
    // How many strands there are, and at how many of them a worker has looked at least.
    all: u32,
    seen: AtomicU64,
}

impl Pool {
    /// For so many workers, and as many strands as the state has room for. Takes no memory.
    pub fn make(state: PoolState, workers: u32) -> Pool {
        let left = state.left() as u64;
        let all = state.room;
        Pool {
            state: Mutex::new(state),
            changed: Condvar::new(),
            others: workers.saturating_sub(1) as u64,
            left: AtomicU64::new(left),
            all,
            seen: AtomicU64::new(0),
        }
    }

    /// The next strands at which no worker has looked; none where all have been looked at. It takes
    /// no lock, and no two calls give the same strand.
    pub fn unseen(&self) -> Range<u32> {
        let all = u64::from(self.all);
        let left = all.saturating_sub(self.seen.load(Ordering::SeqCst));
        if left == 0 {
            return 0..0;
        }
        let count = 1 + ((left - 1) / SHARE as u64).min(MOST as u64);
        let first = self.seen.fetch_add(count, Ordering::SeqCst);
        let last = first.saturating_add(count);
        first.min(all) as u32..last.min(all) as u32
    }

    /// How many strands are missing, so that each other worker would find one if it came now: none
    /// while there are some at which no worker has looked. It takes no lock, and what it says may
    /// have changed since.
    pub fn missing(&self) -> usize {
        if self.seen.load(Ordering::SeqCst) < u64::from(self.all) {
            return 0;
        }
        self.others.saturating_sub(self.left.load(Ordering::SeqCst)) as usize
    }

    /// A worker calls this once, before it first asks for a strand.
    pub fn enter<R: Wait>(&self, rt: &R) {
        self.state.lock(rt).enter();
    }

    // Wakes workers for so many strands, if any rest.
    fn wake(&self, any_rest: bool, strands: usize) {
        if any_rest && strands == 1 {
            self.changed.notify_one();
        } else if any_rest {
            self.changed.notify_all();
        }
    }

    /// Adds a strand, and wakes a worker for it. A strand for which there is no room is dropped.
    pub fn put<R: Wait>(&self, rt: &R, strand: u32) {
        let mut state = self.state.lock(rt);
        let _put = state.put(strand);
        let any_rest = state.has_resting();
        self.left.store(state.left() as u64, Ordering::SeqCst);
        drop(state);
        self.wake(any_rest, 1);
    }

    /// Moves so many strands from the end of a queue into the pool under one lock, the first of
    /// them to be taken first, and wakes workers for them.
    pub fn put_last<R: Wait>(&self, rt: &R, queue: &mut VecDeque<u32>, count: usize) {
        let mut state = self.state.lock(rt);
        for _ in 0..count {
            if let Some(strand) = queue.pop_back() {
                let _put = state.put(strand);
            }
        }
        let any_rest = state.has_resting();
        self.left.store(state.left() as u64, Ordering::SeqCst);
        drop(state);
        self.wake(any_rest, count);
    }

    /// A strand, for which a worker may wait; None where the pool is closed.
    pub fn next<R: Wait>(&self, rt: &R) -> Option<u32> {
        let mut state = self.state.lock(rt);
        if let Some(strand) = state.take() {
            self.left.store(state.left() as u64, Ordering::SeqCst);
            return Some(strand);
        }
        if state.rest() {
            drop(state);
            self.changed.notify_all();
            return None;
        }
        for _ in rt.forever() {
            state = self.changed.wait(rt, state);
            if state.is_closed() {
                return None;
            }
            if let Some(strand) = state.take() {
                state.wake();
                self.left.store(state.left() as u64, Ordering::SeqCst);
                return Some(strand);
            }
        }
        unreachable!()
    }

    /// What `next` gives; and where many strands are left some of them too, so that not every
    /// strand costs a lock: these go to the end of the queue, the next one first. Each worker
    /// leaves far more to the others.
    pub fn next_some<R: Wait>(&self, rt: &R, queue: &mut VecDeque<u32>) -> Option<u32> {
        let mut state = self.state.lock(rt);
        let Some(strand) = state.take() else {
            drop(state);
            return self.next(rt);
        };
        for _ in 0..MOST.min(state.left() / SHARE) {
            if let Some(other) = state.take() {
                if queue.push_back(other).is_err() {
                    let _put = state.put(other);
                }
            }
        }
        self.left.store(state.left() as u64, Ordering::SeqCst);
        drop(state);
        Some(strand)
    }
}

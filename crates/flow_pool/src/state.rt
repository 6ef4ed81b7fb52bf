ghost use Rattle.std.specs.Prelude.{◌≡◌, ◌≤◌, ◌<◌, ◌↔◌, length, IfOk, IsTrue};
ghost use Rattle.flow_pool.specs.Pool.{opening, entered, has_room, put_in, Leaves, with_rest};
ghost use Rattle.flow_pool.specs.Pool.{at_end};
ghost use Rattle.flow_pool.specs.Pool.{after_rest, after_wake};

use std::alloc::{AllocError, Global};
use std::marker::Model;

/// What a pool's lock keeps: the strands that wait for a worker, and how many workers have entered
/// and rest. Its calls have no conditions, since nobody can know what a lock holds.
#[derive(Drop)]
pub struct PoolState {
    pub(crate) ready: Vec<u32>,
    pub(crate) room: u32,
    pub(crate) workers: u32,
    pub(crate) idle: u32,
    pub(crate) closed: bool,
}

impl Model for PoolState {
    ghost use Rattle.std.specs.Prelude.{◌≤◌, vec_capacity};
    ghost use Rattle.flow_pool.specs.Pool.{Pooled, pooled, IsPooled};

    ghost Value = { Pooled };

    ghost view = { λ p. pooled p.ready.items p.room p.workers p.idle p.closed };

    ghost invariant = { λ p. IsPooled (pooled p.ready.items p.room p.workers p.idle p.closed)
        × (p.room ≤ vec_capacity p.ready) };
}

impl PoolState {
    /// A pool for so many strands, of which these are ready at once. All memory that it needs is
    /// taken here.
    pub fn make(alloc: Global, strands: u32, ready: &[u32]) -> Result<PoolState, AllocError>
        requires { length ready.now ≤ strands }
        ensures { IfOk result (λ p. p ≡ opening strands ready.now) }
    {
        let mut room = Vec::with_capacity(alloc, strands as usize)?;
        room.extend_from_slice(ready)?;
        Ok(PoolState {
            ready: room,
            room: strands,
            workers: 0,
            idle: 0,
            closed: false,
        })
    }

    /// One more worker, up to 64. A worker enters once, before it first asks for a strand, so that
    /// nobody waits for one that hasn't begun.
    pub fn enter(&mut self)
        ensures { self.new ≡ entered self.old }
    {
        if self.workers < 64 {
            self.workers += 1;
        }
    }

    /// Adds a strand; false, and no change, where there is no room.
    pub fn put(&mut self, strand: u32) -> bool
        ensures room { result ≡ has_room self.old }
        ensures state { self.new ≡ put_in self.old strand }
    {
        if self.ready.len() >= self.room as usize {
            return false;
        }
        self.ready.push(strand).is_ok()
    }

    /// Takes the strand that was added last.
    pub fn take(&mut self) -> Option<u32>
        ensures { Leaves self.old self.new result }
    {
        self.ready.pop()
    }

    /// One more worker rests. True where it is the last one and no strand is left: then the pool
    /// closes.
    pub fn rest(&mut self) -> bool
        ensures end { result ≡ at_end (with_rest self.old) }
        ensures state { self.new ≡ after_rest self.old }
    {
        if self.idle < self.workers {
            self.idle += 1;
        }
        let end = self.idle == self.workers && self.ready.len() == 0;
        if end {
            self.closed = true;
        }
        end
    }

    /// One worker fewer rests.
    pub fn wake(&mut self)
        ensures { self.new ≡ after_wake self.old }
    {
        if self.idle > 0 {
            self.idle -= 1;
        }
    }

    /// Whether the last worker has come to rest with no strand left.
    pub fn is_closed(&self) -> bool
        ensures { result ≡ self.now.closed }
    {
        self.closed
    }

    /// How many strands wait for a worker.
    pub fn left(&self) -> usize
        ensures { result ≡ length self.now.ready }
    {
        self.ready.len()
    }

    /// Whether a worker rests.
    pub fn has_resting(&self) -> bool
        ensures { IsTrue result ↔ (0 < self.now.idle) }
    {
        self.idle > 0
    }
}

use items::Items;
use numbers::Numbers;
use std::marker::Model;

/// Which strand reads and writes which cells, and which strands wait for which.
///
/// Each of the four lists has one list for each strand. The type keeps what `IsNet` says of them.
#[derive(Drop)]
pub struct Graph {
    /// The number of strands.
    pub strands: u32,
    /// The number of cells.
    pub cells: u32,
    /// The cells that a strand reads.
    pub reads: Items<Numbers>,
    /// The cells that a strand writes, in the order in which it publishes them.
    pub writes: Items<Numbers>,
    /// The strands that write a cell which a strand reads: all of them have smaller numbers.
    pub preds: Items<Numbers>,
    /// The strands that have a strand among their predecessors, rising.
    pub succs: Items<Numbers>,
}

impl Model for Graph {
    ghost use Rattle.flow_core.specs.Net.{Net, IsNet, net};

    ghost Value = { Net };

    ghost view = { λ g. net g.strands g.cells g.reads g.writes g.preds g.succs };

    ghost invariant = { λ g. IsNet (net g.strands g.cells g.reads g.writes g.preds g.succs) };
}

impl Graph {
    ghost use Rattle.std.specs.Prelude.{◌≡◌, ◌<◌, ◌^◌};
    ghost use Rattle.flow_core.specs.Net.{IsNet, reads_of, writes_of, preds_of, succs_of};

    /// Does nothing: its clauses tell a caller what the type keeps.
    pub fn facts(&self)
        ensures net { IsNet self.now }
        ensures strands { self.now.strands < 2 ^ 32 }
        ensures cells { self.now.cells < 2 ^ 32 }
    {
        let _strands = self.strands;
        let _cells = self.cells;
    }

    /// The cells that a strand reads.
    pub fn reads_of(&self, strand: u32) -> &[u32]
        requires { strand < self.now.strands }
        ensures { result.now ≡ reads_of self.now strand }
    {
        self.reads.as_slice()[strand as usize].as_slice()
    }

    /// The cells that a strand writes.
    pub fn writes_of(&self, strand: u32) -> &[u32]
        requires { strand < self.now.strands }
        ensures { result.now ≡ writes_of self.now strand }
    {
        self.writes.as_slice()[strand as usize].as_slice()
    }

    /// The predecessors of a strand.
    pub fn preds_of(&self, strand: u32) -> &[u32]
        requires { strand < self.now.strands }
        ensures { result.now ≡ preds_of self.now strand }
    {
        self.preds.as_slice()[strand as usize].as_slice()
    }

    /// The successors of a strand.
    pub fn succs_of(&self, strand: u32) -> &[u32]
        requires { strand < self.now.strands }
        ensures { result.now ≡ succs_of self.now strand }
    {
        self.succs.as_slice()[strand as usize].as_slice()
    }
}

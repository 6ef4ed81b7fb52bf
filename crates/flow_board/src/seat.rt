ghost use Rattle.std.specs.Prelude.{◌≡◌, ◌↔◌, IsTrue, None};

use crate::view::View;
use atomic_table::Seat;
use flow_core::Hold;
use std::marker::Model;

/// A worker's own part of a board: by it alone the worker makes steps. It may go to another thread,
/// and takes no memory. A seat that is dropped takes its share of the board with it.
#[derive(Drop)]
pub struct WorkSeat {
    pub(crate) seat: Seat<u32, View>,
    pub(crate) held: Option<Hold>,
}

impl Model for WorkSeat {
    ghost use Rattle.std.specs.Prelude.{◌≡◌, ◌<◌, []};
    ghost use Rattle.flow_board.specs.Seats.{Worker, worker};

    ghost Value = { Worker };

    ghost view = { λ s. worker s.seat.table_id s.seat.me.0 };

    ghost invariant = { λ s. (s.seat.me.0.holding ≡ s.held) × (0 < s.seat.me.0.share)
        × (s.seat.me.1 ≡ []) };
}

impl WorkSeat {
    /// Whether the seat holds no strand.
    pub fn is_idle(&self) -> bool
        ensures { IsTrue result ↔ (self.now.view.holding ≡ None) }
    {
        self.held.is_none()
    }
}

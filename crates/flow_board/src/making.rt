// A board's first words and its last.
ghost use Rattle.std.specs.Prelude.{◌≡◌, ◌^◌, IfOk};
ghost use Rattle.flow_core.specs.Flow.{IsFlow};
ghost use Rattle.flow_board.specs.Seats.{ListsStarts, first_seat, place_of};
ghost use Rattle.flow_board.specs.Closed.{IsClosed};

use crate::answers::Answers;
use crate::board::Board;
use crate::opening::opening_words;
use crate::seat::WorkSeat;
use crate::words::Words;
use atomic_table::Table;
use flow_core::Graph;
use gold_field::Gold;
use std::alloc::{AllocError, Global};
use std::snapshot::Snapshot;

impl<'g, A: Answers + Drop> Board<'g, A> {
    /// A board over a graph, and the seat that has all of it. `start` has the start cells with
    /// their values, in any order.
    pub fn make(
        alloc: Global,
        graph: &'g Graph,
        start: &[(u32, Gold)],
        answers: A,
    ) -> Result<(Board<'g, A>, WorkSeat), AllocError>
        requires net { (A.flow answers).net ≡ graph.now }
        requires flow { IsFlow (A.flow answers) }
        requires starts { ListsStarts (A.flow answers) start.now }
        ensures flow { IfOk result (λ made. made.0.flow ≡ A.flow answers) }
        ensures seat { IfOk result (λ made. made.1 ≡ first_seat made.0) }
    {
        graph.facts();
        let cells = graph.cells;
        let strands = graph.strands;
        let words = opening_words(alloc, graph, start, &answers)?;
        let key = Snapshot::of(&answers);
        let (table, seat) = Table::of_words(alloc, words.as_slice(), &key)?;
        let board = Board {
            table,
            graph,
            cells,
            strands,
        };
        Ok((board, WorkSeat { seat, held: None }))
    }

    /// Ends a board, once every other seat is joined into this one, and keeps its words. Takes no
    /// memory.
    pub fn close(self, seat: WorkSeat) -> Words
        requires own { place_of seat ≡ self }
        requires free { seat.view.holding ≡ None }
        requires whole { seat.view.share ≡ 65 }
        ensures { IsClosed self.entry.flow seat.view.done seat.view.refused result }
    {
        let WorkSeat {
            seat: last,
            held: _,
        } = seat;
        let Board {
            table,
            graph: _,
            cells,
            strands,
        } = self;
        let closed = table.close_with(last);
        Words {
            cells,
            strands,
            closed,
        }
    }
}

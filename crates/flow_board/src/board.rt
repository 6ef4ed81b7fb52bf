ghost use Rattle.std.specs.Prelude.{◌≡◌, ◌+◌, ◌<◌, ◌≤◌, ◌↔◌, min, None, IsTrue, IfSome};
ghost use Rattle.std.specs.Prelude.{MatchOption};
ghost use Rattle.flow_core.specs.Flow.{Refuses, answer_of, HasValue};
ghost use Rattle.flow_board.specs.Shows.{cell_at, counter_at};
ghost use Rattle.flow_board.specs.Views.{after_step, after_take, after_publish, after_release};
ghost use Rattle.flow_board.specs.Views.{after_look, after_finish, after_refuse, after_split};
ghost use Rattle.flow_board.specs.Views.{cut_from, joined_with};
ghost use Rattle.flow_board.specs.Plays.{Reads, CanPublish, CanRelease, CanFinish, CanRefuse};
ghost use Rattle.flow_board.specs.Seats.{place_of, with_view, FillsNext, TellsNext};

use crate::answers::Answers;
use crate::rule::{Both, Finish, Halves, Look, Order, Publish, Read, Refuse, Release, TAKEN, Take};
use crate::seat::WorkSeat;
use crate::view::View;
use atomic_table::Table;
use flow_core::{Graph, Hold};
use gold_field::Gold;
use std::alloc::Global;
use std::marker::Model;
use std::snapshot::Snapshot;

/// A graph's cells and counters as words that threads share. No call between `make` and `close`
/// takes memory, a lock or a handle.
#[derive(Drop)]
pub struct Board<'g, A: Answers> {
    pub(crate) table: Table<u32, View, Snapshot<A>, Order<A>, Global>,
    pub(crate) graph: &'g Graph,
    pub(crate) cells: u32,
    pub(crate) strands: u32,
}

/// What a release found: the successor that it told, and whether that waits for nothing any more.
#[derive(Clone, Copy)]
pub struct Released {
    pub strand: u32,
    pub ready: bool,
}

impl<'g, A: Answers> Model for Board<'g, A> {
    ghost use Rattle.flow_board.specs.Seats.{Place, place, Stands};

    ghost Value = { Place };

    ghost view = { λ b. place b.table.shared.table_id (A.flow b.table.shared.key.value) };

    ghost invariant = { λ b. Stands (A.flow b.table.shared.key.value) b.graph.now b.cells
        b.strands b.table.shared.table_id };
}

impl<'g, A: Answers> Board<'g, A> {
    /// Takes a strand, where its word is 0: one compare-exchange on that word, whose answer is
    /// false exactly where it found another.
    pub fn take(&self, seat: &mut WorkSeat, strand: u32) -> bool
        requires own { place_of seat.old ≡ self.now }
        requires free { seat.old.view.holding ≡ None }
        requires near { strand < self.now.flow.net.strands }
        ensures found { IsTrue result ↔ (seat.new.view.found ≡ 0) }
        ensures seat { seat.new ≡ with_view seat.old (after_take seat.old.view
            (counter_at self.now.flow strand) seat.new.view.found strand result) }
    {
        let word = 1 + self.cells as usize + strand as usize;
        let found = self
            .table
            .shared
            .compare_exchange_with::<Take>(&mut seat.seat, word, 0, TAKEN, &strand);
        if found != 0 {
            return false;
        }
        seat.held = Some(Hold {
            strand,
            published: 0,
            released: 0,
        });
        true
    }

    /// The value of a cell that the seat's strand reads: one load.
    pub fn read(&self, seat: &mut WorkSeat, cell: u32) -> Gold
        requires own { place_of seat.old ≡ self.now }
        requires reads { Reads self.now.flow seat.old.view.holding cell }
        ensures value { HasValue self.now.flow cell result }
        ensures seat { seat.new ≡ with_view seat.old
            (after_step seat.old.view (cell_at cell) (result + 1)) }
    {
        let word = self
            .table
            .shared
            .load::<Read>(&mut seat.seat, 1 + cell as usize);
        let Some(value) = Gold::new(word - 1) else {
            unreachable!()
        };
        value
    }

    /// Fills the next cell of the seat's strand: one store.
    pub fn publish(&self, seat: &mut WorkSeat, value: Gold)
        requires own { place_of seat.old ≡ self.now }
        requires next { CanPublish self.now.flow seat.old.view.holding value }
        ensures cell { FillsNext self.now.flow seat.old.view.holding seat.new.view.word }
        ensures seat { seat.new ≡ with_view seat.old
            (after_publish seat.old.view seat.new.view.word (value + 1)) }
    {
        let Some(held) = seat.held else {
            unreachable!()
        };
        let graph = self.graph;
        let cell = graph.writes_of(held.strand)[held.published as usize];
        self.table
            .shared
            .store::<Publish>(&mut seat.seat, 1 + cell as usize, value.get() + 1);
        seat.held = Some(Hold {
            strand: held.strand,
            published: held.published + 1,
            released: held.released,
        });
    }

    /// Tells the next successor of the seat's strand: one subtraction from its word.
    pub fn release(&self, seat: &mut WorkSeat) -> Released
        requires own { place_of seat.old ≡ self.now }
        requires next { CanRelease self.now.flow seat.old.view.holding }
        ensures strand { TellsNext self.now.flow seat.old.view.holding result.strand }
        ensures ready { IsTrue result.ready ↔ (seat.new.view.found ≡ 1) }
        ensures seat { seat.new ≡ with_view seat.old (after_release seat.old.view
            (counter_at self.now.flow result.strand) seat.new.view.found) }
    {
        let Some(held) = seat.held else {
            unreachable!()
        };
        let graph = self.graph;
        let strand = graph.succs_of(held.strand)[held.released as usize];
        let word = 1 + self.cells as usize + strand as usize;
        let found = self
            .table
            .shared
            .fetch_sub::<Release>(&mut seat.seat, word, 1);
        seat.held = Some(Hold {
            strand: held.strand,
            published: held.published,
            released: held.released + 1,
        });
        Released {
            strand,
            ready: found == 1,
        }
    }

    /// Gives up the seat's strand as done, at one load of the word of the least refused strand.
    pub fn finish(&self, seat: &mut WorkSeat)
        requires own { place_of seat.old ≡ self.now }
        requires last { CanFinish self.now.flow seat.old.view.holding }
        ensures seen { seat.new.view.seen ≤ seat.old.view.seen }
        ensures seat { seat.new ≡ with_view seat.old
            (after_finish seat.old.view 0 seat.new.view.found) }
    {
        let _least = self.table.shared.load::<Finish>(&mut seat.seat, 0);
        seat.held = None;
    }

    /// Gives up the seat's strand as refused: one step by which the word of the least refused
    /// strand becomes the lesser of itself and this one.
    pub fn refuse(&self, seat: &mut WorkSeat)
        requires own { place_of seat.old ≡ self.now }
        requires none { CanRefuse self.now.flow seat.old.view.holding }
        ensures seen { seat.new.view.seen ≤ seat.old.view.seen }
        ensures own_refusal { IfSome seat.old.view.holding
            (λ h. seat.new.view.seen ≡ min seat.new.view.found h.strand) }
        ensures seat { seat.new ≡ with_view seat.old
            (after_refuse seat.old.view 0 seat.new.view.found seat.new.view.seen) }
    {
        let Some(held) = seat.held else {
            unreachable!()
        };
        let _least = self
            .table
            .shared
            .fetch_min::<Refuse>(&mut seat.seat, 0, u64::from(held.strand));
        seat.held = None;
    }

    /// The least strand that has been refused so far: one load.
    pub fn least(&self, seat: &mut WorkSeat) -> Option<u32>
        requires own { place_of seat.old ≡ self.now }
        ensures value { MatchOption result (seat.new.view.seen ≡ self.now.flow.net.strands)
            (λ l. (l ≡ seat.new.view.seen) × (l < self.now.flow.net.strands)) }
        ensures refuses { IfSome result (λ l. answer_of self.now.flow l ≡ Refuses) }
        ensures seen { seat.new.view.seen ≤ seat.old.view.seen }
        ensures seat { seat.new ≡ with_view seat.old
            (after_look seat.old.view 0 seat.new.view.found) }
    {
        let found = self.table.shared.load::<Look>(&mut seat.seat, 0);
        if found == u64::from(self.strands) {
            None
        } else {
            Some(found as u32)
        }
    }

    /// Cuts one part off a seat, for a new one.
    pub fn split(&self, seat: &mut WorkSeat) -> WorkSeat
        requires own { place_of seat.old ≡ self.now }
        requires free { seat.old.view.holding ≡ None }
        requires many { 2 ≤ seat.old.view.share }
        ensures kept { seat.new ≡ with_view seat.old (after_split seat.old.view) }
        ensures cut { result ≡ with_view seat.old (cut_from seat.old.view) }
    {
        let cut = self.table.shared.split_seat::<Halves>(&mut seat.seat);
        WorkSeat {
            seat: cut,
            held: None,
        }
    }

    /// Takes another seat in, with its lists and its share.
    pub fn join(&self, seat: &mut WorkSeat, other: WorkSeat)
        requires own { place_of seat.old ≡ self.now }
        requires other_own { place_of other ≡ self.now }
        requires free { seat.old.view.holding ≡ None }
        requires other_free { other.view.holding ≡ None }
        ensures { seat.new ≡ with_view seat.old (joined_with seat.old.view other.view) }
    {
        let WorkSeat {
            seat: gone,
            held: _,
        } = other;
        self.table.shared.join_seat::<Both>(&mut seat.seat, gone);
    }
}

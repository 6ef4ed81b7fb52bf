ghost use Rattle.std.specs.Prelude.{◌≡◌, ◌+◌, ◌<◌, [], ◌∷◌, None, Some, IfOk, IfSome, length};
ghost use Rattle.flow_core.specs.Counts.{IsIn};
ghost use Rattle.flow_core.specs.Net.{reads_of, succs_of};
ghost use Rattle.flow_core.specs.Flow.{Gives, Refuses, answer_of, HasValue};
ghost use Rattle.flow_core.specs.Events.{hold};
ghost use Rattle.engine_tests.specs.Examples.{chain, pair};
ghost use Rattle.flow_board.specs.Shows.{cell_at};
ghost use Rattle.flow_board.specs.Views.{after_step};
ghost use Rattle.flow_board.specs.Seats.{first_seat, place_of, with_view};

use crate::checks::same;
use flow_board::{Answers, Board, Words, WorkSeat};
use flow_core::{Graph, GraphFault};
use gold_field::Gold;
use numbers::Numbers;
use std::alloc::{AllocError, Global};
use std::process::Abort;
use std::snapshot::Snapshot;
use std::thread::{Threads, join_mut};

/// Stands for the answers 33 and 34 of a graph.
#[derive(Drop)]
struct Chain(Snapshot<Graph>);

impl Answers for Chain {
    ghost flow = { λ a. chain a.0.value };
}

fn two_lists(alloc: Global, first: u32, second: u32) -> Result<Vec<Numbers>, AllocError>
    ensures { IfOk result (λ lists. lists.items ≡ (first ∷ []) ∷ (second ∷ []) ∷ []) }
{
    let mut lists = Vec::new(alloc);
    lists.push(Numbers::from_slice(alloc, &[first])?)?;
    lists.push(Numbers::from_slice(alloc, &[second])?)?;
    Ok(lists)
}

/// Strand 0 reads cell 0 and writes cell 1, and strand 1 reads that and writes cell 2.
fn two_in_a_row(alloc: Global) -> Result<Graph, GraphFault>
    ensures cells { IfOk result (λ g. g.cells ≡ 3) }
    ensures reads { IfOk result (λ g. g.reads ≡ (0 ∷ []) ∷ (1 ∷ []) ∷ []) }
    ensures writes { IfOk result (λ g. g.writes ≡ (1 ∷ []) ∷ (2 ∷ []) ∷ []) }
{
    let reads = two_lists(alloc, 0, 1)?;
    let writes = two_lists(alloc, 1, 2)?;
    Graph::new(alloc, 3, reads, writes)
}

fn number(n: u32) -> Gold
    ensures { result ≡ n }
{
    Gold::from_wide(u128::from(n))
}

/// A board over that graph, where cell 0 starts with 3.
fn chain_board<'g>(
    alloc: Global,
    graph: &'g Graph,
    three: Gold,
) -> Result<(Board<'g, Chain>, WorkSeat), AllocError>
    requires cells { graph.now.cells ≡ 3 }
    requires reads { graph.now.reads ≡ (0 ∷ []) ∷ (1 ∷ []) ∷ [] }
    requires writes { graph.now.writes ≡ (1 ∷ []) ∷ (2 ∷ []) ∷ [] }
    requires three { three ≡ 3 }
    ensures flow { IfOk result (λ made. made.0.flow ≡ chain graph.now) }
    ensures seat { IfOk result (λ made. made.1 ≡ first_seat made.0) }
{
    graph.facts();
    let start = [(0u32, three)];
    Board::make(alloc, graph, &start, Chain(Snapshot::of(graph)))
}

/// Reads a cell of a strand that was just taken.
fn read_taken<A: Answers>(board: &Board<'_, A>, seat: &mut WorkSeat, strand: u32, cell: u32) -> Gold
    requires own { place_of seat.old ≡ board.now }
    requires held { seat.old.view.holding ≡ Some (hold strand 0 0) }
    requires reads { IsIn cell (reads_of board.now.flow.net strand) }
    ensures read { HasValue board.now.flow cell result }
    ensures seat { seat.new ≡ with_view seat.old
        (after_step seat.old.view (cell_at cell) (result + 1)) }
{
    board.read(seat, cell)
}

/// Tells the successors of a strand that is published whole, and ends it. The answer is the last
/// one that became ready.
fn hand_over<A: Answers>(
    board: &Board<'_, A>,
    graph: &Graph,
    seat: &mut WorkSeat,
    strand: u32,
    value: Gold,
) -> Option<u32>
    requires net { board.now.flow.net ≡ graph.now }
    requires own { place_of seat.old ≡ board.now }
    requires held { seat.old.view.holding ≡ Some (hold strand 1 0) }
    requires near { strand < board.now.flow.net.strands }
    requires gives { answer_of board.now.flow strand ≡ Gives (value ∷ []) }
    ensures own { place_of seat.new ≡ board.now }
    ensures free { seat.new.view.holding ≡ None }
    ensures share { seat.new.view.share ≡ seat.old.view.share }
{
    let count = graph.succs_of(strand).len();
    let mut ready = None;
    for told in 0..count {
        let released = board.release(seat);
        if released.ready {
            ready = Some(released.strand);
        }
    }
    board.finish(seat);
    ready
}

/// What one thread does: it tries the other strand in vain, and runs its own whole. The answer is
/// what it read and the strand that became ready, and None where a take answered otherwise.
fn work<A: Answers>(
    board: &Board<'_, A>,
    graph: &Graph,
    seat: &mut WorkSeat,
    strand: u32,
    value: Gold,
) -> Option<(Gold, Option<u32>)>
    requires net { board.now.flow.net ≡ graph.now }
    requires own { place_of seat.old ≡ board.now }
    requires free { seat.old.view.holding ≡ None }
    requires two { board.now.flow.net.strands ≡ 2 }
    requires near { strand < 2 }
    requires reads { IsIn strand (reads_of board.now.flow.net strand) }
    requires gives { answer_of board.now.flow strand ≡ Gives (value ∷ []) }
    ensures own { place_of seat.new ≡ board.now }
    ensures free { IfSome result (λ _. seat.new.view.holding ≡ None) }
    ensures share { seat.new.view.share ≡ seat.old.view.share }
{
    if board.take(seat, 1 - strand) {
        return None;
    }
    if !board.take(seat, strand) {
        return None;
    }
    let read = read_taken(board, seat, strand, strand);
    board.publish(seat, value);
    let ready = hand_over(board, graph, seat, strand, value);
    Some((read, ready))
}

/// The same in a thread of its own, which is joined.
fn in_a_thread(
    rt: &impl Threads,
    board: &Board<'_, Chain>,
    graph: &Graph,
    seat: &mut WorkSeat,
    strand: u32,
    value: Gold,
) -> Option<(Gold, Option<u32>)>
    requires net { board.now.flow.net ≡ graph.now }
    requires own { place_of seat.old ≡ board.now }
    requires free { seat.old.view.holding ≡ None }
    requires two { board.now.flow.net.strands ≡ 2 }
    requires near { strand < 2 }
    requires reads { IsIn strand (reads_of board.now.flow.net strand) }
    requires gives { answer_of board.now.flow strand ≡ Gives (value ∷ []) }
    ensures own { place_of seat.new ≡ board.now }
    ensures free { IfSome result (λ _. seat.new.view.holding ≡ None) }
    ensures share { seat.new.view.share ≡ seat.old.view.share }
{
    let (ran, ()) = join_mut(
        rt,
        &mut || -> Option<(Gold, Option<u32>)>
            requires { (board.now.flow.net ≡ graph.now) × (place_of seat.now ≡ board.now)
                × (seat.now.view.holding ≡ None) × (board.now.flow.net.strands ≡ 2) × (strand < 2)
                × IsIn strand (reads_of board.now.flow.net strand)
                × (answer_of board.now.flow strand ≡ Gives (value ∷ [])) }
            ensures { (place_of seat.exit.now ≡ board.entry.now)
                × IfSome result (λ _. seat.exit.now.view.holding ≡ None)
                × (seat.exit.now.view.share ≡ seat.entry.now.view.share) }
        { work(board, graph, seat, strand, value) },
        &mut || (),
    );
    ran
}

/// The two strands, one after the other, each in a thread with a seat of its own. Gives the seats
/// back.
fn in_turn<R: Threads + Abort>(
    rt: &R,
    board: &Board<'_, Chain>,
    graph: &Graph,
    seats: (WorkSeat, WorkSeat),
    three: Gold,
    first: Gold,
    second: Gold,
) -> (WorkSeat, WorkSeat)
    requires flow { board.now.flow ≡ chain graph.now }
    requires strands { graph.now.strands ≡ 2 }
    requires reads { graph.now.reads ≡ (0 ∷ []) ∷ (1 ∷ []) ∷ [] }
    requires first { first ≡ 33 }
    requires second { second ≡ 34 }
    requires own { place_of seats.0 ≡ board.now }
    requires own_b { place_of seats.1 ≡ board.now }
    requires free { seats.0.view.holding ≡ None }
    requires free_b { seats.1.view.holding ≡ None }
    ensures own { place_of result.0 ≡ board.now }
    ensures own_b { place_of result.1 ≡ board.now }
    ensures free { result.0.view.holding ≡ None }
    ensures free_b { result.1.view.holding ≡ None }
    ensures share { result.0.view.share ≡ seats.0.view.share }
    ensures share_b { result.1.view.share ≡ seats.1.view.share }
{
    let (mut a, mut b) = seats;
    let ran_a = in_a_thread(rt, board, graph, &mut a, 0, first);
    assert!(rt; ran_a.is_some());
    let ran_b = in_a_thread(rt, board, graph, &mut b, 1, second);
    assert!(rt; ran_b.is_some());
    same(rt, ran_a, Some((three, Some(1))));
    same(rt, ran_b, Some((first, None)));
    (a, b)
}

/// What the closed words of that board say of its cells and strands.
fn are_as_told(words: &Words, three: Gold, first: Gold, second: Gold) -> bool
    requires cells { words.now.cells ≡ 3 }
    requires strands { words.now.strands ≡ 2 }
{
    words.cell(0) == Some(three)
        && words.cell(1) == Some(first)
        && words.cell(2) == Some(second)
        && words.done(0)
        && words.done(1)
        && words.least().is_none()
}

/// Each of two seats sees this least refusal. They are joined, and the board is closed.
fn closed<A: Answers + Drop>(
    rt: &impl Abort,
    board: Board<'_, A>,
    seats: (WorkSeat, WorkSeat),
    least: Option<u32>,
) -> Words
    requires own { place_of seats.0 ≡ board }
    requires own_b { place_of seats.1 ≡ board }
    requires free { seats.0.view.holding ≡ None }
    requires free_b { seats.1.view.holding ≡ None }
    requires whole { seats.0.view.share + seats.1.view.share ≡ 65 }
    ensures cells { result.cells ≡ board.entry.flow.net.cells }
    ensures strands { result.strands ≡ board.entry.flow.net.strands }
{
    let (mut a, mut b) = seats;
    same(rt, board.least(&mut a), least);
    same(rt, board.least(&mut b), least);
    board.join(&mut a, b);
    board.close(a)
}

#[test]
fn two_seats_hand_over_by_a_join(rt: HostRuntime) {
    let graph = two_in_a_row(rt.alloc()).ok().expect(&rt, "a graph");
    graph.facts();
    let (three, first, second) = (number(3), number(33), number(34));
    let made = chain_board(rt.alloc(), &graph, three);
    let (board, mut a) = made.expect(&rt, "memory");
    let b = board.split(&mut a);
    let seats = in_turn(&rt, &board, &graph, (a, b), three, first, second);
    let words = closed(&rt, board, seats, None);
    assert!(rt; are_as_told(&words, three, first, second));
}

/// Stands for the answers of a graph whose strand 0 refuses and whose strand 1 gives 7.
#[derive(Drop)]
struct Pair(Snapshot<Graph>);

impl Answers for Pair {
    ghost flow = { λ a. pair a.0.value };
}

fn two_empty_lists(alloc: Global) -> Result<Vec<Numbers>, AllocError>
    ensures { IfOk result (λ lists. lists.items ≡ [] ∷ [] ∷ []) }
{
    let mut lists = Vec::new(alloc);
    lists.push(Numbers::new(alloc))?;
    lists.push(Numbers::new(alloc))?;
    Ok(lists)
}

/// Strand 0 writes cell 0, strand 1 writes cell 1, and neither reads a cell.
fn two_apart(alloc: Global) -> Result<Graph, GraphFault>
    ensures cells { IfOk result (λ g. g.cells ≡ 2) }
    ensures reads { IfOk result (λ g. g.reads ≡ [] ∷ [] ∷ []) }
    ensures writes { IfOk result (λ g. g.writes ≡ (0 ∷ []) ∷ (1 ∷ []) ∷ []) }
{
    let reads = two_empty_lists(alloc)?;
    let writes = two_lists(alloc, 0, 1)?;
    Graph::new(alloc, 2, reads, writes)
}

/// A board over that graph, which has no start cell.
fn pair_board(alloc: Global, graph: &Graph) -> Result<(Board<'_, Pair>, WorkSeat), AllocError>
    requires cells { graph.now.cells ≡ 2 }
    requires reads { graph.now.reads ≡ [] ∷ [] ∷ [] }
    requires writes { graph.now.writes ≡ (0 ∷ []) ∷ (1 ∷ []) ∷ [] }
    ensures flow { IfOk result (λ made. made.0.flow ≡ pair graph.now) }
    ensures seat { IfOk result (λ made. made.1 ≡ first_seat made.0) }
{
    graph.facts();
    Board::make(alloc, graph, &[], Pair(Snapshot::of(graph)))
}

/// Takes a strand and publishes its one value.
fn take_and_publish<A: Answers>(
    rt: &impl Abort,
    board: &Board<'_, A>,
    seat: &mut WorkSeat,
    strand: u32,
    value: Gold,
)
    requires own { place_of seat.old ≡ board.now }
    requires free { seat.old.view.holding ≡ None }
    requires near { strand < board.now.flow.net.strands }
    requires gives { answer_of board.now.flow strand ≡ Gives (value ∷ []) }
    ensures own { place_of seat.new ≡ board.now }
    ensures held { seat.new.view.holding ≡ Some (hold strand 1 0) }
    ensures share { seat.new.view.share ≡ seat.old.view.share }
{
    let taken = board.take(seat, strand);
    assert!(rt; taken);
    board.publish(seat, value);
}

/// Takes a strand and refuses it.
fn take_and_refuse<A: Answers>(
    rt: &impl Abort,
    board: &Board<'_, A>,
    seat: &mut WorkSeat,
    strand: u32,
)
    requires own { place_of seat.old ≡ board.now }
    requires free { seat.old.view.holding ≡ None }
    requires near { strand < board.now.flow.net.strands }
    requires refuses { answer_of board.now.flow strand ≡ Refuses }
    ensures own { place_of seat.new ≡ board.now }
    ensures free { seat.new.view.holding ≡ None }
    ensures share { seat.new.view.share ≡ seat.old.view.share }
{
    let taken = board.take(seat, strand);
    assert!(rt; taken);
    board.refuse(seat);
}

#[test]
fn a_refusal_stands_beside_a_done_strand(rt: HostRuntime) {
    let graph = two_apart(rt.alloc()).ok().expect(&rt, "a graph");
    graph.facts();
    let seven = number(7);
    let (board, mut a) = pair_board(rt.alloc(), &graph).expect(&rt, "memory");
    let mut b = board.split(&mut a);
    take_and_publish(&rt, &board, &mut b, 1, seven);
    hand_over(&board, &graph, &mut b, 1, seven);
    take_and_refuse(&rt, &board, &mut a, 0);
    let words = closed(&rt, board, (a, b), Some(0));
    same(&rt, words.cell(1), Some(seven));
    same(&rt, words.least(), Some(0));
}

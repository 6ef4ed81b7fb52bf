// What one worker does.
ghost use Rattle.std.specs.Prelude.{◌≡◌, ◌+◌, ◌<◌, ◌≤◌, ◌^◌, None, Some};
ghost use Rattle.std.specs.Prelude.{OnOk};
ghost use Rattle.flow_core.specs.Flow.{Gives, answer_of};
ghost use Rattle.flow_core.specs.Events.{hold};
ghost use Rattle.flow_board.specs.Seats.{place_of};
ghost use Rattle.flow_engine.specs.Task.{answers_of, AreRead, AreNumbered};
ghost use Rattle.flow_engine.specs.Lent.{AreBoards, IsHand, IsHandBack};

use crate::answers::FlowAnswers;
use crate::gate::Gate;
use flow_board::{Board, WorkSeat};
use flow_pool::Pool;
use gold_field::Gold;
use std::alloc::{AllocError, Global};
use std::collections::VecDeque;
use std::sync::Wait;
use wit_code::Room;
use wit_flow::StrandOut;

/// What all workers of a run share: a board for each task. In the pool the strand k of the task i
/// is the item `i * strands + k`.
#[derive(Drop)]
pub struct Batch<'a, 'g, 's, G> {
    pub boards: &'a [Board<'g, FlowAnswers<'s>>],
    pub tasks: &'a [FlowAnswers<'s>],
    /// How many strands each task has.
    pub strands: u32,
    pub pool: &'a Pool,
    pub gate: &'a G,
}

// One task of them, and the item of its strand 0.
#[derive(Drop)]
struct Job<'a, 'g, 's, G> {
    board: &'a Board<'g, FlowAnswers<'s>>,
    answers: &'a FlowAnswers<'s>,
    base: u32,
    pool: &'a Pool,
    gate: &'a G,
}

/// What a worker keeps from strand to strand.
#[derive(Drop)]
struct Desk {
    // The items that it runs next, the first one first: those that it made ready, and those that
    // it took from the pool.
    mine: VecDeque<u32>,
    // The values of the cells that its strand reads.
    reads: Vec<Gold>,
    // What its runs hand on.
    room: Room,
}

// Puts the values of the cells that the seat's strand reads on the desk.
fn gather(
    board: &Board<'_, FlowAnswers<'_>>,
    answers: &FlowAnswers<'_>,
    seat: &mut WorkSeat,
    strand: u32,
    reads: &mut Vec<Gold>,
) -> Result<(), AllocError>
    requires flow { board.now.flow ≡ answers_of answers.now }
    requires own { place_of seat.old ≡ board.now }
    requires near { strand < answers.now.plan.graph.strands }
    requires held { seat.old.view.holding ≡ Some (hold strand 0 0) }
    ensures own { place_of seat.new ≡ board.now }
    ensures held { seat.new.view.holding ≡ Some (hold strand 0 0) }
    ensures share { seat.new.view.share ≡ seat.old.view.share }
    ensures reads { OnOk result (AreRead (answers_of answers.now) strand reads.new.items) }
{
    let graph = answers.graph();
    let cells = graph.reads_of(strand);
    reads.clear();
    for i in 0..cells.len() {
        reads.push(board.read(seat, cells[i]))?;
    }
    Ok(())
}

// Where the pool has too few items for the other workers, it gets this one's later half, or more
// if the others need more, but never the last one.
fn share_out<R: Wait>(rt: &R, pool: &Pool, mine: &mut VecDeque<u32>) {
    let missing = pool.missing();
    if missing == 0 || mine.len() < 2 {
        return;
    }
    let count = missing.min(mine.len() - 1).max(mine.len() / 2);
    pool.put_last(rt, mine, count);
}

// Puts a strand's values, tells its successors and gives it up as done.
fn hand_in<R: Wait, G: Gate>(
    rt: &R,
    job: &Job<'_, '_, '_, G>,
    seat: &mut WorkSeat,
    strand: u32,
    values: &[Gold],
    ready: &mut VecDeque<u32>,
)
    requires flow { job.now.board.now.flow ≡ answers_of job.now.answers.now }
    requires items { job.now.base + job.now.answers.now.plan.graph.strands ≤ 2 ^ 32 }
    requires own { place_of seat.old ≡ job.now.board.now }
    requires near { strand < job.now.answers.now.plan.graph.strands }
    requires held { seat.old.view.holding ≡ Some (hold strand 0 0) }
    requires gives { answer_of (answers_of job.now.answers.now) strand ≡ Gives values.now }
    ensures own { place_of seat.new ≡ job.now.board.now }
    ensures free { seat.new.view.holding ≡ None }
    ensures share { seat.new.view.share ≡ seat.old.view.share }
{
    let board = job.board;
    let graph = job.answers.graph();
    graph.facts();
    for i in 0..values.len() {
        board.publish(seat, values[i]);
    }
    for told in 0..graph.succs_of(strand).len() {
        let released = board.release(seat);
        let item = job.base + released.strand;
        if released.ready && ready.push_back(item).is_err() {
            job.pool.put(rt, item);
        }
    }
    board.finish(seat);
}

// Runs the strand that the seat has taken. Nothing of it is put before it has ended.
fn run_taken<R: Wait, G: Gate>(
    rt: &R,
    alloc: Global,
    job: &Job<'_, '_, '_, G>,
    seat: &mut WorkSeat,
    strand: u32,
    desk: &mut Desk,
) -> Result<(), AllocError>
    requires flow { job.now.board.now.flow ≡ answers_of job.now.answers.now }
    requires items { job.now.base + job.now.answers.now.plan.graph.strands ≤ 2 ^ 32 }
    requires own { place_of seat.old ≡ job.now.board.now }
    requires near { strand < job.now.answers.now.plan.graph.strands }
    requires held { seat.old.view.holding ≡ Some (hold strand 0 0) }
    ensures own { place_of seat.new ≡ job.now.board.now }
    ensures free { OnOk result (seat.new.view.holding ≡ None) }
    ensures share { seat.new.view.share ≡ seat.old.view.share }
{
    job.gate.enter(job.base + strand);
    gather(job.board, job.answers, seat, strand, &mut desk.reads)?;
    match job
        .answers
        .run(alloc, &mut desk.room, strand, desk.reads.as_slice())?
    {
        StrandOut::Values(values) => {
            hand_in(rt, job, seat, strand, values.as_slice(), &mut desk.mine);
            share_out(rt, job.pool, &mut desk.mine);
        }
        StrandOut::Refused { .. } => job.board.refuse(seat),
    }
    Ok(())
}

// Runs nothing more, and asks until the pool is closed.
fn give_up<R: Wait>(rt: &R, pool: &Pool) {
    for _ in rt.forever() {
        if pool.next(rt).is_none() {
            break;
        }
    }
}

// Whether a strand is below the least refusal that the seat sees.
fn is_wanted<G: Gate>(job: &Job<'_, '_, '_, G>, seat: &mut WorkSeat, strand: u32) -> bool
    requires own { place_of seat.old ≡ job.now.board.now }
    ensures own { place_of seat.new ≡ job.now.board.now }
    ensures held { seat.new.view.holding ≡ seat.old.view.holding }
    ensures share { seat.new.view.share ≡ seat.old.view.share }
{
    match job.board.least(seat) {
        Some(least) => strand < least,
        None => true,
    }
}

// Runs a strand, unless it isn't wanted or another worker has it.
fn attend<R: Wait, G: Gate>(
    rt: &R,
    alloc: Global,
    job: &Job<'_, '_, '_, G>,
    seat: &mut WorkSeat,
    strand: u32,
    desk: &mut Desk,
) -> Result<(), AllocError>
    requires flow { job.now.board.now.flow ≡ answers_of job.now.answers.now }
    requires items { job.now.base + job.now.answers.now.plan.graph.strands ≤ 2 ^ 32 }
    requires own { place_of seat.old ≡ job.now.board.now }
    requires near { strand < job.now.answers.now.plan.graph.strands }
    requires free { seat.old.view.holding ≡ None }
    ensures own { place_of seat.new ≡ job.now.board.now }
    ensures free { OnOk result (seat.new.view.holding ≡ None) }
    ensures share { seat.new.view.share ≡ seat.old.view.share }
{
    if is_wanted(job, seat, strand) && job.board.take(seat, strand) {
        run_taken(rt, alloc, job, seat, strand, desk)
    } else {
        Ok(())
    }
}

// Runs the strand of an item, with the seat at its board. What isn't an item of the run is dropped.
fn attend_item<R: Wait, G: Gate>(
    rt: &R,
    alloc: Global,
    batch: &Batch<'_, '_, '_, G>,
    hand: &mut [WorkSeat],
    item: u32,
    desk: &mut Desk,
) -> Result<(), AllocError>
    requires boards { AreBoards batch.now.tasks.now batch.now.boards.now }
    requires items { AreNumbered batch.now.strands batch.now.tasks.now }
    requires free { IsHand batch.now.boards.now hand.old }
    ensures free { OnOk result (IsHand batch.now.boards.now hand.new) }
    ensures back { IsHandBack batch.now.boards.now hand.new }
{
    let strands = batch.strands;
    let boards = batch.boards;
    if strands == 0 || (item / strands) as usize >= boards.len() {
        return Ok(());
    }
    let at = (item / strands) as usize;
    let strand = item % strands;
    let tasks = batch.tasks;
    let job = Job {
        board: &boards[at],
        answers: &tasks[at],
        base: item - strand,
        pool: batch.pool,
        gate: batch.gate,
    };
    attend(rt, alloc, &job, &mut hand[at], strand, desk)
}

// Whether an item's strand waits for no other. What isn't an item of the run does.
fn is_free<G: Gate>(batch: &Batch<'_, '_, '_, G>, item: u32) -> bool
    requires { AreNumbered batch.now.strands batch.now.tasks.now }
{
    let strands = batch.strands;
    let tasks = batch.tasks;
    if strands == 0 || (item / strands) as usize >= tasks.len() {
        return false;
    }
    let graph = tasks[(item / strands) as usize].graph();
    graph.preds_of(item % strands).is_empty()
}

// Looks at the next items, and keeps those that wait for no other. False where no worker need look
// any more.
fn look_on<R: Wait, G: Gate>(rt: &R, batch: &Batch<'_, '_, '_, G>, mine: &mut VecDeque<u32>) -> bool
    requires { AreNumbered batch.now.strands batch.now.tasks.now }
{
    let items = batch.pool.unseen();
    let are_some = !items.is_empty();
    for item in items {
        if is_free(batch, item) && mine.push_back(item).is_err() {
            batch.pool.put(rt, item);
        }
    }
    are_some
}

// The item that comes next.
fn next<R: Wait, G: Gate>(
    rt: &R,
    batch: &Batch<'_, '_, '_, G>,
    mine: &mut VecDeque<u32>,
) -> Option<u32>
    requires { AreNumbered batch.now.strands batch.now.tasks.now }
{
    for _ in rt.forever() {
        if !mine.is_empty() || !look_on(rt, batch, mine) {
            break;
        }
    }
    match mine.pop_front() {
        Some(item) => Some(item),
        None => batch.pool.next_some(rt, mine),
    }
}

/// Runs strands until the pool is closed: those that this worker made ready before others, in the
/// order in which they became ready. The hand has a seat at each board. Where memory runs out a
/// seat is left with its strand.
pub fn work<R: Wait, G: Gate>(
    rt: &R,
    alloc: Global,
    batch: &Batch<'_, '_, '_, G>,
    hand: &mut [WorkSeat],
)
    requires boards { AreBoards batch.now.tasks.now batch.now.boards.now }
    requires items { AreNumbered batch.now.strands batch.now.tasks.now }
    requires free { IsHand batch.now.boards.now hand.old }
    ensures { IsHandBack batch.now.boards.now hand.new }
{
    batch.pool.enter(rt);
    let mut desk = Desk {
        mine: VecDeque::new(alloc),
        reads: Vec::new(alloc),
        room: Room::new(alloc),
    };
    for _ in rt.forever() {
        let Some(item) = next(rt, batch, &mut desk.mine) else {
            break;
        };
        if attend_item(rt, alloc, batch, hand, item, &mut desk).is_err() {
            give_up(rt, batch.pool);
            break;
        }
    }
}

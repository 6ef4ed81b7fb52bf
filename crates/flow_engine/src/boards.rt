// The boards of a run: each is made with its seats, and in the end closed for its outcome.
ghost use Rattle.std.specs.Prelude.{◌≡◌, ◌≤◌, All, IfOk, None, vec_len};
ghost use Rattle.std.specs.List.{AllZip};
ghost use Rattle.flow_board.specs.Seats.{ListsStarts, first_seat, place_of};
ghost use Rattle.flow_engine.specs.Task.{IsOneThread, answers_of};
ghost use Rattle.flow_engine.specs.Lent.{AreBoards, IsHand, IsHandBack, IsOwn};

use crate::answers::FlowAnswers;
use crate::lend::{deal, empty_hands, take_back};
use crate::sweep::sweep;
use flow_board::{Board, WorkSeat};
use gold_field::Gold;
use std::alloc::{AllocError, Global};
use wit_flow::Outcome;

/// A board for each task, the caller's seats at them, and a hand of seats for each worker.
#[derive(Drop)]
pub struct Boards<'s> {
    pub boards: Vec<Board<'s, FlowAnswers<'s>>>,
    pub own: Vec<WorkSeat>,
    pub hands: Vec<Vec<WorkSeat>>,
}

// The start cells with their values.
fn pairs(alloc: Global, answers: &FlowAnswers<'_>) -> Result<Vec<(u32, Gold)>, AllocError>
    ensures { IfOk result (λ v. ListsStarts (answers_of answers.now) v.items) }
{
    answers.facts();
    let cells = answers.flow().starts.as_slice();
    let values = answers.start();
    let mut pairs = Vec::with_capacity(alloc, cells.len())?;
    for i in 0..cells.len() {
        pairs.push((cells[i], values[i]))?;
    }
    Ok(pairs)
}

// The board of one task, and the seat that has all of it.
fn board_of<'s>(
    alloc: Global,
    answers: &FlowAnswers<'s>,
) -> Result<(Board<'s, FlowAnswers<'s>>, WorkSeat), AllocError>
    ensures flow { IfOk result (λ made. made.0.flow ≡ answers_of answers.now) }
    ensures seat { IfOk result (λ made. made.1 ≡ first_seat made.0) }
{
    answers.facts();
    let start = pairs(alloc, answers)?;
    Board::make(alloc, answers.graph(), start.as_slice(), answers.again())
}

/// Makes the boards of tasks, with hands for so many workers.
pub fn make_boards<'s>(
    alloc: Global,
    tasks: &[FlowAnswers<'s>],
    workers: u32,
) -> Result<Boards<'s>, AllocError>
    requires few { workers ≤ 64 }
    ensures boards { IfOk result (λ made. AreBoards tasks.now made.boards.items) }
    ensures own { IfOk result (λ made. AllZip (IsOwn workers) made.boards.items made.own.items) }
    ensures hands { IfOk result
        (λ made. All (λ h. IsHand made.boards.items h.items) made.hands.items) }
    ensures each { IfOk result (λ made. vec_len made.hands ≡ workers) }
{
    let mut boards = Vec::with_capacity(alloc, tasks.len())?;
    let mut own = Vec::with_capacity(alloc, tasks.len())?;
    let mut hands = empty_hands(alloc, workers, tasks.len())?;
    for answers in tasks {
        let (board, mut seat) = board_of(alloc, answers)?;
        hands = deal(alloc, boards.as_slice(), &board, &mut seat, hands)?;
        boards.push(board)?;
        own.push(seat)?;
    }
    Ok(Boards { boards, own, hands })
}

// The outcome of a task, once the seats of its board are joined into this one.
fn close_board(
    alloc: Global,
    answers: &FlowAnswers<'_>,
    board: Board<'_, FlowAnswers<'_>>,
    seat: WorkSeat,
) -> Result<Outcome, AllocError>
    requires flow { board.flow ≡ answers_of answers.now }
    requires own { place_of seat ≡ board }
    requires free { seat.view.holding ≡ None }
    requires whole { seat.view.share ≡ 65 }
    ensures { IfOk result (IsOneThread answers.now) }
{
    let words = board.close(seat);
    sweep(alloc, answers, &words)
}

/// Closes the boards, the last one first. The outcomes of their tasks, in the tasks' order. Want of
/// memory where a seat still holds a strand.
pub fn close_boards(
    alloc: Global,
    tasks: &[FlowAnswers<'_>],
    mut boards: Vec<Board<'_, FlowAnswers<'_>>>,
    mut own: Vec<WorkSeat>,
    mut hands: Vec<Vec<WorkSeat>>,
) -> Result<Vec<Outcome>, AllocError>
    requires boards { AreBoards tasks.now boards.items }
    requires own { AllZip (IsOwn (vec_len hands)) boards.items own.items }
    requires hands { All (λ h. IsHandBack boards.items h.items) hands.items }
    ensures { IfOk result (λ outcomes. AllZip IsOneThread tasks.now outcomes.items) }
{
    let mut outcomes = Vec::with_capacity(alloc, tasks.len())?;
    while let Some(board) = boards.pop() {
        let Some(mut seat) = own.pop() else {
            unreachable!()
        };
        hands = take_back(alloc, boards.as_slice(), &board, &mut seat, hands)?;
        let outcome = close_board(alloc, &tasks[boards.len()], board, seat)?;
        outcomes.push(outcome)?;
    }
    outcomes.reverse();
    Ok(outcomes)
}

// Cutting a board's seat for the workers' hands, handing these out, and taking the seats back.
ghost use Rattle.std.specs.Prelude.{◌≡◌, ◌+◌, ◌∷◌, ◌++◌, [], ◌≤◌, All};
ghost use Rattle.std.specs.Prelude.{None, IfOk, vec_len};
ghost use Rattle.flow_board.specs.Seats.{place_of};
ghost use Rattle.flow_engine.specs.Task.{AreNumbered};
ghost use Rattle.flow_engine.specs.Lent.{AreBoards, IsBack, IsFresh, IsHand, IsHandBack};

use crate::answers::FlowAnswers;
use crate::gate::Gate;
use crate::work::{Batch, work};
use flow_board::{Board, WorkSeat};
use std::alloc::{AllocError, Global};
use std::sync::Wait;
use std::thread;
use std::thread::Threads;

// A hand has room for at least so many seats, so that no other worker's seats lie near its own: a
// seat changes at each step, and seats side by side in memory would slow each other.
const APART: usize = 16;

/// A hand without seats for each worker.
pub fn empty_hands(
    alloc: Global,
    workers: u32,
    boards: usize,
) -> Result<Vec<Vec<WorkSeat>>, AllocError>
    ensures hands { IfOk result (λ hands. All (λ h. IsHand [] h.items) hands.items) }
    ensures each { IfOk result (λ hands. vec_len hands ≡ workers) }
{
    let mut hands = Vec::with_capacity(alloc, workers as usize)?;
    for _ in 0..workers {
        let hand = Vec::with_capacity(alloc, boards.max(APART))?;
        hands.push(hand)?;
    }
    Ok(hands)
}

// Cuts a worker's seat from the caller's.
fn cut_seat(board: &Board<'_, FlowAnswers<'_>>, seat: &mut WorkSeat) -> WorkSeat
    requires own { place_of seat.old ≡ board.now }
    requires free { seat.old.view.holding ≡ None }
    requires many { 2 ≤ seat.old.view.share }
    ensures own { place_of seat.new ≡ board.now }
    ensures free { seat.new.view.holding ≡ None }
    ensures share { seat.new.view.share + 1 ≡ seat.old.view.share }
    ensures fresh { IsFresh board.now result }
{
    board.split(seat)
}

// A hand at these boards, with a seat at one more.
fn with_seat(
    boards: &[Board<'_, FlowAnswers<'_>>],
    board: &Board<'_, FlowAnswers<'_>>,
    mut hand: Vec<WorkSeat>,
    seat: WorkSeat,
) -> Result<Vec<WorkSeat>, AllocError>
    requires hand { IsHand boards.now hand.items }
    requires fresh { IsFresh board.now seat }
    ensures { IfOk result (λ more. IsHand (boards.now ++ board.now ∷ []) more.items) }
{
    hand.push(seat)?;
    Ok(hand)
}

// A hand without its last seat, and that seat.
fn without_seat(
    boards: &[Board<'_, FlowAnswers<'_>>],
    board: &Board<'_, FlowAnswers<'_>>,
    mut hand: Vec<WorkSeat>,
) -> (Vec<WorkSeat>, WorkSeat)
    requires { IsHandBack (boards.now ++ board.now ∷ []) hand.items }
    ensures hand { IsHandBack boards.now result.0.items }
    ensures seat { IsBack board.now result.1 }
{
    let Some(seat) = hand.pop() else {
        unreachable!()
    };
    (hand, seat)
}

/// Adds a seat at the board to each of the hands, which have seats at these boards; the seats are
/// cut from the caller's.
pub fn deal(
    alloc: Global,
    boards: &[Board<'_, FlowAnswers<'_>>],
    board: &Board<'_, FlowAnswers<'_>>,
    seat: &mut WorkSeat,
    mut hands: Vec<Vec<WorkSeat>>,
) -> Result<Vec<Vec<WorkSeat>>, AllocError>
    requires own { place_of seat.old ≡ board.now }
    requires free { seat.old.view.holding ≡ None }
    requires whole { seat.old.view.share ≡ 65 }
    requires few { vec_len hands ≤ 64 }
    requires hands { All (λ h. IsHand boards.now h.items) hands.items }
    ensures own { place_of seat.new ≡ board.now }
    ensures free { seat.new.view.holding ≡ None }
    ensures share { IfOk result (λ _. seat.new.view.share + vec_len hands ≡ 65) }
    ensures hands { IfOk result
        (λ dealt. All (λ h. IsHand (boards.now ++ board.now ∷ []) h.items) dealt.items) }
    ensures each { IfOk result (λ dealt. vec_len dealt ≡ vec_len hands) }
{
    let mut dealt = Vec::with_capacity(alloc, hands.len())?;
    while let Some(hand) = hands.pop() {
        let cut = cut_seat(board, seat);
        let more = with_seat(boards, board, hand, cut)?;
        dealt.push(more)?;
    }
    Ok(dealt)
}

// Works with a hand, and gives it back.
fn work_with<R: Wait, G: Gate>(
    rt: &R,
    alloc: Global,
    batch: &Batch<'_, '_, '_, G>,
    mut hand: Vec<WorkSeat>,
) -> Vec<WorkSeat>
    requires boards { AreBoards batch.now.tasks.now batch.now.boards.now }
    requires items { AreNumbered batch.now.strands batch.now.tasks.now }
    requires free { IsHand batch.now.boards.now hand.items }
    ensures { IsHandBack batch.now.boards.now result.items }
{
    work(rt, alloc, batch, hand.as_mut_slice());
    hand
}

/// Lets a worker run with each of the hands, and gives them back.
pub fn lend_all<R: Threads + Wait + Sync, G: Gate>(
    rt: &R,
    alloc: Global,
    batch: &Batch<'_, '_, '_, G>,
    hands: Vec<Vec<WorkSeat>>,
) -> Result<Vec<Vec<WorkSeat>>, AllocError>
    requires boards { AreBoards batch.now.tasks.now batch.now.boards.now }
    requires items { AreNumbered batch.now.strands batch.now.tasks.now }
    requires hands { All (λ h. IsHand batch.now.boards.now h.items) hands.items }
    ensures hands { IfOk result
        (λ back. All (λ h. IsHandBack batch.now.boards.now h.items) back.items) }
    ensures each { IfOk result (λ back. vec_len back ≡ vec_len hands) }
{
    thread::map_vec(
        rt,
        hands,
        &|hand: Vec<WorkSeat>|
            requires { AreBoards batch.now.tasks.now batch.now.boards.now
                × AreNumbered batch.now.strands batch.now.tasks.now
                × IsHand batch.now.boards.now hand.items }
            ensures { IsHandBack batch.entry.now.boards.now result.items }
        { work_with(rt, alloc, batch, hand) },
    )
}

/// Takes the seat at the board from each of the hands, which have seats at it and at these boards
/// before it. Want of memory where a seat still holds a strand, because its worker found none.
pub fn take_back(
    alloc: Global,
    boards: &[Board<'_, FlowAnswers<'_>>],
    board: &Board<'_, FlowAnswers<'_>>,
    seat: &mut WorkSeat,
    mut hands: Vec<Vec<WorkSeat>>,
) -> Result<Vec<Vec<WorkSeat>>, AllocError>
    requires own { place_of seat.old ≡ board.now }
    requires free { seat.old.view.holding ≡ None }
    requires hands { All (λ h. IsHandBack (boards.now ++ board.now ∷ []) h.items) hands.items }
    ensures own { place_of seat.new ≡ board.now }
    ensures free { seat.new.view.holding ≡ None }
    ensures share { IfOk result (λ _.
        seat.new.view.share ≡ seat.old.view.share + vec_len hands) }
    ensures hands { IfOk result (λ rest. All (λ h. IsHandBack boards.now h.items) rest.items) }
    ensures each { IfOk result (λ rest. vec_len rest ≡ vec_len hands) }
{
    let mut rest = Vec::with_capacity(alloc, hands.len())?;
    while let Some(hand) = hands.pop() {
        let (fewer, other) = without_seat(boards, board, hand);
        if !other.is_idle() {
            return Err(AllocError);
        }
        board.join(seat, other);
        rest.push(fewer)?;
    }
    Ok(rest)
}

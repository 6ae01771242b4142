//! Pieces that several workers claim, and their values in order.
ghost use Rattle.std.specs.Prelude.{◌≡◌, ℕ, ◌+◌, ◌*◌, ◌<◌, min, length, vec_len, slice_index_or, All, IfOk, IsSomeAnd, None};
ghost use Rattle.ch_work.specs.Claims.{numbers, IsDone, IsHand, HasWorked, AreGathered};
ghost use Rattle.ch_work.specs.Counts.{times};
ghost use Rattle.ch_work.specs.Passes.{view_of, IsPassOf};
ghost use Rattle.ch_work.specs.Pieces.{pieces_of, AreValues};
ghost use Rattle.ch_work.specs.Steps.{nothing_known};

use crate::board::{Board, Pass};
use crate::done::Done;
use crate::gate::Gate;
use crate::job::RoomJob;
use crate::work::Work;
use std::alloc::{AllocError, Global};
use std::thread;
use std::thread::Threads;

/// Pairs each pass with a room while there are rooms, and the other passes with none.
pub(crate) fn hands_of<G: Gate, J: RoomJob>(
    alloc: Global,
    work: &Work<'_, G, J>,
    board: &Board,
    passes: Vec<Pass>,
    rooms: &mut Vec<J::Room>,
) -> Result<Vec<(Pass, Option<J::Room>)>, AllocError>
    requires passes { All (λ pass. IsPassOf board.now pass × (view_of pass ≡ nothing_known (pieces_of work.now.items work.now.piece) 1)) passes.items }
    requires clean { All (J.clean work.now.job.now) rooms.old.items }
    ensures len { IfOk result (λ all. vec_len all ≡ vec_len passes) }
    ensures each { IfOk result (λ all. All (IsHand (J.clean work.now.job.now) work.now.items work.now.piece board.now) all.items) }
    ensures clean { All (J.clean work.now.job.now) rooms.new.items }
{
    let mut hands = Vec::with_capacity(alloc, passes.len())?;
    for pass in passes {
        hands.push((pass, rooms.pop()))?;
    }
    Ok(hands)
}

/// Returns the pass of each worker and what it did, in the order of the passes.
pub(crate) fn worked_off_by_all<R: Threads + Sync, G: Gate, J: RoomJob>(
    rt: &R,
    alloc: Global,
    work: &Work<'_, G, J>,
    board: &Board,
    hands: Vec<(Pass, Option<J::Room>)>,
) -> Result<Vec<(Pass, Result<(J::Room, Vec<Done<J::Out>>), AllocError>)>, AllocError>
    requires { All (IsHand (J.clean work.now.job.now) work.now.items work.now.piece board.now) hands.items }
    ensures len { IfOk result (λ all. vec_len all ≡ vec_len hands) }
    ensures each { IfOk result (λ all. (i : ℕ) (d : _) → i < vec_len hands →
        HasWorked (J.meaning work.now.job.now) (J.clean work.now.job.now) work.now.items work.now.piece board.now (slice_index_or all.items i d).0 (slice_index_or all.items i d).1) }
{
    let by_hand = |hand: (Pass, Option<J::Room>)| -> (
        Pass,
        Result<(J::Room, Vec<Done<J::Out>>), AllocError>,
    )
        requires { IsHand (J.clean work.now.job.now) work.now.items work.now.piece board.now hand }
        ensures { HasWorked (J.meaning work.entry.now.job.now) (J.clean work.entry.now.job.now) work.entry.now.items work.entry.now.piece board.entry.now result.0 result.1 }
    {
        let (mut pass, given) = hand;
        let done = work.claimed(alloc, board, &mut pass, given);
        (pass, done)
    };
    thread::map_vec(rt, hands, &by_hand)
}

/// Returns all passes, and the pieces that they did. The rooms go back to `rooms`, up to the first worker
/// that was refused memory.
pub(crate) fn gathered<G: Gate, J: RoomJob>(
    alloc: Global,
    work: &Work<'_, G, J>,
    board: &Board,
    worked: Vec<(Pass, Result<(J::Room, Vec<Done<J::Out>>), AllocError>)>,
    rooms: &mut Vec<J::Room>,
) -> Result<(Vec<Pass>, Vec<Done<J::Out>>), AllocError>
    requires each { (i : ℕ) (d : _) → i < vec_len worked →
        HasWorked (J.meaning work.now.job.now) (J.clean work.now.job.now) work.now.items work.now.piece board.now (slice_index_or worked.items i d).0 (slice_index_or worked.items i d).1 }
    requires clean { All (J.clean work.now.job.now) rooms.old.items }
    ensures len { IfOk result (λ all. vec_len all.0 ≡ vec_len worked) }
    ensures all { IfOk result (λ all. AreGathered (J.meaning work.now.job.now) work.now.items work.now.piece board.now all.0.items all.1.items) }
    ensures clean { All (J.clean work.now.job.now) rooms.new.items }
{
    let mut passes = Vec::with_capacity(alloc, worked.len())?;
    let mut all = Vec::with_capacity(alloc, work.count() as usize)?;
    for (pass, outcome) in worked {
        let (room, mut done) = outcome?;
        all.append(&mut done)?;
        passes.push(pass)?;
        rooms.push(room)?;
    }
    Ok((passes, all))
}

/// Returns the values of the pieces, in the order of their numbers.
pub(crate) fn in_order<G: Gate, J: RoomJob>(
    alloc: Global,
    work: &Work<'_, G, J>,
    done: Vec<Done<J::Out>>,
) -> Result<Vec<J::Out>, AllocError>
    requires each { All (IsDone (J.meaning work.now.job.now) work.now.items work.now.piece) done.items }
    requires every { (number : ℕ) → number < pieces_of work.now.items work.now.piece → 0 < times number (numbers done.items) }
    ensures { IfOk result (λ v. AreValues (J.meaning work.now.job.now) work.now.items work.now.piece 0 (pieces_of work.now.items work.now.piece) v.items) }
{
    let places = places_of(alloc, work, done)?;
    let mut values = Vec::with_capacity(alloc, places.len())?;
    for place in places {
        let Some(value) = place else { unreachable!() };
        values.push(value)?;
    }
    Ok(values)
}

/// Puts each value at the place of its number.
fn places_of<G: Gate, J: RoomJob>(
    alloc: Global,
    work: &Work<'_, G, J>,
    done: Vec<Done<J::Out>>,
) -> Result<Vec<Option<J::Out>>, AllocError>
    requires each { All (IsDone (J.meaning work.now.job.now) work.now.items work.now.piece) done.items }
    requires every { (number : ℕ) → number < pieces_of work.now.items work.now.piece → 0 < times number (numbers done.items) }
    ensures len { IfOk result (λ places. length places.items ≡ pieces_of work.now.items work.now.piece) }
    ensures each { IfOk result (λ places. (k : ℕ) (d : _) → k < pieces_of work.now.items work.now.piece →
        IsSomeAnd (slice_index_or places.items k d) (λ x. J.meaning work.now.job.now (k * work.now.piece) (min (k * work.now.piece + work.now.piece) work.now.items) x)) }
{
    let mut places = no_values::<J::Out>(alloc, work.count())?;
    for Done { number, value } in done {
        places[number as usize] = Some(value);
    }
    Ok(places)
}

/// Returns `count` empty places.
fn no_values<X: Drop>(alloc: Global, count: u32) -> Result<Vec<Option<X>>, AllocError>
    ensures len { IfOk result (λ places. length places.items ≡ count) }
    ensures none { IfOk result (λ places. All (λ place. place ≡ None) places.items) }
{
    let mut places = Vec::with_capacity(alloc, count as usize)?;
    for _ in 0..count {
        places.push(None)?;
    }
    Ok(places)
}

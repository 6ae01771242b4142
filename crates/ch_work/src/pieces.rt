//! Jobs done in pieces, by one worker or several.
ghost use Rattle.std.specs.Prelude.{◌≡◌, All, IfOk};
ghost use Rattle.ch_work.specs.Pieces.{pieces_of, AreValues};
ghost use Rattle.ch_work.specs.Plan.{IsWithinLimits};

use crate::board::Board;
use crate::crew::Crew;
use crate::gate::Gate;
use crate::job::{Job, RoomJob, WithoutRoom};
use crate::shared::{gathered, hands_of, in_order, worked_off_by_all};
use crate::work::Work;
use std::alloc::AllocError;
use std::thread::Threads;

/// Returns the values of all pieces of a job of `items` items, in the order of the pieces. The order does
/// not depend on who did them.
///
/// Piece k begins at item `k * plan.piece()`. It has `plan.piece()` items, or the rest if fewer are left.
///
/// There are `plan.workers()` workers, or one for each piece if there are fewer pieces. Each worker claims
/// the next piece that no other has claimed, until none is left. A single worker is the caller itself, and
/// no thread is started. A worker passes the gate with a piece's number before it does that piece.
///
/// # Errors
/// `AllocError` if the call or any piece is refused memory. A piece that is refused memory ends its worker,
/// and the others go on. All workers are joined before the call returns.
pub fn run_pieces<R: Threads + Sync, G: Gate, J: Job>(
    crew: &Crew<'_, R, G>,
    items: u32,
    job: &J,
) -> Result<Vec<J::Out>, AllocError>
    requires { items ≡ J.size job.now }
    ensures { IfOk result (λ v. AreValues (J.meaning job.now) items crew.now.plan.piece 0 (pieces_of items crew.now.plan.piece) v.items) }
{
    let mut rooms = Vec::new(crew.alloc);
    run_pieces_in(crew, items, &mut rooms, &WithoutRoom { job })
}

/// Like [`run_pieces`], for a job whose pieces are done in a room, which stays in `rooms` for further calls.
///
/// Each worker takes one of the rooms, and makes a new one only if none is left. After `Ok` all rooms are
/// in `rooms` and clean, the new ones too. A further call with as many workers makes none.
///
/// # Errors
/// `AllocError` if the call, a room or any piece is refused memory. All workers are joined before it
/// returns. Some rooms may be gone then; those that are left are clean.
pub fn run_pieces_in<R: Threads + Sync, G: Gate, J: RoomJob>(
    crew: &Crew<'_, R, G>,
    items: u32,
    rooms: &mut Vec<J::Room>,
    job: &J,
) -> Result<Vec<J::Out>, AllocError>
    requires size { items ≡ J.size job.now }
    requires clean { All (J.clean job.now) rooms.old.items }
    ensures values { IfOk result (λ v. AreValues (J.meaning job.now) items crew.now.plan.piece 0 (pieces_of items crew.now.plan.piece) v.items) }
    ensures clean { All (J.clean job.now) rooms.new.items }
    ensures limits { IsWithinLimits crew.now.plan }
{
    let work = Work {
        gate: crew.gate,
        job,
        items,
        piece: crew.plan.piece(),
    };
    let workers = crew.plan.workers_for(work.count());
    if workers == 1 {
        return work.values(crew.alloc, rooms);
    }
    let (board, passes) = Board::new(crew.alloc, work.count(), 0, workers)?;
    let hands = hands_of(crew.alloc, &work, &board, passes, rooms)?;
    let worked = worked_off_by_all(crew.rt, crew.alloc, &work, &board, hands)?;
    let (passes, done) = gathered(crew.alloc, &work, &board, worked, rooms)?;
    board.close(passes)?;
    in_order(crew.alloc, &work, done)
}

//! Jobs that lower the weights in the cells of a board.
ghost use Rattle.std.specs.Prelude.{ℕ, ◌≡◌, ◌<◌, ◌≤◌, IfOk, OnOk, length, vec_len, slice_index_or, All};
ghost use Rattle.ch_work.specs.declared.limits.TheConstants.{MOST_CELLS};
ghost use Rattle.ch_work.specs.Owed.{OffersOwed, Covers, IsLeastOwed, HasPaidOff, HandsBack};
ghost use Rattle.ch_work.specs.Passes.{view_of, size_of, IsPassOf};
ghost use Rattle.ch_work.specs.Pieces.{pieces_of};
ghost use Rattle.ch_work.specs.Steps.{nothing_known};

use crate::board::{Board, Pass};
use crate::crew::Crew;
use crate::gate::Gate;
use crate::paying::Payments;
use std::alloc::{AllocError, Global};
use std::thread;
use std::thread::Threads;

/// Work on ranges of items, where each range owes weights to the cells of a board.
pub trait CellJob: Sync {
    /// The number of items.
    ghost size: { Self → ℕ };

    /// The number of cells.
    ghost cells: { Self → ℕ };

    /// What a range owes: a relation between its first number, the number after its last, a cell, and a
    /// weight.
    ghost owes: { Self → ℕ → ℕ → ℕ → ℕ → Type 0 };

    /// Pays what the items `from..to` owe.
    ///
    /// It claims nothing, and offers only weights that are owed. After `Ok`, the pass knows at each cell a
    /// weight that is at most each weight owed there. [`pay`](crate::pay) does this for one weight.
    ///
    /// # Errors
    /// `AllocError` if there is no memory.
    fn piece(
        &self,
        alloc: Global,
        board: &Board,
        pass: &mut Pass,
        from: u32,
        to: u32,
    ) -> Result<(), AllocError>
        requires order { from ≤ to }
        requires inside { to ≤ size self.now }
        requires board { IsPassOf board.now pass.old }
        requires cells { (size_of board.now).cells ≡ cells self.now }
        ensures board { IsPassOf board.now pass.new }
        ensures offers { OffersOwed (owes self.now from to) (view_of pass.old) (view_of pass.new) }
        ensures covers { OnOk result (Covers (owes self.now from to) (view_of pass.new)) };
}

/// Returns for each cell the least weight that the pieces of a job owe to it, or `None` if they owe it
/// nothing. There are at most 2^22 cells.
///
/// Workers claim the pieces and pass the gate as in [`run_pieces`](crate::run_pieces). A single worker is
/// the caller itself.
///
/// # Errors
/// `AllocError` if the call or any piece is refused memory. All workers are joined before it returns.
pub fn run_cells<R: Threads + Sync, G: Gate, J: CellJob>(
    crew: &Crew<'_, R, G>,
    items: u32,
    cells: u32,
    job: &J,
) -> Result<Vec<Option<u64>>, AllocError>
    requires items { items ≡ J.size job.now }
    requires cells { (cells ≡ J.cells job.now) × (cells ≤ MOST_CELLS) }
    ensures count { IfOk result (λ least. length least.items ≡ cells) }
    ensures least { IfOk result (λ least. (cell : ℕ) (d : _) → cell < cells → IsLeastOwed (J.owes job.now) items crew.now.plan.piece cell (slice_index_or least.items cell d)) }
{
    let piece = crew.plan.piece();
    let pieces = items.div_ceil(piece);
    let workers = crew.plan.workers_for(pieces);
    let (board, passes) = Board::new(crew.alloc, pieces, cells, workers)?;
    let payments = Payments {
        gate: crew.gate,
        job,
        board: &board,
        items,
        piece,
    };
    let worked = paid_by_all(crew.rt, &payments, crew.alloc, passes)?;
    let passes = all_paid(crew.alloc, &payments, worked)?;
    board.close(passes)
}

/// Returns what each worker did, in the order of the passes.
fn paid_by_all<R: Threads + Sync, G: Gate, J: CellJob>(
    rt: &R,
    payments: &Payments<'_, G, J>,
    alloc: Global,
    passes: Vec<Pass>,
) -> Result<Vec<(Pass, Result<(), AllocError>)>, AllocError>
    requires { All (λ pass. IsPassOf payments.now.board.now pass × (view_of pass ≡ nothing_known (pieces_of payments.now.items payments.now.piece) 1)) passes.items }
    ensures len { IfOk result (λ all. vec_len all ≡ vec_len passes) }
    ensures each { IfOk result (λ all. (i : ℕ) (d : _) → i < vec_len passes →
        HandsBack (J.owes payments.now.job.now) payments.now.items payments.now.piece payments.now.board.now (slice_index_or all.items i d).0 (slice_index_or all.items i d).1) }
{
    let by_pass = |pass: Pass| -> (Pass, Result<(), AllocError>)
        requires { IsPassOf payments.now.board.now pass × (view_of pass ≡ nothing_known (pieces_of payments.now.items payments.now.piece) 1) }
        ensures { HandsBack (J.owes payments.entry.now.job.now) payments.entry.now.items payments.entry.now.piece payments.entry.now.board.now result.0 result.1 }
    { payments.paid_off(alloc, pass) };
    thread::map_vec(rt, passes, &by_pass)
}

/// Returns all passes, or an error if a worker was refused memory.
fn all_paid<G: Gate, J: CellJob>(
    alloc: Global,
    payments: &Payments<'_, G, J>,
    worked: Vec<(Pass, Result<(), AllocError>)>,
) -> Result<Vec<Pass>, AllocError>
    requires { (i : ℕ) (d : _) → i < vec_len worked →
        HandsBack (J.owes payments.now.job.now) payments.now.items payments.now.piece payments.now.board.now (slice_index_or worked.items i d).0 (slice_index_or worked.items i d).1 }
    ensures len { IfOk result (λ passes. vec_len passes ≡ vec_len worked) }
    ensures each { IfOk result (λ passes. All (HasPaidOff (J.owes payments.now.job.now) payments.now.items payments.now.piece payments.now.board.now) passes.items) }
{
    let mut passes = Vec::with_capacity(alloc, worked.len())?;
    for (pass, outcome) in worked {
        outcome?;
        passes.push(pass)?;
    }
    Ok(passes)
}

//! Paying the weights that are owed to the cells of a board.
ghost use Rattle.std.specs.Prelude.{◌≡◌, ◌*◌, ◌<◌, ◌≤◌, OnOk};
ghost use Rattle.ch_work.specs.declared.limits.TheConstants.{MOST_OFFER};
ghost use Rattle.ch_work.specs.Owed.{OffersOwed, Covers, HasPaid, owed_by, HandsBack};
ghost use Rattle.ch_work.specs.Passes.{view_of, size_of, IsPassOf};
ghost use Rattle.ch_work.specs.Pieces.{pieces_of};
ghost use Rattle.ch_work.specs.Steps.{nothing_known};

use crate::board::{Board, Pass};
use crate::cells::CellJob;
use crate::gate::Gate;
use std::alloc::{AllocError, Global};

/// Pays one weight of at most 2^61 that is owed to a cell. It offers the weight, unless the cell already
/// holds a weight that is no greater.
pub fn pay(board: &Board, pass: &mut Pass, cell: u32, weight: u64)
    requires board { IsPassOf board.now pass.old }
    requires cell { cell < (size_of board.now).cells }
    requires weight { weight ≤ MOST_OFFER }
    ensures board { IsPassOf board.now pass.new }
    ensures paid { HasPaid (λ at x. (at ≡ cell) × (x ≡ weight)) (view_of pass.old) (view_of pass.new) }
{
    if let Some(seen) = board.look(pass, cell) {
        if seen <= weight {
            return;
        }
    }
    board.offer(pass, cell, weight);
}

/// A job cut into pieces of `piece` items, the gate that its workers pass, and the board whose cells they lower.
#[derive(Drop)]
pub(crate) struct Payments<'a, G, J: CellJob> {
    pub(crate) gate: &'a G,
    pub(crate) job: &'a J,
    pub(crate) board: &'a Board,
    pub(crate) items: u32,
    pub(crate) piece: u32,
    ghost size: { items ≡ J.size job.now },
    ghost cells: { (size_of board.now).cells ≡ J.cells job.now },
    ghost some_item: { 0 < piece },
}

impl<'a, G: Gate, J: CellJob> Payments<'a, G, J> {
    /// Pays what the pieces of one worker owe. Returns the worker's pass and the outcome.
    pub(crate) fn paid_off(&self, alloc: Global, pass: Pass) -> (Pass, Result<(), AllocError>)
        requires board { IsPassOf self.now.board.now pass }
        requires fresh { view_of pass ≡ nothing_known (pieces_of self.now.items self.now.piece) 1 }
        ensures { HandsBack (J.owes self.now.job.now) self.now.items self.now.piece self.now.board.now result.0 result.1 }
    {
        let mut pass = pass;
        let outcome = self.pay_off(alloc, &mut pass);
        (pass, outcome)
    }

    /// Claims pieces until none is left, and pays what they owe.
    fn pay_off(&self, alloc: Global, pass: &mut Pass) -> Result<(), AllocError>
        requires board { IsPassOf self.now.board.now pass.old }
        requires fresh { view_of pass.old ≡ nothing_known (pieces_of self.now.items self.now.piece) 1 }
        ensures { HandsBack (J.owes self.now.job.now) self.now.items self.now.piece self.now.board.now pass.new result }
    {
        // One more than the last claimed number, or 0. It rises, and that is why the loop ends.
        let mut next = 0;
        while let Some(number) = self.board.claim(pass) {
            self.pay_piece(alloc, pass, number)?;
            next = number + 1;
        }
        Ok(())
    }

    /// Passes the gate, and then pays what the piece of this number owes.
    fn pay_piece(&self, alloc: Global, pass: &mut Pass, number: u32) -> Result<(), AllocError>
        requires inside { number * self.now.piece < self.now.items }
        requires board { IsPassOf self.now.board.now pass.old }
        ensures board { IsPassOf self.now.board.now pass.new }
        ensures offers { OffersOwed (owed_by (J.owes self.now.job.now) self.now.items self.now.piece number) (view_of pass.old) (view_of pass.new) }
        ensures covers { OnOk result (Covers (owed_by (J.owes self.now.job.now) self.now.items self.now.piece number) (view_of pass.new)) }
    {
        self.gate.pass(number);
        let from = number * self.piece;
        let to = from + self.piece.min(self.items - from);
        self.job.piece(alloc, self.board, pass, from, to)
    }
}

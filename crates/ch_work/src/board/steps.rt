//! The steps of a pass.
ghost use Rattle.std.specs.Prelude.{None, ◌↔◌, ◌≡◌, ℕ, ◌<◌, ◌≤◌, IfSome, IfNone};
ghost use Rattle.ch_work.specs.declared.limits.TheConstants.{MOST_OFFER};
ghost use Rattle.ch_work.specs.Counts.{times};
ghost use Rattle.ch_work.specs.Passes.{view_of, size_of, IsPassOf, HasEnded};
ghost use Rattle.ch_work.specs.Steps.{with_claim, with_offer, with_look, Knows};

use crate::board::rule::{Claim, Look, Offer};
use crate::board::{Board, Pass};

impl Board {
    /// Claims the next piece and returns its number, or `None` if all pieces are claimed. After `None` the
    /// pass has ended; each later call returns `None` without a step on the board.
    pub fn claim(&self, pass: &mut Pass) -> Option<u32>
        requires { IsPassOf self.now pass.old }
        ensures board { IsPassOf self.now pass.new }
        ensures ended { HasEnded pass.old → result ≡ None }
        ensures some { IfSome result (λ number. (number < (view_of pass.old).pieces)
            × (view_of pass.new ≡ with_claim (view_of pass.old) number)
            × ((earlier : ℕ) → 0 < times earlier (view_of pass.old).claims → earlier < number)) }
        ensures none { IfNone result (HasEnded pass.new
            × ((view_of pass.new).claims ≡ (view_of pass.old).claims)
            × ((view_of pass.new).offers ≡ (view_of pass.old).offers)
            × ((view_of pass.new).shown ≡ (view_of pass.old).shown)) }
    {
        if pass.ended {
            return None;
        }
        let found = self.table.shared.fetch_add::<Claim>(&mut pass.seat, 0, 1);
        if found < u64::from(pass.pieces) {
            Some(found as u32)
        } else {
            pass.ended = true;
            None
        }
    }

    /// Offers a weight within the [`limits`](crate::limits) to a cell. The cell keeps the lesser of this
    /// weight and its own.
    pub fn offer(&self, pass: &mut Pass, cell: u32, weight: u64)
        requires board { IsPassOf self.now pass.old }
        requires cell { cell < (size_of self.now).cells }
        requires weight { weight ≤ MOST_OFFER }
        ensures board { IsPassOf self.now pass.new }
        ensures ended { HasEnded pass.new ↔ HasEnded pass.old }
        ensures view { view_of pass.new ≡ with_offer (view_of pass.old) cell weight }
    {
        self.table
            .shared
            .fetch_min::<Offer>(&mut pass.seat, cell as usize + 1, weight);
    }

    /// Returns the weight of a cell, or `None` if nothing has been offered to it yet.
    pub fn look(&self, pass: &mut Pass, cell: u32) -> Option<u64>
        requires board { IsPassOf self.now pass.old }
        requires cell { cell < (size_of self.now).cells }
        ensures board { IsPassOf self.now pass.new }
        ensures ended { HasEnded pass.new ↔ HasEnded pass.old }
        ensures some { IfSome result (λ weight. (weight ≤ MOST_OFFER)
            × (view_of pass.new ≡ with_look (view_of pass.old) cell weight)
            × ((known : ℕ) → Knows (view_of pass.old) cell known → weight ≤ known)) }
        ensures none { IfNone result ((view_of pass.new ≡ view_of pass.old)
            × ((known : ℕ) → ¬ Knows (view_of pass.old) cell known)) }
    {
        let found = self
            .table
            .shared
            .load::<Look>(&mut pass.seat, cell as usize + 1);
        if found == u64::MAX { None } else { Some(found) }
    }
}

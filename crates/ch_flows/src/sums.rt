//! Demands of cells are held at two branches, or are added to the legs of a way that was searched.
ghost use Rattle.std.specs.Prelude.{◌≡◌, ◌+◌, ◌*◌, ◌<◌, ℕ, length, All, OnErr, OnOk};
ghost use Rattle.ch_flows.specs.Cells.{AreSums, summed_with};
ghost use Rattle.ch_flows.specs.Found.{AreWithin, legs_of};
ghost use Rattle.ch_flows.specs.Gathering.{IsOver};
ghost use Rattle.ch_flows.specs.Handing.{shares_of};

use crate::gathering::{Branch, hold};
use crate::handing::{TooLarge, add_along};
use crate::meeting::Found;

/// What the demands of a table are added to.
#[derive(Drop)]
pub(crate) struct Sums {
    /// What was added to each leg.
    pub(crate) legs: Vec<u64>,
    /// What is held at each branch of the row. Between rows this is nothing.
    pub(crate) row: Vec<u64>,
    /// What is held at each branch of the targets.
    pub(crate) columns: Vec<u64>,
}

impl Sums {
    /// Returns what was added to each leg.
    pub(crate) fn into_legs(self) -> Vec<u64>
        ensures { result.items ≡ self.legs.items }
    {
        let Sums {
            legs,
            row: _,
            columns: _,
        } = self;
        legs
    }
}

/// Adds a demand to the way of a cell.
///
/// # Errors
/// `TooLarge` if a leg would get more than [`MOST_FLOW`](crate::MOST_FLOW).
pub(crate) fn add_found(
    listed: &[usize],
    found: Found,
    row: &[Branch],
    columns: &[Branch],
    demand: u64,
    sums: &mut Sums,
) -> Result<(), TooLarge>
    requires sums { AreSums row.now columns.now sums.old }
    requires within { AreWithin row.now columns.now found }
    requires listed { All (λ place. place < length sums.old.legs.items) listed.now }
    ensures legs { length sums.new.legs.items ≡ length sums.old.legs.items }
    ensures row { length sums.new.row.items ≡ length sums.old.row.items }
    ensures columns { length sums.new.columns.items ≡ length sums.old.columns.items }
    ensures added { OnOk result ((share : ℕ → ℕ) → summed_with row.now columns.now sums.new share ≡ summed_with row.now columns.now sums.old share + demand * shares_of share (legs_of row.now columns.now listed.now found)) }
    ensures over { OnErr result (IsOver (length sums.old.legs.items) (λ share. summed_with row.now columns.now sums.old share + demand * shares_of share (legs_of row.now columns.now listed.now found))) }
{
    match found {
        Found::Listed(_) => add_along(listed, demand, sums.legs.as_mut_slice()),
        Found::Between(up, down) => {
            hold(row, up as usize, demand, sums.row.as_mut_slice())?;
            hold(columns, down as usize, demand, sums.columns.as_mut_slice())
        }
    }
}

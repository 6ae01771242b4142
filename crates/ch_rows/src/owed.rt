//! What the nodes owe to the cells of a table.
ghost use Rattle.std.specs.Prelude.{◌≡◌, ◌+◌, ◌*◌, ◌<◌, ◌≤◌, length, All, IfOk};
ghost use Rattle.ch_graph.specs.declared.limits.TheConstants.{MOST_LISTED, MOST_WEIGHT};
ghost use Rattle.ch_hierarchy.specs.Hierarchy.{nodes_of};
ghost use Rattle.ch_query.specs.Distance.{IsKeptForSome};
ghost use Rattle.ch_query.specs.Limits.{IsWithin};
ghost use Rattle.ch_rows.specs.Buckets.{HoldSearchSpaces};
ghost use Rattle.ch_rows.specs.Dealing.{item_of, deal_of};
ghost use Rattle.ch_rows.specs.Owed.{AreSidesOf, IsOwedInRow, IsOwedAt};
ghost use Rattle.ch_work.specs.declared.limits.TheConstants.{MOST_CELLS, MOST_OFFER};
ghost use Rattle.ch_work.specs.Owed.{HasPaid};
ghost use Rattle.ch_work.specs.Passes.{view_of, size_of, IsPassOf};

use crate::buckets::Buckets;
use crate::dealing::Dealing;
use crate::sums::is_within;
use ch_hierarchy::{Hierarchy, Side};
use ch_query::{Scratch, ranked_spaces};
use ch_work::{Board, CellJob, Crew, Gate, Pass, pay};
use std::alloc::{AllocError, Global};
use std::marker::Model;
use std::thread::Threads;

/// The sums within the limit that nodes owe. A source and a target that meet at a node owe their cell the
/// sum of their two weights there.
///
/// Nodes are items as they are dealt. Cell `i * columns + j` is that of source i and
/// target j.
#[derive(Drop)]
pub(crate) struct Sums {
    sources: Buckets,
    targets: Buckets,
    rows: u32,
    columns: u32,
    within: Option<u64>,
}

impl Model for Sums {
    ghost use Rattle.ch_rows.specs.Owed.{BothSides, AreWithin};

    ghost Value = { BothSides };

    ghost view = { λ s. record { ups = s.sources; downs = s.targets; rows = s.rows; columns = s.columns; limit = s.within } };

    ghost invariant = { λ s. AreWithin (record { ups = s.sources; downs = s.targets; rows = s.rows; columns = s.columns; limit = s.within }) };
}

impl CellJob for Sums {
    ghost use Rattle.ch_rows.specs.Owed.{IsOwedAmong};

    ghost size = { λ sums. length sums.ups };

    ghost cells = { λ sums. sums.rows * sums.columns };

    ghost owes = { λ sums from to cell x. IsOwedAmong sums from to cell x };

    fn piece(
        &self,
        _alloc: Global,
        board: &Board,
        pass: &mut Pass,
        from: u32,
        to: u32,
    ) -> Result<(), AllocError> {
        for item in from..to {
            self.pay_item(board, pass, item);
        }
        Ok(())
    }
}

impl Sums {
    /// Searches from these sources and targets, and returns what the nodes owe to their cells. The nodes
    /// are dealt over pieces as the plan cuts them. The workers share the targets, and then the sources.
    pub(crate) fn search<R: Threads + Sync, G: Gate>(
        crew: &Crew<'_, R, G>,
        hierarchy: &Hierarchy,
        sources: &[u32],
        targets: &[u32],
        within: Option<u64>,
    ) -> Result<Sums, AllocError>
        requires kept { IsKeptForSome hierarchy.now }
        requires sources { All (λ s. s < nodes_of hierarchy.now) sources.now }
        requires targets { All (λ t. t < nodes_of hierarchy.now) targets.now }
        requires lists { (length sources.now ≤ MOST_LISTED) × (length targets.now ≤ MOST_LISTED) }
        requires cells { length sources.now * length targets.now ≤ MOST_CELLS }
        ensures { IfOk result (AreSidesOf hierarchy.now within (item_of (deal_of hierarchy.now crew.now.plan.piece)) sources.now targets.now) }
    {
        let dealing = Dealing::new(hierarchy.nodes(), crew.plan.piece());
        let mut scratches = Vec::new(crew.alloc);
        let downs = search_side(
            crew,
            hierarchy,
            &mut scratches,
            &dealing,
            targets,
            Side::Down,
            within,
        )?;
        let ups = search_side(
            crew,
            hierarchy,
            &mut scratches,
            &dealing,
            sources,
            Side::Up,
            within,
        )?;
        Ok(Sums {
            sources: ups,
            targets: downs,
            rows: sources.len() as u32,
            columns: targets.len() as u32,
            within,
        })
    }

    /// Pays what the node of an item owes, row after row.
    fn pay_item(&self, board: &Board, pass: &mut Pass, item: u32)
        requires item { item < length self.now.ups }
        requires board { IsPassOf board.now pass.old }
        requires cells { (size_of board.now).cells ≡ self.now.rows * self.now.columns }
        ensures board { IsPassOf board.now pass.new }
        ensures paid { HasPaid (IsOwedAt self.now item) (view_of pass.old) (view_of pass.new) }
    {
        let targets = self.targets.at(item);
        for (source, weight) in self.sources.at(item) {
            let first = *source * self.columns;
            pay_row(board, pass, first, *weight, targets, self.within);
        }
    }
}

/// Searches from these nodes on this side, and makes the buckets of what they reach, dealt over the items.
fn search_side<R: Threads + Sync, G: Gate>(
    crew: &Crew<'_, R, G>,
    hierarchy: &Hierarchy,
    scratches: &mut Vec<Scratch>,
    dealing: &Dealing,
    nodes: &[u32],
    side: Side,
    within: Option<u64>,
) -> Result<Buckets, AllocError>
    requires kept { IsKeptForSome hierarchy.now }
    requires scratches { All (λ scratch. scratch ≡ nodes_of hierarchy.now) scratches.old.items }
    requires dealing { dealing.now.nodes ≡ nodes_of hierarchy.now }
    requires nodes { All (λ x. x < nodes_of hierarchy.now) nodes.now }
    requires count { length nodes.now ≤ MOST_LISTED }
    ensures buckets { IfOk result (HoldSearchSpaces hierarchy.now side within (item_of dealing.now) nodes.now) }
    ensures scratches { All (λ scratch. scratch ≡ nodes_of hierarchy.now) scratches.new.items }
{
    let spaces = ranked_spaces(crew, hierarchy, scratches, nodes, side, within)?;
    Buckets::of_lists(crew.alloc, dealing, spaces)
}

/// Pays what a source owes at a node to the cells of its row, where `first` is the first cell of that row.
/// It owes the sum of its own weight and that of each target, if the sum is within the limit.
fn pay_row(
    board: &Board,
    pass: &mut Pass,
    first: u32,
    weight: u64,
    targets: &[(u32, u64)],
    within: Option<u64>,
)
    requires board { IsPassOf board.now pass.old }
    requires weight { weight ≤ MOST_WEIGHT }
    requires targets { All (λ entry. (first + entry.0 < (size_of board.now).cells) × (entry.1 ≤ MOST_WEIGHT)) targets.now }
    requires cells { (size_of board.now).cells ≤ MOST_CELLS }
    ensures board { IsPassOf board.now pass.new }
    ensures paid { HasPaid (IsOwedInRow within first weight targets.now) (view_of pass.old) (view_of pass.new) }
{
    for (target, rest) in targets {
        pay_within(board, pass, first + *target, weight + *rest, within);
    }
}

/// Pays one weight that is owed to a cell, if it is within the limit.
fn pay_within(board: &Board, pass: &mut Pass, cell: u32, weight: u64, within: Option<u64>)
    requires board { IsPassOf board.now pass.old }
    requires cell { cell < (size_of board.now).cells }
    requires weight { weight ≤ MOST_OFFER }
    ensures board { IsPassOf board.now pass.new }
    ensures paid { HasPaid (λ at x. (at ≡ cell) × (x ≡ weight) × IsWithin within x) (view_of pass.old) (view_of pass.new) }
{
    if is_within(within, weight) {
        pay(board, pass, cell, weight);
    }
}

//! The rows of all nodes, made by one sweep.
ghost use Rattle.std.specs.Prelude.{◌≡◌, ◌<◌, ◌≤◌, [], ◌∷◌, ◌++◌, ◌+◌, ℕ, length, map, slice_index_or, All, IfOk, OnOk};
ghost use Rattle.ch_graph.specs.declared.limits.TheConstants.{MOST_WEIGHT};
ghost use Rattle.ch_hierarchy.specs.Hierarchy.{nodes_of};
ghost use Rattle.ch_rows.specs.Buckets.{IsBucketAmong};
ghost use Rattle.ch_rows.specs.Offers.{AreOffered, AreUnoffered};
ghost use Rattle.ch_rows.specs.Sums.{IsSumOf};
ghost use Rattle.ch_rows.specs.Sweep.{AreNodeRows, AreRowsTo, entry_of_leg, row_at};

use crate::first::sort_and_cut;
use crate::nearest::NearTargets;
use crate::offers::Offers;
use crate::rows::Nearest;
use crate::sums::offer_row;
use ch_graph::Rows;
use ch_hierarchy::{Hierarchy, RankedLeg};
use std::alloc::{AllocError, Global};
use std::marker::Model;

/// The near rows of all nodes.
#[derive(Drop)]
pub struct NodeRows<'a> {
    hierarchy: &'a Hierarchy,
    /// The rows by rank.
    rows: Rows<(u64, u32)>,
}

impl<'a> Model for NodeRows<'a> {
    ghost use Rattle.std.specs.Prelude.{◌≡◌, ℕ, List, length};
    ghost use Rattle.ch_hierarchy.specs.Hierarchy.{LevelsAndLegs, nodes_of};

    ghost Value = { LevelsAndLegs × List (List (ℕ × ℕ)) };

    ghost view = { λ all. (all.hierarchy.now, all.rows) };

    ghost invariant = { λ all. length all.rows ≡ nodes_of all.hierarchy.now };
}

impl<'a> NodeRows<'a> {
    /// The row of a node: pairs of a distance and a place in the list of targets, in this order.
    pub fn row(&self, node: u32) -> &[(u64, u32)]
        requires { node < nodes_of self.now.0 }
        ensures { result.now ≡ row_at self.now.0 self.now.1 node }
    {
        self.rows.row(self.hierarchy.rank(node))
    }
}

impl<'a> NearTargets<'a> {
    /// Returns the rows of all nodes, by one sweep from the highest node down. It is like a one-to-all
    /// sweep over a hierarchy (Delling, Goldberg, Nowatzyk and Werneck 2011).
    ///
    /// The row of a node has the first of two kinds of pairs. The first kind are those of its bucket. The
    /// second are those of the rows where its legs lead, with the weight of the leg added. It does no
    /// search. The caller alone makes the rows.
    ///
    /// # Errors
    /// `AllocError` if there is no memory.
    pub fn node_rows(&self, alloc: Global) -> Result<NodeRows<'a>, AllocError>
        ensures { IfOk result (AreNodeRows self.now) }
    {
        let rows = self.nearest().sweep(alloc)?;
        Ok(NodeRows {
            hierarchy: self.hierarchy,
            rows,
        })
    }
}

impl<'a> Nearest<'a> {
    /// Returns the row of each rank's node.
    pub(crate) fn sweep(&self, alloc: Global) -> Result<Rows<(u64, u32)>, AllocError>
        ensures { IfOk result (AreRowsTo self.now (nodes_of self.now.hierarchy)) }
    {
        let nodes = self.hierarchy.nodes();
        let mut rows = Rows::with_room(alloc, nodes, 0)?;
        let mut offers = Offers::new(alloc, self.searched.targets.len() as u32)?;
        let mut row = Vec::new(alloc);
        for rank in 0..nodes {
            self.make_row(&mut offers, &mut row, rank, &rows)?;
            rows.push(&row)?;
        }
        Ok(rows)
    }

    /// Makes the row of the node of a rank, from its bucket and the rows of higher nodes.
    fn make_row(
        &self,
        offers: &mut Offers,
        row: &mut Vec<(u64, u32)>,
        rank: u32,
        rows: &Rows<(u64, u32)>,
    ) -> Result<(), AllocError>
        requires rank { rank < nodes_of self.now.hierarchy }
        requires rows { AreRowsTo self.now rank rows.now }
        requires offers { AreUnoffered (length self.now.targets) offers.old }
        ensures row { OnOk result (AreRowsTo self.now (rank + 1) (rows.now ++ row.new.items ∷ [])) }
        ensures offers { OnOk result (AreUnoffered (length self.now.targets) offers.new) }
    {
        let legs = self.searched.direction.ranked_legs(self.hierarchy, rank);
        offer_row(
            offers,
            0,
            self.searched.buckets.row(rank),
            self.searched.within,
        )?;
        offer_legs(offers, legs, rows, self.searched.within)?;
        offers.take(row)?;
        sort_and_cut(row, self.searched.count);
        Ok(())
    }
}

/// Offers to each place its sums within the limit. For a leg, a sum is the leg's weight plus the weight of
/// the place in the row where the leg leads.
fn offer_legs(
    offers: &mut Offers,
    legs: &[RankedLeg],
    rows: &Rows<(u64, u32)>,
    within: Option<u64>,
) -> Result<(), AllocError>
    requires legs { All (λ l. (l.rank < length rows.now) × (l.weight ≤ MOST_WEIGHT)) legs.now }
    requires rows { (rank : ℕ) → IsBucketAmong (length offers.old) (slice_index_or rows.now rank []) }
    ensures { OnOk result (AreOffered (IsSumOf within (map entry_of_leg legs.now) rows.now) offers.old offers.new) }
{
    for leg in legs {
        offer_row(offers, leg.weight, rows.row(leg.rank), within)?;
    }
    Ok(())
}

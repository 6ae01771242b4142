//! Where the search tree of a source meets those of the targets of a table, with the sums of both ways.
ghost use Rattle.std.specs.Prelude.{◌≡◌, ◌≢◌, ◌+◌, ◌<◌, ℕ, List, length, All, IfOk, MatchOption, None, OnOk, replicate, ⊤};
ghost use Rattle.ch_graph.specs.Cost.{cost_sum};
ghost use Rattle.ch_hierarchy.specs.Hierarchy.{LevelsAndLegs, nodes_of};
ghost use Rattle.ch_hierarchy.specs.declared.side.Side.TheVariants.{Up as UpSide};
ghost use Rattle.ch_engine.specs.LegSums.{AreKeptSums, unknown};
ghost use Rattle.ch_engine.specs.Lines.{Lines};
ghost use Rattle.ch_engine.specs.Slots.{named};
ghost use Rattle.ch_engine.specs.TableSums.{AddsStops, AreBranches, AreCells, AreOffers, AreStops, AreStopsOf, AreWithin, CoverBranches, CoverSlots, CoverStops, IsBranch, IsFirstMet, IsSmall, IsStopWithin, KeepsCovers};

use crate::leg_sums::{KeptSums, UNKNOWN, joined};
use crate::network::Network;
use crate::slots::Slots;
use crate::sum_trees::{Branch, TreeRoom};
use ch_graph::{Cost, Rows};
use ch_hierarchy::Side;
use ch_query::Scratch;
use std::alloc::{AllocError, Global};

/// A branch of the tree of a target, at some node.
#[derive(Clone, Copy)]
pub(crate) struct Stop {
    /// The place of the target in the list of targets.
    pub(crate) place: usize,
    /// The cost of a path between the node and the target.
    pub(crate) cost: Cost,
    /// The sum of the values on the way, or [`UNKNOWN`](crate::leg_sums::UNKNOWN).
    pub(crate) sum: u64,
}

/// The stops of all targets. Nodes without stops have no slot.
#[derive(Drop)]
pub(crate) struct Stops<'a> {
    pub(crate) slots: &'a Slots,
    /// By slot, the stops at its node.
    pub(crate) rows: Rows<Stop>,
}

/// A table that is made, with the values along the routes of its cells.
#[derive(Drop)]
pub(crate) struct SumTable<'a> {
    pub(crate) alloc: Global,
    pub(crate) kept: &'a KeptSums,
    pub(crate) sources: &'a [u32],
    pub(crate) targets: &'a [u32],
}

/// A node where two trees meet, with the sums of their costs and of their sums there.
#[derive(Clone, Copy)]
pub(crate) struct Meeting {
    pub(crate) node: u32,
    pub(crate) cost: Cost,
    /// The sum of the values on both ways, or [`UNKNOWN`](crate::leg_sums::UNKNOWN).
    pub(crate) sum: u64,
}

impl Network {
    /// Gives slots to the nodes that branches of the targets reach, and to no others. Returns for each slot the branches at
    /// its node.
    ///
    /// # Errors
    /// `AllocError` if there is no memory.
    pub(crate) fn find_stops(
        &self,
        alloc: Global,
        scratch: &mut Scratch,
        kept: &KeptSums,
        targets: &[u32],
        slots: &mut Slots,
        room: &mut TreeRoom,
    ) -> Result<Rows<Stop>, AllocError>
        requires scratch { scratch.old ≡ nodes_of self.now.0 }
        requires slots { slots.old.numbers ≡ nodes_of self.now.0 }
        requires targets { All (λ node. node < nodes_of self.now.0) targets.now }
        requires kept { AreKeptSums self.now.0 self.now.1 kept.now }
        ensures count { IfOk result (λ stops. length stops ≡ length slots.new.names) }
        ensures stops { IfOk result (AreStops self.now.0 self.now.1 kept.now.values.items targets.now slots.new.names) }
        ensures slots { slots.new.numbers ≡ slots.old.numbers }
        ensures scratch { scratch.new ≡ scratch.old }
    {
        slots.clear();
        let mut pairs = Vec::new(alloc);
        for c in 0..targets.len() {
            self.find_branches(alloc, scratch, kept, Side::Down, targets[c], room)?;
            push_stops(c, &room.branches, slots, &mut pairs)?;
        }
        Rows::build(alloc, slots.count(), &pairs)
    }

    /// Returns where the tree of a source meets those of the targets with these stops.
    ///
    /// # Errors
    /// `AllocError` if there is no memory.
    pub(crate) fn find_row(
        &self,
        scratch: &mut Scratch,
        table: &SumTable<'_>,
        source: u32,
        stops: &Stops<'_>,
        room: &mut TreeRoom,
    ) -> Result<Vec<Option<Meeting>>, AllocError>
        requires scratch { scratch.old ≡ nodes_of self.now.0 }
        requires source { source < nodes_of self.now.0 }
        requires kept { AreKeptSums self.now.0 self.now.1 table.now.kept.now }
        requires count { length stops.now.rows ≡ length stops.now.slots.now.names }
        requires stops { AreStops self.now.0 self.now.1 table.now.kept.now.values.items table.now.targets.now stops.now.slots.now.names stops.now.rows }
        ensures row { IfOk result (λ row. AreCells self.now.0 self.now.1 table.now.kept.now.values.items source table.now.targets.now row.items) }
        ensures scratch { scratch.new ≡ scratch.old }
    {
        self.find_branches(table.alloc, scratch, table.kept, Side::Up, source, room)?;
        let mut row = unmet(table.alloc, table.targets.len())?;
        meet_branches(&room.branches, stops, row.as_mut_slice());
        Ok(row)
    }
}

/// Returns a row of so many cells, with no meetings.
fn unmet(alloc: Global, cells: usize) -> Result<Vec<Option<Meeting>>, AllocError>
    ensures { IfOk result (λ row. row.items ≡ replicate cells None) }
{
    vec![in alloc; None; cells]
}

/// Appends the branches of the target at this place, each after the slot of its node.
fn push_stops(
    place: usize,
    branches: &[Branch],
    slots: &mut Slots,
    pairs: &mut Vec<(u32, Stop)>,
) -> Result<(), AllocError>
    requires nodes { All (λ e. e.node < slots.old.numbers) branches.now }
    requires pairs { All (λ p. p.0 < length slots.old.names) pairs.old.items }
    ensures adds { OnOk result (AddsStops place branches.now (named slots.old.names pairs.old.items) (named slots.new.names pairs.new.items)) }
    ensures pairs { OnOk result (All (λ p. p.0 < length slots.new.names) pairs.new.items) }
    ensures slots { slots.new.numbers ≡ slots.old.numbers }
{
    for branch in branches {
        let stop = Stop {
            place,
            cost: branch.cost,
            sum: branch.sum,
        };
        let slot = slots.slot_or_next(branch.node)?;
        pairs.push((slot, stop))?;
    }
    Ok(())
}

/// Goes on with the meetings of a row by all branches of its source.
fn meet_branches(branches: &[Branch], stops: &Stops<'_>, row: &mut [Option<Meeting>])
    requires branches { All (λ e. IsSmall e.cost) branches.now }
    requires count { length stops.now.rows ≡ length stops.now.slots.now.names }
    requires stops { AreWithin (length row.old) stops.now.rows }
    ensures long { length row.new ≡ length row.old }
    ensures covers { CoverBranches branches.now (length branches.now) stops.now.slots.now.names stops.now.rows row.new }
    ensures offers { (H : LevelsAndLegs) (lines : Lines) (values targets : List ℕ) (s : ℕ) → length targets ≡ length row.old → AreBranches UpSide H lines values s branches.now → AreStops H lines values targets stops.now.slots.now.names stops.now.rows → AreOffers H lines values s targets row.old → AreOffers H lines values s targets row.new }
{
    for i in 0..branches.len() {
        let branch = branches[i];
        meet_branch(branch, stops, row);
    }
}

/// Goes on with the meetings of a row by a branch and the stops at its node, if it has some.
fn meet_branch(branch: Branch, stops: &Stops<'_>, row: &mut [Option<Meeting>])
    requires branch { IsSmall branch.cost }
    requires count { length stops.now.rows ≡ length stops.now.slots.now.names }
    requires stops { AreWithin (length row.old) stops.now.rows }
    ensures long { length row.new ≡ length row.old }
    ensures keeps { KeepsCovers row.old row.new }
    ensures covers { CoverSlots branch.node branch.cost stops.now.slots.now.names stops.now.rows row.new }
    ensures offers { (H : LevelsAndLegs) (lines : Lines) (values targets : List ℕ) (s : ℕ) → length targets ≡ length row.old → IsBranch UpSide H lines values s branch.node branch.cost branch.sum → AreStops H lines values targets stops.now.slots.now.names stops.now.rows → AreOffers H lines values s targets row.old → AreOffers H lines values s targets row.new }
{
    let Some(slot) = stops.slots.slot(branch.node) else {
        return;
    };
    meet_stops(branch, stops.rows.row(slot), row);
}

/// Goes on with the meetings of a row by a branch and the stops at its node.
fn meet_stops(branch: Branch, stops: &[Stop], row: &mut [Option<Meeting>])
    requires branch { IsSmall branch.cost }
    requires stops { All (IsStopWithin (length row.old)) stops.now }
    ensures long { length row.new ≡ length row.old }
    ensures keeps { KeepsCovers row.old row.new }
    ensures covers { CoverStops branch.node branch.cost stops.now (length stops.now) row.new }
    ensures offers { (H : LevelsAndLegs) (lines : Lines) (values targets : List ℕ) (s : ℕ) → length targets ≡ length row.old → IsBranch UpSide H lines values s branch.node branch.cost branch.sum → AreStopsOf H lines values targets branch.node stops.now → AreOffers H lines values s targets row.old → AreOffers H lines values s targets row.new }
{
    for j in 0..stops.len() {
        let stop = stops[j];
        let met = meet(branch, stop);
        put_first(&mut row[stop.place], met);
    }
}

/// Returns the meeting of a branch and a stop.
#[inline]
fn meet(branch: Branch, stop: Stop) -> Meeting
    requires branch { IsSmall branch.cost }
    requires stop { IsSmall stop.cost }
    ensures node { result.node ≡ branch.node }
    ensures cost { result.cost ≡ cost_sum branch.cost stop.cost }
    ensures sum { result.sum ≢ unknown → (branch.sum ≢ unknown) × (stop.sum ≢ unknown) × (result.sum ≡ branch.sum + stop.sum) }
{
    Meeting {
        node: branch.node,
        cost: branch.cost.plus(stop.cost),
        sum: joined(branch.sum, stop.sum),
    }
}

/// Puts a meeting into a cell, unless what is there comes first: by cost, and then by node. Most cells stay as they are, so
/// they are not written again.
#[inline]
pub(crate) fn put_first(cell: &mut Option<Meeting>, new: Meeting)
    ensures { IsFirstMet cell.old new cell.new }
{
    if let Some(known) = cell {
        if known.cost < new.cost || known.cost == new.cost && known.node <= new.node {
            return;
        }
    }
    *cell = Some(new);
}

/// Returns the weight and the sum of a meeting, if there is one and its sum is known.
pub(crate) fn known_meeting(met: Option<Meeting>) -> Option<(u64, u64)>
    ensures { MatchOption result ⊤ (λ found. MatchOption met ⊥ (λ met. (found ≡ (met.cost.weight, met.sum)) × (met.sum ≢ unknown))) }
{
    let Some(met) = met else {
        return None;
    };
    if met.sum == UNKNOWN {
        return None;
    }
    Some((met.cost.weight, met.sum))
}

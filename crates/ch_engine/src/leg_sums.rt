//! Sums of values along the legs of a hierarchy.
ghost use Rattle.std.specs.Prelude.{◌≡◌, ◌≢◌, ◌+◌, ◌<◌, ℕ, List, Some, length, slice_index, Contains, IfOk, MatchOption, OnOk, ⊤};
ghost use Rattle.std.specs.Arc.{arc_value};
ghost use Rattle.ch_hierarchy.specs.declared.leg.Leg.{Leg as AnyLeg};
ghost use Rattle.ch_hierarchy.specs.Hierarchy.{nodes_of};
ghost use Rattle.ch_hierarchy.specs.Rows.{row as the_row_of};
ghost use Rattle.ch_hierarchy.specs.Side.{rows_of};
ghost use Rattle.ch_engine.specs.LegSums.{AreKeptSums, AreLegSums, AreLegWords, IsLegSum, IsLegWord, IsRowLegSum, IsWordIn, leg_on, rank_at, unknown};
ghost use Rattle.ch_engine.specs.Lines.{Lines};

use crate::lines::place_in;
use crate::network::Network;
use ch_graph::Rows;
use ch_hierarchy::{Hierarchy, Leg, RankedLeg, Side};
use std::alloc::{AllocError, Global};
use std::sync::Arc;

/// The word for a sum that is not known, because it or a part of it is too large.
pub(crate) const UNKNOWN: u64 = u64::MAX;

/// Up to so many legs in a row, a look at each takes less time than a binary search.
const SHORT: usize = 32;

/// For each leg of a hierarchy a word: the sum of the values on the lines of the arcs that it stands for, or
/// [`UNKNOWN`].
#[derive(Drop)]
pub(crate) struct LegSums {
    /// The nodes in order of level.
    order: Vec<u32>,
    /// For each node in this order, the words of its legs up.
    ups: Rows<u64>,
    /// The same of its legs down.
    downs: Rows<u64>,
}

/// The values of all lines, and the sums along all legs for them.
#[derive(Drop)]
pub(crate) struct KeptSums {
    pub(crate) values: Vec<u64>,
    pub(crate) sums: LegSums,
}

impl LegSums {
    /// Returns the word of the leg at place `place` in the row of a node, or [`UNKNOWN`] if it is not there yet.
    fn word(&self, hierarchy: &Hierarchy, side: Side, node: u32, place: usize) -> u64
        requires node { node < nodes_of hierarchy.now }
        ensures { (lines : Lines) (values : List ℕ) → AreLegSums hierarchy.now lines values self.now → place < length (the_row_of (rows_of hierarchy.now side) node) → IsLegWord side hierarchy.now lines values node (leg_on (the_row_of (rows_of hierarchy.now side) node) place) result }
    {
        let Some(rank) = hierarchy.level(node).checked_sub(1) else {
            return UNKNOWN;
        };
        if rank as usize >= self.order.len() || self.order[rank as usize] != node {
            return UNKNOWN;
        }
        match side {
            Side::Up => word_in(&self.ups, rank, place),
            Side::Down => word_in(&self.downs, rank, place),
        }
    }

    /// Returns the word of the leg of a node to or from another one, or [`UNKNOWN`] if there is none.
    pub(crate) fn word_at(&self, hierarchy: &Hierarchy, side: Side, node: u32, other: u32) -> u64
        requires node { node < nodes_of hierarchy.now }
        ensures { (lines : Lines) (values : List ℕ) → AreLegSums hierarchy.now lines values self.now → result ≢ unknown → (leg : AnyLeg) × Contains (the_row_of (rows_of hierarchy.now side) node) leg × (leg.node ≡ other) × IsRowLegSum side hierarchy.now lines values node leg result }
    {
        match place_in(hierarchy.legs(side, node), other) {
            Some(place) => self.word(hierarchy, side, node, place),
            None => UNKNOWN,
        }
    }

    /// Like [`LegSums::word_at`], by the legs by rank. A search has just read these, so they are near, and a row of them is
    /// short.
    pub(crate) fn word_by_rank(
        &self,
        hierarchy: &Hierarchy,
        side: Side,
        node: u32,
        other: u32,
    ) -> u64
        requires node { node < nodes_of hierarchy.now }
        requires other { other < nodes_of hierarchy.now }
        ensures { (lines : Lines) (values : List ℕ) → AreLegSums hierarchy.now lines values self.now → result ≢ unknown → (leg : AnyLeg) × Contains (the_row_of (rows_of hierarchy.now side) node) leg × (leg.node ≡ other) × IsRowLegSum side hierarchy.now lines values node leg result }
    {
        let legs = hierarchy.ranked_legs(side, hierarchy.rank(node));
        if legs.len() > SHORT {
            return self.word_at(hierarchy, side, node, other);
        }
        match place_of_rank(legs, hierarchy.rank(other)) {
            Some(place) => self.word(hierarchy, side, node, place),
            None => UNKNOWN,
        }
    }

    /// Returns the sum of the words of the two legs of a middle, from one node and to another.
    fn through(&self, hierarchy: &Hierarchy, from: u32, middle: u32, to: u32) -> u64
        ensures { (lines : Lines) (values : List ℕ) (leg : AnyLeg) → AreLegSums hierarchy.now lines values self.now → leg.middle ≡ Some middle → result ≢ unknown → IsLegSum hierarchy.now lines values from to leg result }
    {
        if middle >= hierarchy.nodes() {
            return UNKNOWN;
        }
        let first = self.word_at(hierarchy, Side::Down, middle, from);
        let second = self.word_at(hierarchy, Side::Up, middle, to);
        joined(first, second)
    }
}

impl Network {
    /// Returns the sums along all legs for these values, with a copy of the values.
    ///
    /// # Errors
    /// `AllocError` if there is no memory.
    pub(crate) fn kept_sums(
        &self,
        alloc: Global,
        values: &[u64],
    ) -> Result<Arc<KeptSums, Global>, AllocError>
        ensures sums { IfOk result (λ kept. AreKeptSums self.now.0 self.now.1 (arc_value kept)) }
        ensures values { IfOk result (λ kept. (arc_value kept).values.items ≡ values.now) }
    {
        let sums = self.leg_sums(alloc, values)?;
        let mut copy = Vec::with_capacity(alloc, values.len())?;
        copy.extend_from_slice(values)?;
        Ok(Arc::new(alloc, KeptSums { values: copy, sums })?)
    }

    /// Returns the sums of the values along all legs. It takes a step for each leg, and binary searches for both
    /// legs of its middle.
    ///
    /// # Errors
    /// `AllocError` if there is no memory.
    pub(crate) fn leg_sums(&self, alloc: Global, values: &[u64]) -> Result<LegSums, AllocError>
        ensures { IfOk result (AreLegSums self.now.0 self.now.1 values.now) }
    {
        let order = self.hierarchy().order(alloc)?;
        let count = self.hierarchy().nodes();
        let ups = Rows::with_room(alloc, count, 0)?;
        let downs = Rows::with_room(alloc, count, 0)?;
        let mut sums = LegSums { order, ups, downs };
        let mut row = Vec::new(alloc);
        for i in 0..sums.order.len() {
            let node = sums.order[i];
            self.sum_legs(Side::Up, node, values, &sums, &mut row)?;
            sums.ups.push(&row)?;
            self.sum_legs(Side::Down, node, values, &sums, &mut row)?;
            sums.downs.push(&row)?;
        }
        Ok(sums)
    }

    /// Finds the words of the legs of a node on a side, from those of lower nodes.
    fn sum_legs(
        &self,
        side: Side,
        node: u32,
        values: &[u64],
        sums: &LegSums,
        row: &mut Vec<u64>,
    ) -> Result<(), AllocError>
        requires node { node < nodes_of self.now.0 }
        requires sums { AreLegSums self.now.0 self.now.1 values.now sums.now }
        ensures { OnOk result (AreLegWords side self.now.0 self.now.1 values.now node row.new.items) }
    {
        row.clear();
        let legs = self.hierarchy().legs(side, node);
        for k in 0..legs.len() {
            row.push(self.sum_leg(side, node, k, legs[k], values, sums))?;
        }
        Ok(())
    }

    /// Returns the word of the leg at place `place` in the row of a node.
    fn sum_leg(
        &self,
        side: Side,
        node: u32,
        place: usize,
        leg: Leg,
        values: &[u64],
        sums: &LegSums,
    ) -> u64
        requires node { node < nodes_of self.now.0 }
        requires place { place < length (the_row_of (rows_of self.now.0 side) node) }
        requires leg { leg ≡ leg_on (the_row_of (rows_of self.now.0 side) node) place }
        requires sums { AreLegSums self.now.0 self.now.1 values.now sums.now }
        ensures { IsLegWord side self.now.0 self.now.1 values.now node leg result }
    {
        match leg.middle {
            None => value_or_zero(values, self.line_of_leg(side, node, place)),
            Some(middle) => match side {
                Side::Up => sums.through(self.hierarchy(), node, middle, leg.node),
                Side::Down => sums.through(self.hierarchy(), leg.node, middle, node),
            },
        }
    }
}

/// Returns the place of the leg at the node of this rank, if there is one.
fn place_of_rank(legs: &[RankedLeg], rank: u32) -> Option<usize>
    ensures { MatchOption result ⊤ (λ k. (k < length legs.now) × (rank_at legs.now k ≡ rank)) }
{
    for k in 0..legs.len() {
        if legs[k].rank == rank {
            return Some(k);
        }
    }
    None
}

/// Returns the word at a place in a row, or [`UNKNOWN`] if it is not there.
fn word_in(rows: &Rows<u64>, row: u32, place: usize) -> u64
    ensures { IsWordIn rows.now row place result }
{
    if row >= rows.row_count() {
        return UNKNOWN;
    }
    let words = rows.row(row);
    if place >= words.len() {
        return UNKNOWN;
    }
    words[place]
}

/// Returns the value on a line, or 0 if there is no such line.
fn value_or_zero(values: &[u64], line: u32) -> u64
    ensures { result ≡ slice_index values.now line }
{
    if line as usize >= values.len() {
        return 0;
    }
    values[line as usize]
}

/// Adds two sums. The result is [`UNKNOWN`] if one of them is, or if it is too large.
pub(crate) fn joined(first: u64, second: u64) -> u64
    ensures { result ≢ unknown → (first ≢ unknown) × (second ≢ unknown) × (result ≡ first + second) }
{
    if first == UNKNOWN || second == UNKNOWN {
        return UNKNOWN;
    }
    match first.checked_add(second) {
        Some(sum) => sum,
        None => UNKNOWN,
    }
}

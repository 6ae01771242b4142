//! The legs of a topology: a pair of legs for each pair of nodes, whether there are legs or not.
ghost use Rattle.std.specs.Prelude.{◌≡◌, ℕ, ◌+◌, ◌++◌, ◌^◌, ◌<◌, [], All, slice_index};
ghost use Rattle.std.specs.Prelude.{Contains, IfOk, OnOk, filter, length, map, slice_index_or, slice_set};
ghost use Rattle.ch_hierarchy.specs.declared.side.Side.{Side as AnySide};
ghost use Rattle.ch_custom.specs.declared.leg_pair.LegPair.{LegPair as AnyPair};
ghost use Rattle.ch_custom.specs.Opening.{is_live as has_leg};
ghost use Rattle.ch_custom.specs.Metric.{IsHeld};
ghost use Rattle.ch_custom.specs.LegPairs.{no_pair, unbeaten_pair, lightened_pair, pairs_row, row_of};
ghost use Rattle.ch_custom.specs.Parts.{AreGathered};
ghost use Rattle.ch_custom.specs.LegPairs.{rows_at, AreHeld, IsReady, ArePairsLowered, ArePairsRelaxed};

use crate::leg_pair::LegPair;
use crate::lowering::lower_row;
use ch_graph::Rows;
use ch_graph::limits::MOST_WEIGHT;
use ch_hierarchy::{Leg, Side};
use ch_lists::Lists;
use std::alloc::{AllocError, Global};
use std::marker::Model;

/// The legs of a topology, all in one array: for each node a row with a pair of legs for each node of its row of the
/// topology.
#[derive(Drop)]
pub(crate) struct Metric {
    /// Where the row of each node begins, and then where the last row ends.
    starts: Vec<usize>,
    pairs: Vec<LegPair>,
}

impl Model for Metric {
    ghost use Rattle.std.specs.Prelude.{List};
    ghost use Rattle.ch_graph.specs.Rows.{AreOrdered, rows_between};
    ghost use Rattle.ch_custom.specs.declared.leg_pair.LegPair.{LegPair};

    ghost Value = { List (List LegPair) };

    ghost view = { λ m. rows_between m.starts.items m.pairs.items };

    ghost invariant = { λ m. AreOrdered m.starts.items m.pairs.len };
}

impl Metric {
    /// Makes the rows of a topology, with no leg yet.
    ///
    /// # Errors
    /// `AllocError` if there is no memory for the rows.
    pub(crate) fn open(alloc: Global, topology: &Rows<u32>) -> Result<Metric, AllocError>
        requires { length topology.now + 1 < 2 ^ 32 }
        ensures { IfOk result (λ m. m ≡ map (λ r. map no_pair r) topology.now) }
    {
        let mut starts = Vec::with_capacity(alloc, topology.row_count() as usize + 1)?;
        let mut pairs = Vec::with_capacity(alloc, count_pairs(topology))?;
        starts.push(0usize)?;
        for node in 0..topology.row_count() {
            open_row(&mut pairs, topology.row(node))?;
            starts.push(pairs.len())?;
        }
        Ok(Metric { starts, pairs })
    }

    /// Returns the rows of all nodes, each from the arrays of its part.
    ///
    /// # Errors
    /// `AllocError` if there is no memory for the rows.
    pub(crate) fn gathered(
        alloc: Global,
        parts: &[u32],
        metrics: &[Metric],
    ) -> Result<Metric, AllocError>
        requires few { length parts.now + 1 < 2 ^ 32 }
        requires parts { (v : ℕ) → v < length parts.now → slice_index parts.now v < length metrics.now }
        requires rows { (v : ℕ) → v < length parts.now → v < length (slice_index_or metrics.now (slice_index parts.now v) []) }
        ensures { IfOk result (AreGathered parts.now metrics.now) }
    {
        let mut starts = Vec::with_capacity(alloc, parts.len() + 1)?;
        let mut pairs = Vec::with_capacity(alloc, count_all(metrics))?;
        starts.push(0usize)?;
        for node in 0..parts.len() {
            pairs.extend_from_slice(metrics[parts[node] as usize].row(node as u32))?;
            starts.push(pairs.len())?;
        }
        Ok(Metric { starts, pairs })
    }

    /// The pairs of one node.
    pub(crate) fn row(&self, node: u32) -> &[LegPair]
        requires { node < length self.now }
        ensures { result.now ≡ pairs_row self.now node }
    {
        let start = self.starts[node as usize];
        let end = self.starts[node as usize + 1];
        &self.pairs[start..end]
    }

    /// The number of pairs of all nodes.
    fn pair_count(&self) -> usize {
        self.pairs.len()
    }

    /// Copies the pairs of one node into a vector, in place of what it had.
    ///
    /// # Errors
    /// `AllocError` if there is no memory for the copy.
    pub(crate) fn copy_row(&self, node: u32, copy: &mut Vec<LegPair>) -> Result<(), AllocError>
        requires { node < length self.now }
        ensures { OnOk result (copy.new.items ≡ pairs_row self.now node) }
    {
        copy.clear();
        copy.extend_from_slice(self.row(node))
    }

    /// Writes the pairs of one node.
    pub(crate) fn put_row(&mut self, node: u32, row: &[LegPair])
        requires node { node < length self.old }
        requires size { length row.now ≡ length (pairs_row self.old node) }
        ensures { self.new ≡ slice_set self.old node row.now }
    {
        let start = self.starts[node as usize];
        let end = self.starts[node as usize + 1];
        write_row(&mut self.pairs[start..end], row);
    }

    /// Takes out the legs that are beaten.
    pub(crate) fn drop_beaten(&mut self)
        ensures { self.new ≡ map (λ r. map unbeaten_pair r) self.old }
    {
        drop_beaten(&mut self.pairs);
    }

    /// Puts in an arc of this weight between a node and `other`, if it is lighter than the leg there.
    pub(crate) fn lighten(&mut self, node: u32, side: Side, other: u32, weight: u64)
        requires { node < length self.old }
        ensures { self.new ≡ slice_set self.old node (map (lightened_pair side other weight) (pairs_row self.old node)) }
    {
        let start = self.starts[node as usize];
        let end = self.starts[node as usize + 1];
        lighten_row(&mut self.pairs[start..end], side, other, weight);
    }

    /// Returns the legs in one direction, without the places that have none.
    ///
    /// # Errors
    /// `AllocError` if there is no memory for the lists.
    pub(crate) fn legs(&self, alloc: Global, side: Side) -> Result<Lists<Leg>, AllocError>
        requires { length self.now < 2 ^ 32 }
        ensures { IfOk result (λ lists. lists ≡ map (λ r. filter has_leg r) (rows_at side self.now)) }
    {
        let rooms = self.rooms(alloc, side)?;
        let mut lists = Lists::with_rooms(alloc, rooms.as_slice(), Leg::default())?;
        for node in 0..self.row_count() {
            push_live(&mut lists, node, self.row(node), side)?;
        }
        Ok(lists)
    }

    /// The number of rows.
    fn row_count(&self) -> u32
        requires { length self.now < 2 ^ 32 }
        ensures { result ≡ length self.now }
    {
        (self.starts.len() - 1) as u32
    }

    /// Returns the number of legs of each node in one direction.
    fn rooms(&self, alloc: Global, side: Side) -> Result<Vec<u32>, AllocError>
        requires { length self.now < 2 ^ 32 }
        ensures { IfOk result (λ rooms. length rooms.items ≡ length self.now) }
    {
        let mut rooms = Vec::with_capacity(alloc, self.row_count() as usize)?;
        for node in 0..self.row_count() {
            rooms.push(count_live(self.row(node), side))?;
        }
        Ok(rooms)
    }

    /// Lowers each pair of one node over `middle`, with one pair, and the others to the same nodes.
    fn lower(&mut self, node: u32, nodes: u32, middle: u32, one: &LegPair, others: &[LegPair])
        requires node { node < length self.old }
        requires middle { middle < nodes }
        requires one { AreHeld one.now }
        requires others { IsReady others.now }
        requires row { IsReady (pairs_row self.old node) }
        ensures edited { self.new ≡ slice_set self.old node (pairs_row self.new node) }
        ensures lowered { ArePairsLowered nodes middle one.now others.now (pairs_row self.old node) (pairs_row self.new node) }
        ensures held { (side : AnySide) → All IsHeld (row_of side (pairs_row self.new node)) }
    {
        let start = self.starts[node as usize];
        let end = self.starts[node as usize + 1];
        lower_row(nodes, middle, one, others, &mut self.pairs[start..end]);
    }

    /// Lowers the row of each node of `taken` over `middle`, whose row it is: with the pair of `taken` at the same
    /// place, and with `taken`. These are the triangles whose lowest node is `middle`.
    pub(crate) fn relax(&mut self, nodes: u32, middle: u32, taken: &[LegPair])
        requires middle { middle < nodes }
        requires taken { IsReady taken.now }
        requires inside { (p : AnyPair) → Contains taken.now p → p.node < length self.old }
        requires rows { (p : AnyPair) → Contains taken.now p → IsReady (pairs_row self.old p.node) }
        ensures { ArePairsRelaxed nodes middle taken.now self.old self.new }
    {
        for place in 0..taken.len() {
            let node = taken[place].node;
            self.lower(node, nodes, middle, &taken[place], taken);
        }
    }
}

/// Returns the number of pairs of a topology, or `usize::MAX` if there are more.
fn count_pairs(topology: &Rows<u32>) -> usize {
    let mut count = 0usize;
    for node in 0..topology.row_count() {
        count = count.saturating_add(topology.row(node).len());
    }
    count
}

/// Returns the number of pairs of all these arrays, or `usize::MAX` if there are more.
fn count_all(metrics: &[Metric]) -> usize {
    let mut count = 0usize;
    for place in 0..metrics.len() {
        count = count.saturating_add(metrics[place].pair_count());
    }
    count
}

/// Appends the pairs to these nodes, with no leg yet.
fn open_row(pairs: &mut Vec<LegPair>, nodes: &[u32]) -> Result<(), AllocError>
    ensures { OnOk result (pairs.new.items ≡ pairs.old.items ++ map no_pair nodes.now) }
{
    for place in 0..nodes.len() {
        pairs.push(LegPair::none(nodes[place]))?;
    }
    Ok(())
}

/// Puts in an arc of this weight to or from `other`, if it is lighter than the leg there.
fn lighten_row(row: &mut [LegPair], side: Side, other: u32, weight: u64)
    ensures { row.new ≡ map (lightened_pair side other weight) row.old }
{
    for place in 0..row.len() {
        row[place] = row[place].lightened(side, other, weight);
    }
}

/// Writes these pairs in place of as many others.
fn write_row(target: &mut [LegPair], row: &[LegPair])
    requires { length row.now ≡ length target.old }
    ensures { target.new ≡ row.now }
{
    target.copy_from_slice(row);
}

/// Takes out the legs that are beaten.
fn drop_beaten(row: &mut [LegPair])
    ensures { row.new ≡ map unbeaten_pair row.old }
{
    for place in 0..row.len() {
        row[place] = row[place].unbeaten();
    }
}

/// Returns whether there is a leg at this place.
fn is_live(leg: &Leg) -> bool
    ensures { result ≡ has_leg leg.now }
{
    leg.cost.weight <= MOST_WEIGHT
}

/// Returns the number of legs of a row in one direction, or `u32::MAX` if there are more.
fn count_live(row: &[LegPair], side: Side) -> u32 {
    let mut count = 0u32;
    for place in 0..row.len() {
        if is_live(&row[place].leg(side)) {
            count = count.saturating_add(1);
        }
    }
    count
}

/// Appends the legs of a row in one direction to an empty list.
fn push_live(
    lists: &mut Lists<Leg>,
    node: u32,
    row: &[LegPair],
    side: Side,
) -> Result<(), AllocError>
    requires node { node < length lists.old }
    requires empty { slice_index_or lists.old node [] ≡ [] }
    ensures { OnOk result (lists.new ≡ slice_set lists.old node (filter has_leg (row_of side row.now))) }
{
    for place in 0..row.len() {
        let leg = row[place].leg(side);
        if is_live(&leg) {
            let end = lists.at(node).len();
            lists.insert(node, end, leg)?;
        }
    }
    Ok(())
}

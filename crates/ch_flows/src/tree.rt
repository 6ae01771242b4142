//! Trees of least paths from a node to higher ones, with the places of the legs that they take.
ghost use Rattle.std.specs.Prelude.{◌≡◌, ◌≢◌, ◌↔◌, ◌+◌, ◌*◌, ◌<◌, ℕ, None, length, IsTrue, IfOk, OnOk, MatchOption};
ghost use Rattle.ch_graph.specs.Cost.{IsBelow, cost_sum};
ghost use Rattle.ch_hierarchy.specs.Side.{other, rows_of};
ghost use Rattle.ch_query.specs.Search.{IsStalled};
ghost use Rattle.ch_query.specs.Spread.{IsSpread};
ghost use Rattle.ch_hierarchy.specs.Hierarchy.{nodes_of};
ghost use Rattle.ch_flows.specs.Layouts.{IsLaid};
ghost use Rattle.ch_flows.specs.Trees.{AreBranches, AreInOrder, AreKept, AreMoreBranches, ArePlaced, AreSlots, IsReach, IsTaken, IsTree, entry_at, step_at};

use crate::gathering::{Branch, Step};
use crate::meeting::{is_below, sum_of};
use crate::plan::Layout;
use ch_graph::Cost;
use ch_hierarchy::{Hierarchy, Leg, Side};
use ch_query::{Scratch, Start, spread};
use std::alloc::{AllocError, Global};

/// The nodes that a source reaches by legs to higher nodes on one side, and the last step of a least path to each.
#[derive(Drop)]
pub(crate) struct Reach {
    pub(crate) source: u32,
    /// The nodes in order, with the costs of least paths.
    pub(crate) entries: Vec<(u32, Cost)>,
    /// For each entry but the source, the step from the least numbered node before it on a least path.
    pub(crate) steps: Vec<Option<Step>>,
}

/// What is known of an entry: the cost of a least path, and which branch is the way back, if that is known.
#[derive(Clone, Copy)]
pub(crate) struct Mark {
    pub(crate) cost: Cost,
    pub(crate) spot: Option<u32>,
}

/// Where routes from or to a source may meet others.
#[derive(Drop)]
pub(crate) struct Tree {
    pub(crate) source: u32,
    /// The nodes in order that the source reaches, but those to which a leg back shows a way that costs less.
    pub(crate) kept: Vec<(u32, Mark)>,
}

/// Where a tree begins, and whether it goes along the legs up or down.
#[derive(Clone, Copy)]
pub(crate) struct Root {
    pub(crate) side: Side,
    pub(crate) source: u32,
}

impl Tree {
    /// Finds the tree of a source, and appends its branches. It takes steps for each node that the source reaches, and for
    /// each leg of these.
    ///
    /// # Errors
    /// `AllocError` if there is no memory.
    pub(crate) fn grow(
        alloc: Global,
        hierarchy: &Hierarchy,
        layout: &Layout,
        scratch: &mut Scratch,
        places: &mut [usize],
        root: Root,
        branches: &mut Vec<Branch>,
    ) -> Result<Tree, AllocError>
        requires laid { IsLaid hierarchy.now layout.now.starts.items layout.now.links.items (2 * nodes_of hierarchy.now) }
        requires scratch { scratch.old ≡ nodes_of hierarchy.now }
        requires places { length places.old ≡ nodes_of hierarchy.now }
        requires source { root.source < nodes_of hierarchy.now }
        ensures tree { IfOk result (λ tree. IsTree root.side hierarchy.now branches.new.items tree) }
        ensures source { IfOk result (λ tree. tree.source ≡ root.source) }
        ensures branches { OnOk result (AreBranches root.side hierarchy.now layout.now.links.items branches.old.items → AreBranches root.side hierarchy.now layout.now.links.items branches.new.items) }
        ensures more { OnOk result (AreMoreBranches branches.old.items branches.new.items) }
        ensures scratch { scratch.new ≡ scratch.old }
        ensures places { length places.new ≡ length places.old }
    {
        let reach = Reach::find(alloc, hierarchy, layout, scratch, places, root)?;
        let kept = kept_of(alloc, hierarchy, root.side, &reach.entries, places)?;
        let kept = reach.marks(alloc, &kept, places, branches)?;
        Ok(Tree {
            source: root.source,
            kept,
        })
    }
}

impl Reach {
    /// Finds what a source reaches, and writes the place of each entry at its node.
    fn find(
        alloc: Global,
        hierarchy: &Hierarchy,
        layout: &Layout,
        scratch: &mut Scratch,
        places: &mut [usize],
        root: Root,
    ) -> Result<Reach, AllocError>
        requires laid { IsLaid hierarchy.now layout.now.starts.items layout.now.links.items (2 * nodes_of hierarchy.now) }
        requires scratch { scratch.old ≡ nodes_of hierarchy.now }
        requires places { length places.old ≡ nodes_of hierarchy.now }
        requires source { root.source < nodes_of hierarchy.now }
        ensures reach { IfOk result (λ reach. IsReach root.side hierarchy.now layout.now.links.items reach) }
        ensures source { IfOk result (λ reach. reach.source ≡ root.source) }
        ensures nodes { IfOk result (λ reach. (k : ℕ) → k < length reach.entries.items → (entry_at reach.entries.items k).0 < nodes_of hierarchy.now) }
        ensures scratch { scratch.new ≡ scratch.old }
        ensures places { length places.new ≡ length places.old }
    {
        let (side, source) = (root.side, root.source);
        let start = Start {
            source,
            side,
            within: None,
        };
        let entries = spread(alloc, hierarchy, scratch, start)?;
        write_places(&entries, places);
        let mut steps = vec![in alloc; None; entries.len()]?;
        take_all(
            hierarchy,
            layout,
            side,
            &entries,
            places,
            steps.as_mut_slice(),
        );
        Ok(Reach {
            source,
            entries,
            steps,
        })
    }
}

/// Writes the place of each entry at its node.
fn write_places(entries: &[(u32, Cost)], places: &mut [usize])
    requires order { AreInOrder entries.now }
    requires nodes { (k : ℕ) → k < length entries.now → (entry_at entries.now k).0 < length places.old }
    ensures long { length places.new ≡ length places.old }
    ensures placed { ArePlaced entries.now (length entries.now) places.new }
{
    for i in 0..entries.len() {
        places[entries[i].0 as usize] = i;
    }
}

/// Returns the place of the entry of a node, if there is one. It may be written at the node.
pub(crate) fn place_of(entries: &[(u32, Cost)], places: &[usize], node: u32) -> Option<usize>
    ensures { MatchOption result (ArePlaced entries.now (length entries.now) places.now → (k : ℕ) → k < length entries.now → (entry_at entries.now k).0 ≢ node) (λ k. (k < length entries.now) × ((entry_at entries.now k).0 ≡ node)) }
{
    let node_place = node as usize;
    if node_place >= places.len() {
        return None;
    }
    let place = places[node_place];
    if place < entries.len() && entries[place].0 == node {
        Some(place)
    } else {
        None
    }
}

/// Returns the entries but those to which a leg back shows a way that costs less.
fn kept_of(
    alloc: Global,
    hierarchy: &Hierarchy,
    side: Side,
    entries: &[(u32, Cost)],
    places: &[usize],
) -> Result<Vec<(u32, Cost)>, AllocError>
    requires order { AreInOrder entries.now }
    requires nodes { (k : ℕ) → k < length entries.now → (entry_at entries.now k).0 < nodes_of hierarchy.now }
    ensures { IfOk result (λ kept. AreKept (rows_of hierarchy.now side) (rows_of hierarchy.now (other side)) entries.now kept.items (length entries.now)) }
{
    let mut kept = Vec::new(alloc);
    for i in 0..entries.len() {
        if !is_stalled(hierarchy, side, entries, places, i) {
            kept.push(entries[i])?;
        }
    }
    Ok(kept)
}

/// Whether a leg back from another entry shows a way to an entry that costs less.
fn is_stalled(
    hierarchy: &Hierarchy,
    side: Side,
    entries: &[(u32, Cost)],
    places: &[usize],
    place: usize,
) -> bool
    requires place { place < length entries.now }
    requires node { (entry_at entries.now place).0 < nodes_of hierarchy.now }
    ensures { IsTrue result → (s : ℕ) → IsSpread (rows_of hierarchy.now side) None s entries.now → IsStalled (rows_of hierarchy.now side) (rows_of hierarchy.now (other side)) s (entry_at entries.now place).0 (entry_at entries.now place).1 }
{
    let legs = hierarchy.legs(side.other(), entries[place].0);
    for k in 0..legs.len() {
        if is_dearer(entries, places, entries[place].1, legs[k]) {
            return true;
        }
    }
    false
}

/// Whether a cost is more than that of the entry at a leg's higher node and the leg.
fn is_dearer(entries: &[(u32, Cost)], places: &[usize], cost: Cost, leg: Leg) -> bool
    ensures { IsTrue result → (j : ℕ) × (j < length entries.now) × ((entry_at entries.now j).0 ≡ leg.node) × IsBelow (cost_sum (entry_at entries.now j).1 leg.cost) cost }
{
    let Some(j) = place_of(entries, places, leg.node) else {
        return false;
    };
    let Some(sum) = sum_of(entries[j].1, leg.cost) else {
        return false;
    };
    is_below(sum, cost)
}

/// Whether the sum of two costs is a third one.
fn is_sum(a: Cost, b: Cost, sum: Cost) -> bool
    ensures { IsTrue result ↔ (cost_sum a b ≡ sum) }
{
    a.weight <= sum.weight
        && sum.weight - a.weight == b.weight
        && a.arcs <= sum.arcs
        && sum.arcs - a.arcs == b.arcs
}

/// Takes the legs of all entries, one after the other.
fn take_all(
    hierarchy: &Hierarchy,
    layout: &Layout,
    side: Side,
    entries: &[(u32, Cost)],
    places: &[usize],
    steps: &mut [Option<Step>],
)
    requires laid { IsLaid hierarchy.now layout.now.starts.items layout.now.links.items (2 * nodes_of hierarchy.now) }
    requires order { AreInOrder entries.now }
    requires placed { ArePlaced entries.now (length entries.now) places.now }
    requires nodes { (k : ℕ) → k < length entries.now → (entry_at entries.now k).0 < nodes_of hierarchy.now }
    requires long { length steps.old ≡ length entries.now }
    requires none { (k : ℕ) → k < length entries.now → step_at steps.old k ≡ None }
    ensures long { length steps.new ≡ length steps.old }
    ensures slots { AreSlots side hierarchy.now layout.now.links.items entries.now (length entries.now) steps.new }
{
    for j in 0..entries.len() {
        take_legs(hierarchy, layout, side, entries, places, j, steps);
    }
}

/// Takes each leg of an entry.
fn take_legs(
    hierarchy: &Hierarchy,
    layout: &Layout,
    side: Side,
    entries: &[(u32, Cost)],
    places: &[usize],
    place: usize,
    steps: &mut [Option<Step>],
)
    requires laid { IsLaid hierarchy.now layout.now.starts.items layout.now.links.items (2 * nodes_of hierarchy.now) }
    requires order { AreInOrder entries.now }
    requires placed { ArePlaced entries.now (length entries.now) places.now }
    requires place { place < length entries.now }
    requires node { (entry_at entries.now place).0 < nodes_of hierarchy.now }
    requires long { length steps.old ≡ length entries.now }
    ensures long { length steps.new ≡ length steps.old }
    ensures slots { AreSlots side hierarchy.now layout.now.links.items entries.now place steps.old → AreSlots side hierarchy.now layout.now.links.items entries.now (place + 1) steps.new }
{
    let node = entries[place].0;
    let legs = hierarchy.legs(side, node);
    for k in 0..legs.len() {
        let leg_place = layout.spot(hierarchy, side, node, k);
        take_leg(entries, places, place, legs[k], leg_place, steps);
    }
}

/// Takes a leg of an entry: if it is the last one of a least path to another entry that has no step yet, it gives
/// this step.
fn take_leg(
    entries: &[(u32, Cost)],
    places: &[usize],
    place: usize,
    leg: Leg,
    leg_place: usize,
    steps: &mut [Option<Step>],
)
    requires order { AreInOrder entries.now }
    requires placed { ArePlaced entries.now (length entries.now) places.now }
    requires place { place < length entries.now }
    requires long { length steps.old ≡ length entries.now }
    ensures long { length steps.new ≡ length steps.old }
    ensures taken { (i : ℕ) → i < length entries.now → IsTaken entries.now place leg leg_place i (step_at steps.old i) (step_at steps.new i) }
{
    let Some(to) = place_of(entries, places, leg.node) else {
        return;
    };
    if steps[to].is_some() {
        return;
    }
    if !is_sum(entries[place].1, leg.cost, entries[to].1) {
        return;
    }
    steps[to] = Some(Step {
        before: place,
        leg_place,
    });
}

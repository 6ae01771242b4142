//! The legs of a hierarchy in one list, from the highest node down.
ghost use Rattle.std.specs.Prelude.{◌≡◌, ◌≢◌, ◌<◌, ◌*◌, ◌++◌, [], ◌∷◌, ℕ, length, map, Contains, IfOk, MatchOption, None, OnOk, Some};
ghost use Rattle.ch_hierarchy.specs.declared.leg.Leg.{Leg as RowLeg};
ghost use Rattle.ch_hierarchy.specs.Hierarchy.{nodes_of};
ghost use Rattle.ch_hierarchy.specs.Rows.{IsRow, row};
ghost use Rattle.ch_query.specs.Distance.{IsKeptForSome};
ghost use Rattle.ch_hierarchy.specs.Side.{rows_of};
ghost use Rattle.ch_flows.specs.Layouts.{IsLaid, IsPartOf, IsPlaceOf, IsSpot, leg_on, link_of, place_of};
ghost use Rattle.ch_query.specs.Unpacking.{IsPending};
ghost use Rattle.ch_flows.specs.declared.handing.Halves.{Halves as AnyHalves};
ghost use Rattle.ch_flows.specs.Handing.{part_at};
ghost use Rattle.ch_flows.specs.Links.{from_of, link_at, to_of};
ghost use Rattle.ch_flows.specs.Plans.{IsLegPlace, IsPlan};

use crate::handing::Halves;
use ch_hierarchy::{Hierarchy, Leg, Side};
use ch_query::PendingLeg;
use std::alloc::{AllocError, Global};

/// A leg with the lower of its two nodes.
#[derive(Debug, Clone, Copy)]
pub struct Link {
    /// Whether the leg leads up from the lower node, or down to it.
    pub side: Side,
    /// The lower node.
    pub low: u32,
    /// The leg in the lower node's row.
    pub leg: Leg,
}

impl Link {
    /// The node from which the leg leads.
    pub fn from(self) -> u32
        ensures { result ≡ from_of self }
    {
        match self.side {
            Side::Up => self.low,
            Side::Down => self.leg.node,
        }
    }

    /// The node to which the leg leads.
    pub fn to(self) -> u32
        ensures { result ≡ to_of self }
    {
        match self.side {
            Side::Up => self.leg.node,
            Side::Down => self.low,
        }
    }
}

/// All legs of a hierarchy: those of higher nodes first, and those up of a node before those down.
#[derive(Drop)]
pub struct Layout {
    /// Where the legs of each rank and direction begin, at [`Side::state`].
    pub(crate) starts: Vec<usize>,
    pub(crate) links: Vec<Link>,
}

/// Lists all legs of a hierarchy.
///
/// # Errors
/// `AllocError` if there is no memory.
pub(crate) fn lay_out(alloc: Global, hierarchy: &Hierarchy) -> Result<Layout, AllocError>
    ensures { IfOk result (λ layout. IsLaid hierarchy.now layout.starts.items layout.links.items (2 * nodes_of hierarchy.now)) }
{
    let mut starts = Vec::new(alloc);
    let mut links = Vec::new(alloc);
    for rank in 0..hierarchy.nodes() {
        let node = hierarchy.node_at(rank);
        push_row(hierarchy, Side::Up, node, &mut starts, &mut links)?;
        push_row(hierarchy, Side::Down, node, &mut starts, &mut links)?;
    }
    Ok(Layout { starts, links })
}

/// Appends the legs of a node in a direction.
fn push_row(
    hierarchy: &Hierarchy,
    side: Side,
    node: u32,
    starts: &mut Vec<usize>,
    links: &mut Vec<Link>,
) -> Result<(), AllocError>
    requires { node < nodes_of hierarchy.now }
    ensures starts { OnOk result (starts.new.items ≡ starts.old.items ++ length links.old.items ∷ []) }
    ensures links { OnOk result (links.new.items ≡ links.old.items ++ map (link_of side node) (row (rows_of hierarchy.now side) node)) }
{
    starts.push(links.len())?;
    let legs = hierarchy.legs(side, node);
    for k in 0..legs.len() {
        links.push(Link {
            side,
            low: node,
            leg: legs[k],
        })?;
    }
    Ok(())
}

/// The legs of a hierarchy, and for each leg the places of the two legs that it stands for.
#[derive(Drop)]
pub struct Plan {
    /// The legs.
    pub(crate) layout: Layout,
    /// For each leg the places of the two legs that it stands for, or `None` if it is an arc.
    pub(crate) parts: Vec<Option<Halves>>,
}

/// Finds the two legs that each leg stands for. It takes two binary searches for each leg.
///
/// # Errors
/// `AllocError` if there is no memory.
pub fn make_plan(alloc: Global, hierarchy: &Hierarchy) -> Result<Plan, AllocError>
    requires { IsKeptForSome hierarchy.now }
    ensures laid { IfOk result (λ plan. IsLaid hierarchy.now plan.layout.starts.items plan.layout.links.items (2 * nodes_of hierarchy.now)) }
    ensures plan { IfOk result (λ plan. IsPlan hierarchy.now plan.layout.links.items plan.parts.items) }
{
    let layout = lay_out(alloc, hierarchy)?;
    let mut parts = Vec::new(alloc);
    for i in 0..layout.links.len() {
        parts.push(layout.halves(hierarchy, i))?;
    }
    Ok(Plan { layout, parts })
}

impl Plan {
    /// Returns the number of legs.
    pub fn legs(&self) -> usize
        ensures { result ≡ length self.now.parts.items }
    {
        self.parts.len()
    }

    /// Returns the nodes from which and to which the arc at a place leads, or `None` if the leg there stands for two others.
    pub fn arc(&self, place: usize) -> Option<(u32, u32)>
        requires place { place < length self.now.parts.items }
        requires long { length self.now.layout.links.items ≡ length self.now.parts.items }
        ensures { MatchOption result ((two : AnyHalves) × (part_at self.now.parts.items place ≡ Some two)) (λ ends. (part_at self.now.parts.items place ≡ None) × (ends.0 ≡ from_of (link_at self.now.layout.links.items place)) × (ends.1 ≡ to_of (link_at self.now.layout.links.items place))) }
    {
        match self.parts[place] {
            Some(_) => None,
            None => {
                let link = self.layout.links[place];
                Some((link.from(), link.to()))
            }
        }
    }
}

impl Layout {
    /// Returns the places of the two legs that a leg stands for, or `None` if it is an arc.
    fn halves(&self, hierarchy: &Hierarchy, place: usize) -> Option<Halves>
        requires kept { IsKeptForSome hierarchy.now }
        requires laid { IsLaid hierarchy.now self.now.starts.items self.now.links.items (2 * nodes_of hierarchy.now) }
        requires place { place < length self.now.links.items }
        ensures { IsPartOf self.now.links.items place result }
    {
        let link = self.links[place];
        let Some(middle) = link.leg.middle else {
            return None;
        };
        let first = self.place(hierarchy, Side::Down, middle, link.from());
        let second = self.place(hierarchy, Side::Up, middle, link.to());
        Some(Halves { first, second })
    }

    /// Returns the place of a leg of the hierarchy.
    pub(crate) fn leg_place(&self, hierarchy: &Hierarchy, leg: PendingLeg) -> usize
        requires laid { IsLaid hierarchy.now self.now.starts.items self.now.links.items (2 * nodes_of hierarchy.now) }
        requires kept { IsKeptForSome hierarchy.now }
        requires leg { IsPending hierarchy.now leg }
        ensures { IsLegPlace hierarchy.now self.now.links.items leg result }
    {
        if hierarchy.level(leg.from) < hierarchy.level(leg.to) {
            self.place(hierarchy, Side::Up, leg.from, leg.to)
        } else {
            self.place(hierarchy, Side::Down, leg.to, leg.from)
        }
    }

    /// Returns the place of the leg of a node to or from another one, which it has.
    fn place(&self, hierarchy: &Hierarchy, side: Side, low: u32, node: u32) -> usize
        requires laid { IsLaid hierarchy.now self.now.starts.items self.now.links.items (2 * nodes_of hierarchy.now) }
        requires low { low < nodes_of hierarchy.now }
        requires has { (l : RowLeg) × Contains (row (rows_of hierarchy.now side) low) l × (l.node ≡ node) }
        ensures { IsPlaceOf hierarchy.now self.now.starts.items side low node result }
    {
        match place_in(hierarchy.legs(side, low), node) {
            Some(k) => self.spot(hierarchy, side, low, k),
            None => unreachable!(),
        }
    }

    /// Returns the place of leg `k` of a node's row.
    pub(crate) fn spot(&self, hierarchy: &Hierarchy, side: Side, low: u32, k: usize) -> usize
        requires laid { IsLaid hierarchy.now self.now.starts.items self.now.links.items (2 * nodes_of hierarchy.now) }
        requires low { low < nodes_of hierarchy.now }
        requires leg { k < length (row (rows_of hierarchy.now side) low) }
        ensures spot { IsSpot hierarchy.now (2 * nodes_of hierarchy.now) side low k }
        ensures place { result ≡ place_of hierarchy.now self.now.starts.items side low k }
    {
        self.starts[side.state(hierarchy.rank(low)) as usize] + k
    }
}

/// Returns the place of the leg at a node, if there is one, by binary search.
fn place_in(legs: &[Leg], node: u32) -> Option<usize>
    requires { IsRow legs.now }
    ensures { MatchOption result ((k : ℕ) → k < length legs.now → (leg_on legs.now k).node ≢ node) (λ k. (k < length legs.now) × ((leg_on legs.now k).node ≡ node)) }
{
    match legs.binary_search_by_key(&node, |leg| leg.node) {
        Ok(place) => Some(place),
        Err(_) => None,
    }
}

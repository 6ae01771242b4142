//! Shortcuts of a hub that are counted without a search.
//!
//! A neighbour is near a node if each of its other legs weighs more than twice as much as its leg to the node. So a leaf is near its only
//! neighbour. Two near neighbours have a shortcut, because each chain between them that avoids the node weighs more.
ghost use Rattle.std.specs.Prelude.{◌≢◌, ℕ, ◌+◌, ◌*◌, ◌<◌, ◌≤◌, if◌then◌else◌, All, IfSome, IsTrue};
ghost use Rattle.ch_graph.specs.declared.limits.TheConstants.{MOST_WEIGHT};
ghost use Rattle.ch_contract.specs.LegRows.{AreLegsFrom, AreLegsTo};
ghost use Rattle.ch_contract.specs.Measures.{IsMeasureUpTo};
ghost use Rattle.ch_contract.specs.Near.{AreNear, seen_from};
ghost use Rattle.ch_contract.specs.Remaining.{legs_of};

use crate::leg_lists::End;
use crate::measure::Measure;
use crate::remaining::Remaining;
use ch_graph::Cost;
use ch_graph::limits::MOST_WEIGHT;
use ch_hierarchy::Leg;

impl Remaining {
    /// Returns the number of shortcuts of `v` between near neighbours, and the number of legs that touch `v`, if these shortcuts
    /// are more than `most`. It searches for no witness, and looks at no more neighbours than it needs. If `v` has no more pairs of
    /// legs, as most nodes of roads do, it looks at none.
    pub(crate) fn near_measure(&self, v: u32, most: u64) -> Option<Measure>
        requires { v < self.now.nodes }
        ensures { (h : ℕ) → IfSome result (IsMeasureUpTo most self.now.nodes h (legs_of self.now) v) }
    {
        if self.pairs(v) <= most {
            return None;
        }
        let first = self.count_near(End::First, v, most);
        let second = self.count_near(End::Second, v, most);
        let others = second.saturating_sub(1);
        let shortcuts = first as u64 * others as u64;
        if shortcuts <= most {
            return None;
        }
        let legs = self.count_touching(v);
        let measure = Measure { shortcuts, legs };
        Some(measure)
    }

    /// Returns how many neighbours of `v` are near it, where legs are seen from this end, or fewer if so many at both ends have
    /// more than `most` shortcuts.
    fn count_near(&self, end: End, v: u32, most: u64) -> u32
        requires { v < self.now.nodes }
        ensures { AreNear self.now.nodes (seen_from end (legs_of self.now)) v result }
    {
        let nodes = self.nodes();
        let legs = self.legs_into(end, v);
        let mut count = 0;
        for leg in legs {
            if are_enough(count, most) {
                return count;
            }
            let row = self.legs_from(end, leg.node);
            let near = is_near(nodes, v, *leg, row);
            count = one_more(count, near);
        }
        count
    }

    /// Returns the legs from `v`, seen from this end.
    fn legs_from(&self, end: End, v: u32) -> &[Leg]
        requires { v < self.now.nodes }
        ensures { AreLegsFrom (seen_from end (legs_of self.now)) v result.now }
    {
        match end {
            End::First => self.out_legs(v),
            End::Second => self.in_legs(v),
        }
    }

    /// Returns the legs to `v`, seen from this end.
    fn legs_into(&self, end: End, v: u32) -> &[Leg]
        requires { v < self.now.nodes }
        ensures { AreLegsTo (seen_from end (legs_of self.now)) v result.now }
    {
        match end {
            End::First => self.in_legs(v),
            End::Second => self.out_legs(v),
        }
    }
}

/// Whether so many near neighbours at both ends have more than `most` shortcuts.
fn are_enough(count: u32, most: u64) -> bool {
    let others = count.saturating_sub(1);
    count as u64 * others as u64 > most
}

/// Returns the count with one more, if that is wanted.
fn one_more(count: u32, is_wanted: bool) -> u32
    ensures { result ≤ (if is_wanted then count + 1 else count) }
{
    if is_wanted {
        count.saturating_add(1)
    } else {
        count
    }
}

/// Whether a neighbour is near `v`. It has this leg to `v`, and these legs altogether.
fn is_near(nodes: u32, v: u32, leg: Leg, legs: &[Leg]) -> bool
    ensures weight { IsTrue result → 2 * leg.cost.weight ≤ MOST_WEIGHT }
    ensures arcs { IsTrue result → 2 * leg.cost.arcs < nodes }
    ensures away { IsTrue result → All (λ l. l.node ≢ v → 2 * leg.cost.weight < l.cost.weight) legs.now }
{
    keeps_limits(nodes, leg.cost) && lead_away(v, leg.cost.weight, legs)
}

/// Whether the sum of two costs that are at most this keeps the limits.
fn keeps_limits(nodes: u32, cost: Cost) -> bool
    ensures weight { IsTrue result → 2 * cost.weight ≤ MOST_WEIGHT }
    ensures arcs { IsTrue result → 2 * cost.arcs < nodes }
{
    cost.weight <= MOST_WEIGHT / 2 && cost.arcs < nodes as u64 / 2
}

/// Whether each of these legs leads to `v` or weighs more than twice as much as this.
fn lead_away(v: u32, weight: u64, legs: &[Leg]) -> bool
    ensures { IsTrue result → All (λ l. l.node ≢ v → 2 * weight < l.cost.weight) legs.now }
{
    for leg in legs {
        if !leads_away(v, weight, *leg) {
            return false;
        }
    }
    true
}

/// Whether a leg leads to `v` or weighs more than twice as much as this.
fn leads_away(v: u32, weight: u64, leg: Leg) -> bool
    ensures { IsTrue result → leg.node ≢ v → 2 * weight < leg.cost.weight }
{
    leg.node == v || leg.cost.weight / 2 > weight
}

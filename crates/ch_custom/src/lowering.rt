//! A row of legs, lowered over a node.
ghost use Rattle.std.specs.Prelude.{◌≡◌, ℕ, ◌+◌, ◌<◌, ◌≤◌, All, length, slice_index_or};
ghost use Rattle.ch_hierarchy.specs.declared.side.Side.{Side as AnySide};
ghost use Rattle.ch_custom.specs.declared.leg_pair.LegPair.{LegPair as AnyPair};
ghost use Rattle.ch_custom.specs.declared.leg_pair.TheConstants.{NO_MIDDLE};
ghost use Rattle.ch_graph.specs.declared.limits.TheConstants.{MOST_WEIGHT};
ghost use Rattle.ch_custom.specs.Metric.{IsHeld};
ghost use Rattle.ch_custom.specs.LegPairs.{leg_at, row_of, AreHeld, IsLowered, IsPairLowered, IsReady, ArePairsLowered};

use crate::leg_pair::{Held, LegPair};
use ch_graph::Cost;
use ch_graph::limits::MOST_WEIGHT;

/// Lowers a leg to the sum of two legs, if that is within the limits and cheaper. Then `middle` becomes its middle.
#[inline]
pub(crate) fn lower(nodes: u32, middle: u32, first: Held, second: Held, leg: &mut Held)
    requires middle { middle < NO_MIDDLE }
    requires first { first.weight ≤ MOST_WEIGHT + 1 }
    requires second { second.weight ≤ MOST_WEIGHT + 1 }
    requires leg { IsHeld (leg_at 0 leg.old) }
    ensures leg { IsLowered nodes middle (leg_at 0 first) (leg_at 0 second) (leg_at 0 leg.old) (leg_at 0 leg.new) }
    ensures held { IsHeld (leg_at 0 leg.new) }
{
    let cost = Cost {
        weight: first.weight + second.weight,
        arcs: u64::from(first.arcs) + u64::from(second.arcs),
    };
    let before = Cost {
        weight: leg.weight,
        arcs: u64::from(leg.arcs),
    };
    if cost < before && cost.weight <= MOST_WEIGHT && cost.arcs < u64::from(nodes) {
        leg.weight = cost.weight;
        leg.arcs = cost.arcs as u32;
        leg.middle = middle;
    }
}

/// Lowers the legs of a pair in both directions over `middle`: with the legs of `one` to or from `middle`, and with
/// those of `other`.
#[inline]
fn lower_pair(nodes: u32, middle: u32, one: &LegPair, other: &LegPair, pair: &mut LegPair)
    requires middle { middle < nodes }
    requires one { AreHeld one.now }
    requires other { AreHeld other.now }
    requires pair { AreHeld pair.old }
    ensures node { pair.new.node ≡ pair.old.node }
    ensures legs { IsPairLowered nodes middle one.now other.now pair.old pair.new }
    ensures held { AreHeld pair.new }
{
    lower(nodes, middle, one.down, other.up, &mut pair.up);
    lower(nodes, middle, one.up, other.down, &mut pair.down);
}

/// Returns the first place from `from` on whose pair has at least this node, or the length of the row.
#[inline]
pub(crate) fn first_from(row: &[LegPair], from: usize, node: u32) -> usize
    requires from { from ≤ length row.now }
    ensures later { from ≤ result }
    ensures within { result ≤ length row.now }
    ensures before { (k : ℕ) (d : AnyPair) → from ≤ k → k < result → (slice_index_or row.now k d).node < node }
    ensures after { (d : AnyPair) → result < length row.now → node ≤ (slice_index_or row.now result d).node }
{
    let mut place = from;
    while place < row.len() && row[place].node < node {
        place += 1;
    }
    place
}

/// Lowers each leg of a row over `middle`, in both directions: to the sum of the leg of `one` and the leg of `others`
/// to the same node, if there is one. Both rows are walked once.
pub(crate) fn lower_row(
    nodes: u32,
    middle: u32,
    one: &LegPair,
    others: &[LegPair],
    row: &mut [LegPair],
)
    requires middle { middle < nodes }
    requires one { AreHeld one.now }
    requires others { IsReady others.now }
    requires row { IsReady row.old }
    ensures lowered { ArePairsLowered nodes middle one.now others.now row.old row.new }
    ensures held { (side : AnySide) → All IsHeld (row_of side row.new) }
{
    let mut place = 0;
    for next in 0..others.len() {
        let node = others[next].node;
        place = first_from(row, place, node);
        if place < row.len() && row[place].node == node {
            lower_pair(nodes, middle, one, &others[next], &mut row[place]);
            place += 1;
        }
    }
}

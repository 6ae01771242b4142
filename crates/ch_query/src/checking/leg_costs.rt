//! The costs of legs, found in the rows of their lower nodes.
ghost use Rattle.std.specs.Prelude.{◌<◌, ◌↔◌, IsTrue};
ghost use Rattle.ch_hierarchy.specs.Hierarchy.{nodes_of, IsLevelled};
ghost use Rattle.ch_hierarchy.specs.Rows.{IsRow};
ghost use Rattle.ch_query.specs.Checking.{HasLeg, IsRowCost, IsLegCost};

use ch_graph::Cost;
use ch_hierarchy::{Hierarchy, Leg};

/// Returns the cost of the leg of the row at `node`, if there is one, by binary search.
pub(crate) fn cost_in_row(row: &[Leg], node: u32) -> Option<Cost>
    requires { IsRow row.now }
    ensures { IsRowCost row.now node result }
{
    match row.binary_search_by_key(&node, |leg| leg.node) {
        Ok(place) => Some(row[place].cost),
        Err(_) => None,
    }
}

/// Returns the cost of the leg from `start` to `end`, if there is one. It is in a row of the lower of the
/// two nodes.
fn leg_cost(hierarchy: &Hierarchy, start: u32, end: u32) -> Option<Cost>
    requires start { start < nodes_of hierarchy.now }
    requires end { end < nodes_of hierarchy.now }
    ensures cost { IsLegCost hierarchy.now start end result }
    ensures levelled { IsLevelled hierarchy.now }
{
    if hierarchy.level(start) < hierarchy.level(end) {
        cost_in_row(hierarchy.up(start), end)
    } else {
        cost_in_row(hierarchy.down(end), start)
    }
}

/// Whether a leg leads from `start` to `end` and costs at most `most`.
pub(crate) fn is_leg_within(hierarchy: &Hierarchy, start: u32, end: u32, most: Cost) -> bool
    requires start { start < nodes_of hierarchy.now }
    requires end { end < nodes_of hierarchy.now }
    ensures within { IsTrue result ↔ HasLeg hierarchy.now start end most }
    ensures levelled { IsLevelled hierarchy.now }
{
    match leg_cost(hierarchy, start, end) {
        Some(cost) => !most.is_below(cost),
        None => false,
    }
}

//! The distance between two nodes.
ghost use Rattle.std.specs.Prelude.{◌≡◌, ◌<◌};
ghost use Rattle.ch_hierarchy.specs.Hierarchy.{nodes_of};
ghost use Rattle.ch_query.specs.Distance.{IsKeptForSome, IsDistanceBy, IsLeastWeight};

use crate::scratch::Scratch;
use ch_hierarchy::Hierarchy;

/// Returns the least weight of a walk from `start` to `end`, or `None` if there is no walk. The hierarchy
/// is right for some graph, and the scratch has room for its number of nodes.
///
/// It searches from both ends by weights alone. It settles nodes in order of weight until no unsettled node
/// can lower the best sum. It does not expand a node if a higher node shows a lighter way to it ("stall on
/// demand", Geisberger, Sanders, Schultes and Delling 2008).
///
/// It takes no memory. The number of steps grows with the part of the graph that it reaches, not with the
/// number of nodes.
pub fn distance(hierarchy: &Hierarchy, scratch: &mut Scratch, start: u32, end: u32) -> Option<u64>
    requires kept { IsKeptForSome hierarchy.now }
    requires scratch { scratch.old ≡ nodes_of hierarchy.now }
    requires start { start < nodes_of hierarchy.now }
    requires end { end < nodes_of hierarchy.now }
    ensures distance { IsDistanceBy hierarchy.now start end result }
    ensures least { IsLeastWeight hierarchy.now start end result }
    ensures scratch { scratch.new ≡ scratch.old }
{
    scratch.weights.least_weight(hierarchy, start, end)
}

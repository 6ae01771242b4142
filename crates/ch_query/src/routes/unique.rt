//! The route between two nodes by a search by weights alone, where no other path has the least weight. Then it is the
//! route, whatever the rules of choice are.
ghost use Rattle.std.specs.Prelude.{◌≡◌, ◌*◌, ◌<◌, length, true, [], IfOk};
ghost use Rattle.ch_hierarchy.specs.Hierarchy.{nodes_of};
ghost use Rattle.ch_query.specs.Descents.{IsTraced};
ghost use Rattle.ch_query.specs.Distance.{IsKeptForSome};
ghost use Rattle.ch_query.specs.Marks.{HasWayBack, IsMarkedWay};
ghost use Rattle.ch_query.specs.Ways.{IsFirstTry};
ghost use Rattle.ch_query.specs.Weights.{IsCleanFor};

use super::descent::directed;
use super::legs::leg_at;
use super::unpacking::PendingLeg;
use crate::weights::marked::{LeastSum, TIED};
use crate::weights::search::WeightSearch;
use ch_graph::UNREACHED;
use ch_hierarchy::{Hierarchy, Side};
use std::alloc::AllocError;

/// What a search by weights alone finds out about the route between two nodes.
#[derive(Clone, Copy)]
pub(crate) enum FirstTry {
    /// There is no walk.
    NoWalk,
    /// The route is the only path of least weight, which is this.
    Unique(u64),
    /// Two paths of least weight may be there, so that the rules of choice decide.
    Tied,
}

/// Searches by weights alone, and lists the legs of the route from the last one to the first if no other path has the
/// least weight. It has room for two marks for each node. If there is a tie, the list has some legs.
///
/// # Errors
/// `AllocError` if there is no memory for the legs. The search is clean afterwards.
pub(crate) fn try_weights(
    hierarchy: &Hierarchy,
    search: &mut WeightSearch,
    marks: &mut [u32],
    start: u32,
    end: u32,
    legs: &mut Vec<PendingLeg>,
) -> Result<FirstTry, AllocError>
    requires kept { IsKeptForSome hierarchy.now }
    requires clean { IsCleanFor (nodes_of hierarchy.now) search.old }
    requires count { length marks.old ≡ 2 * nodes_of hierarchy.now }
    requires start { start < nodes_of hierarchy.now }
    requires end { end < nodes_of hierarchy.now }
    ensures legs { IfOk result (λ first. IsFirstTry hierarchy.now start end first legs.new.items) }
    ensures clean { IsCleanFor (nodes_of hierarchy.now) search.new }
    ensures count { length marks.new ≡ length marks.old }
{
    legs.clear();
    let least = search.least_marked(marks, hierarchy, start, end);
    list_marked(hierarchy, marks, start, end, least, legs)
}

/// Lists the legs of the ways back from the node of the least sum, in an empty list.
fn list_marked(
    hierarchy: &Hierarchy,
    marks: &[u32],
    start: u32,
    end: u32,
    least: LeastSum,
    legs: &mut Vec<PendingLeg>,
) -> Result<FirstTry, AllocError>
    requires kept { IsKeptForSome hierarchy.now }
    requires end { end < nodes_of hierarchy.now }
    requires way { IsMarkedWay hierarchy.now start end marks.now least }
    requires empty { legs.old.items ≡ [] }
    ensures { IfOk result (λ first. IsFirstTry hierarchy.now start end first legs.new.items) }
{
    if least.weight == UNREACHED {
        return Ok(FirstTry::NoWalk);
    }
    if least.rank == TIED {
        return Ok(FirstTry::Tied);
    }
    let node = hierarchy.node_at(least.rank);
    if !descend_marked(hierarchy, marks, Side::Down, end, node, legs)? {
        return Ok(FirstTry::Tied);
    }
    legs.reverse();
    if !descend_marked(hierarchy, marks, Side::Up, start, node, legs)? {
        return Ok(FirstTry::Tied);
    }
    Ok(FirstTry::Unique(least.weight))
}

/// Appends the legs of the steps from `meet` back to the source, as the marks lead. Returns whether no mark on the way
/// says that there is a tie.
fn descend_marked(
    hierarchy: &Hierarchy,
    marks: &[u32],
    side: Side,
    source: u32,
    meet: u32,
    legs: &mut Vec<PendingLeg>,
) -> Result<bool, AllocError>
    requires kept { IsKeptForSome hierarchy.now }
    requires count { length marks.now ≡ 2 * nodes_of hierarchy.now }
    requires back { HasWayBack hierarchy.now side source meet marks.now }
    ensures { IfOk result (λ is_unique. is_unique ≡ true → IsTraced hierarchy.now side source meet legs.old.items legs.new.items) }
{
    let mut node = meet;
    while node != source {
        let mark = marks[side.state(hierarchy.rank(node)) as usize];
        if mark == TIED {
            return Ok(false);
        }
        let low = hierarchy.node_at(mark);
        let leg = leg_at(hierarchy.legs(side, low), node);
        legs.push(directed(side, low, leg))?;
        node = low;
    }
    Ok(true)
}

//! Routes by the tree.
ghost use Rattle.std.specs.Prelude.{◌≡◌, ◌<◌, length, IfOk, MatchOption, ⊤};
ghost use Rattle.ch_hierarchy.specs.Hierarchy.{nodes_of};
ghost use Rattle.ch_hierarchy.specs.Paths.{NeverMeets};
ghost use Rattle.ch_query.specs.Distance.{IsKeptForSome};
ghost use Rattle.ch_query.specs.Routes.{IsRoute, IsRouteBy};
ghost use Rattle.ch_tree.specs.Ancestors.{AreRanksAbove};
ghost use Rattle.ch_tree.specs.Tree.{AreFalling, IsTree};

use ch_hierarchy::Hierarchy;
use ch_query::{Route, Scratch, route_by_ancestors};
use std::alloc::{AllocError, Global};

/// Returns the route from `start` to `end`, or `None` if there is no walk: the same as [`ch_query::route`] returns. The
/// hierarchy is right for some graph, `parents` is a tree for it, and the scratch space is for its number of nodes.
///
/// It takes a step for each leg of each ancestor of the two nodes, and has no queue.
///
/// # Errors
/// `AllocError` if there is no memory for the ancestors or the arcs, or for the two sides of a scratch that has none yet.
/// The scratch can still be used.
pub fn route(
    alloc: Global,
    hierarchy: &Hierarchy,
    parents: &[u32],
    scratch: &mut Scratch,
    start: u32,
    end: u32,
) -> Result<Option<Route>, AllocError>
    requires kept { IsKeptForSome hierarchy.now }
    requires tree { IsTree hierarchy.now parents.now }
    requires scratch { scratch.old ≡ nodes_of hierarchy.now }
    requires start { start < nodes_of hierarchy.now }
    requires end { end < nodes_of hierarchy.now }
    ensures route { IfOk result (λ answer. MatchOption answer (NeverMeets hierarchy.now start end) (IsRoute hierarchy.now start end)) }
    ensures walk { IfOk result (IsRouteBy hierarchy.now start end) }
    ensures few { IfOk result (λ answer. MatchOption answer ⊤ (λ route. length route.arcs < nodes_of hierarchy.now)) }
    ensures scratch { scratch.new ≡ scratch.old }
{
    let ups = ancestors(alloc, parents, hierarchy.rank(start) + 1)?;
    let downs = ancestors(alloc, parents, hierarchy.rank(end) + 1)?;
    let (first, second) = (ups.as_slice(), downs.as_slice());
    route_by_ancestors(alloc, hierarchy, scratch, start, end, first, second)
}

/// Returns the ranks of the ancestors of the node at this place, from its own to the highest.
fn ancestors(alloc: Global, parents: &[u32], first: u32) -> Result<Vec<u32>, AllocError>
    requires falls { AreFalling parents.now }
    requires first { first < length parents.now }
    ensures { IfOk result (λ ranks. AreRanksAbove parents.now first ranks.items) }
{
    let mut ranks = Vec::new(alloc);
    let mut place = first;
    while place > 0 {
        ranks.push(place - 1)?;
        place = parents[place as usize];
    }
    Ok(ranks)
}

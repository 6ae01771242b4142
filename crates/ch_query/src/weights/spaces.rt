//! Search spaces: searches by weights that stall, and run until no node is left.
ghost use Rattle.std.specs.Prelude.{◌≡◌, ◌<◌, ◌≤◌, IfOk, OnOk};
ghost use Rattle.ch_graph.specs.declared.limits.TheConstants.{MOST_WEIGHT};
ghost use Rattle.ch_hierarchy.specs.Hierarchy.{nodes_of};
ghost use Rattle.ch_query.specs.declared.question.Ends.{Ends as AnyEnds};
ghost use Rattle.ch_query.specs.Distance.{IsKeptForSome};
ghost use Rattle.ch_query.specs.Search.{IsEmpty};
ghost use Rattle.ch_query.specs.SearchSpace.{IsRankedSpace};
ghost use Rattle.ch_query.specs.Weights.{side_keys, source_of, IsWeighingOn, HasBegunOn, AreUnstalledOn, IsCleanFor};

use super::search::WeightSearch;
use crate::question::Ends;
use crate::scratch::Scratch;
use crate::start::{Start, most_within};
use ch_hierarchy::{Hierarchy, Side};
use std::alloc::{AllocError, Global};

impl WeightSearch {
    /// Puts a node into a clean search on this side. Afterwards the search has begun there, for each limit.
    fn begin_on(&mut self, hierarchy: &Hierarchy, side: Side, source: u32)
        requires clean { IsCleanFor (nodes_of hierarchy.now) self.old }
        requires source { source < nodes_of hierarchy.now }
        ensures { (ends : AnyEnds) → source_of ends side ≡ source → ends.most ≤ MOST_WEIGHT → HasBegunOn hierarchy.now ends side self.new }
    {
        self.reach(side.state(hierarchy.rank(source)), 0);
    }

    /// Settles all nodes that can be reached on this side, except those that are reached only through
    /// stalled nodes. Afterwards `found` has the ranks and weights of the nodes where the search did not
    /// stall.
    fn explore(
        &mut self,
        hierarchy: &Hierarchy,
        ends: Ends,
        side: Side,
        found: &mut Vec<(u32, u64)>,
    ) -> Result<(), AllocError>
        requires begun { HasBegunOn hierarchy.now ends side self.old }
        ensures weighing { IsWeighingOn hierarchy.now ends side self.new }
        ensures done { OnOk result (IsEmpty (side_keys hierarchy.now side self.new)) }
        ensures unstalled { OnOk result (AreUnstalledOn hierarchy.now ends side self.new found.new.items) }
    {
        found.clear();
        while let Some((weight, state)) = self.queue.pop() {
            let rank = state / 2;
            if self.settle(hierarchy, ends, side, rank, weight) {
                found.push((rank, weight))?;
            }
        }
        Ok(())
    }

    /// Gathers the search space of this start, by ranks, in `found`. The search is clean afterwards, even if
    /// memory ran out.
    pub(super) fn gather(
        &mut self,
        hierarchy: &Hierarchy,
        found: &mut Vec<(u32, u64)>,
        start: Start,
    ) -> Result<(), AllocError>
        requires kept { IsKeptForSome hierarchy.now }
        requires clean { IsCleanFor (nodes_of hierarchy.now) self.old }
        requires source { start.source < nodes_of hierarchy.now }
        ensures space { OnOk result (IsRankedSpace hierarchy.now start.side start.within start.source found.new.items) }
        ensures clean { IsCleanFor (nodes_of hierarchy.now) self.new }
    {
        let ends = Ends {
            start: start.source,
            end: start.source,
            most: most_within(start.within),
        };
        self.begin_on(hierarchy, start.side, start.source);
        let explored = self.explore(hierarchy, ends, start.side, found);
        self.clean();
        explored
    }
}

/// Returns the search space of this start by ranks, as [`ranked_spaces`](crate::ranked_spaces) says of each node.
///
/// # Errors
/// `AllocError` if there is no memory for the list.
pub(crate) fn ranked_space(
    alloc: Global,
    hierarchy: &Hierarchy,
    scratch: &mut Scratch,
    start: Start,
) -> Result<Vec<(u32, u64)>, AllocError>
    requires kept { IsKeptForSome hierarchy.now }
    requires scratch { scratch.old ≡ nodes_of hierarchy.now }
    requires source { start.source < nodes_of hierarchy.now }
    ensures space { IfOk result (λ list. IsRankedSpace hierarchy.now start.side start.within start.source list.items) }
    ensures scratch { scratch.new ≡ scratch.old }
{
    let Scratch { weights, found, .. } = scratch;
    weights.gather(hierarchy, found, start)?;
    // `found` keeps its room for the next search. The copy takes the memory of its entries alone.
    Vec::from_slice(alloc, found)
}

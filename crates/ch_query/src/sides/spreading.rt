//! Searches without a target.
ghost use Rattle.std.specs.Prelude.{◌≡◌, ◌<◌, ℕ, List, IfOk, OnOk, map};
ghost use Rattle.ch_hierarchy.specs.Hierarchy.{nodes_of, IsLevelled};
ghost use Rattle.ch_hierarchy.specs.Side.{rows_of};
ghost use Rattle.ch_query.specs.Search.{IsEmpty};
ghost use Rattle.ch_query.specs.ByNode.{costs_of};
ghost use Rattle.ch_query.specs.Underway.{IsUnderway, IsUnderwayBySome, IsClean};
ghost use Rattle.ch_query.specs.Spread.{IsSpread, AreReached, entry};

use super::search::Search;
use crate::question::Question;
use crate::scratch::Scratch;
use crate::start::{Start, most_within};
use ch_graph::Cost;
use ch_hierarchy::Hierarchy;
use std::alloc::{AllocError, Global};

impl Search {
    /// Settles all nodes that can be reached, except those that are reached only through stalled nodes.
    fn explore(&mut self, hierarchy: &Hierarchy, question: Question)
        requires underway { IsUnderway hierarchy.now question self.old }
        ensures underway { IsUnderway hierarchy.now question self.new }
        ensures done { IsEmpty self.new.queue }
    {
        while let Some((cost, rank)) = self.queue.pop() {
            self.settle(hierarchy, question, hierarchy.node_at(rank), rank, cost);
        }
    }

    /// Returns the touched nodes, in order.
    fn touched_nodes(&self, alloc: Global, hierarchy: &Hierarchy) -> Result<Vec<u32>, AllocError>
        requires underway { IsUnderwayBySome hierarchy.now self.now }
        ensures { IfOk result (λ nodes. AreReached (costs_of hierarchy.now self.now) nodes.items) }
    {
        let mut nodes = Vec::with_capacity(alloc, self.touched.len())?;
        for rank in &self.touched {
            nodes.push_reserved(hierarchy.node_at(*rank));
        }
        nodes.sort_unstable();
        Ok(nodes)
    }

    /// Returns the touched nodes with their costs, in order of node.
    fn listed(&self, alloc: Global, hierarchy: &Hierarchy) -> Result<Vec<(u32, Cost)>, AllocError>
        requires underway { IsUnderwayBySome hierarchy.now self.now }
        ensures { IfOk result (λ list. (nodes : List ℕ) × AreReached (costs_of hierarchy.now self.now) nodes × (list.items ≡ map (entry (costs_of hierarchy.now self.now)) nodes)) }
    {
        let nodes = self.touched_nodes(alloc, hierarchy)?;
        let mut list = Vec::with_capacity(alloc, nodes.len())?;
        for node in &nodes {
            if let Some(cost) = self.labels.get(hierarchy.rank(*node)) {
                list.push_reserved((*node, cost));
            }
        }
        Ok(list)
    }

    /// Returns all least costs from the source within the limit. The search is clean afterwards, even if
    /// memory ran out.
    fn spread(
        &mut self,
        alloc: Global,
        hierarchy: &Hierarchy,
        start: Start,
    ) -> Result<Vec<(u32, Cost)>, AllocError>
        requires clean { IsClean (nodes_of hierarchy.now) self.old }
        requires source { start.source < nodes_of hierarchy.now }
        ensures spread { IfOk result (λ list. IsSpread (rows_of hierarchy.now start.side) start.within start.source list.items) }
        ensures clean { IsClean (nodes_of hierarchy.now) self.new }
        ensures levelled { IsLevelled hierarchy.now }
    {
        let question = Question {
            side: start.side,
            source: start.source,
            stalls: false,
            most: most_within(start.within),
        };
        self.begin(hierarchy, start.source);
        self.explore(hierarchy, question);
        let list = self.listed(alloc, hierarchy);
        self.clean();
        list
    }
}

/// Returns the nodes that the source reaches by legs to higher nodes in the direction of the start, with the
/// least costs of the paths, in order of node.
///
/// With a limit `within`, these are the nodes whose least path weighs at most that. The search then takes
/// no leg that makes a path heavier.
///
/// # Errors
/// `AllocError` if there is no memory for the list, or for the two sides of a scratch that has none yet.
pub fn spread(
    alloc: Global,
    hierarchy: &Hierarchy,
    scratch: &mut Scratch,
    start: Start,
) -> Result<Vec<(u32, Cost)>, AllocError>
    requires scratch { scratch.old ≡ nodes_of hierarchy.now }
    requires source { start.source < nodes_of hierarchy.now }
    ensures spread { IfOk result (λ list. IsSpread (rows_of hierarchy.now start.side) start.within start.source list.items) }
    ensures scratch { scratch.new ≡ scratch.old }
    ensures levelled { OnOk result (IsLevelled hierarchy.now) }
{
    let mut sides = scratch.take_sides(alloc)?;
    let list = sides.up.spread(alloc, hierarchy, start);
    scratch.put_sides(sides);
    list
}

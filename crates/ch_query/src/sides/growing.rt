//! The trees of searches that stall, and run until no node is left.
ghost use Rattle.std.specs.Prelude.{◌≡◌, ◌<◌, true, false, All, OnOk};
ghost use Rattle.ch_hierarchy.specs.Hierarchy.{nodes_of};
ghost use Rattle.ch_hierarchy.specs.Ranked.{rank_of};
ghost use Rattle.ch_query.specs.Distance.{IsKeptForSome};
ghost use Rattle.ch_query.specs.Meeting.{IsFresh};
ghost use Rattle.ch_query.specs.Search.{IsEmpty};
ghost use Rattle.ch_query.specs.SearchTree.{AreKnownNodes, AreUnstalled, IsSearchTree};
ghost use Rattle.ch_query.specs.Questions.{stalling};
ghost use Rattle.ch_query.specs.Underway.{count_unsettled_in, idle_of, IsClean, IsExpandingAt, IsUnderway, IsUnderwayBySome, KeepsSettled};

use super::search::Search;
use crate::question::Question;
use crate::scratch::Scratch;
use ch_graph::Cost;
use ch_graph::limits::MOST_WEIGHT;
use ch_hierarchy::{Hierarchy, Side};
use std::alloc::{AllocError, Global};

/// A node that a search reached and did not stall at.
#[derive(Clone, Copy)]
pub struct TreeNode {
    /// The node.
    pub node: u32,
    /// The cost of a path between the source and the node.
    pub cost: Cost,
    /// The least numbered node before it on such a path. Of the source it means nothing.
    pub parent: u32,
}

impl Search {
    /// Takes the legs of the node that was settled last, unless a higher node shows a cheaper way to it. Returns whether it
    /// took them.
    fn settle_open(
        &mut self,
        hierarchy: &Hierarchy,
        question: Question,
        node: u32,
        rank: u32,
        cost: Cost,
    ) -> bool
        requires expanding { IsExpandingAt hierarchy.now question self.old node cost }
        requires rank { rank ≡ rank_of hierarchy.now node }
        requires stalls { question.stalls ≡ true }
        ensures underway { IsUnderway hierarchy.now question self.new }
        ensures settled { KeepsSettled hierarchy.now self.old self.new }
        ensures measure { count_unsettled_in hierarchy.now self.new ≡ count_unsettled_in hierarchy.now self.old }
        ensures stalled { result ≡ false → idle_of hierarchy.now question node cost }
    {
        if self.is_stalled(hierarchy, question, node, rank, cost) {
            return false;
        }
        self.expand(hierarchy, question, node, rank, cost);
        true
    }

    /// Settles all nodes that can be reached, except those that are reached only through stalled nodes. Afterwards
    /// `found` has the ranks of the nodes where the search did not stall, in the order in which they were settled.
    fn explore_open(
        &mut self,
        hierarchy: &Hierarchy,
        question: Question,
        found: &mut Vec<u32>,
    ) -> Result<(), AllocError>
        requires underway { IsUnderway hierarchy.now question self.old }
        requires stalls { question.stalls ≡ true }
        requires unstalled { AreUnstalled hierarchy.now question self.old found.old.items }
        ensures underway { IsUnderway hierarchy.now question self.new }
        ensures done { OnOk result (IsEmpty self.new.queue) }
        ensures unstalled { OnOk result (AreUnstalled hierarchy.now question self.new found.new.items) }
    {
        while let Some((cost, rank)) = self.queue.pop() {
            let node = hierarchy.node_at(rank);
            if self.settle_open(hierarchy, question, node, rank, cost) {
                found.push(rank)?;
            }
        }
        Ok(())
    }

    /// Lists the nodes of these ranks with what the search knows of them, in place of an earlier list.
    fn list_known(
        &self,
        hierarchy: &Hierarchy,
        ranks: &[u32],
        tree: &mut Vec<TreeNode>,
    ) -> Result<(), AllocError>
        requires underway { IsUnderwayBySome hierarchy.now self.now }
        requires ranks { All (λ rank. rank < nodes_of hierarchy.now) ranks.now }
        ensures { OnOk result (AreKnownNodes hierarchy.now self.now ranks.now tree.new.items) }
    {
        tree.clear();
        tree.reserve(ranks.len())?;
        for i in 0..ranks.len() {
            let rank = ranks[i];
            let Some(cost) = self.labels.get(rank) else {
                continue;
            };
            let node = hierarchy.node_at(rank);
            let parent = self.labels.parent(rank);
            tree.push(TreeNode { node, cost, parent })?;
        }
        Ok(())
    }

    /// Finds the tree of the source of a search that has just begun.
    fn find_tree(
        &mut self,
        alloc: Global,
        hierarchy: &Hierarchy,
        side: Side,
        source: u32,
        tree: &mut Vec<TreeNode>,
    ) -> Result<(), AllocError>
        requires kept { IsKeptForSome hierarchy.now }
        requires underway { IsUnderway hierarchy.now (stalling side source) self.old }
        requires fresh { IsFresh hierarchy.now self.old }
        ensures underway { IsUnderway hierarchy.now (stalling side source) self.new }
        ensures tree { OnOk result (IsSearchTree hierarchy.now side source tree.new.items) }
    {
        let question = Question {
            side,
            source,
            stalls: true,
            most: MOST_WEIGHT,
        };
        let mut ranks = Vec::new(alloc);
        self.explore_open(hierarchy, question, &mut ranks)?;
        self.list_known(hierarchy, &ranks, tree)
    }

    /// Finds the tree of a source. The search is clean afterwards, even if memory ran out.
    fn grow(
        &mut self,
        alloc: Global,
        hierarchy: &Hierarchy,
        side: Side,
        source: u32,
        tree: &mut Vec<TreeNode>,
    ) -> Result<(), AllocError>
        requires kept { IsKeptForSome hierarchy.now }
        requires clean { IsClean (nodes_of hierarchy.now) self.old }
        requires source { source < nodes_of hierarchy.now }
        ensures tree { OnOk result (IsSearchTree hierarchy.now side source tree.new.items) }
        ensures clean { IsClean (nodes_of hierarchy.now) self.new }
    {
        self.begin(hierarchy, source);
        let found = self.find_tree(alloc, hierarchy, side, source, tree);
        self.clean();
        found
    }
}

/// Writes the tree of a search from a source along legs to higher nodes, in place of an earlier one, in the order in
/// which the nodes were settled. So the parent of a node comes before it.
///
/// The search is one side of that for a [`route`](crate::route), but goes on until no node is left. If a higher node
/// shows a cheaper way to a node, that node has no place in the tree ("stall on demand", Geisberger, Sanders, Schultes
/// and Delling 2008). Each node whose least path is a least walk of the graph has one, and going from such a node to its
/// parent, and so on, is the way that a route takes.
///
/// # Errors
/// `AllocError` if there is no memory. The scratch can still be used.
pub fn search_tree(
    alloc: Global,
    hierarchy: &Hierarchy,
    scratch: &mut Scratch,
    side: Side,
    source: u32,
    tree: &mut Vec<TreeNode>,
) -> Result<(), AllocError>
    requires kept { IsKeptForSome hierarchy.now }
    requires scratch { scratch.old ≡ nodes_of hierarchy.now }
    requires source { source < nodes_of hierarchy.now }
    ensures tree { OnOk result (IsSearchTree hierarchy.now side source tree.new.items) }
    ensures scratch { scratch.new ≡ scratch.old }
{
    let mut sides = scratch.take_sides(alloc)?;
    let grown = sides.up.grow(alloc, hierarchy, side, source, tree);
    scratch.put_sides(sides);
    grown
}

//! Search trees of many sources and targets, so that the sums along the routes of many pairs take few searches.
ghost use Rattle.std.specs.Prelude.{◌≡◌, ◌<◌, ℕ, List, Some, IfOk, MatchOption, true, ⊤};
ghost use Rattle.std.specs.List.Sorted.{IsStrictlyIncreasing};
ghost use Rattle.ch_hierarchy.specs.Hierarchy.{LevelsAndLegs, nodes_of};
ghost use Rattle.ch_hierarchy.specs.declared.side.Side.{Side as AnySide};
ghost use Rattle.ch_engine.specs.Held.{only};
ghost use Rattle.ch_engine.specs.LegSums.{AreKeptSums};
ghost use Rattle.ch_engine.specs.Lines.{IsOfSome, Lines};
ghost use Rattle.ch_engine.specs.PlaceTrees.{AreNodeTrees, ArePairTrees};
ghost use Rattle.ch_engine.specs.RouteSums.{IsPairSum};
ghost use Rattle.ch_engine.specs.TableSums.{AreBranches};

use crate::engine::Engine;
use crate::leg_sums::KeptSums;
use crate::network::Network;
use crate::place_trees::PlaceTrees;
use crate::source_tree::SourceTree;
use crate::sum_meets::known_meeting;
use crate::sum_trees::{Branch, TreeRoom};
use ch_hierarchy::Side;
use ch_query::Scratch;
use std::alloc::{AllocError, Global};

/// The search trees of some nodes on one side.
#[derive(Drop)]
pub(crate) struct NodeTrees {
    /// The nodes in order, each once.
    nodes: Vec<u32>,
    /// The tree of the node at each place in this order.
    trees: PlaceTrees,
}

/// The trees up from sources and those down to targets.
#[derive(Drop)]
pub(crate) struct PairTrees {
    ups: NodeTrees,
    downs: NodeTrees,
    /// The source whose tree is by node, if there is one.
    source: Option<u32>,
    pub(crate) tree: SourceTree,
}

impl Engine {
    /// Finds the trees of sources and of targets, each in order, with these sums along all legs, if there is memory for them.
    pub(crate) fn pair_trees(
        &mut self,
        alloc: Global,
        kept: &KeptSums,
        sources: Vec<u32>,
        targets: Vec<u32>,
    ) -> Option<PairTrees>
        requires kept { AreKeptSums self.old.hierarchy self.old.lines kept.now }
        ensures trees { MatchOption result ⊤ (ArePairTrees self.old.hierarchy self.old.lines kept.now.values.items) }
        ensures same { self.new ≡ self.old }
    {
        let nodes = self.nodes();
        let kept_tree = match self.source_tree.take() {
            Some(tree) => Ok(tree),
            None => SourceTree::new(alloc, nodes),
        };
        let Ok(tree) = kept_tree else {
            return None;
        };
        let Ok(()) = TreeRoom::keep(alloc, &mut self.trees, nodes) else {
            return None;
        };
        let Some(room) = &mut self.trees else {
            return None;
        };
        let Ok(ups) = self
            .network
            .node_trees(alloc, &mut self.scratch, kept, Side::Up, sources, room)
        else {
            return None;
        };
        let Ok(downs) = self
            .network
            .node_trees(alloc, &mut self.scratch, kept, Side::Down, targets, room)
        else {
            return None;
        };
        Some(PairTrees {
            ups,
            downs,
            source: None,
            tree,
        })
    }
}

impl Network {
    /// Finds the trees of nodes on one side.
    ///
    /// # Errors
    /// `AllocError` if there is no memory.
    fn node_trees(
        &self,
        alloc: Global,
        scratch: &mut Scratch,
        kept: &KeptSums,
        side: Side,
        nodes: Vec<u32>,
        room: &mut TreeRoom,
    ) -> Result<NodeTrees, AllocError>
        requires scratch { scratch.old ≡ nodes_of self.now.0 }
        requires kept { AreKeptSums self.now.0 self.now.1 kept.now }
        ensures trees { IfOk result (AreNodeTrees side self.now.0 self.now.1 kept.now.values.items) }
        ensures scratch { scratch.new ≡ scratch.old }
    {
        let mut trees = PlaceTrees::new(alloc, nodes.len())?;
        for i in 0..nodes.len() {
            let node = nodes[i];
            if node >= self.hierarchy().nodes() {
                continue;
            }
            self.find_branches(alloc, scratch, kept, side, node, room)?;
            trees.push(i, &room.branches)?;
        }
        Ok(NodeTrees { nodes, trees })
    }
}

impl PairTrees {
    /// Returns the weight of the route of a pair and the sum along it, or `None` if the trees do not tell it.
    pub(crate) fn sum(&mut self, source: u32, target: u32) -> Option<(u64, u64)>
        ensures trees { (H : LevelsAndLegs) (lines : Lines) (values : List ℕ) → ArePairTrees H lines values self.old → ArePairTrees H lines values self.new }
        ensures sum { (H : LevelsAndLegs) (lines : Lines) (values : List ℕ) → ArePairTrees H lines values self.old → IsOfSome H lines → target < nodes_of H → MatchOption result ⊤ (λ found. IsPairSum (only H lines) values source target found.0 found.1) }
    {
        if !self.note(source) {
            return None;
        }
        let Some(branches) = self.downs.branches(target) else {
            return None;
        };
        known_meeting(self.tree.first_meeting(branches))
    }

    /// Puts the tree of a source in order of node, unless it is so already. Returns whether there is one.
    fn note(&mut self, source: u32) -> bool
        ensures trees { (H : LevelsAndLegs) (lines : Lines) (values : List ℕ) → ArePairTrees H lines values self.old → ArePairTrees H lines values self.new }
        ensures noted { result ≡ true → self.new.source ≡ Some source }
    {
        if self.source == Some(source) {
            return true;
        }
        self.source = None;
        let Some(branches) = self.ups.branches(source) else {
            return false;
        };
        let Ok(()) = self.tree.note(branches) else {
            return false;
        };
        self.source = Some(source);
        true
    }
}

impl NodeTrees {
    /// Returns the branches of the tree of a node, if there is one.
    fn branches(&self, node: u32) -> Option<&[Branch]>
        ensures { (side : AnySide) (H : LevelsAndLegs) (lines : Lines) (values : List ℕ) → AreNodeTrees side H lines values self.now → MatchOption result ⊤ (λ branches. AreBranches side H lines values node branches.now) }
    {
        let Ok(place) = self.nodes.binary_search(&node) else {
            return None;
        };
        if place >= self.nodes.len() || self.nodes[place] != node {
            return None;
        }
        self.trees.branches(place)
    }
}

/// Returns the different numbers of a list, in order.
pub(crate) fn different(alloc: Global, nodes: &[u32]) -> Result<Vec<u32>, AllocError>
    ensures { IfOk result (λ list. IsStrictlyIncreasing list.items) }
{
    let mut list = Vec::from_slice(alloc, nodes)?;
    list.sort_unstable();
    list.dedup();
    Ok(list)
}

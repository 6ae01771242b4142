//! Search trees with the sums of values along their legs.
ghost use Rattle.std.specs.Prelude.{◌≡◌, ◌≢◌, ◌<◌, ℕ, List, slice_index, Contains, IsSome, OnOk};
ghost use Rattle.ch_hierarchy.specs.Hierarchy.{nodes_of};
ghost use Rattle.ch_query.specs.Distance.{IsKeptForSome};
ghost use Rattle.ch_query.specs.SearchTree.{IsSearchTree};
ghost use Rattle.ch_engine.specs.LegSums.{AreKeptSums, AreLegSums, unknown};
ghost use Rattle.ch_engine.specs.Lines.{Lines};
ghost use Rattle.ch_engine.specs.TableSums.{AreBranches, IsSumBack};
ghost use Rattle.ch_engine.specs.declared.sum_trees.Branch.{Branch as AnyBranch};

use crate::leg_sums::{KeptSums, LegSums, UNKNOWN, joined};
use crate::network::Network;
use ch_graph::Cost;
use ch_hierarchy::{Hierarchy, Side};
use ch_query::{Scratch, TreeNode, search_tree};
use std::alloc::{AllocError, Global};

/// A node of a search tree, with the sum of the values on the way between it and the source.
#[derive(Clone, Copy)]
pub(crate) struct Branch {
    pub(crate) node: u32,
    /// The cost of a path between the source and the node.
    pub(crate) cost: Cost,
    /// The sum, or [`UNKNOWN`].
    pub(crate) sum: u64,
}

/// What is needed for one search tree after the other. An engine keeps it from call to call.
#[derive(Drop)]
pub(crate) struct TreeRoom {
    /// The tree that was found last.
    tree: Vec<TreeNode>,
    /// By node, where its branch may be. Only a branch of this node is one, so places of earlier trees do no harm.
    places: Vec<usize>,
    /// The branches of the tree that was found last.
    pub(crate) branches: Vec<Branch>,
}

impl TreeRoom {
    /// Makes room for trees in a network of `nodes` nodes, unless there is room already.
    ///
    /// # Errors
    /// `AllocError` if there is no memory. Then there is none.
    pub(crate) fn keep(
        alloc: Global,
        kept: &mut Option<TreeRoom>,
        nodes: u32,
    ) -> Result<(), AllocError>
        ensures { OnOk result (IsSome kept.new) }
    {
        if kept.is_some() {
            return Ok(());
        }
        let places = vec![in alloc; 0; nodes as usize]?;
        *kept = Some(TreeRoom {
            tree: Vec::new(alloc),
            places,
            branches: Vec::new(alloc),
        });
        Ok(())
    }
}

impl Network {
    /// Finds the branches of a node on a side, in place of those of an earlier one.
    ///
    /// # Errors
    /// `AllocError` if there is no memory.
    pub(crate) fn find_branches(
        &self,
        alloc: Global,
        scratch: &mut Scratch,
        kept: &KeptSums,
        side: Side,
        source: u32,
        room: &mut TreeRoom,
    ) -> Result<(), AllocError>
        requires scratch { scratch.old ≡ nodes_of self.now.0 }
        requires source { source < nodes_of self.now.0 }
        requires kept { AreKeptSums self.now.0 self.now.1 kept.now }
        ensures branches { OnOk result (AreBranches side self.now.0 self.now.1 kept.now.values.items source room.new.branches.items) }
        ensures scratch { scratch.new ≡ scratch.old }
    {
        let hierarchy = self.hierarchy();
        let TreeRoom {
            tree,
            places,
            branches,
        } = room;
        search_tree(alloc, hierarchy, scratch, side, source, tree)?;
        sum_branches(hierarchy, &kept.sums, side, source, tree, places, branches)
    }
}

/// Adds up the sums of the nodes of a tree, in place of earlier branches.
fn sum_branches(
    hierarchy: &Hierarchy,
    sums: &LegSums,
    side: Side,
    source: u32,
    tree: &[TreeNode],
    places: &mut [usize],
    branches: &mut Vec<Branch>,
) -> Result<(), AllocError>
    requires kept { IsKeptForSome hierarchy.now }
    requires tree { IsSearchTree hierarchy.now side source tree.now }
    ensures { OnOk result ((lines : Lines) (values : List ℕ) → AreLegSums hierarchy.now lines values sums.now → AreBranches side hierarchy.now lines values source branches.new.items) }
{
    branches.clear();
    branches.reserve(tree.len())?;
    for i in 0..tree.len() {
        let entry = tree[i];
        let sum = sum_back(hierarchy, sums, side, source, entry, places, branches);
        branches.push(Branch {
            node: entry.node,
            cost: entry.cost,
            sum,
        })?;
        note_place(places, entry.node, i);
    }
    Ok(())
}

/// Returns the sum on the way back from a node of a tree, or [`UNKNOWN`] if the branches do not tell.
fn sum_back(
    hierarchy: &Hierarchy,
    sums: &LegSums,
    side: Side,
    source: u32,
    entry: TreeNode,
    places: &[usize],
    branches: &[Branch],
) -> u64
    requires kept { IsKeptForSome hierarchy.now }
    ensures { (lines : Lines) (values parents : List ℕ) → AreLegSums hierarchy.now lines values sums.now → entry.parent ≡ slice_index parents entry.node → ((e : AnyBranch) → Contains branches.now e → IsSumBack side hierarchy.now lines values source parents e.node e.sum) → IsSumBack side hierarchy.now lines values source parents entry.node result }
{
    if entry.node == source {
        return 0;
    }
    if entry.parent >= hierarchy.nodes() || entry.node >= hierarchy.nodes() {
        return UNKNOWN;
    }
    let here = sums.word_by_rank(hierarchy, side, entry.parent, entry.node);
    joined(here, sum_at(places, branches, entry.parent))
}

/// Returns the sum of the branch of a node, or [`UNKNOWN`] if there is none at its place.
fn sum_at(places: &[usize], branches: &[Branch], node: u32) -> u64
    ensures { result ≢ unknown → (e : AnyBranch) × Contains branches.now e × (e.node ≡ node) × (e.sum ≡ result) }
{
    if node as usize >= places.len() {
        return UNKNOWN;
    }
    let place = places[node as usize];
    if place >= branches.len() || branches[place].node != node {
        return UNKNOWN;
    }
    branches[place].sum
}

/// Notes the place of a node's branch.
fn note_place(places: &mut [usize], node: u32, place: usize) {
    if (node as usize) < places.len() {
        places[node as usize] = place;
    }
}

//! The scratch space of distances by the tree.
ghost use Rattle.std.specs.Prelude.{◌≡◌, ◌<◌, IfOk};
ghost use Rattle.ch_hierarchy.specs.Hierarchy.{nodes_of};
ghost use Rattle.ch_query.specs.Distance.{IsKeptForSome, IsDistanceBy, IsLeastWeight};
ghost use Rattle.ch_query.specs.SearchSpace.{IsRankedSpace};
ghost use Rattle.ch_tree.specs.Tree.{IsTree};

use crate::query::distance_between;
use crate::spaces::space_with;
use crate::sweep::NEVER;
use ch_hierarchy::Hierarchy;
use ch_query::Start;
use std::alloc::{AllocError, Global};
use std::marker::Model;

/// Scratch space for distances by the tree in a hierarchy with a fixed number of nodes. Contracts see that number.
///
/// It serves any number of queries, one after another. Each leaves it clean, in a step for each ancestor of its two nodes.
#[derive(Drop)]
pub struct TreeScratch {
    /// The costs of going up from the first node, by rank.
    ups: Vec<u64>,
    /// The costs of going down to the second node, by rank.
    downs: Vec<u64>,
}

impl Model for TreeScratch {
    ghost use Rattle.std.specs.Prelude.{ℕ, length};
    ghost use Rattle.ch_tree.specs.Tree.{IsClean};

    ghost Value = { ℕ };

    ghost view = { λ s. length s.ups.items };

    ghost invariant = { λ s. IsClean (length s.ups.items) s.ups.items × IsClean (length s.ups.items) s.downs.items };
}

impl TreeScratch {
    /// Makes scratch space for distances among `nodes` nodes. It takes 16 bytes for each node.
    ///
    /// # Errors
    /// `AllocError` if there is no memory.
    pub fn new(alloc: Global, nodes: u32) -> Result<TreeScratch, AllocError>
        ensures { IfOk result (λ s. s ≡ nodes) }
    {
        let ups = vec![in alloc; NEVER; nodes as usize]?;
        let downs = vec![in alloc; NEVER; nodes as usize]?;
        Ok(TreeScratch { ups, downs })
    }
}

/// Returns the least weight of a walk from `start` to `end`, or `None` if there is no walk. The hierarchy is right for
/// some graph, `parents` is a tree for it, and the scratch space is for its number of nodes.
///
/// It takes a step for each leg of each ancestor of the two nodes, but for those of common ancestors whose cost is at
/// least the least sum of those below them. It takes no memory.
pub fn distance(
    hierarchy: &Hierarchy,
    parents: &[u32],
    scratch: &mut TreeScratch,
    start: u32,
    end: u32,
) -> Option<u64>
    requires kept { IsKeptForSome hierarchy.now }
    requires tree { IsTree hierarchy.now parents.now }
    requires scratch { scratch.old ≡ nodes_of hierarchy.now }
    requires start { start < nodes_of hierarchy.now }
    requires end { end < nodes_of hierarchy.now }
    ensures distance { IsDistanceBy hierarchy.now start end result }
    ensures least { IsLeastWeight hierarchy.now start end result }
    ensures scratch { scratch.new ≡ scratch.old }
{
    let TreeScratch { ups, downs } = scratch;
    distance_between(hierarchy, parents, ups, downs, start, end)
}

/// Returns the search space of this start: the ranks of the ancestors that it reaches by legs to higher nodes in this
/// direction, with the least weights of paths, but for those to which a leg from a higher node shows a lighter way. The legs of
/// an ancestor that weighs more than the limit are left out. Such spaces serve as those of
/// [`ranked_spaces`](ch_query::ranked_spaces).
///
/// # Errors
/// `AllocError` if there is no memory for the list.
pub fn ranked_space(
    alloc: Global,
    hierarchy: &Hierarchy,
    parents: &[u32],
    scratch: &mut TreeScratch,
    start: Start,
) -> Result<Vec<(u32, u64)>, AllocError>
    requires kept { IsKeptForSome hierarchy.now }
    requires tree { IsTree hierarchy.now parents.now }
    requires scratch { scratch.old ≡ nodes_of hierarchy.now }
    requires source { start.source < nodes_of hierarchy.now }
    ensures space { IfOk result (λ list. IsRankedSpace hierarchy.now start.side start.within start.source list.items) }
    ensures scratch { scratch.new ≡ scratch.old }
{
    let TreeScratch { ups, .. } = scratch;
    space_with(alloc, hierarchy, parents, ups, start)
}

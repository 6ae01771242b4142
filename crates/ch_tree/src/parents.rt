//! The tree of a topology: above each node stands the first node of its row.
ghost use Rattle.std.specs.Prelude.{◌≡◌, ℕ, ◌+◌, ◌<◌, ◌≤◌, Contains, IfOk, length, slice_index};
ghost use Rattle.ch_graph.specs.declared.limits.TheConstants.{MOST_NODES};
ghost use Rattle.ch_hierarchy.specs.Saved.{AreLevelsOf};
ghost use Rattle.ch_custom.specs.Customizing.{AreClosed, IsTopology};
ghost use Rattle.ch_custom.specs.Topologies.{IsSound, IsCustomized};
ghost use Rattle.ch_tree.specs.Tree.{IsTree};
ghost use Rattle.ch_tree.specs.Parents.{IsHighest, AreParentsIn, AreParentsOf, IsTreeOf, IsTreeOfPruned};

use ch_custom::Topology;
use ch_graph::{Graph, Rows};
use ch_hierarchy::Hierarchy;
use std::alloc::{AllocError, Global};

/// Returns the place above each place: 0 above a root, and for the node of each other rank the rank of its parent and one
/// more. No weight changes it.
///
/// # Errors
/// `AllocError` if there is no memory for the list.
pub fn tree_of(alloc: Global, topology: &Topology) -> Result<Vec<u32>, AllocError>
    requires closed { AreClosed (length topology.now.pairs) topology.now.order topology.now.pairs }
    ensures parents { IfOk result (λ parents. AreParentsIn topology.now parents.items) }
    ensures fits { IfOk result (λ parents. IsTreeOf topology.now parents.items) }
    ensures pruned { IfOk result (λ parents. IsTreeOfPruned topology.now parents.items) }
{
    places_above(alloc, topology.order(), topology.levels(), topology.rows())
}

/// Returns the tree of a topology, which is one for this hierarchy that was customized in it.
///
/// # Errors
/// `AllocError` if there is no memory for the list.
pub fn tree_for(
    alloc: Global,
    topology: &Topology,
    graph: &Graph,
    hierarchy: &Hierarchy,
) -> Result<Vec<u32>, AllocError>
    requires nodes { length topology.now.pairs ≡ graph.now.nodes }
    requires topology { IsTopology graph.now topology.now.order topology.now.pairs }
    requires hierarchy { IsCustomized graph.now topology.now.order hierarchy.now }
    ensures { IfOk result (λ parents. IsTree hierarchy.now parents.items) }
{
    let _nodes = hierarchy.nodes() == graph.nodes();
    tree_of(alloc, topology)
}

/// Returns the place above each place of these rows.
fn places_above(
    alloc: Global,
    order: &[u32],
    levels: &[u32],
    rows: &Rows<u32>,
) -> Result<Vec<u32>, AllocError>
    requires sound { IsSound (record { order = order.now; pairs = rows.now }) }
    requires levels { AreLevelsOf order.now levels.now }
    requires closed { AreClosed (length rows.now) order.now rows.now }
    ensures { IfOk result (λ parents. AreParentsOf (length rows.now) order.now rows.now parents.items) }
{
    let mut parents = vec![in alloc; 0u32; 1]?;
    for place in 0..order.len() {
        let node = order[order.len() - 1 - place];
        parents.push(highest(levels, rows.row(node)))?;
    }
    Ok(parents)
}

/// Returns the place of the node of a row that comes first in the order, or 0 if the row is empty.
fn highest(levels: &[u32], row: &[u32]) -> u32
    requires count { length levels.now ≤ MOST_NODES }
    requires levels { (y : ℕ) → Contains row.now y → (y < length levels.now) × (slice_index levels.now y ≤ length levels.now) }
    ensures { IsHighest levels.now row.now (length row.now) result }
{
    let mut most = 0;
    for place in 0..row.len() {
        most = most.max(levels.len() as u32 + 1 - levels[row[place] as usize]);
    }
    most
}

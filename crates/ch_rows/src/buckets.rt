//! Buckets: at each node the targets that it reaches, or the sources that reach it.
ghost use Rattle.std.specs.Prelude.{◌≡◌, ◌<◌, ◌≤◌, [], length, map, slice_index_or, All, IfOk};
ghost use Rattle.ch_graph.specs.declared.limits.TheConstants.{MOST_LISTED};
ghost use Rattle.ch_hierarchy.specs.Hierarchy.{nodes_of};
ghost use Rattle.ch_hierarchy.specs.Side.{rows_of};
ghost use Rattle.ch_rows.specs.Buckets.{AreBuckets, HoldLists, IsReach};
ghost use Rattle.ch_rows.specs.Dealing.{dealt, item_of};

use crate::dealing::Dealing;
use crate::spaces::gathered;
use ch_graph::Rows;
use ch_hierarchy::{Hierarchy, Side};
use ch_query::{Scratch, Start, spread};
use std::alloc::{AllocError, Global};
use std::marker::Model;

/// For each node, the targets that it reaches by going down, or the sources that reach it by going up.
///
/// An entry is a place in the list of targets or sources and the least weight of such a path. The entries
/// of a node are in order of place. With a limit, only weights of at most that have entries.
#[derive(Debug, Drop)]
pub struct Buckets {
    rows: Rows<(u32, u64)>,
}

impl Model for Buckets {
    ghost use Rattle.std.specs.Prelude.{ℕ, List};

    ghost Value = { List (List (ℕ × ℕ)) };

    ghost view = { λ b. b.rows };
}

impl Buckets {
    /// Makes the buckets of the targets. With a limit `within`, they hold only weights of at most that. A
    /// target that occurs more than once has an entry for each of its places.
    ///
    /// # Errors
    /// `AllocError` if there is no memory.
    pub fn fill(
        alloc: Global,
        hierarchy: &Hierarchy,
        targets: &[u32],
        within: Option<u64>,
    ) -> Result<Buckets, AllocError>
        requires targets { All (λ t. t < nodes_of hierarchy.now) targets.now }
        requires count { length targets.now ≤ MOST_LISTED }
        ensures { IfOk result (AreBuckets hierarchy.now.down within targets.now) }
    {
        Buckets::fill_side(alloc, hierarchy, targets, Side::Down, within)
    }

    /// Makes the buckets of the sources: for each node the sources that reach it by going up. With a limit
    /// `within`, they hold only weights of at most that. A source that occurs more than once has an entry
    /// for each of its places.
    ///
    /// # Errors
    /// `AllocError` if there is no memory.
    pub fn fill_up(
        alloc: Global,
        hierarchy: &Hierarchy,
        sources: &[u32],
        within: Option<u64>,
    ) -> Result<Buckets, AllocError>
        requires sources { All (λ s. s < nodes_of hierarchy.now) sources.now }
        requires count { length sources.now ≤ MOST_LISTED }
        ensures { IfOk result (AreBuckets hierarchy.now.up within sources.now) }
    {
        Buckets::fill_side(alloc, hierarchy, sources, Side::Up, within)
    }

    /// Makes the buckets of these nodes, from their paths to higher nodes in this direction.
    fn fill_side(
        alloc: Global,
        hierarchy: &Hierarchy,
        nodes: &[u32],
        side: Side,
        within: Option<u64>,
    ) -> Result<Buckets, AllocError>
        requires nodes { All (λ x. x < nodes_of hierarchy.now) nodes.now }
        requires count { length nodes.now ≤ MOST_LISTED }
        ensures { IfOk result (AreBuckets (rows_of hierarchy.now side) within nodes.now) }
    {
        let mut scratch = Scratch::new(alloc, hierarchy.nodes())?;
        let mut lists = Vec::new(alloc);
        for node in nodes {
            let start = Start {
                source: *node,
                side,
                within,
            };
            lists.push(reach(alloc, hierarchy, &mut scratch, start)?)?;
        }
        let rows = gathered(alloc, hierarchy.nodes(), lists)?;
        Ok(Buckets { rows })
    }

    /// Makes the buckets of all items from lists of ranks and weights, one list for each place. Each weight
    /// goes to the bucket of its rank's item.
    pub(crate) fn of_lists(
        alloc: Global,
        dealing: &Dealing,
        lists: Vec<Vec<(u32, u64)>>,
    ) -> Result<Buckets, AllocError>
        requires count { length lists.items ≤ MOST_LISTED }
        requires ranks { All (λ list. All (λ entry. entry.0 < dealing.now.nodes) list.items) lists.items }
        ensures { IfOk result (HoldLists dealing.now.nodes (item_of dealing.now) (map (λ list. list.items) lists.items)) }
    {
        let mut lists = lists;
        for list in lists.iter_mut() {
            deal_list(dealing, list);
        }
        let rows = gathered(alloc, dealing.nodes(), lists)?;
        Ok(Buckets { rows })
    }

    /// The bucket of `node`, which is below the number of nodes.
    pub fn at(&self, node: u32) -> &[(u32, u64)]
        requires { node < length self.now }
        ensures { result.now ≡ slice_index_or self.now node [] }
    {
        self.rows.row(node)
    }
}

/// Returns the nodes that this start reaches, each with the least weight of such a path.
fn reach(
    alloc: Global,
    hierarchy: &Hierarchy,
    scratch: &mut Scratch,
    start: Start,
) -> Result<Vec<(u32, u64)>, AllocError>
    requires scratch { scratch.old ≡ nodes_of hierarchy.now }
    requires source { start.source < nodes_of hierarchy.now }
    ensures reach { IfOk result (λ list. IsReach (rows_of hierarchy.now start.side) start.within start.source list.items) }
    ensures scratch { scratch.new ≡ scratch.old }
{
    let reached = spread(alloc, hierarchy, scratch, start)?;
    let mut weights = Vec::new(alloc);
    for (node, cost) in &reached {
        weights.push((*node, cost.weight))?;
    }
    Ok(weights)
}

/// Puts the item of each rank in its place.
fn deal_list(dealing: &Dealing, list: &mut Vec<(u32, u64)>)
    requires ranks { All (λ entry. entry.0 < dealing.now.nodes) list.old.items }
    ensures { list.new.items ≡ map (dealt (item_of dealing.now)) list.old.items }
{
    for entry in list.iter_mut() {
        entry.0 = dealing.item(entry.0);
    }
}

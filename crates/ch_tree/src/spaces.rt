//! Search spaces by passes to the root, for tables and near rows.
ghost use Rattle.std.specs.Prelude.{◌≡◌, ◌+◌, ◌<◌, ◌≤◌, [], IfOk, OnOk, length, true};
ghost use Rattle.ch_hierarchy.specs.Hierarchy.{nodes_of, IsLevelled};
ghost use Rattle.ch_query.specs.Distance.{IsKeptForSome};
ghost use Rattle.ch_query.specs.Limits.{IsMost};
ghost use Rattle.ch_query.specs.SearchSpace.{IsRankedSpace};
ghost use Rattle.ch_tree.specs.Spaces.{AreGathered, IsBeatenAt};
ghost use Rattle.ch_tree.specs.Tree.{IsTree, IsClean, AreFalling, AreSmall};
ghost use Rattle.ch_graph.specs.declared.limits.TheConstants.{MOST_WEIGHT};

use crate::query::clear;
use crate::sweep::pass;
use ch_graph::limits::MOST_WEIGHT;
use ch_hierarchy::{Hierarchy, Side};
use ch_query::Start;
use std::alloc::{AllocError, Global};

/// Returns the most that a path within the limit may weigh.
fn most_of(within: Option<u64>) -> u64
    ensures { IsMost within result }
{
    match within {
        Some(most) => most.min(MOST_WEIGHT),
        None => MOST_WEIGHT,
    }
}

/// Whether a leg from a higher node shows a lighter way to the node of this rank. A search would stall there ("stall on demand",
/// Geisberger, Sanders, Schultes and Delling 2008), and no least path leads over the node.
#[inline]
fn is_beaten(hierarchy: &Hierarchy, side: Side, rank: u32, costs: &[u64]) -> bool
    requires rank { rank < nodes_of hierarchy.now }
    requires sizes { length costs.now ≡ nodes_of hierarchy.now }
    requires small { AreSmall costs.now }
    ensures levelled { IsLevelled hierarchy.now }
    ensures beaten { result ≡ true → IsBeatenAt hierarchy.now side costs.now rank }
{
    let weight = costs[rank as usize];
    for leg in hierarchy.ranked_legs(side.other(), rank) {
        if costs[leg.rank as usize] + leg.weight < weight {
            return true;
        }
    }
    false
}

/// Appends the rank and the weight of each place from this one up that weighs at most `most`, to an empty list. A place to which
/// a leg from a higher one shows a lighter way is left out.
fn gather(
    hierarchy: &Hierarchy,
    side: Side,
    parents: &[u32],
    first: u32,
    most: u64,
    costs: &[u64],
    found: &mut Vec<(u32, u64)>,
) -> Result<(), AllocError>
    requires falls { AreFalling parents.now }
    requires sizes { (length parents.now ≡ length costs.now + 1) × (length costs.now ≡ nodes_of hierarchy.now) }
    requires small { AreSmall costs.now }
    requires first { first ≤ length costs.now }
    requires empty { found.old.items ≡ [] }
    ensures { OnOk result (AreGathered (IsBeatenAt hierarchy.now side costs.now) parents.now first most costs.now found.new.items) }
{
    let mut place = first;
    while place > 0 {
        let rank = place - 1;
        let weight = costs[rank as usize];
        if weight <= most && !is_beaten(hierarchy, side, rank, costs) {
            found.push((rank, weight))?;
        }
        place = parents[place as usize];
    }
    Ok(())
}

/// Returns the search space of this start, with these costs as scratch space, which have `NEVER` for each node before and after.
/// See [`ranked_space`](crate::ranked_space).
///
/// # Errors
/// `AllocError` if there is no memory for the list.
pub(crate) fn space_with(
    alloc: Global,
    hierarchy: &Hierarchy,
    parents: &[u32],
    costs: &mut Vec<u64>,
    start: Start,
) -> Result<Vec<(u32, u64)>, AllocError>
    requires kept { IsKeptForSome hierarchy.now }
    requires tree { IsTree hierarchy.now parents.now }
    requires clean { IsClean (nodes_of hierarchy.now) costs.old.items }
    requires source { start.source < nodes_of hierarchy.now }
    ensures space { IfOk result (λ list. IsRankedSpace hierarchy.now start.side start.within start.source list.items) }
    ensures clean { IsClean (nodes_of hierarchy.now) costs.new.items }
{
    let first = hierarchy.rank(start.source) + 1;
    let most = most_of(start.within);
    pass(
        hierarchy,
        start.side,
        parents,
        start.source,
        most + 1,
        costs,
    );
    let mut found = Vec::new(alloc);
    let gathered = gather(
        hierarchy,
        start.side,
        parents,
        first,
        most,
        costs.as_slice(),
        &mut found,
    );
    clear(parents, first, costs);
    gathered?;
    Ok(found)
}

//! Searches from targets, and the rows of what they find.
ghost use Rattle.std.specs.Prelude.{◌<◌, ◌≤◌, ℕ, [], length, map, slice_index_or, All, AllPairs, IfOk};
ghost use Rattle.std.specs.List.{AllZip};
ghost use Rattle.ch_graph.specs.declared.limits.TheConstants.{MOST_LISTED};
ghost use Rattle.ch_hierarchy.specs.Hierarchy.{nodes_of};
ghost use Rattle.ch_hierarchy.specs.declared.side.Side.TheVariants.{Down};
ghost use Rattle.ch_query.specs.Distance.{IsKeptForSome};
ghost use Rattle.ch_query.specs.SearchSpace.{IsRankedSpace};
ghost use Rattle.ch_rows.specs.Buckets.{AreRanksApart, HoldLists};
ghost use Rattle.ch_hierarchy.specs.Direction.{facing};

use ch_graph::{Rows, gather};
use ch_hierarchy::{Direction, Hierarchy};
use ch_query::{Scratch, ranked_spaces, ranked_spaces_alone};
use ch_work::{Crew, Gate};
use std::alloc::{AllocError, Global};
use std::thread::Threads;

/// Returns the search space of each target within the limit, by ranks. The workers share the targets.
pub(crate) fn search_targets<R: Threads + Sync, G: Gate>(
    crew: &Crew<'_, R, G>,
    hierarchy: &Hierarchy,
    direction: Direction,
    targets: &[u32],
    within: Option<u64>,
) -> Result<Vec<Vec<(u32, u64)>>, AllocError>
    requires kept { IsKeptForSome hierarchy.now }
    requires targets { All (λ t. t < nodes_of hierarchy.now) targets.now }
    requires listed { length targets.now ≤ MOST_LISTED }
    ensures { IfOk result (λ spaces. AllZip (λ t space. IsRankedSpace (facing direction hierarchy.now) Down within t space.items) targets.now spaces.items) }
{
    let mut scratches = Vec::new(crew.alloc);
    let side = direction.target_side();
    ranked_spaces(crew, hierarchy, &mut scratches, targets, side, within)
}

/// Like [`search_targets`], by the caller alone.
pub(crate) fn spaces_alone(
    alloc: Global,
    hierarchy: &Hierarchy,
    direction: Direction,
    targets: &[u32],
    within: Option<u64>,
) -> Result<Vec<Vec<(u32, u64)>>, AllocError>
    requires kept { IsKeptForSome hierarchy.now }
    requires targets { All (λ t. t < nodes_of hierarchy.now) targets.now }
    ensures { IfOk result (λ spaces. AllZip (λ t space. IsRankedSpace (facing direction hierarchy.now) Down within t space.items) targets.now spaces.items) }
{
    let mut scratch = Scratch::new(alloc, hierarchy.nodes())?;
    let side = direction.target_side();
    ranked_spaces_alone(alloc, hierarchy, &mut scratch, targets, side, within)
}

/// Puts lists of ranks and weights, one list for each place, into a row for each rank: the places and weights at
/// that rank, in order of place. It frees the lists.
pub(crate) fn gathered(
    alloc: Global,
    nodes: u32,
    lists: Vec<Vec<(u32, u64)>>,
) -> Result<Rows<(u32, u64)>, AllocError>
    requires listed { length lists.items ≤ MOST_LISTED }
    requires ranks { All (λ list. All (λ entry. entry.0 < nodes) list.items) lists.items }
    ensures held { IfOk result (HoldLists nodes (λ rank. rank) (map (λ list. list.items) lists.items)) }
    ensures order { All (λ list. AreRanksApart list.items) lists.items → IfOk result (λ rows. (rank : ℕ) → AllPairs (λ a b. a.0 < b.0) (slice_index_or rows rank [])) }
{
    gather(alloc, nodes, &lists)
}

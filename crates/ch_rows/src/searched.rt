//! Targets that were searched from.
ghost use Rattle.std.specs.Prelude.{◌≡◌, ◌<◌, ◌≤◌, length, IfOk};
ghost use Rattle.std.specs.List.{AllZip};
ghost use Rattle.ch_graph.specs.declared.limits.TheConstants.{MOST_LISTED};
ghost use Rattle.ch_hierarchy.specs.declared.side.Side.TheVariants.{Down};
ghost use Rattle.ch_query.specs.Distance.{IsKeptForSome};
ghost use Rattle.ch_query.specs.SearchSpace.{IsRankedSpace};
ghost use Rattle.ch_hierarchy.specs.Direction.{facing};
ghost use Rattle.ch_rows.specs.Searched.{AreSearched, asked_of};

use crate::first::buckets_of;
use ch_graph::Rows;
use ch_hierarchy::{Direction, Hierarchy};
use std::alloc::{AllocError, Global};

/// Targets that were searched from in a hierarchy, which is not kept here, and what is asked of the rows to them.
#[derive(Drop)]
pub struct Searched {
    pub(crate) direction: Direction,
    pub(crate) targets: Vec<u32>,
    pub(crate) within: Option<u64>,
    pub(crate) count: Option<u32>,
    /// By rank, the weights and places of the targets that are nearest to the node.
    pub(crate) buckets: Rows<(u64, u32)>,
}

impl Searched {
    /// Puts the search spaces of the targets into buckets.
    pub(crate) fn of(
        alloc: Global,
        hierarchy: &Hierarchy,
        direction: Direction,
        targets: &[u32],
        within: Option<u64>,
        count: Option<u32>,
        spaces: Vec<Vec<(u32, u64)>>,
    ) -> Result<Searched, AllocError>
        requires kept { IsKeptForSome hierarchy.now }
        requires listed { length targets.now ≤ MOST_LISTED }
        requires spaces { AllZip (λ t space. IsRankedSpace (facing direction hierarchy.now) Down within t space.items) targets.now spaces.items }
        ensures searched { IfOk result (λ searched. AreSearched hierarchy.now searched) }
        ensures asked { IfOk result (λ searched. asked_of searched ≡ record { direction = direction; targets = targets.now; limit = within; count = count }) }
    {
        let buckets = buckets_of(alloc, hierarchy.nodes(), spaces, count)?;
        let listed = Vec::from_slice(alloc, targets)?;
        Ok(Searched {
            direction,
            targets: listed,
            within,
            count,
            buckets,
        })
    }
}

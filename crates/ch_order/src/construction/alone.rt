//! The construction of a hierarchy by the caller alone.
ghost use Rattle.std.specs.Prelude.{◌≡◌, ◌≢◌, ℕ, ◌<◌, ◌++◌, pos, All, Err, IfOk, IfSome, None, take};
ghost use Rattle.ch_graph.specs.Graph.{IsWithinLimits};
ghost use Rattle.ch_contract.specs.Built.{IsHierarchyBy};
ghost use Rattle.ch_contract.specs.Like.{IsHierarchyFrom, IsHierarchyLike, given_count as count_of};
ghost use Rattle.ch_order.specs.declared.construction.like.LikeError.TheVariants as LikeError;
ghost use Rattle.ch_order.specs.Construction.{HasGiven};
ghost use Rattle.ch_order.specs.Crowded.{HasCrowded};
ghost use Rattle.ch_hierarchy.specs.Kept.{IsKept};
ghost use Rattle.ch_hierarchy.specs.Saved.{IsOrderOf};

use super::Construction;
use super::like::{LikeError, split_given};
use crate::keys::{FIRST_EXACT, GROWTH, Keys, TRIES};
use crate::priority::PriorityJob;
use ch_contract::memory::ask_ahead;
use ch_contract::order::all_nodes;
use ch_contract::{HopBound, OrderBy, Percent};
use ch_graph::Graph;
use ch_hierarchy::Hierarchy;
use ch_work::Open;
use std::alloc::{AllocError, Global};

/// Builds the contraction hierarchy of a graph by depth, where a witness has at most `hops` legs. It is the hierarchy
/// that [`build_in_turn`](crate::build_in_turn) builds. The caller builds it alone: no thread is started, and no progress is
/// reported.
///
/// # Errors
/// `AllocError` if there is no memory. What was made is dropped, and the graph is as it was.
pub fn build_alone(alloc: Global, graph: &Graph, hops: HopBound) -> Result<Hierarchy, AllocError>
    ensures hierarchy { IfOk result (IsHierarchyBy OrderBy.Depth graph.now hops.number) }
    ensures kept { IfOk result (IsKept graph.now) }
    ensures limits { IsWithinLimits graph.now }
{
    ask_ahead(alloc, graph)?;
    let nodes = all_nodes(alloc, graph.nodes())?;
    contract_in_turn(alloc, graph, &[], nodes.as_slice(), hops)
}

/// Builds the contraction hierarchy of a graph in an order like a given one, as [`build_like`](crate::build_like) does.
/// The caller builds it alone: no thread is started, and no progress is reported.
///
/// # Errors
/// Those of [`build_like`](crate::build_like). What was made is dropped, and the graph and the order are as they were.
pub fn build_like_alone(
    alloc: Global,
    graph: &Graph,
    given: &[u32],
    fresh: Percent,
    hops: HopBound,
) -> Result<Hierarchy, LikeError>
    ensures hierarchy { IfOk result (IsHierarchyLike graph.now hops.number given.now fresh.number) }
    ensures kept { IfOk result (IsKept graph.now) }
    ensures order { IfOk result (λ _. IsOrderOf graph.now.nodes given.now) }
    ensures refused { result ≡ Err LikeError.Order → IsOrderOf graph.now.nodes given.now → ⊥ }
    ensures few { IfOk result (λ _. (v : ℕ) → HasCrowded graph.now hops.number (take (count_of graph.now.nodes fresh.number) given.now) v → ⊥) }
    ensures crowded { (v : ℕ) → result ≡ Err (LikeError.Crowded v) → HasCrowded graph.now hops.number (take (count_of graph.now.nodes fresh.number) given.now) v }
    ensures limits { IsWithinLimits graph.now }
{
    let (first, others) = split_given(alloc, graph, given, fresh)?;
    let begun = Construction::after_uncrowded(alloc, &Open, graph, first, hops)?;
    Ok(contract_begun(alloc, graph, begun, first, others, hops)?)
}

/// Goes on with a construction in which the nodes `given` are contracted, as they come. Contracts the others by depth, and
/// returns the hierarchy. The two lists together have each node once.
fn contract_begun(
    alloc: Global,
    graph: &Graph,
    begun: Construction,
    given: &[u32],
    others: &[u32],
    hops: HopBound,
) -> Result<Hierarchy, AllocError>
    requires order { IsOrderOf graph.now.nodes (given.now ++ others.now) }
    requires begun { HasGiven graph.now hops.number given.now begun }
    ensures { IfOk result (IsHierarchyFrom OrderBy.Depth graph.now hops.number given.now) }
{
    let keys = Keys {
        by: OrderBy::Depth,
        exact: FIRST_EXACT,
    };
    if let Some(hierarchy) = contract_others(alloc, graph, begun, given, others, hops, keys)? {
        return Ok(hierarchy);
    }
    contract_in_turn(alloc, graph, given, others, hops)
}

/// Builds the contraction hierarchy of a graph, one node after the other. The nodes `given` are contracted first, as they
/// come, and then the others by depth. The two lists together have each node once.
fn contract_in_turn(
    alloc: Global,
    graph: &Graph,
    given: &[u32],
    others: &[u32],
    hops: HopBound,
) -> Result<Hierarchy, AllocError>
    requires order { IsOrderOf graph.now.nodes (given.now ++ others.now) }
    ensures { IfOk result (IsHierarchyFrom OrderBy.Depth graph.now hops.number given.now) }
{
    let by = OrderBy::Depth;
    let mut exact = FIRST_EXACT;
    for _ in 0..TRIES {
        let keys = Keys { by, exact };
        if let Some(hierarchy) = contract_by(alloc, graph, given, others, hops, keys)? {
            return Ok(hierarchy);
        }
        exact = exact.saturating_mul(GROWTH);
    }
    let exact = i64::MAX;
    match contract_by(alloc, graph, given, others, hops, Keys { by, exact })? {
        Some(hierarchy) => Ok(hierarchy),
        None => unreachable!(),
    }
}

/// Builds the contraction hierarchy of a graph by these keys, or returns `None` if a key comes first that is not exact. The
/// nodes `given` are contracted first, as they come. The two lists together have each node once.
fn contract_by(
    alloc: Global,
    graph: &Graph,
    given: &[u32],
    others: &[u32],
    hops: HopBound,
    keys: Keys,
) -> Result<Option<Hierarchy>, AllocError>
    requires order { IsOrderOf graph.now.nodes (given.now ++ others.now) }
    ensures hierarchy { IfOk result (λ o. IfSome o (IsHierarchyFrom keys.by graph.now hops.number given.now)) }
    ensures none { IfOk result (λ o. o ≡ None → keys.exact ≢ pos 9223372036854775807) }
{
    let begun = Construction::after(alloc, &Open, graph, given, hops)?;
    contract_others(alloc, graph, begun, given, others, hops, keys)
}

/// Goes on with a construction in which the nodes `given` are contracted, as they come. Contracts the others by these keys,
/// and returns the hierarchy, or `None` if a key comes first that is not exact. The two lists together have each node once.
fn contract_others(
    alloc: Global,
    graph: &Graph,
    begun: Construction,
    given: &[u32],
    others: &[u32],
    hops: HopBound,
    keys: Keys,
) -> Result<Option<Hierarchy>, AllocError>
    requires order { IsOrderOf graph.now.nodes (given.now ++ others.now) }
    requires begun { HasGiven graph.now hops.number given.now begun }
    ensures hierarchy { IfOk result (λ o. IfSome o (IsHierarchyFrom keys.by graph.now hops.number given.now)) }
    ensures none { IfOk result (λ o. o ≡ None → keys.exact ≢ pos 9223372036854775807) }
{
    let mut construction = begun.rank_alone(alloc, others, hops, keys)?;
    while let Some(node) = construction.next() {
        if !construction.is_exact(node, keys) {
            return Ok(None);
        }
        construction = construction.contract_alone(alloc, node, hops, keys)?;
    }
    let hierarchy = construction.finish()?;
    Ok(Some(hierarchy))
}

impl Construction {
    ghost use Rattle.ch_order.specs.Priorities.{IsRanked};
    ghost use Rattle.ch_order.specs.Progress.{IsStep};
    ghost use Rattle.ch_order.specs.Construction.{IsSized, IsJudging, IsReadyFor, progress_of};

    /// Gives these nodes the keys that they have now.
    pub(super) fn rank_alone(
        mut self,
        alloc: Global,
        nodes: &[u32],
        hops: HopBound,
        keys: Keys,
    ) -> Result<Construction, AllocError>
        requires sizes { IsSized self }
        requires nodes { All (λ x. x < self.remaining.nodes) nodes.now }
        ensures sizes { IfOk result IsSized }
        ensures nodes { IfOk result (λ c. c.remaining.nodes ≡ self.remaining.nodes) }
        ensures ranked { IfOk result (λ c. IsRanked keys self.remaining.nodes hops.number nodes.now (progress_of self) (progress_of c)) }
        ensures ready { IfOk result (λ c. (h : ℕ) → IsJudging h self → IsJudging h c) }
    {
        let job = PriorityJob {
            remaining: &self.remaining,
            depths: self.depths.as_slice(),
            hops,
            keys,
        };
        job.set_in_turn(alloc, nodes, &mut self.waiting)?;
        Ok(self)
    }

    /// Contracts a node, and keeps its level and its legs. Its neighbours get keys anew.
    fn contract_alone(
        self,
        alloc: Global,
        node: u32,
        hops: HopBound,
        keys: Keys,
    ) -> Result<Construction, AllocError>
        requires next { IsReadyFor hops.number self node }
        ensures sizes { IfOk result IsSized }
        ensures nodes { IfOk result (λ c. c.remaining.nodes ≡ self.remaining.nodes) }
        ensures step { IfOk result (λ c. IsStep keys self.remaining.nodes hops.number (progress_of self) node (progress_of c)) }
        ensures ready { IfOk result (IsJudging hops.number) }
    {
        let (mut taken, neighbours) = self.take(alloc, node, hops)?;
        let job = PriorityJob {
            remaining: &taken.remaining,
            depths: taken.depths.as_slice(),
            hops,
            keys,
        };
        job.refresh_here(
            alloc,
            neighbours.as_slice(),
            &mut taken.room,
            &mut taken.waiting,
        )?;
        Ok(taken)
    }
}

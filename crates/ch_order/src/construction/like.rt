//! The construction of a hierarchy in an order like a given one.
ghost use Rattle.std.specs.Prelude.{◌≡◌, ℕ, ◌++◌, Some, Err, IfOk, take};
ghost use Rattle.ch_graph.specs.Graph.{IsWithinLimits};
ghost use Rattle.ch_hierarchy.specs.Kept.{IsKept};
ghost use Rattle.ch_hierarchy.specs.Saved.{IsOrderOf};
ghost use Rattle.ch_order.specs.declared.construction.like.OrderError.TheVariants as OrderError;
ghost use Rattle.ch_order.specs.declared.construction.like.LikeError.TheVariants as LikeError;
ghost use Rattle.ch_order.specs.LikeErrors.{like_error};
ghost use Rattle.ch_order.specs.OrderText.{like_text, order_text};
ghost use Rattle.ch_order.specs.Crowded.{HasCrowded};
ghost use Rattle.ch_contract.specs.Begun.{AreDifferentNodes};
ghost use Rattle.ch_contract.specs.Like.{IsHierarchyLike, given_count as count_of};

use super::{Construction, contract_begun};
use ch_contract::memory::ask_ahead;
use ch_contract::{HopBound, OrderBy, Percent};
use ch_graph::Graph;
use ch_hierarchy::{Hierarchy, levels_of};
use ch_work::{Crew, Gate};
use std::alloc::{AllocError, Global};
use std::error::Error;
use std::fmt;
use std::thread::Threads;

/// Why no hierarchy in an order like a given one is built.
#[derive(Clone, Copy, Debug, PartialEq, Eq)]
pub enum OrderError {
    /// The given order does not have each node of the graph exactly once.
    Order,
    /// There is no memory.
    NoMemory,
}

impl fmt::Display for OrderError {
    ghost output = { λ error. Some (order_text error) };

    fn fmt<W: fmt::Write>(&self, f: &mut fmt::Formatter<W>) -> fmt::Result {
        match self {
            OrderError::Order => f.write_str("order"),
            OrderError::NoMemory => f.write_str("out of memory"),
        }
    }
}

impl Error for OrderError {}

impl From<AllocError> for OrderError {
    ghost from_gives = { λ _ error. error ≡ OrderError.NoMemory };

    fn from(_refused: AllocError) -> OrderError {
        OrderError::NoMemory
    }
}

/// Why no hierarchy in an order like a given one is built, where the order is named.
#[derive(Clone, Copy, Debug, PartialEq, Eq)]
pub enum LikeError {
    /// The given order does not have each node of the graph exactly once.
    Order,
    /// When the turn of this node comes, more than 128 legs touch it, and more than a hundredth of the nodes are left.
    Crowded(u32),
    /// There is no memory.
    NoMemory,
}

impl fmt::Display for LikeError {
    ghost output = { λ error. Some (like_text error) };

    fn fmt<W: fmt::Write>(&self, f: &mut fmt::Formatter<W>) -> fmt::Result {
        match self {
            LikeError::Order => f.write_str("order"),
            LikeError::Crowded(node) => write!(f, "too many legs at node {node}"),
            LikeError::NoMemory => f.write_str("out of memory"),
        }
    }
}

impl Error for LikeError {}

impl From<AllocError> for LikeError {
    ghost from_gives = { λ _ error. error ≡ LikeError.NoMemory };

    fn from(_refused: AllocError) -> LikeError {
        LikeError::NoMemory
    }
}

impl From<OrderError> for LikeError {
    ghost from_gives = { λ refused error. error ≡ like_error refused };

    fn from(refused: OrderError) -> LikeError {
        match refused {
            OrderError::Order => LikeError::Order,
            OrderError::NoMemory => LikeError::NoMemory,
        }
    }
}

/// Builds the contraction hierarchy of a graph in an order like a given one, where a witness has at most `hops` legs.
/// It serves new weights on roads whose order is known, because priorities are most of the work of building.
///
/// The last `fresh` per cent of the nodes, rounded down, are ordered afresh by [`OrderBy::Depth`]. All others come
/// first, as the given order has them. Depths are raised from the first node on. When the last given node is
/// contracted, all remaining nodes get their priorities, and workers share these. From then on it is built as by
/// [`build_in_turn`](crate::build_in_turn). The hierarchy does not depend on the crew, and distances are the same in each order.
///
/// A bad order joins more and more nodes by legs, and would hardly end. It is refused once that is seen.
///
/// # Errors
/// `Order` if the given order does not have each node of the graph exactly once. `Crowded` with a given node, if more than
/// 128 legs touch it when its turn comes, and more than a hundredth of the nodes are left. `NoMemory` if the call or a piece
/// is refused memory. All workers are joined before the call returns. Everything that it made is dropped, and the graph
/// and the order are as before.
pub fn build_like<R: Threads + Sync, G: Gate>(
    crew: &Crew<'_, R, G>,
    graph: &Graph,
    given: &[u32],
    fresh: Percent,
    hops: HopBound,
) -> Result<Hierarchy, LikeError>
    ensures hierarchy { IfOk result (IsHierarchyLike graph.now hops.number given.now fresh.number) }
    ensures kept { IfOk result (IsKept graph.now) }
    ensures order { IfOk result (λ _. IsOrderOf graph.now.nodes given.now) }
    ensures refused { result ≡ Err LikeError.Order → IsOrderOf graph.now.nodes given.now → ⊥ }
    ensures few { IfOk result (λ _. (v : ℕ) → HasCrowded graph.now hops.number (take (count_of graph.now.nodes fresh.number) given.now) v → ⊥) }
    ensures crowded { (v : ℕ) → result ≡ Err (LikeError.Crowded v) → HasCrowded graph.now hops.number (take (count_of graph.now.nodes fresh.number) given.now) v }
    ensures limits { IsWithinLimits graph.now }
{
    let (first, others) = split_given(crew.alloc, graph, given, fresh)?;
    let begun = Construction::after_uncrowded(crew.alloc, crew.gate, graph, first, hops)?;
    let by = OrderBy::Depth;
    Ok(contract_begun(crew, graph, begun, first, others, hops, by)?)
}

/// Asks ahead for memory. Then it splits a given order into the nodes that come in this order and those that are ordered
/// afresh, if it has each node of the graph once and these per cent are ordered afresh.
pub(super) fn split_given<'a>(
    alloc: Global,
    graph: &Graph,
    given: &'a [u32],
    fresh: Percent,
) -> Result<(&'a [u32], &'a [u32]), OrderError>
    ensures order { IfOk result (λ _. IsOrderOf graph.now.nodes given.now) }
    ensures first { IfOk result (λ (first, others). first.now ≡ take (count_of graph.now.nodes fresh.number) given.now) }
    ensures parts { IfOk result (λ (first, others). first.now ++ others.now ≡ given.now) }
    ensures together { IfOk result (λ (first, others). IsOrderOf graph.now.nodes (first.now ++ others.now)) }
    ensures different { IfOk result (λ (first, others). AreDifferentNodes graph.now first.now) }
    ensures refused { result ≡ Err OrderError.Order → IsOrderOf graph.now.nodes given.now → ⊥ }
    ensures limits { IsWithinLimits graph.now }
{
    ask_ahead(alloc, graph)?;
    let nodes = graph.nodes();
    let Some(levels) = levels_of(alloc, nodes, given)? else {
        return Err(OrderError::Order);
    };
    drop(levels);
    let afresh = u64::from(nodes) * u64::from(fresh.number) / 100;
    Ok(given.split_at(given.len() - afresh as usize))
}

//! Builds the hierarchy of a graph in the order that a run takes.
ghost use Rattle.std.specs.Prelude.{◌≡◌, ℕ, Some, None, Err, IfOk, take};
ghost use Rattle.ch_hierarchy.specs.Hierarchy.{LevelsAndLegs};
ghost use Rattle.ch_hierarchy.specs.Kept.{IsKept};
ghost use Rattle.ch_hierarchy.specs.Saved.{IsOrderOf};
ghost use Rattle.ch_contract.specs.Like.{IsHierarchyLike, given_count};
ghost use Rattle.ch_order.specs.Crowded.{HasCrowded};
ghost use Rattle.ch_order.specs.declared.construction.like.LikeError.TheVariants as LikeErrorOf;
ghost use Rattle.ch_order.specs.declared.construction.like.OrderError.TheVariants as OrderErrorOf;
ghost use Rattle.ch_run.specs.Customized.{IsCustomizedIn, IsDissected};
ghost use Rattle.ch_run.specs.Frames.{IsFrameFor};
ghost use Rattle.ch_run.specs.Source.{IsServing};

use crate::frame::Frame;
use crate::needed::Needed;
use crate::plan::{Crew, Gate, Stage};
use ch_contract::{Hierarchy, HopBound, OrderBy, Percent};
use ch_dissect::dissect;
use ch_graph::Graph;
use ch_order::{
    LikeError, OrderError, build_in_turn, build_like, build_like_quickly, build_quickly,
};
use std::alloc::AllocError;
use std::thread::Threads;

/// Builds a hierarchy of a graph that serves where none was loaded. A witness has at most `hops` legs.
///
/// # Errors
/// `AllocError` if there is no memory. The graph is as before.
pub(crate) fn build<R: Threads + Sync, G: Gate>(
    crew: &Crew<'_, R, G>,
    graph: &Graph,
    hops: HopBound,
    needed: Needed,
) -> Result<Hierarchy, AllocError>
    ensures serving { IfOk result (IsServing needed hops.number graph.now None) }
    ensures kept { IfOk result (IsKept graph.now) }
{
    match needed {
        Needed::InOrder(OrderBy::Difference) => {
            build_in_turn(crew, graph, hops, OrderBy::Difference)
        }
        Needed::InOrder(OrderBy::Depth) => build_in_turn(crew, graph, hops, OrderBy::Depth),
        Needed::Quick | Needed::Any => build_quickly(crew, graph, hops),
    }
}

/// Builds a hierarchy of a graph in an order like a given one, where a witness has at most `hops` legs. It is that of
/// [`build_like`], unless each one serves. Then it is the one that takes less time.
///
/// # Errors
/// `Order` if the given order does not have each node of the graph exactly once, and `NoMemory` if there is no memory.
/// `Crowded` with a given node, if the hierarchy is named and too many legs touch the node in its turn. The graph and the
/// order are as before.
#[tactic(auto, using(crate::proofs::Loading::built_in_place))]
pub(crate) fn build_in_order<R: Threads + Sync, G: Gate>(
    crew: &Crew<'_, R, G>,
    graph: &Graph,
    given: &[u32],
    fresh: Percent,
    hops: HopBound,
    needed: Needed,
) -> Result<Hierarchy, LikeError>
    ensures hierarchy { IfOk result (λ K. (H : LevelsAndLegs) × IsHierarchyLike graph.now hops.number given.now fresh.number H × IsKept graph.now H × IsServing needed hops.number graph.now (Some H) K) }
    ensures kept { IfOk result (IsKept graph.now) }
    ensures order { IfOk result (λ _. IsOrderOf graph.now.nodes given.now) }
    ensures refused { result ≡ Err LikeErrorOf.Order → IsOrderOf graph.now.nodes given.now → ⊥ }
    ensures crowded { (v : ℕ) → result ≡ Err (LikeErrorOf.Crowded v) → HasCrowded graph.now hops.number (take (given_count graph.now.nodes fresh.number) given.now) v }
{
    match needed {
        Needed::InOrder(_) | Needed::Quick => build_like(crew, graph, given, fresh, hops),
        Needed::Any => match build_like_quickly(crew, graph, given, fresh, hops) {
            Ok(hierarchy) => Ok(hierarchy),
            Err(OrderError::Order) => Err(LikeError::Order),
            Err(OrderError::NoMemory) => Err(LikeError::NoMemory),
        },
    }
}

/// Returns the frame of a graph in this order, and the hierarchy that is customized in it. If the order has more than
/// [`TRIANGLES_A_NODE`](ch_custom::TRIANGLES_A_NODE) triangles a node, the hierarchy is built quickly instead, and a witness
/// has at most `hops` legs.
///
/// # Errors
/// `Order` if the order does not have each node of the graph exactly once, and `NoMemory` if there is no memory. The graph
/// is as before.
pub(crate) fn customize_in<R: Threads + Sync, G: Gate>(
    crew: &Crew<'_, R, G>,
    graph: &Graph,
    order: Vec<u32>,
    hops: HopBound,
) -> Result<(Frame, Hierarchy), OrderError>
    ensures order { IfOk result (λ made. made.0.order ≡ order.items) }
    ensures hops { IfOk result (λ made. made.0.hops ≡ hops.number) }
    ensures fits { IfOk result (λ made. IsFrameFor graph.now made.0) }
    ensures hierarchy { IfOk result (λ made. IsCustomizedIn graph.now hops.number order.items made.1) }
    ensures kept { IfOk result (λ made. IsKept graph.now made.1) }
    ensures refused { result ≡ Err OrderErrorOf.Order → IsOrderOf graph.now.nodes order.items → ⊥ }
{
    let frame = Frame::new(crew, graph, order, hops)?;
    let hierarchy = frame.hierarchy(crew, graph)?;
    Ok((frame, hierarchy))
}

/// Returns the frame of a graph in a nested dissection order, and the hierarchy that is customized in it. See
/// [`customize_in`].
///
/// # Errors
/// `AllocError` if there is no memory. The graph is as before.
pub(crate) fn customize_dissected<R: Threads + Sync, G: Gate>(
    crew: &Crew<'_, R, G>,
    graph: &Graph,
    hops: HopBound,
) -> Result<(Frame, Hierarchy), AllocError>
    ensures hops { IfOk result (λ made. made.0.hops ≡ hops.number) }
    ensures fits { IfOk result (λ made. IsFrameFor graph.now made.0) }
    ensures hierarchy { IfOk result (λ made. IsDissected graph.now hops.number made.1) }
    ensures kept { IfOk result (λ made. IsKept graph.now made.1) }
{
    crew.gate.watch(Stage::Building, 0, graph.nodes());
    let order = dissect(crew, graph)?;
    match customize_in(crew, graph, order, hops) {
        Ok(made) => Ok(made),
        // The order has each node once.
        Err(_) => Err(AllocError),
    }
}

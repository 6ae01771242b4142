//! Opens a network from bytes or arrays, without workers.
ghost use Rattle.std.specs.Prelude.{[], IfErr, IfOk};
ghost use Rattle.ch_graph.specs.Graph.{IsWithinLimits};
ghost use Rattle.ch_contract.specs.Built.{IsHierarchyBy};
ghost use Rattle.ch_contract.specs.declared.measure.OrderBy.TheVariants as OrderBy;
ghost use Rattle.ch_hierarchy.specs.Hierarchy.{nodes_of};
ghost use Rattle.ch_hierarchy.specs.Kept.{IsKept};
ghost use Rattle.ch_hierarchy.specs.Saved.{IsOrderOf};
ghost use Rattle.ch_engine.specs.Opened.{IsBuiltInOrder, IsOpened, IsOpenedLike, IsOpenedOfArrays, IsOpenedQuickly, IsSavedOrBuilt, IsSavedOrQuick};
ghost use Rattle.ch_order.specs.Quick.{IsHierarchyAfter};
ghost use Rattle.ch_engine.specs.Refusals.{IsArraysOpenError, IsLikeError, IsOpenError, IsSavedError};

use crate::arrays::graph_of;
use crate::fault::OpenError;
use crate::network::Network;
use ch_contract::{HopBound, Percent};
use ch_graph::Graph;
use ch_hierarchy::{CheckError, Hierarchy};
use ch_order::{LikeError, build_alone, build_like_alone, build_quickly_alone};
use ch_query::check_alone;
use ch_read::{ReadError, read_graph, read_saved};
use std::alloc::{AllocError, Global};

/// The most legs of a witness, if the hierarchy is built. The command line uses the same number by default.
const BUILT_HOPS: HopBound = HopBound { number: 5 };

/// Returns the network of the graph that the bytes `graph` name, with a hierarchy that is right for it. If `saved` is not
/// empty, its bytes name the hierarchy. If `saved` is empty, the hierarchy is built by depth.
///
/// # Errors
/// The first fault of the graph's bytes, otherwise that of the saved hierarchy's bytes, otherwise its first fault for
/// the graph; or `NoMemory`.
pub(crate) fn opened(alloc: Global, graph: &[u8], saved: &[u8]) -> Result<Network, OpenError>
    ensures value { IfOk result (λ network. IsOpened graph.now saved.now network.0 network.1) }
    ensures error { IfErr result (IsOpenError graph.now saved.now) }
{
    let roads = match read_graph(alloc, graph) {
        Ok(roads) => roads,
        Err(ReadError::Fault(fault)) => return Err(OpenError::BadGraph(fault)),
        Err(ReadError::NoMemory) => return Err(OpenError::NoMemory),
    };
    let hierarchy = match saved_or_built(alloc, &roads, saved) {
        Ok(hierarchy) => hierarchy,
        Err(error) => return Err(error),
    };
    let lined = Network::of(alloc, &roads, hierarchy)?;
    Ok(lined)
}

/// Returns the network of the graph of these arrays, with a hierarchy as in [`opened`], but that one that is built is built
/// quickly.
///
/// # Errors
/// `Lengths` if the lengths of the arrays differ, otherwise the first fault of the graph, otherwise those of [`opened`] for
/// the saved hierarchy; or `NoMemory`.
pub(crate) fn opened_of_arrays(
    alloc: Global,
    nodes: u32,
    tails: &[u32],
    heads: &[u32],
    weights: &[u64],
    saved: &[u8],
) -> Result<Network, OpenError>
    ensures value { IfOk result (λ network. IsOpenedOfArrays nodes tails.now heads.now weights.now saved.now network.0 network.1) }
    ensures error { IfErr result (IsArraysOpenError nodes tails.now heads.now weights.now saved.now) }
{
    let roads = graph_of(alloc, nodes, tails, heads, weights)?;
    let hierarchy = saved_or_quick(alloc, &roads, saved)?;
    let lined = Network::of(alloc, &roads, hierarchy)?;
    Ok(lined)
}

/// Returns a hierarchy that is right for the graph. If `saved` is not empty, its bytes name the hierarchy. If `saved` is
/// empty, the hierarchy is built by depth.
///
/// # Errors
/// The first fault of the saved hierarchy's bytes, otherwise its first fault for the graph; or `NoMemory`.
fn saved_or_built(alloc: Global, roads: &Graph, saved: &[u8]) -> Result<Hierarchy, OpenError>
    ensures kept { IfOk result (IsKept roads.now) }
    ensures limits { IsWithinLimits roads.now }
    ensures value { IfOk result (IsSavedOrBuilt roads.now saved.now) }
    ensures error { IfErr result (IsSavedError roads.now saved.now) }
{
    // This call tells the proof that the graph keeps the limits.
    let nodes = roads.nodes();
    if saved.is_empty() {
        let built = built_by_depth(alloc, roads)?;
        return Ok(built);
    }
    let named = match read_saved(alloc, saved, nodes) {
        Ok(named) => named,
        Err(ReadError::Fault(fault)) => return Err(OpenError::BadSaved(fault)),
        Err(ReadError::NoMemory) => return Err(OpenError::NoMemory),
    };
    match check_alone(alloc, roads, &named) {
        Ok(right) => Ok(right),
        Err(CheckError::Fault(fault)) => Err(OpenError::WrongSaved(fault)),
        Err(CheckError::NoMemory) => Err(OpenError::NoMemory),
    }
}

/// Returns a hierarchy that is right for the graph. If `saved` is not empty, its bytes name the hierarchy. If `saved` is
/// empty, the hierarchy is built in an order that takes little time to find.
///
/// # Errors
/// Those of [`saved_or_built`].
fn saved_or_quick(alloc: Global, roads: &Graph, saved: &[u8]) -> Result<Hierarchy, OpenError>
    ensures kept { IfOk result (IsKept roads.now) }
    ensures limits { IsWithinLimits roads.now }
    ensures value { IfOk result (IsSavedOrQuick roads.now saved.now) }
    ensures error { IfErr result (IsSavedError roads.now saved.now) }
{
    if !saved.is_empty() {
        return saved_or_built(alloc, roads, saved);
    }
    let built = built_quickly(alloc, roads)?;
    Ok(built)
}

/// Builds the hierarchy of a graph by depth.
fn built_by_depth(alloc: Global, roads: &Graph) -> Result<Hierarchy, AllocError>
    ensures hierarchy { IfOk result (IsHierarchyBy OrderBy.Depth roads.now 5) }
    ensures kept { IfOk result (IsKept roads.now) }
    ensures limits { IsWithinLimits roads.now }
{
    build_alone(alloc, roads, BUILT_HOPS)
}

/// Returns the network of the graph that the bytes name. Its hierarchy is built in an order that takes little time to find.
///
/// # Errors
/// The first fault of the bytes, or `NoMemory`.
pub(crate) fn opened_quickly(alloc: Global, graph: &[u8]) -> Result<Network, OpenError>
    ensures value { IfOk result (λ network. IsOpenedQuickly graph.now network.0 network.1) }
    ensures error { IfErr result (IsOpenError graph.now []) }
{
    let roads = match read_graph(alloc, graph) {
        Ok(roads) => roads,
        Err(ReadError::Fault(fault)) => return Err(OpenError::BadGraph(fault)),
        Err(ReadError::NoMemory) => return Err(OpenError::NoMemory),
    };
    let quick = built_quickly(alloc, &roads)?;
    let lined = Network::of(alloc, &roads, quick)?;
    Ok(lined)
}

/// Builds the hierarchy of a graph in an order that takes little time to find.
fn built_quickly(alloc: Global, roads: &Graph) -> Result<Hierarchy, AllocError>
    ensures hierarchy { IfOk result (IsHierarchyAfter roads.now 5 []) }
    ensures kept { IfOk result (IsKept roads.now) }
    ensures limits { IsWithinLimits roads.now }
{
    build_quickly_alone(alloc, roads, BUILT_HOPS)
}

/// Returns the network of the graph that the bytes name. Its hierarchy is built in the order of another one, and the last
/// `fresh` per cent of the nodes are ordered afresh by depth. All are, if that order would join too many nodes by legs.
///
/// # Errors
/// The first fault of the bytes, otherwise `OtherNodes` if the other hierarchy has another number of nodes, otherwise
/// `FreshRange` if `fresh` is above 100; or `NoMemory`.
pub(crate) fn opened_like(
    alloc: Global,
    graph: &[u8],
    other: &Hierarchy,
    fresh: u32,
) -> Result<Network, OpenError>
    ensures value { IfOk result (λ network. IsOpenedLike graph.now other.now fresh network.0 network.1) }
    ensures error { IfErr result (IsLikeError graph.now (nodes_of other.now) fresh) }
{
    let roads = match read_graph(alloc, graph) {
        Ok(roads) => roads,
        Err(ReadError::Fault(fault)) => return Err(OpenError::BadGraph(fault)),
        Err(ReadError::NoMemory) => return Err(OpenError::NoMemory),
    };
    if roads.nodes() != other.nodes() {
        return Err(OpenError::OtherNodes);
    }
    let Some(part) = Percent::new(fresh) else {
        return Err(OpenError::FreshRange);
    };
    let order = other.order(alloc)?;
    let built = built_like(alloc, &roads, order.as_slice(), part)?;
    let lined = Network::of(alloc, &roads, built)?;
    Ok(lined)
}

/// Builds the hierarchy of a graph in an order like a given one, and by depth if that order would join too many nodes by legs.
fn built_like(
    alloc: Global,
    roads: &Graph,
    given: &[u32],
    fresh: Percent,
) -> Result<Hierarchy, AllocError>
    requires order { IsOrderOf roads.now.nodes given.now }
    ensures hierarchy { IfOk result (IsBuiltInOrder roads.now given.now fresh.number) }
    ensures kept { IfOk result (IsKept roads.now) }
    ensures limits { IsWithinLimits roads.now }
{
    match build_like_alone(alloc, roads, given, fresh, BUILT_HOPS) {
        Ok(built) => Ok(built),
        Err(LikeError::Crowded(_)) => built_by_depth(alloc, roads),
        Err(LikeError::Order) => unreachable!(),
        Err(LikeError::NoMemory) => Err(AllocError),
    }
}

//! Topologies: what a network needs for new weights on the same arcs.
ghost use Rattle.std.specs.Prelude.{◌≡◌, IfErr, IfOk};
ghost use Rattle.ch_engine.specs.Held.{KeepsNothing};
ghost use Rattle.ch_engine.specs.Topologies.{IsArraysTopologyError, IsOfEnds, IsOpenedWith, IsTopologyError, IsTopologyOfArrays, IsTopologyOpened, IsUnweighedError, IsWeightsError};

use crate::arrays::graph_of;
use crate::engine::Engine;
use crate::fault::OpenError;
use crate::roads::Roads;
use crate::topology_error::TopologyError;
use ch_graph::Graph;
use ch_read::{ReadError, read_graph};
use std::alloc::{AllocError, Global};
use std::marker::Model;
use std::sync::Arc;

/// The arcs of a graph in the order of their lines, and an order of the nodes with the pairs between which there may be a leg
/// (Dibbelt, Strasser and Wagner 2016). It does not depend on weights: it is made once, and gives an engine for each list of
/// weights. Several topologies may share what it needs, one for each thread.
#[derive(Drop)]
pub struct Topology {
    roads: Arc<Roads, Global>,
}

impl Model for Topology {
    ghost use Rattle.std.specs.Arc.{arc_value};
    ghost use Rattle.ch_engine.specs.Topologies.{EndsAndPairs};

    ghost Value = { EndsAndPairs };

    ghost view = { λ topology. arc_value topology.roads };
}

impl Topology {
    /// Opens the topology of the graph that the bytes name, in the order that the bytes `order` name: those of a saved
    /// hierarchy, or of its lines `p` and `o` alone. If `order` is empty, it is a nested dissection order, which is found
    /// without threads. Weights of the graph do not count.
    ///
    /// # Errors
    /// The first fault of the graph's bytes, otherwise `BadOrder` with that of the order's bytes, otherwise `WrongOrder` if
    /// the order does not have each node once, otherwise `Triangles` if it has more than
    /// [`TRIANGLES_A_NODE`](ch_custom::TRIANGLES_A_NODE) triangles a node; or `NoMemory`.
    pub fn open(alloc: Global, graph: &[u8], order: &[u8]) -> Result<Topology, TopologyError>
        ensures value { IfOk result (IsTopologyOpened graph.now order.now) }
        ensures error { IfErr result (IsTopologyError graph.now order.now) }
    {
        let graph = match read_graph(alloc, graph) {
            Ok(graph) => graph,
            Err(ReadError::Fault(fault)) => return Err(TopologyError::BadGraph(fault)),
            Err(ReadError::NoMemory) => return Err(TopologyError::NoMemory),
        };
        let roads = match Roads::of(alloc, &graph, order) {
            Ok(roads) => roads,
            Err(error) => return Err(error),
        };
        Ok(Topology::of(alloc, roads)?)
    }

    /// Opens the topology of the arcs from `tails[k]` to `heads[k]` between `nodes` nodes. Arc k is line k, and nodes count
    /// from 0. The order is as in [`Topology::open`].
    ///
    /// # Errors
    /// `Lengths` if the lengths of the arrays differ, otherwise `BadArrays` with the first fault of the graph, otherwise the
    /// errors of [`Topology::open`] for the order; or `NoMemory`.
    pub fn open_arrays(
        alloc: Global,
        nodes: u32,
        tails: &[u32],
        heads: &[u32],
        order: &[u8],
    ) -> Result<Topology, TopologyError>
        ensures value { IfOk result (IsTopologyOfArrays nodes tails.now heads.now order.now) }
        ensures error { IfErr result (IsArraysTopologyError nodes tails.now heads.now order.now) }
    {
        let graph = unweighed(alloc, nodes, tails, heads)?;
        let roads = Roads::of(alloc, &graph, order)?;
        Ok(Topology::of(alloc, roads)?)
    }

    fn of(alloc: Global, roads: Roads) -> Result<Topology, AllocError>
        ensures { IfOk result (λ topology. topology ≡ roads) }
    {
        let roads = Arc::new(alloc, roads)?;
        Ok(for_any_thread(Topology { roads }))
    }

    /// Makes a second topology of the same arcs, for another thread. It takes no further memory.
    ///
    /// # Errors
    /// `AllocError` if more topologies share the arcs than can be counted.
    pub fn share(&self) -> Result<Topology, AllocError>
        ensures { IfOk result (λ other. other ≡ self.now) }
    {
        let roads = Arc::try_clone(&self.roads)?;
        Ok(Topology { roads })
    }

    /// The nodes in order.
    pub fn order(&self) -> &[u32]
        ensures { result.now ≡ self.now.order }
    {
        self.roads.order()
    }
}

impl Engine {
    /// Opens an engine for the graph with the arcs of a topology where arc k weighs `weights[k]`, by customization. The
    /// topology stays as it is, and so does each engine that was opened with it before.
    ///
    /// # Errors
    /// `Lengths` if there is not a weight for each arc, otherwise `BadArrays` with the place of the first weight that is too
    /// large; or `NoMemory`.
    pub fn customized(
        alloc: Global,
        topology: &Topology,
        weights: &[u64],
    ) -> Result<Engine, OpenError>
        ensures value { IfOk result (λ held. KeepsNothing held × IsOpenedWith topology.now weights.now held.hierarchy held.lines) }
        ensures error { IfErr result (IsWeightsError topology.now weights.now) }
    {
        let network = topology.roads.weighed(alloc, weights)?;
        Ok(Engine::of(alloc, network)?)
    }
}

/// Returns the graph of these arcs, which weigh nothing.
///
/// # Errors
/// `Lengths` if the lengths differ, otherwise `BadArrays` with the first fault of the graph; or `NoMemory`.
fn unweighed(
    alloc: Global,
    nodes: u32,
    tails: &[u32],
    heads: &[u32],
) -> Result<Graph, TopologyError>
    ensures value { IfOk result (IsOfEnds nodes tails.now heads.now) }
    ensures error { IfErr result (IsUnweighedError nodes tails.now heads.now) }
{
    let weights = vec![in alloc; 0; tails.len()]?;
    match graph_of(alloc, nodes, tails, heads, weights.as_slice()) {
        Ok(graph) => Ok(graph),
        Err(OpenError::Lengths) => Err(TopologyError::Lengths),
        Err(OpenError::BadArrays(fault)) => Err(TopologyError::BadArrays(fault)),
        Err(_) => Err(TopologyError::NoMemory),
    }
}

/// Returns a topology that any thread may use, one at a time. This compiles only for values that can be sent to a thread.
fn for_any_thread<T: Send>(topology: T) -> T
    ensures { result ≡ topology }
{
    topology
}

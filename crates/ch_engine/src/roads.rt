//! The arcs of a graph without their weights, with a topology of them.
ghost use Rattle.std.specs.Prelude.{◌≡◌, ◌*◌, length, map, IfErr, IfOk, Ok};
ghost use Rattle.ch_graph.specs.declared.arc.InArc.{InArc as AnyArc};
ghost use Rattle.ch_custom.specs.Customizing.{IsTopology};
ghost use Rattle.ch_engine.specs.Topologies.{HasEndsOf, IsInOrder, IsNamedOrder, IsOpenedWith, IsOrderError, IsWeightsError};

use crate::arrays::graph_of;
use crate::fault::OpenError;
use crate::network::Network;
use crate::topology_error::TopologyError;
use ch_custom::{TRIANGLES_A_NODE, Topology, TopologyError as NoTopology, customize, topology_of};
use ch_dissect::dissect_alone;
use ch_graph::{Graph, InArc};
use ch_read::{ReadError, read_saved};
use ch_tree::tree_of;
use std::alloc::{AllocError, Global};
use std::marker::Model;
use std::sync::Arc;

/// The ends of arcs, in the order of their lines, with a topology that serves all weights.
#[derive(Drop)]
pub struct Roads {
    nodes: u32,
    tails: Vec<u32>,
    heads: Vec<u32>,
    topology: Topology,
    /// The tree of the topology, which the networks of all weights share.
    tree: Arc<Vec<u32>, Global>,
}

impl Model for Roads {
    ghost use Rattle.std.specs.Arc.{arc_value};
    ghost use Rattle.ch_tree.specs.Parents.{IsTreeOf};
    ghost use Rattle.ch_engine.specs.Topologies.{EndsAndPairs, IsForAllWeights};

    ghost Value = { EndsAndPairs };

    ghost view = { λ r. record { nodes = r.nodes; tails = r.tails.items; heads = r.heads.items; order = r.topology.order; pairs = r.topology.pairs } };

    ghost invariant = { λ r. IsForAllWeights (record { nodes = r.nodes; tails = r.tails.items; heads = r.heads.items; order = r.topology.order; pairs = r.topology.pairs }) × IsTreeOf r.topology (arc_value r.tree).items };
}

impl Roads {
    /// Returns the arcs of a graph with their topology in the order that the bytes name. Without bytes it is a nested
    /// dissection order.
    ///
    /// # Errors
    /// `BadOrder` with the first fault of the bytes, otherwise `WrongOrder` if the order does not have each node once,
    /// otherwise `Triangles` if there are too many in this order; or `NoMemory`.
    pub(crate) fn of(alloc: Global, graph: &Graph, order: &[u8]) -> Result<Roads, TopologyError>
        ensures ends { IfOk result (λ t. HasEndsOf t graph.now) }
        ensures order { IfOk result (IsInOrder order.now) }
        ensures error { IfErr result (IsOrderError graph.now order.now) }
    {
        let named = named_order(alloc, graph, order)?;
        let most = TRIANGLES_A_NODE * graph.nodes() as u64;
        let topology = match topology_of(alloc, graph, named.as_slice(), most) {
            Ok(topology) => topology,
            Err(NoTopology::Order) => return Err(TopologyError::WrongOrder),
            Err(NoTopology::Triangles) => return Err(TopologyError::Triangles),
            Err(NoTopology::NoMemory) => return Err(TopologyError::NoMemory),
        };
        let roads = Roads::with(alloc, graph, topology)?;
        Ok(roads)
    }

    /// Returns the arcs of a graph with a topology of it.
    ///
    /// # Errors
    /// `AllocError` if there is no memory.
    fn with(alloc: Global, graph: &Graph, topology: Topology) -> Result<Roads, AllocError>
        requires nodes { length topology.pairs ≡ graph.now.nodes }
        requires topology { IsTopology graph.now topology.order topology.pairs }
        ensures ends { IfOk result (λ t. HasEndsOf t graph.now) }
        ensures order { IfOk result (λ t. t.order ≡ topology.order) }
        ensures pairs { IfOk result (λ t. t.pairs ≡ topology.pairs) }
    {
        let tails = tails_of(alloc, graph.arcs())?;
        let heads = heads_of(alloc, graph.arcs())?;
        let parents = tree_of(alloc, &topology)?;
        let tree = Arc::new(alloc, parents)?;
        Ok(Roads {
            nodes: graph.nodes(),
            tails,
            heads,
            topology,
            tree,
        })
    }

    /// Returns the network of the graph with these arcs where arc k weighs `weights[k]`.
    ///
    /// # Errors
    /// `Lengths` if there is not a weight for each arc, otherwise `BadArrays` with the first weight that is too large; or
    /// `NoMemory`.
    pub(crate) fn weighed(&self, alloc: Global, weights: &[u64]) -> Result<Network, OpenError>
        ensures value { IfOk result (λ network. IsOpenedWith self.now weights.now network.0 network.1) }
        ensures error { IfErr result (IsWeightsError self.now weights.now) }
    {
        let tails = self.tails.as_slice();
        let heads = self.heads.as_slice();
        let graph = graph_of(alloc, self.nodes, tails, heads, weights)?;
        // This call tells the proof that the graph keeps the limits.
        let _limits = graph.nodes();
        let hierarchy = customize(alloc, &self.topology, &graph)?;
        // This call tells the proof that the hierarchy has levels.
        let _levelled = hierarchy.nodes();
        let lined = Network::of(alloc, &graph, hierarchy)?;
        let tree = Arc::try_clone(&self.tree)?;
        Ok(lined.with_tree(tree))
    }

    /// The nodes in order.
    pub(crate) fn order(&self) -> &[u32]
        ensures { result.now ≡ self.now.order }
    {
        self.topology.order()
    }
}

/// Returns the order that the bytes name: a saved hierarchy, or its lines `p` and `o` alone. Without bytes it is a nested
/// dissection order.
///
/// # Errors
/// `BadOrder` with the first fault of the bytes, or `NoMemory`.
fn named_order(alloc: Global, graph: &Graph, bytes: &[u8]) -> Result<Vec<u32>, TopologyError>
    ensures order { IfOk result (λ order. IsNamedOrder bytes.now graph.now.nodes order.items) }
    ensures error { IfErr result (IsOrderError graph.now bytes.now) }
{
    if bytes.is_empty() {
        let found = dissect_alone(alloc, graph)?;
        return Ok(found);
    }
    match read_saved(alloc, bytes, graph.nodes()) {
        Ok(saved) => Ok(saved.order),
        Err(ReadError::Fault(fault)) => Err(TopologyError::BadOrder(fault)),
        Err(ReadError::NoMemory) => Err(TopologyError::NoMemory),
    }
}

/// Returns the node that each arc leads from.
fn tails_of(alloc: Global, arcs: &[InArc]) -> Result<Vec<u32>, AllocError>
    ensures { IfOk result (λ tails. tails.items ≡ map (λ (a : AnyArc). a.from) arcs.now) }
{
    let mut tails = Vec::with_capacity(alloc, arcs.len())?;
    for k in 0..arcs.len() {
        tails.push(arcs[k].from)?;
    }
    Ok(tails)
}

/// Returns the node that each arc leads to.
fn heads_of(alloc: Global, arcs: &[InArc]) -> Result<Vec<u32>, AllocError>
    ensures { IfOk result (λ heads. heads.items ≡ map (λ (a : AnyArc). a.to) arcs.now) }
{
    let mut heads = Vec::with_capacity(alloc, arcs.len())?;
    for k in 0..arcs.len() {
        heads.push(arcs[k].to)?;
    }
    Ok(heads)
}

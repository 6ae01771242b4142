//! Frames: what is kept of a graph to customize new weights of its arcs.
ghost use Rattle.std.specs.Prelude.{◌≡◌, Err, IfOk};
ghost use Rattle.ch_hierarchy.specs.Kept.{IsKept};
ghost use Rattle.ch_hierarchy.specs.Saved.{IsOrderOf};
ghost use Rattle.ch_order.specs.declared.construction.like.OrderError.TheVariants as OrderErrorOf;
ghost use Rattle.ch_run.specs.Customized.{IsCustomizedIn};
ghost use Rattle.ch_run.specs.Frames.{IsFrameFor};

use crate::plan::{Crew, Gate};
use ch_contract::{Hierarchy, HopBound};
use ch_custom::{TRIANGLES_A_NODE, Topology, TopologyError, customize_by, topology_of};
use ch_graph::Graph;
use ch_order::{OrderError, build_quickly};
use std::alloc::AllocError;
use std::marker::Model;
use std::thread::Threads;

/// An order of the nodes of a graph, and its topology unless that has more than [`TRIANGLES_A_NODE`] triangles a node. It
/// serves all weights of the arcs.
#[derive(Drop)]
pub(crate) struct Frame {
    order: Vec<u32>,
    topology: Option<Topology>,
    /// The most edges of a witness, if a hierarchy is built without a topology.
    hops: HopBound,
}

impl Model for Frame {
    ghost use Rattle.ch_run.specs.Frames.{OrderAndTopology};

    ghost Value = { OrderAndTopology };

    ghost view = { λ f. record { order = f.order.items; topology = f.topology; hops = f.hops.number } };
}

impl Frame {
    /// Makes the frame of a graph in this order.
    ///
    /// # Errors
    /// `Order` if the order does not have each node of the graph exactly once, and `NoMemory` if there is no memory. The
    /// graph is as before.
    pub(crate) fn new<R: Threads + Sync, G: Gate>(
        crew: &Crew<'_, R, G>,
        graph: &Graph,
        order: Vec<u32>,
        hops: HopBound,
    ) -> Result<Frame, OrderError>
        ensures order { IfOk result (λ f. f.order ≡ order.items) }
        ensures hops { IfOk result (λ f. f.hops ≡ hops.number) }
        ensures fits { IfOk result (IsFrameFor graph.now) }
        ensures refused { result ≡ Err OrderErrorOf.Order → IsOrderOf graph.now.nodes order.items → ⊥ }
    {
        let most = TRIANGLES_A_NODE * graph.nodes() as u64;
        match topology_of(crew.alloc, graph, &order, most) {
            Ok(topology) => {
                // This call tells the proof that the order has each node once.
                let _order = topology.order();
                Ok(Frame {
                    order,
                    topology: Some(topology),
                    hops,
                })
            }
            Err(TopologyError::Triangles) => Ok(Frame {
                order,
                topology: None,
                hops,
            }),
            Err(TopologyError::Order) => Err(OrderError::Order),
            Err(TopologyError::NoMemory) => Err(OrderError::NoMemory),
        }
    }

    /// Returns the hierarchy of a graph with the arcs of the frame, customized in its order. Without a topology the
    /// hierarchy is built quickly instead.
    ///
    /// # Errors
    /// `AllocError` if there is no memory. The graph is as before.
    pub(crate) fn hierarchy<R: Threads + Sync, G: Gate>(
        &self,
        crew: &Crew<'_, R, G>,
        graph: &Graph,
    ) -> Result<Hierarchy, AllocError>
        requires fits { IsFrameFor graph.now self.now }
        ensures customized { IfOk result (IsCustomizedIn graph.now self.now.hops self.now.order) }
        ensures kept { IfOk result (IsKept graph.now) }
    {
        match &self.topology {
            Some(topology) => customize_by(crew, topology, graph),
            None => build_quickly(crew, graph, self.hops),
        }
    }
}

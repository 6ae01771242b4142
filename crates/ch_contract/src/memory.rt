//! The memory of building.
ghost use Rattle.ch_graph.specs.Graph.{IsWithinLimits};

use ch_graph::Graph;
use std::alloc::{AllocError, Global};

/// Words of 8 bytes for each node, without its arcs. Building a road network was measured to take more.
const NODE_WORDS: usize = 12;

/// Words of 8 bytes for each arc. Building was measured to take more.
const ARC_WORDS: usize = 8;

/// Asks at once for about as much memory as building will take, and gives it back. If there is less memory,
/// building fails now and not after most nodes are contracted. The clause says that the graph keeps the limits.
/// It follows from the calls on the graph.
pub fn ask_ahead(alloc: Global, graph: &Graph) -> Result<(), AllocError>
    ensures { IsWithinLimits graph.now }
{
    let nodes = (graph.nodes() as usize).saturating_mul(NODE_WORDS);
    let arcs = graph.arcs().len().saturating_mul(ARC_WORDS);
    let _ = Vec::<u64>::with_capacity(alloc, nodes.saturating_add(arcs))?;
    Ok(())
}

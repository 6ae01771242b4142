//! The reasons why a topology is not opened.
ghost use Rattle.std.specs.Prelude.{◌≡◌};
ghost use Rattle.ch_engine.specs.declared.topology_error.TopologyError.TheVariants as TopologyError;

use ch_graph::GraphFault;
use ch_read::ReadFault;
use std::alloc::AllocError;
use thiserror::Error;

/// The reason why a topology is not opened.
#[derive(Clone, Copy, Debug, PartialEq, Eq, Error)]
pub enum TopologyError {
    /// There is no memory.
    #[error("out of memory")]
    NoMemory,
    /// This is the first fault of the graph's bytes.
    #[error("graph {0}")]
    BadGraph(ReadFault),
    /// The lengths of the arrays of a graph differ.
    #[error("lengths that differ")]
    Lengths,
    /// This is the first fault of the arrays of a graph.
    #[error("graph {0}")]
    BadArrays(GraphFault),
    /// This is the first fault of the bytes of the order.
    #[error("order {0}")]
    BadOrder(ReadFault),
    /// The order does not have each node of the graph exactly once.
    #[error("an order that does not have each node once")]
    WrongOrder,
    /// In this order there are more than [`TRIANGLES_A_NODE`](ch_custom::TRIANGLES_A_NODE) triangles a node.
    #[error("too many triangles")]
    Triangles,
}

impl From<AllocError> for TopologyError {
    ghost from_gives = { λ _ error. error ≡ TopologyError.NoMemory };

    fn from(_refused: AllocError) -> TopologyError {
        TopologyError::NoMemory
    }
}

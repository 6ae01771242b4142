//! Where the hierarchy of a run comes from.

use ch_contract::{HopBound, Percent};

/// Where the hierarchy of a run comes from.
#[derive(Debug, Drop)]
pub enum Source<S: Drop> {
    /// The run builds it from the graph, after it has read all inputs but the requests.
    Built,
    /// Some program has saved it: chtab or another. The run reads it from this input after the graph,
    /// and checks it before it reads anything else.
    Saved(S),
    /// The run reads an order after the graph, and builds the hierarchy in an order like it before it reads
    /// anything else. The order is that of a saved hierarchy of a graph with as many nodes, with its legs or
    /// without. The last `fresh` per cent of the nodes are ordered afresh, by depth.
    Like {
        order: S,
        fresh: Percent,
        /// The most legs of a witness.
        hops: HopBound,
    },
    /// The run reads an order after the graph, and customizes the hierarchy in this very order before it reads anything
    /// else. The order is that of a saved hierarchy of a graph with as many nodes, with its legs or without.
    Customized {
        order: S,
        /// The most legs of a witness, if the order has too many triangles and the hierarchy is built instead.
        hops: HopBound,
    },
    /// The run finds a nested dissection order of the graph, and customizes the hierarchy in it before it reads anything
    /// else.
    Dissected {
        /// The most legs of a witness, if the order has too many triangles and the hierarchy is built instead.
        hops: HopBound,
    },
}

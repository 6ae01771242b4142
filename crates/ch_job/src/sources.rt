//! Where the sources of near rows come from.

/// Where the sources of near rows come from.
#[derive(Debug, Drop)]
pub enum Sources<J: Drop> {
    /// The sources are all nodes of the graph, in order.
    All,
    /// The sources are those of a list, which the run reads from this input before the targets.
    Listed(J),
}

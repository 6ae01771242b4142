//! The options of a run, and their limits.

pub use ch_contract::{HopBound, OrderBy};
pub use ch_hierarchy::Direction;

/// The options of a run: how it answers queries, and makes tables and near rows.
#[derive(Clone, Copy, Debug, PartialEq, Eq)]
pub struct Options {
    /// Whether distances come from rounds of relaxation over all arcs, and not from a hierarchy.
    pub plain: bool,
    /// Whether the arcs of a shortest path follow each distance.
    pub routes: bool,
    /// The most legs of a witness.
    pub hops: HopBound,
    /// The order of contraction of a hierarchy that is saved, or that gives routes. Distances and tables
    /// are the same in each order. The hierarchy is the same for every plan.
    pub order: OrderBy,
    /// Whether a hierarchy that is saved is built in the order that takes the least time to find, and not in `order`.
    pub quick: bool,
    /// The greatest distance that a table or a near row reports, if there is a limit. A cell with a
    /// greater distance is as if there were no walk. A near row leaves out targets that are farther.
    /// Answers to queries have no limit.
    pub within: Option<u64>,
    /// The most targets of a near row, from 1 to [`MOST_LISTED`](ch_graph::limits::MOST_LISTED), if there is a limit. Without one, a row
    /// has all targets.
    pub count: Option<u32>,
    /// The direction of the distances of near rows.
    pub direction: Direction,
}

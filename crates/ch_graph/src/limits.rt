//! The limits of graphs, of files and of hierarchies.
//!
//! Code, specifications and proofs cite them, here and in the crates above. The limits of work that workers
//! share are in `ch_work`.
//!
//! A walk that visits no node twice has fewer arcs than there are nodes, so it weighs at most [`MOST_WEIGHT`], and
//! two of them [`MOST_SUM`]. Searches for witnesses add up three such weights before they compare. Other searches
//! add one to [`UNREACHED`](crate::UNREACHED). No sum is more than that, and none wraps.

/// The most nodes of a graph. A walk that visits no node twice has fewer arcs.
pub const MOST_NODES: u32 = 1 << 25;

/// The most arcs of a graph.
pub const MOST_ARCS: usize = 1 << 27;

/// The most that the number of nodes times an arc's weight may be. A walk that visits no node twice weighs
/// at most this. No leg and no shortcut weighs more.
pub const MOST_WEIGHT: u64 = 1 << 60;

/// The greatest sum of two weights that are at most [`MOST_WEIGHT`] each.
pub const MOST_SUM: u64 = 2 * MOST_WEIGHT;

/// The most queries of a file.
pub const MOST_QUERIES: u64 = 1 << 24;

/// The most nodes of a list, such as the sources or the targets of a table.
pub const MOST_LISTED: u64 = 65_536;

/// The most legs of a hierarchy: one for each ordered pair of nodes.
pub const MOST_LEGS: u64 = MOST_NODES as u64 * MOST_NODES as u64;

/// The most arcs that a path of legs of rising or falling level stands for. Such a path has fewer legs than
/// there are nodes, and each leg stands for fewer arcs than there are nodes.
pub const MOST_PATH_ARCS: u64 = MOST_NODES as u64 * MOST_NODES as u64;

/// The most legs of a witness.
pub const MOST_HOPS: u32 = 16;

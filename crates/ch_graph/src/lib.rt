//! Directed graphs with weighted arcs, the costs of walks, and the plain distance between two nodes. Also
//! rows of values by node, and hierarchies as files hold them.
//!
//! It stands on std alone. These statements are proved for every input; only memory may be lacking:
//!
//! - A [`Graph`] keeps the [`limits`] on sizes and weights, and [`Graph::new`] names the first fault.
//! - [`plain_distance`] is the least weight of a walk, or says that there is no walk.
//! - A row of [`Rows`] holds the values of its key, in the given order.
//! - [`Cost`]s have a total order that sums keep, and comparing two costs gives this order ([`laws`]).
//! - Between two nodes there is one least cost of a walk, or no walk. A walk of least cost visits no node
//!   twice ([`walk_laws`]).
#![tactic(auto)]

mod arc;
mod cost;
mod graph;
pub mod laws;
pub mod limits;
mod plain;
mod rows;
mod saved;
pub mod walk_laws;

pub use arc::InArc;
pub use cost::{Cost, UNREACHED};
pub use graph::{Graph, GraphFault};
pub use plain::plain_distance;
pub use rows::{Rows, gather, sort_by_key};
pub use saved::{Saved, SavedLeg};

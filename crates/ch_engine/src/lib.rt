//! Engines: a network that is asked in the caller's own process. An engine is used by one thread at a time.
//!
//! It stands on ch_contract, ch_custom, ch_dissect, ch_flows, ch_graph, ch_hierarchy, ch_order, ch_query, ch_read, ch_rows,
//! ch_text, ch_tree and thiserror. It starts no thread. An [`Engine`] has a hierarchy, room for its own searches, the places of
//! its near rows, and the values of its tables of sums. Other engines may share the hierarchy and the values. These statements
//! are proved:
//!
//! - [`Engine::open`] gives a hierarchy that is right for the graph that the bytes name, or an error that is true of
//!   the bytes.
//! - [`Engine::open_arrays`] does the same for the graph with exactly the arcs of three arrays, in their order.
//! - [`Engine::open_like`] gives a hierarchy that is right for another graph, in the order of an engine's hierarchy, or an
//!   error that is true of the bytes. With all nodes afresh it is the one that [`Engine::open`] builds.
//! - [`Engine::customized`] gives a hierarchy that is right for the graph with the arcs of a [`Topology`] and with the given
//!   weights, or an error that is true of the weights. The topology is that of the graph that the bytes or arrays name, and
//!   serves all weights.
//! - Distances, tables, routes and near rows are those of each graph for which the hierarchy is right. Sums are those over
//!   near rows and along routes, and flows those of the demands of pairs along routes.
//! - No call requires anything of its arguments. A refusal says what is wrong, and changes nothing.
#![tactic(auto)]

mod arrays;
mod engine;
mod fault;
mod flows;
mod kept_values;
mod leg_sums;
mod lines;
mod near;
mod near_sums;
mod network;
mod opening;
mod pair_trees;
mod place_trees;
mod roads;
mod route_sums;
mod routes;
mod slots;
mod source_tree;
mod sum_meets;
mod sum_trees;
mod sums;
mod table_sums;
mod tables;
mod topology;
mod topology_error;
mod words;
mod written;

pub use engine::Engine;
pub use fault::{OpenError, Refusal};
pub use flows::Flowed;
pub use lines::NO_LINE;
pub use topology::Topology;
pub use topology_error::TopologyError;
pub use words::NO_DISTANCE;
pub use written::{End, RowsEnd, Summed, SummedRows, SumsEnd, Written};

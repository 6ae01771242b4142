//! Distances by the elimination tree (Dibbelt, Strasser and Wagner 2016). In a customized hierarchy each leg of a node
//! leads to an ancestor of it. So one pass from a node up to the root finds the least costs of going up, without a queue.
//!
//! It stands on ch_contract, ch_custom, ch_graph, ch_hierarchy and ch_query.
#![tactic(auto)]

pub mod laws;
mod parents;
mod query;
mod routes;
mod scratch;
mod spaces;
mod sweep;

pub use parents::{tree_for, tree_of};
pub use routes::route;
pub use scratch::{TreeScratch, distance, ranked_space};

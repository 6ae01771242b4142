//! Customizable contraction hierarchies (Dibbelt, Strasser and Wagner 2016). A *topology* is an order of the nodes of
//! a graph with the pairs of nodes between which there may be a leg, whatever the weights are. It is made once for
//! the arcs of a graph. Weights are a *metric*: customization gives the hierarchy of each metric in this order.
//!
//! It stands on ch_contract, ch_graph, ch_hierarchy, ch_lists and ch_work.
#![tactic(auto)]

mod customizing;
mod division;
mod exact;
pub mod laws;
mod leg_pair;
mod lowering;
mod metric;
mod pairs;
mod parts;
mod pruning;
mod topology;

pub use customizing::{customize, customize_by};
pub use pruning::customize_and_prune;
pub use topology::{TRIANGLES_A_NODE, Topology, TopologyError, topology_of};

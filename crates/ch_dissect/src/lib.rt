//! Nested dissection orders of roads (George 1973), found by flows, without coordinates and without another program.
//!
//! It stands on ch_graph, ch_hierarchy and ch_work. Weights and directions do not count. First the nodes with at most two
//! neighbours are taken out, in rounds. What is left is cut in two by a small set of nodes, the *separator*, which
//! comes last in the order. Both sides are cut again, until few nodes are left.
//!
//! Proved for every graph: [`dissect`] and [`dissect_alone`] end, and their order has each node exactly once. They are
//! refused only if there is no memory. How small the separators are is measured, and not proved.
#![tactic(auto)]

mod alone;
mod chains;
mod core_rows;
mod cutter;
mod dissection;
mod flow;
mod neighbours;
mod nodes;
mod order;
mod part;
mod parts;
mod separator;
mod shares;
mod sharing;
mod small;
mod walk;

pub use alone::dissect_alone;
pub use dissection::dissect;

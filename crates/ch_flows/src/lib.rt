//! Flows on roads: for each arc the sum of the demands of the pairs whose routes take it.
//!
//! It stands on ch_graph, ch_hierarchy and ch_query. Each leg of a hierarchy stands for an arc or for two other legs. The
//! demand of a pair is added to the legs of its way, and at the end each leg that stands for two hands what it has to
//! these, from the highest leg down. So a pair costs a search and a step for each leg of its way, and all arcs together a
//! step for each leg of the hierarchy.
//!
//! Each source and each target of a table has one search. The demand of a cell is held where the two meet, at a branch of
//! each. A branch hands what it holds to the leg of its last step and to the branch before it: those of a row after the
//! row, and those of the targets at the end. So a cell costs two additions, beside finding where it meets.
//!
//! Proved on every hierarchy that is right for a graph: [`flows`] gives each arc exactly the sum of the demands of the
//! pairs whose routes take it, as often as they take it. The routes are those of `ch_query::route`. Flows are refused only
//! if some arc has more than [`MOST_FLOW`], or if there is no memory.
#![tactic(auto)]

mod branching;
mod gathering;
mod handing;
mod meeting;
mod pairs;
mod plan;
mod sums;
mod table;
mod tally;
mod tree;

pub use handing::{Halves, MOST_FLOW};
pub use pairs::{FlowError, LegFlows, flows};
pub use plan::{Layout, Link, Plan, make_plan};
pub use table::table_flows;

//! Contraction hierarchies of any origin (Geisberger, Sanders, Schultes and Delling 2008): levels, legs,
//! saved hierarchies, and when a hierarchy is right for a graph.
//!
//! It stands on ch_graph and ch_lists. A [`Hierarchy`] also holds its legs by rank, in the form that searches
//! read. These statements are proved:
//!
//! - A hierarchy of any origin may be kept for a graph. In such a hierarchy, the least cost of going up and
//!   then down is the least cost of a walk ([`laws::kept`]).
//! - [`assemble`] makes the one hierarchy that a saved order and legs name, or returns their first fault
//!   ([`laws::saved`]).
#![tactic(auto)]

mod assembling;
mod direction;
mod doubles;
mod fault;
mod hierarchy;
pub mod laws;
mod leg;
mod placing;
mod ranked;
mod side;
mod sorting;

pub use assembling::{assemble, levels_of};
pub use direction::Direction;
pub use fault::{CheckError, CheckFault};
pub use hierarchy::Hierarchy;
pub use leg::Leg;
pub use ranked::RankedLeg;
pub use side::Side;

//! Contraction of nodes (Geisberger, Sanders, Schultes and Delling 2008): when a node is contracted,
//! shortcuts keep the distances between the remaining nodes. The crates above build hierarchies, one node after the
//! other.
//!
//! It stands on ch_graph, ch_hierarchy, ch_lists and smallvec. These statements are proved:
//!
//! - Each call of [`Remaining`] gives what its definition says, and so does the search for witnesses. This
//!   search walks no chain past its bound.
//! - In each order the rules name only one hierarchy ([`laws::one_order`]), and it is kept for its graph
//!   ([`laws::keeping`]).
//! - [`assemble`] makes the one hierarchy that a saved order and legs name, or returns their first fault. It is
//!   a call of ch_hierarchy, and so are the laws on kept and saved hierarchies.
#![tactic(auto)]

mod held_cost;
mod hop_bound;
mod known_costs;
pub mod laws;
mod leg_lists;
mod measure;
pub mod memory;
pub mod order;
mod percent;
mod remaining;
mod room;
mod shortcut;
mod witness_search;
mod witness_searches;

pub use ch_hierarchy::{CheckError, CheckFault, Hierarchy, Leg, assemble};
pub use hop_bound::HopBound;
pub use measure::{Measure, OrderBy};
pub use percent::Percent;
pub use remaining::{BothRows, Remaining, Removed};
pub use room::Room;
pub use shortcut::Shortcut;

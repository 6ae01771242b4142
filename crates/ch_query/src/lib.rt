//! Exact distances and routes by a contraction hierarchy. The search is Dijkstra's algorithm from both ends
//! at once, only along legs to higher nodes (Geisberger, Sanders, Schultes and Delling 2008).
//!
//! It stands on ch_graph, ch_hierarchy, ch_queue and ch_work. Proved on every hierarchy that is right for a
//! graph:
//!
//! - [`distance`] is the least weight of a walk, or says that there is no walk. It takes no memory: its
//!   room is a [`Scratch`], and one query leaves it clean for the next.
//! - [`route`] is the one walk that the rules of choice name. It has the least weight, and of the walks of
//!   that weight the fewest arcs ([`laws`]).
//! - [`route_legs`] lists the legs of that walk as the search finds them, before they are unpacked.
//! - [`ranked_spaces`] lists, for each node of a list, the nodes that distances lead over, and
//!   [`ranked_spaces_alone`] does the same without threads. [`lower_by_search`] lowers the words of a row by
//!   a search space and buckets.
//! - [`answer_one`] returns the answer to a query, and [`answer_all`] those to many queries in their order, for every
//!   plan.
//! - [`search_tree`] lists the nodes that routes from a source lead over, each with its parent on the way back.
//!
//! Proved on every hierarchy with levels: [`spread`] lists all that a node reaches by legs to higher nodes,
//! with the exact least costs.
//!
//! [`check`] accepts a saved hierarchy of any origin exactly if it is right for the graph, and otherwise
//! returns its first fault.
#![tactic(auto)]

mod answer;
mod checking;
pub mod laws;
mod question;
mod routes;
mod scratch;
mod sides;
mod start;
mod weights;

pub use answer::one::{answer_one, answer_with_route};
pub use answer::query_job::QueryJob;
pub use answer::{Answer, answer_all, answer_all_in};
pub use checking::{check, check_alone};
pub use routes::Route;
pub use routes::ancestors::route_by_ancestors;
pub use routes::query::route;
pub use routes::unpacking::PendingLeg;
pub use routes::way::route_legs;
pub use scratch::Scratch;
pub use sides::{Sides, TreeNode, search_tree, spread};
pub use start::Start;
pub use weights::{Lowering, distance, lower_by_search, ranked_spaces, ranked_spaces_alone};

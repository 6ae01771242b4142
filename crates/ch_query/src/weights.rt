//! Searches by weights alone, and what they find: the distance between two nodes, and the search space of a
//! node.

mod distances;
mod lists;
mod lowering;
pub(crate) mod marked;
pub(crate) mod search;
mod spaces;

pub use distances::distance;
pub use lists::{ranked_spaces, ranked_spaces_alone};
pub use lowering::{Lowering, lower_by_search};

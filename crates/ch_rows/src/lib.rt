//! Rows of distances from each source to many targets, by buckets (Knopp, Sanders, Schultes, Schulz and Wagner
//! 2007): tables, and the targets that are nearest.
//!
//! It stands on ch_graph, ch_hierarchy, ch_query and ch_work. Each target is searched from once, and leaves
//! its weights in the buckets of the nodes that it reaches. The row of a table has the least sums with all buckets. A
//! near row has them sorted and cut, and so are its buckets. These statements are proved on every hierarchy that is
//! right for a graph, for every plan and gate:
//!
//! - Each cell of [`table`] is the least weight of a walk, or says that there is no walk. With a limit, it is none if
//!   the least weight is more.
//! - Each row of [`NearTargets::make_row`] has exactly the first targets in order of distance and then of
//!   place, with their distances. It has as many as are asked for, or all. With a limit, it has only targets whose
//!   distance is at most that. There is only one such row ([`laws`]).
//! - The same holds of each row of [`NearTargets::node_rows`], and of the rows and cells of [`KeptTargets`].
//!
//! On every hierarchy, [`Buckets`] hold at each node exactly the targets that it reaches by going down, or the sources
//! that reach it by going up. They hold the least weights of such paths within the limit, in order of place.
#![tactic(auto)]

mod buckets;
mod by_cells;
mod by_rows;
mod cells;
mod dealing;
mod first;
mod kept;
pub mod laws;
mod many_to_many;
mod nearest;
mod offers;
mod owed;
mod row_job;
mod rows;
mod searched;
mod spaces;
mod sums;
mod sweep;

pub use buckets::Buckets;
pub use cells::Table;
pub use kept::KeptTargets;
pub use many_to_many::{gather_rows, table};
pub use nearest::NearTargets;
pub use row_job::RowJob;
pub use rows::NearRoom;
pub use sweep::NodeRows;

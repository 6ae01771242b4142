//! The calls of the library for C: an engine of `ch_engine` behind a handle of 16 bytes, which the caller keeps.
//!
//! It stands on ch_engine, ch_graph, ch_hierarchy, ch_read, ch_text, core, std_alloc and std_heap.
//! It exports the calls that `include/chtab.h` declares. [`numbers`] is for readers alone, and proves the statuses.
//!
//! No call requires anything: it tests handles, lengths, nodes, sizes and bytes itself, and returns a status.
//! Each call is proved: it does its task if it returns 0, a refusal is right, and the handle holds the right
//! engine in each case.
#![tactic(auto)]

mod answers;
mod erased;
mod erased_topology;
mod faults;
mod handle;
mod near;
mod opening;
mod raw_box;
mod status;
mod topology;

pub use faults::Fault;
pub use handle::{
    Handle, chtab_distances, chtab_flows, chtab_flows_table, chtab_keep_values,
    chtab_kept_near_sums, chtab_kept_table_sums, chtab_near_places, chtab_near_rows,
    chtab_near_sums, chtab_near_sweep, chtab_near_table, chtab_nodes, chtab_route_sums,
    chtab_routes, chtab_save, chtab_table, chtab_version,
};
pub use opening::{
    chtab_close, chtab_open, chtab_open_arrays, chtab_open_like, chtab_open_quick, chtab_share,
};
pub use status::numbers;
pub use topology::{
    TopologyHandle, chtab_customized, chtab_topology_close, chtab_topology_open,
    chtab_topology_open_arrays, chtab_topology_order, chtab_topology_share,
};

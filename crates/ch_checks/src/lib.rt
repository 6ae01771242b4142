//! Tests of the crates below the runs, through their public calls. They test what no clause says.
//!
//! - Calls succeed if there is memory.
//! - After a refusal of memory, the values that were lent are usable.
//! - Pieces pass the gate as often as they should, and workers do pieces at the same time.
//!
//! The crate has only tests, so the crates below are proved once. It stands on ch_contract, ch_custom, ch_dissect,
//! ch_graph, ch_hierarchy, ch_lists, ch_order, ch_query, ch_queue, ch_read, ch_rows, ch_text, ch_tree and ch_work.
#![tactic(auto)]

#[cfg(test)]
mod again;
#[cfg(test)]
mod contract;
#[cfg(test)]
mod crew;
#[cfg(test)]
mod custom;
#[cfg(test)]
mod dissect;
#[cfg(test)]
mod examples;
#[cfg(test)]
mod graph;
#[cfg(test)]
mod hierarchy;
#[cfg(test)]
mod lists;
#[cfg(test)]
mod near;
#[cfg(test)]
mod query;
#[cfg(test)]
mod queue;
#[cfg(test)]
mod reading;
#[cfg(test)]
mod table;
#[cfg(test)]
mod work;
#[cfg(test)]
mod worked;

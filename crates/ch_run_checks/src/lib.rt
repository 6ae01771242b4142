//! Tests of `ch_run` through its public calls. They test what no clause says: calls succeed, memory is
//! refused, devices fail in mid-stream, and workers share a run.
//!
//! They are in a crate of their own, because a crate with tests is proved twice. It stands on ch_contract,
//! ch_graph, ch_order, ch_query, ch_read, ch_run and ch_work.
#![tactic(auto)]

#[cfg(test)]
mod calling;
#[cfg(test)]
mod devices;
#[cfg(test)]
mod failing;
#[cfg(test)]
mod files;
#[cfg(test)]
mod runs;
#[cfg(test)]
mod workers;

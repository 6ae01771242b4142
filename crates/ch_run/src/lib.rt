//! Runs: from the bytes of a graph and of queries, lists of nodes or requests, to the text of the
//! answers.
//!
//! It stands on ch_contract, ch_custom, ch_dissect, ch_graph, ch_hierarchy, ch_job, ch_order, ch_query, ch_read,
//! ch_rows, ch_text, ch_work and thiserror. It knows no command line. Proved of it, for every plan and gate:
//!
//! - After [`run_dist`] and [`run_table`] the output has taken exactly the text that the definitions
//!   name for the bytes of the inputs. They name only one text ([`laws::one_text`]).
//! - A run's contract tells its story in the order in which it happens. [`laws`] have what follows: a
//!   run ends only in a fault of its own, and touches no device before all earlier inputs were
//!   accepted.
//! - A hierarchy is built, or a saved one of any origin is read. A saved one is first checked for the
//!   graph ([`Source`]).
//! - The same holds of [`run_save`], which writes the hierarchy of the graph. It also holds of
//!   [`run_near`], which writes the nearest targets of each source of a list, or of each node of the
//!   graph ([`Sources`]).
//! - [`run_ask`] answers requests as they come. Before each read it answers all requests that are whole
//!   in the bytes that were read. Each answer is of the graph with the weights as they were set before it.
//!
//! It passes on the devices of ch_text, which give the inputs and take the text.
#![tactic(auto)]

mod building;
mod fault;
mod frame;
pub mod laws;
mod needed;
mod plan;
mod routes;
mod run;
mod weighing;

pub use ch_job::{Direction, HopBound, Options, OrderBy, Percent, Source, Sources};
pub use ch_text::{
    DeviceFault, Input, MemoryInput, MemoryOutput, Output, ReadAllFault, ReadOnce, ReaderInput,
    WriteOnce, WriterOutput, read_all, write_all,
};
pub use fault::{RunFault, Which, fault_line, status};
pub use plan::{Crew, Gate, Open, Plan, Stage};
pub use run::{run_ask, run_dist, run_near, run_save, run_table};

//! Jobs. A job is what the program is asked for: a question about a graph, with its files, its
//! options and its plan.
//!
//! It stands on ch_contract, ch_graph, ch_hierarchy and ch_work. The files of a job are their names, or the opened files.
//! [`Job`] is the same for both, so that the command line gives a job, the files of a job are opened, and a job is run.
#![tactic(auto)]

mod job;
mod options;
mod source;
mod sources;

pub use ch_contract::Percent;
pub use job::{Job, Question};
pub use options::{Direction, HopBound, Options, OrderBy};
pub use source::Source;
pub use sources::Sources;

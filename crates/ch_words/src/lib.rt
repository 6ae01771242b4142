//! The words of the command line, and the line that they give: what the program is asked for.
//!
//! It stands on ch_contract, ch_graph, ch_hierarchy, ch_job, ch_work, clap and thiserror. Proved of [`read_words`]:
//!
//! - A line has the job that the words name, with the values that clap matches to the tool's arguments.
//!   Each number is within its limits.
//! - It returns the text of help or of the version only if the words ask for it. It refuses words only if
//!   something else is wrong with them.
#![tactic(auto)]

mod arguments;
mod fault;
mod form;
mod given;
mod line;
mod options;
mod words;

pub use fault::{LineFault, line_status, refused};
pub use line::Line;
pub use words::read_words;

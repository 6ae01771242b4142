//! Runs: from the bytes of the inputs to the bytes of the output.

mod answering;
mod ask;
mod batch;
mod dist;
mod first;
mod inputs;
mod keeping;
mod lines;
mod loading;
mod near;
mod near_lines;
mod near_texts;
mod output;
mod save;
mod serving;
mod table;
mod texts;
mod workers;

pub use ask::run_ask;
pub use dist::run_dist;
pub use near::run_near;
pub use save::run_save;
pub use table::run_table;

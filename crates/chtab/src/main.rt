//! `chtab`: exact least distances on directed graphs, from files to text.
//!
//! It stands on ch_graph, ch_job, ch_line, ch_run, ch_text, ch_watch, ch_words, ch_work and thiserror.
#![tactic(auto)]

mod numbers;
mod program;
mod system;

pub use ch_job::{Job, Question};
pub use ch_run::{
    Crew, DeviceFault, Direction, Gate, Input, MemoryInput, MemoryOutput, Open, Options, Output,
    Plan, ReadAllFault, ReaderInput, RunFault, Source, Sources, Stage, Which, WriterOutput, laws,
    read_all, run_ask, run_dist, run_near, run_save, run_table, status, write_all,
};
pub use ch_words::{Line, LineFault, line_status, read_words};
pub use numbers::numbers;
use std::process::ExitCode;

fn main(rt: HostRuntime) -> ExitCode {
    ExitCode::from(system::start(&rt, system::HostFiles::new(&rt), &rt))
}

//! Runs of lines. A line says what the program is asked for. Its run opens files by their names.
//!
//! It stands on ch_job, ch_run, ch_text, ch_words and thiserror. Proved of [`run_line`], over any files:
//!
//! - It opens the files of the line by their names, each in the place of its argument, and no other file.
//! - The output took the text that answers the question of the line's job, of the bytes that the reads of these
//!   files gave, with the options of the job.
//! - A file is refused only for a fault of these bytes.
//! - Over files whose bytes are known, these are the bytes ([`laws::openings_tell`]).
#![tactic(auto)]

mod files;
mod job;
pub mod laws;
mod run;

pub use files::{Files, MemoryFile, MemoryFiles, OpenFault};
pub use job::run_job;
pub use run::{open_job, run_line};

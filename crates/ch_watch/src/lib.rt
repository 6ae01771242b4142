//! Reports of progress: lines that say how far a run is. No contract covers them, and no answer depends
//! on them.
//!
//! It stands on ch_work.
#![tactic(auto)]

mod course;
mod system;
mod text;
mod watcher;

pub use watcher::{Lines, Timer, Watch, Watcher};

//! The gate that reports how far a run is.

use crate::course::Course;
use ch_work::{Gate, Open, Stage};
use std::alloc::Global;

/// A gate that learns whether the words ask for progress.
pub trait Watch: Gate {
    /// Tells the gate whether the words ask for progress. It is called once, before the run of a line.
    fn begin(&self, is_asked: bool);
}

impl Watch for Open {
    fn begin(&self, _is_asked: bool) {}
}

/// A clock that each thread can read.
pub trait Timer: Sync {
    /// Returns the time since a fixed start, in milliseconds, or `None` if the clock can't be read.
    fn milliseconds(&self) -> Option<u64>;
}

/// A writer of lines that each thread can use.
pub trait Lines: Sync {
    /// Writes a line, or drops it if it can't be written.
    fn take(&self, line: &str);
}

/// A gate that reports how far a run is, if that is asked for, or if lines are shown and a stage takes
/// long.
#[derive(Drop)]
pub struct Watcher<'a, T, L> {
    timer: &'a T,
    lines: &'a L,
    alloc: Global,
    course: Course,
}

impl<'a, T: Timer, L: Lines> Watcher<'a, T, L> {
    /// Makes a watcher that writes to `lines` after its `begin`. If `is_shown`, it reports on a stage
    /// that takes long even if nobody asked.
    pub fn new(timer: &'a T, lines: &'a L, alloc: Global, is_shown: bool) -> Watcher<'a, T, L> {
        Watcher {
            timer,
            lines,
            alloc,
            course: Course::new(is_shown),
        }
    }
}

impl<'a, T: Timer, L: Lines> Watch for Watcher<'a, T, L> {
    fn begin(&self, is_asked: bool) {
        self.course.begin(is_asked);
    }
}

impl<'a, T: Timer, L: Lines> Gate for Watcher<'a, T, L> {
    fn pass(&self, piece: u32) {
        if !self.course.is_timed_at_piece(piece) {
            return;
        }
        if let Some(now) = self.timer.milliseconds() {
            if let Some(line) = self.course.line_at(self.alloc, piece, now) {
                self.lines.take(line.as_str());
            }
        }
    }

    fn watch(&self, stage: Stage, done: u32, all: u32) {
        if !self.course.is_timed_at(done, all) {
            return;
        }
        if let Some(now) = self.timer.milliseconds() {
            if done == 0 {
                self.course.begin_stage(stage, all, now);
            }
            if let Some(line) = self.course.line_at(self.alloc, done, now) {
                self.lines.take(line.as_str());
            }
        }
    }
}

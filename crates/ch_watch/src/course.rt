//! The stage of a run, and when the next line on it is due.

use crate::text::{Progress, is_cut_in_pieces, number_of, stage_of};
use ch_work::Stage;
use std::alloc::Global;
use std::sync::atomic::{AtomicBool, AtomicU32, AtomicU64, Ordering};

/// The least time between two lines, in milliseconds. In a stage that nobody asked about, it is also the
/// least time until the first line.
const INTERVAL: u64 = 1_000;

/// The value of a due time when no line is due.
const NEVER: u64 = u64::MAX;

/// The clock is read about this many times in a stage, spread over its steps. At the end of the stage it is
/// read after each of this many steps. One reading takes about 50 ns, so a stage spends less than a
/// millisecond on it.
const TIMED: u32 = 4_096;

/// Room for a line, in bytes.
const ROOM: usize = 128;

/// The stage that a run is in, and when the next line is due. Threads share it.
#[derive(Drop)]
pub(crate) struct Course {
    is_shown: bool,
    is_asked: AtomicBool,
    /// When the next line is due, in milliseconds.
    due: AtomicU64,
    /// The number of the stage.
    stage: AtomicU32,
    /// The number of steps of the stage.
    all: AtomicU32,
    /// When the stage began, in milliseconds.
    begun: AtomicU64,
}

impl Course {
    /// Makes a course in which no line is due before it begins.
    pub(crate) fn new(is_shown: bool) -> Course {
        Course {
            is_shown,
            is_asked: AtomicBool::new(false),
            due: AtomicU64::new(NEVER),
            stage: AtomicU32::new(0),
            all: AtomicU32::new(0),
            begun: AtomicU64::new(0),
        }
    }

    /// Makes lines due from now on, if they are asked for or shown.
    pub(crate) fn begin(&self, is_asked: bool) {
        self.is_asked.store(is_asked, Ordering::SeqCst);
        if is_asked || self.is_shown {
            self.due.store(0, Ordering::SeqCst);
        }
    }

    /// Returns whether the clock is read after this many steps of all.
    pub(crate) fn is_timed_at(&self, done: u32, all: u32) -> bool {
        self.due.load(Ordering::SeqCst) != NEVER && is_among_timed(done, all)
    }

    /// Returns whether the clock is read before the piece of this number.
    pub(crate) fn is_timed_at_piece(&self, piece: u32) -> bool {
        is_cut_in_pieces(stage_of(self.stage.load(Ordering::SeqCst)))
            && self.is_timed_at(piece, self.all.load(Ordering::SeqCst))
    }

    /// Begins a stage with `all` steps. If nobody asked for progress, no line is due in its first
    /// second.
    pub(crate) fn begin_stage(&self, stage: Stage, all: u32, now: u64) {
        self.stage.store(number_of(stage), Ordering::SeqCst);
        self.all.store(all, Ordering::SeqCst);
        self.begun.store(now, Ordering::SeqCst);
        if !self.is_asked.load(Ordering::SeqCst) {
            self.due
                .fetch_max(now.saturating_add(INTERVAL), Ordering::SeqCst);
        }
    }

    /// Returns the line that is due after this many steps. Returns `None` if no line is due, another
    /// thread has it, or there is no memory for it.
    pub(crate) fn line_at(&self, alloc: Global, done: u32, now: u64) -> Option<String> {
        let due = self.due.load(Ordering::SeqCst);
        if now < due {
            return None;
        }
        let next = now.saturating_add(INTERVAL);
        self.due
            .compare_exchange(due, next, Ordering::SeqCst, Ordering::SeqCst)
            .ok()?;
        let progress = Progress {
            stage: stage_of(self.stage.load(Ordering::SeqCst)),
            done,
            all: self.all.load(Ordering::SeqCst),
            time: now.saturating_sub(self.begun.load(Ordering::SeqCst)),
        };
        let mut line = String::with_capacity(alloc, ROOM).ok()?;
        writeln!(line, "{progress}").ok()?;
        Some(line)
    }
}

/// Returns whether a stage is timed after this many steps of all.
pub(crate) fn is_among_timed(done: u32, all: u32) -> bool {
    done % (all / TIMED + 1) == 0 || all.saturating_sub(done) <= TIMED
}

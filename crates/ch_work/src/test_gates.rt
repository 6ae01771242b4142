//! Gates for tests, of this crate and of the crates above. They never block a worker for ever, so they need
//! no handle. Nothing is proved of what they report.

use crate::gate::Gate;
use std::alloc::{AllocError, Global};
use std::sync::atomic::{AtomicBool, AtomicU64, Ordering};

/// How many times at most a worker looks for the other one, if a test names no other number.
const TURNS: u32 = 1_000_000_000;

/// Counts how often each of the first pieces passes.
#[derive(Drop)]
pub struct CountingGate {
    passes: Vec<AtomicU64>,
}

impl CountingGate {
    /// Makes a gate that counts the pieces whose numbers are below `pieces`. Other pieces pass uncounted.
    ///
    /// # Errors
    /// `AllocError` if there is no memory.
    pub fn new(alloc: Global, pieces: u32) -> Result<CountingGate, AllocError> {
        let mut passes = Vec::with_capacity(alloc, pieces as usize)?;
        for _ in 0..pieces {
            passes.push(AtomicU64::new(0))?;
        }
        Ok(CountingGate { passes })
    }

    /// Returns how often the piece of this number has passed, or `None` for a piece that is not counted.
    pub fn passes(&self, piece: u32) -> Option<u64> {
        let passes = self.passes.get(piece as usize)?;
        Some(passes.load(Ordering::SeqCst))
    }
}

impl Gate for CountingGate {
    fn pass(&self, piece: u32) {
        if let Some(passes) = self.passes.get(piece as usize) {
            passes.fetch_add(1, Ordering::SeqCst);
        }
    }
}

/// Finds out whether pieces 0 and 1 are under way at the same time. Each of the two waits in the gate for
/// the other, for a limited number of turns. All other pieces pass at once.
#[derive(Drop)]
pub struct MeetingGate {
    turns: u32,
    come: [AtomicBool; 2],
    met: [AtomicBool; 2],
}

impl MeetingGate {
    /// Makes a gate that no piece has passed. A piece waits in it for at most 1,000,000,000 turns.
    pub fn new() -> MeetingGate {
        MeetingGate::waiting(TURNS)
    }

    /// Makes a gate that no piece has passed. A piece waits in it for at most `turns` turns.
    pub fn waiting(turns: u32) -> MeetingGate {
        MeetingGate {
            turns,
            come: [AtomicBool::new(false), AtomicBool::new(false)],
            met: [AtomicBool::new(false), AtomicBool::new(false)],
        }
    }

    /// Whether each of the two pieces saw the other in the gate.
    pub fn has_met(&self) -> bool {
        self.met[0].load(Ordering::SeqCst) && self.met[1].load(Ordering::SeqCst)
    }
}

impl Gate for MeetingGate {
    fn pass(&self, piece: u32) {
        let (own, other) = match piece {
            0 => (0, 1),
            1 => (1, 0),
            _ => return,
        };
        self.come[own].store(true, Ordering::SeqCst);
        for _ in 0..self.turns {
            if self.come[other].load(Ordering::SeqCst) {
                self.met[own].store(true, Ordering::SeqCst);
                return;
            }
        }
    }
}

//! How work is cut.
ghost use Rattle.std.specs.Prelude.{◌≡◌, ◌↔◌, ◌<◌, ◌≤◌, max, min, IsTrue};
ghost use Rattle.ch_work.specs.declared.limits.TheConstants.{MOST_WORKERS};
ghost use Rattle.ch_work.specs.Pieces.{pieces_of};
ghost use Rattle.ch_work.specs.Plan.{IsWithinLimits};

use std::marker::Model;

/// The number of workers, and the size of the pieces that work is cut into. It changes no answer.
#[derive(Clone, Copy, Debug, PartialEq, Eq)]
pub struct Plan {
    workers: u32,
    piece: u32,
    wide: u32,
}

impl Model for Plan {
    ghost use Rattle.ch_work.specs.Plan.{Division, IsWithinLimits};

    ghost Value = { Division };

    ghost view = { λ p. record { workers = p.workers; piece = p.piece; wide = p.wide } };

    ghost invariant = { λ p. IsWithinLimits (record { workers = p.workers; piece = p.piece; wide = p.wide }) };

    ghost inverse = { λ d. record { workers = d.workers; piece = d.piece; wide = d.wide } };
}

impl Plan {
    /// Makes a plan for at least one worker and pieces of at least one item, within the
    /// [`limits`](crate::limits).
    ///
    /// When a node is contracted, its neighbours are cut into pieces too if there are at least `wide` of
    /// them.
    pub fn new(workers: u32, piece: u32, wide: u32) -> Plan
        requires { IsWithinLimits (record { workers = workers; piece = piece; wide = wide }) }
        ensures { result ≡ record { workers = workers; piece = piece; wide = wide } }
    {
        Plan {
            workers,
            piece,
            wide,
        }
    }

    /// The number of workers, at least 1.
    pub fn workers(&self) -> u32
        ensures workers { result ≡ self.now.workers }
        ensures limits { IsWithinLimits self.now }
    {
        self.workers
    }

    /// The number of items in a piece, at least 1. The last piece may have fewer.
    pub fn piece(&self) -> u32
        ensures piece { result ≡ self.now.piece }
        ensures limits { IsWithinLimits self.now }
    {
        self.piece
    }

    /// Returns the number of pieces that `items` items are cut into.
    pub fn pieces(&self, items: u32) -> u32
        ensures pieces { result ≡ pieces_of items self.now.piece }
        ensures limits { IsWithinLimits self.now }
    {
        let Plan { piece, .. } = *self;
        items.div_ceil(piece)
    }

    /// The least number of neighbours of a contracted node that are cut into pieces.
    pub fn wide(&self) -> u32
        ensures { result ≡ self.now.wide }
    {
        self.wide
    }

    /// Whether the workers share a job of `items` items. They do if there are several workers, and at least
    /// `least` items. Otherwise the caller does the job alone.
    pub fn shares(&self, items: usize, least: usize) -> bool
        ensures { IsTrue result ↔ (1 < self.now.workers) × (least ≤ items) }
    {
        let Plan { workers, .. } = *self;
        workers > 1 && items >= least
    }

    /// Returns the number of workers for a job of `pieces` pieces. No worker is without a piece, but one is
    /// always there: the caller itself.
    pub fn workers_for(&self, pieces: u32) -> u32
        ensures workers { result ≡ max 1 (min self.now.workers pieces) }
        ensures limits { (1 ≤ result) × (result ≤ MOST_WORKERS) }
    {
        let Plan { workers, .. } = *self;
        if self.shares(pieces as usize, 2) {
            workers.min(pieces)
        } else {
            1
        }
    }
}

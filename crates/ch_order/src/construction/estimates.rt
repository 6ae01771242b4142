//! Estimates of the priorities of nodes whose legs have changed since they were judged.
ghost use Rattle.std.specs.Prelude.{◌≤◌, ◌^◌};

use ch_contract::Measure;
use std::alloc::{AllocError, Global};

/// The most shortcuts of an estimate. It keeps sums small.
const MOST_ESTIMATED: u64 = 1 << 40;

/// What is known of a node: what it had when it was judged last, and whether a neighbour was contracted since then.
#[derive(Clone, Copy)]
struct Judged {
    /// The number of its shortcuts.
    shortcuts: u32,
    /// The number of legs to it times the number of legs from it.
    pairs: u32,
    stale: bool,
}

/// What is known of each node.
#[derive(Drop)]
pub(super) struct Estimates {
    judged: Vec<Judged>,
}

impl Estimates {
    /// Makes a list of `nodes` nodes that were not judged yet. Each pair of legs of such a node counts as a shortcut.
    pub(super) fn new(alloc: Global, nodes: u32) -> Result<Estimates, AllocError> {
        let none = Judged {
            shortcuts: 1,
            pairs: 1,
            stale: true,
        };
        let judged = vec![in alloc; none; nodes as usize]?;
        Ok(Estimates { judged })
    }

    /// Notes that a node is judged and has so many shortcuts now.
    pub(super) fn note(&mut self, node: u32, shortcuts: u64, pairs: u64) {
        if let Some(judged) = self.judged.get_mut(node as usize) {
            *judged = Judged {
                shortcuts: u32::try_from(shortcuts).unwrap_or(u32::MAX),
                pairs: u32::try_from(pairs).unwrap_or(u32::MAX),
                stale: false,
            };
        }
    }

    /// Notes that a neighbour of a node was contracted.
    pub(super) fn touch(&mut self, node: u32) {
        if let Some(judged) = self.judged.get_mut(node as usize) {
            judged.stale = true;
        }
    }

    /// Whether a neighbour of a node was contracted since the node was judged, or the node was not judged yet.
    pub(super) fn is_stale(&self, node: u32) -> bool {
        match self.judged.get(node as usize) {
            Some(judged) => judged.stale,
            None => true,
        }
    }

    /// Returns an estimate of the measure of a node that has so many pairs of legs and so many legs now. The shortcuts are the
    /// same part of the pairs as when the node was judged.
    pub(super) fn measure(&self, node: u32, pairs: u64, legs: u64) -> Measure
        requires { legs ≤ 2 ^ 26 }
    {
        let shortcuts = match self.judged.get(node as usize) {
            Some(judged) => shortcuts_now(*judged, pairs),
            None => 0,
        };
        Measure { shortcuts, legs }
    }
}

/// Returns the same part of these pairs as the shortcuts were when a node was judged.
fn shortcuts_now(judged: Judged, pairs: u64) -> u64
    ensures { result ≤ 2 ^ 40 }
{
    let product = u64::from(judged.shortcuts).saturating_mul(pairs);
    let shortcuts = product / u64::from(judged.pairs.max(1));
    shortcuts.min(MOST_ESTIMATED)
}

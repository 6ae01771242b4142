//! New weights of arcs, in the order of their lines.

use std::marker::Model;

/// The most new weights that one list of a stream has.
pub const MOST_NEW_WEIGHTS: u64 = 1 << 22;

/// The new weight of each arc from one node to another. Nodes are numbered from 0.
#[derive(Clone, Copy, Debug, PartialEq, Eq)]
pub struct NewWeight {
    pub from: u32,
    pub to: u32,
    /// The weight, in the unit of the graph.
    pub weight: u64,
    /// The number of its line in the stream. Lines count from 1.
    pub line: u64,
}

/// New weights for all later requests of a stream. If two of them are for the same arcs, the later one holds.
#[derive(Debug, Drop)]
pub struct NewWeights {
    line: u64,
    listed: Vec<NewWeight>,
}

impl Model for NewWeights {
    ghost use Rattle.ch_read.specs.RequestLists.{WeightList};

    ghost Value = { WeightList };

    ghost view = { λ w. record { line = w.line; listed = w.listed.items } };
}

impl NewWeights {
    ghost use Rattle.std.specs.Prelude.{◌≡◌};

    /// Makes new weights whose list begins at this line.
    pub(crate) fn new(line: u64, listed: Vec<NewWeight>) -> NewWeights
        ensures { result ≡ record { line = line; listed = listed.items } }
    {
        NewWeights { line, listed }
    }

    /// Returns the number of the line that begins the list. Lines count from 1.
    pub fn line(&self) -> u64
        ensures { result ≡ self.now.line }
    {
        self.line
    }

    /// Returns the new weights, in the order of their lines.
    pub fn listed(&self) -> &[NewWeight]
        ensures { result.now ≡ self.now.listed }
    {
        &self.listed
    }
}

//! What a search in one direction starts with, and the most that its limit lets a path weigh.
ghost use Rattle.ch_query.specs.Limits.{IsMost};

use ch_graph::limits::MOST_WEIGHT;
use ch_hierarchy::Side;

/// The source of a search, its direction and its limit.
#[derive(Clone, Copy, Debug, PartialEq, Eq)]
pub struct Start {
    /// The node from which the search goes.
    pub source: u32,
    /// The direction of the search.
    pub side: Side,
    /// The most weight of the paths that it takes, if there is a limit.
    pub within: Option<u64>,
}

/// Returns the most that a path within the limit may weigh.
pub(crate) fn most_within(within: Option<u64>) -> u64
    ensures { IsMost within result }
{
    match within {
        Some(most) => most.min(MOST_WEIGHT),
        None => MOST_WEIGHT,
    }
}

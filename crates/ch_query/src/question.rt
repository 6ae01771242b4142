//! What searches are asked for.
use ch_hierarchy::Side;

/// What a search is asked for: the least costs of paths from a source along legs to higher nodes.
#[derive(Clone, Copy)]
pub(crate) struct Question {
    /// The direction of the search.
    pub(crate) side: Side,
    /// The node from which the search goes.
    pub(crate) source: u32,
    /// Whether the search leaves a node unexpanded if a higher node shows a cheaper way to it. A spread has
    /// to find all least paths, so it does not stall.
    pub(crate) stalls: bool,
    /// The most that a path may weigh. A leg that makes a path heavier is not taken, so no node that is
    /// farther away gets a key.
    pub(crate) most: u64,
}

/// The ends of a search in both directions.
#[derive(Clone, Copy)]
pub(crate) struct Ends {
    /// The node from which paths go up.
    pub(crate) start: u32,
    /// The node to which paths go down.
    pub(crate) end: u32,
    /// The most that a path may weigh, as in a [`Question`].
    pub(crate) most: u64,
}

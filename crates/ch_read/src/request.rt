//! Requests: queries, tables, places and near rows. Between them a stream has new weights.

use crate::new_weights::NewWeights;
use std::marker::Model;

/// The greatest number of bytes in a line of requests, without its line feed.
pub const MOST_LINE: usize = 65_536;

/// What a stream gives next.
#[derive(Debug, Drop)]
pub enum Asked {
    /// A request on the graph with its present weights.
    Request(Request),
    /// New weights for all later requests. They have no answer of their own.
    Weights(NewWeights),
}

/// A request on a graph.
#[derive(Debug, Drop)]
pub enum Request {
    /// The distance from the first node to the second.
    Query(u32, u32),
    /// The distance from the first node to the second, and the route.
    Route(u32, u32),
    /// The distances from each source to each target.
    Table(TableLists),
    /// The places for later near rows. The request has no answer of its own.
    Places(NearPlaces),
    /// The near row of the node, over the places that were given last. It has a limit of its own, or none.
    Near(u32, Option<u64>),
}

/// The sources and the targets of a table, and its own limit, if it has one.
#[derive(Debug, Drop)]
pub struct TableLists {
    listed: Vec<u32>,
    sources: usize,
    within: Option<u64>,
}

impl Model for TableLists {
    ghost use Rattle.std.specs.Prelude.{◌≤◌, length, take, drop};
    ghost use Rattle.ch_read.specs.RequestLists.{TwoLists};

    ghost Value = { TwoLists };

    ghost view = { λ l. record { sources = take l.sources l.listed.items; targets = drop l.sources l.listed.items; within = l.within } };

    ghost invariant = { λ l. l.sources ≤ length l.listed.items };
}

impl TableLists {
    ghost use Rattle.std.specs.Prelude.{◌≡◌, ◌≤◌, take, drop, length, vec_len};

    /// Makes the lists of a table: the first `sources` nodes are the sources, and the others the targets.
    pub(crate) fn new(listed: Vec<u32>, sources: usize, within: Option<u64>) -> TableLists
        requires { sources ≤ vec_len listed }
        ensures { result ≡ record { sources = take sources listed.items; targets = drop sources listed.items; within = within } }
    {
        TableLists {
            listed,
            sources,
            within,
        }
    }

    /// Returns the sources.
    pub fn sources(&self) -> &[u32]
        ensures { result.now ≡ self.now.sources }
    {
        &self.listed[..self.sources]
    }

    /// Returns the targets.
    pub fn targets(&self) -> &[u32]
        ensures { result.now ≡ self.now.targets }
    {
        &self.listed[self.sources..]
    }

    /// Returns the greatest distance that the table writes, if its request names one.
    pub fn within(&self) -> Option<u64>
        ensures { result ≡ self.now.within }
    {
        self.within
    }
}

/// Places, and the greatest number of them in a near row, if there is one.
#[derive(Debug, Drop)]
pub struct NearPlaces {
    nodes: Vec<u32>,
    count: Option<u32>,
}

impl Model for NearPlaces {
    ghost use Rattle.ch_read.specs.RequestLists.{PlaceList};

    ghost Value = { PlaceList };

    ghost view = { λ p. record { nodes = p.nodes.items; count = p.count } };
}

impl NearPlaces {
    ghost use Rattle.std.specs.Prelude.{◌≡◌};

    /// Makes places of these nodes. A near row has at most `count` of them, or all if `count` is `None`.
    pub(crate) fn new(nodes: Vec<u32>, count: Option<u32>) -> NearPlaces
        ensures { result ≡ record { nodes = nodes.items; count = count } }
    {
        NearPlaces { nodes, count }
    }

    /// Returns the nodes of the places.
    pub fn nodes(&self) -> &[u32]
        ensures { result.now ≡ self.now.nodes }
    {
        &self.nodes
    }

    /// Returns the greatest number of places in a near row, or `None` if a row has all of them.
    pub fn count(&self) -> Option<u32>
        ensures { result ≡ self.now.count }
    {
        self.count
    }
}

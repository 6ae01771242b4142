//! Graphs within the limits.
ghost use Rattle.std.specs.Prelude.{◌≡◌, ◌↔◌, All, IsOk, IfOk, IfErr, MatchOption, Some};
ghost use Rattle.ch_graph.specs.Graph.{IsWithinLimits, IsFirstFault, IsFirstArcFault, IsArcWithin, IsArcFault, graph_fault_text};

use crate::arc::InArc;
use crate::limits::{MOST_ARCS, MOST_NODES, MOST_WEIGHT};
use std::error::Error;
use std::fmt;
use std::marker::Model;

/// Why a number of nodes and a list of arcs are not a graph. Places are counted from 0.
#[derive(Clone, Copy, Debug, PartialEq, Eq)]
pub enum GraphFault {
    /// There are more than [`MOST_NODES`] nodes or [`MOST_ARCS`] arcs.
    Size,
    /// An end of the arc at this place is not below the number of nodes.
    NodeRange(usize),
    /// The number of nodes times the weight of the arc at this place is more than [`MOST_WEIGHT`].
    Sum(usize),
}

impl fmt::Display for GraphFault {
    ghost output = { λ fault. Some (graph_fault_text fault) };

    fn fmt<W: fmt::Write>(&self, f: &mut fmt::Formatter<W>) -> fmt::Result {
        match self {
            GraphFault::Size => f.write_str("size too large"),
            GraphFault::NodeRange(place) => write!(f, "arc {place}: node out of range"),
            GraphFault::Sum(place) => write!(f, "arc {place}: weight too large"),
        }
    }
}

impl Error for GraphFault {}

/// A directed graph: a number of nodes, and a list of arcs between them. Parallel arcs, loops and
/// weight 0 are allowed.
///
/// It has at most [`MOST_NODES`] nodes and at most [`MOST_ARCS`] arcs. The number of nodes times the weight
/// of any arc is at most [`MOST_WEIGHT`].
#[derive(Debug, Drop)]
pub struct Graph {
    nodes: u32,
    arcs: Vec<InArc>,
}

impl Model for Graph {
    ghost use Rattle.ch_graph.specs.Graph.{Network, IsWithinLimits};

    ghost Value = { Network };

    ghost view = { λ g. record { nodes = g.nodes; arcs = g.arcs.items } };

    ghost invariant = { λ g. IsWithinLimits (record { nodes = g.nodes; arcs = g.arcs.items }) };
}

impl Graph {
    /// Returns the graph of these nodes and arcs, or the first fault.
    ///
    /// The sizes are judged first, and then the arcs in order. The ends of an arc are judged before its
    /// weight. The graph keeps the vector, and the call takes no memory.
    pub fn new(nodes: u32, arcs: Vec<InArc>) -> Result<Graph, GraphFault>
        ensures accepted { IsOk result ↔ IsWithinLimits (record { nodes = nodes; arcs = arcs.items }) }
        ensures value { IfOk result (λ g. g ≡ record { nodes = nodes; arcs = arcs.items }) }
        ensures fault { IfErr result (IsFirstFault (record { nodes = nodes; arcs = arcs.items })) }
    {
        if nodes > MOST_NODES || arcs.len() > MOST_ARCS {
            return Err(GraphFault::Size);
        }
        match first_arc_fault(nodes, arcs.as_slice()) {
            Some(fault) => Err(fault),
            None => Ok(Graph::from_judged(nodes, arcs)),
        }
    }

    /// Returns the graph of these nodes and arcs, which the caller has already found to be within the
    /// limits. The graph keeps the vector, and the call takes no memory.
    pub fn from_judged(nodes: u32, arcs: Vec<InArc>) -> Graph
        requires { IsWithinLimits (record { nodes = nodes; arcs = arcs.items }) }
        ensures { result ≡ record { nodes = nodes; arcs = arcs.items } }
    {
        Graph { nodes, arcs }
    }

    /// The number of nodes, at most [`MOST_NODES`].
    pub fn nodes(&self) -> u32
        ensures nodes { result ≡ self.now.nodes }
        ensures limits { IsWithinLimits self.now }
    {
        self.nodes
    }

    /// The arcs, in the given order.
    pub fn arcs(&self) -> &[InArc]
        ensures arcs { result.now ≡ self.now.arcs }
        ensures limits { IsWithinLimits self.now }
    {
        self.arcs.as_slice()
    }
}

/// Returns the fault of the first arc that has one.
fn first_arc_fault(nodes: u32, arcs: &[InArc]) -> Option<GraphFault>
    ensures { MatchOption result (All (IsArcWithin nodes) arcs.now) (IsFirstArcFault nodes arcs.now) }
{
    for (place, arc) in arcs.iter().enumerate() {
        if let Some(fault) = arc_fault(nodes, place, *arc) {
            return Some(fault);
        }
    }
    None
}

/// Returns the fault of the arc at this place, if it has one.
fn arc_fault(nodes: u32, place: usize, arc: InArc) -> Option<GraphFault>
    ensures { MatchOption result (IsArcWithin nodes arc) (IsArcFault nodes place arc) }
{
    if arc.from >= nodes || arc.to >= nodes {
        return Some(GraphFault::NodeRange(place));
    }
    match (nodes as u64).checked_mul(arc.weight) {
        Some(sum) if sum <= MOST_WEIGHT => None,
        _ => Some(GraphFault::Sum(place)),
    }
}

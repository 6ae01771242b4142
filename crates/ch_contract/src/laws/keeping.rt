//! Laws on what contraction keeps. Each is the contract of a function that does nothing.
ghost use Rattle.ch_contract.specs.Keeping.{ContractionKeepsLeastCosts, EnoughKeepsLeastCosts, HierarchiesAreKept, HierarchiesWithEnoughAreKept};

/// Contraction keeps the least costs between the remaining nodes. After any number of steps, the least cost of
/// a walk between two of them is the least cost of a chain of legs.
pub fn contraction_keeps_least_costs()
    ensures { ContractionKeepsLeastCosts }
{}

/// The contraction hierarchy of a graph within the limits is kept for the graph, for each bound on hops
/// from 1 to [`MOST_HOPS`](ch_graph::limits::MOST_HOPS).
pub fn hierarchies_are_kept()
    ensures { HierarchiesAreKept }
{}

/// Contraction with enough shortcuts keeps the least costs between the remaining nodes. Enough shortcuts are
/// all that are needed, and possibly more sums of two legs. None of them costs more than a leg between the same
/// two nodes.
pub fn enough_keeps_least_costs()
    ensures { EnoughKeepsLeastCosts }
{}

/// A hierarchy of nodes contracted in any order with enough shortcuts is kept for its graph.
pub fn hierarchies_with_enough_are_kept()
    ensures { HierarchiesWithEnoughAreKept }
{}

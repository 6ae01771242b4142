//! Laws of walks and of their least costs. Each is the contract of a function that does nothing.
ghost use Rattle.ch_graph.specs.Graph.{Network};
ghost use Rattle.ch_graph.specs.WalkLaws.{WalksAddUp, LoopsCost, SimpleWalksAreEnough, LeastCostsAreFound, LeastWalksAreSimple};

/// A walk and a walk from its end together make a walk. Each walk can be cut at any place. Costs add up.
pub fn walks_add_up()
    ensures { (g : Network) → WalksAddUp g }
{}

/// If a walk visits a node twice, leaving out the arcs between the two visits gives a walk that costs less.
pub fn loops_cost()
    ensures { (g : Network) → LoopsCost g }
{}

/// For each walk there is one of no greater cost that visits no node twice. Such a walk has fewer arcs than
/// there are nodes.
///
/// In a graph within the limits it weighs at most [`MOST_WEIGHT`](crate::limits::MOST_WEIGHT).
pub fn simple_walks_are_enough()
    ensures { (g : Network) → SimpleWalksAreEnough g }
{}

/// Between two nodes there is one least cost of a walk, or no walk. The weight of the least cost is the
/// distance.
pub fn least_costs_are_found()
    ensures { (g : Network) → LeastCostsAreFound g }
{}

/// Each part of a walk of least cost has the least cost between its own ends.
///
/// A walk of least cost visits no node twice, so it has fewer arcs than there are nodes. In a graph within
/// the limits it weighs at most [`MOST_WEIGHT`](crate::limits::MOST_WEIGHT).
pub fn least_walks_are_simple()
    ensures { (g : Network) → LeastWalksAreSimple g }
{}

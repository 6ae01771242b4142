//! Laws of routes and of search spaces. Each is the contract of a function that does nothing.
ghost use Rattle.ch_query.specs.RouteLaws.{OneRoute, RoutesAreLeastWalks};
ghost use Rattle.ch_query.specs.SearchSpaceLaws.{SearchSpacesGiveDistances};
ghost use Rattle.ch_query.specs.Weighed.{WeightsAreEnough};

/// Between two nodes of a levelled hierarchy there is at most one route. The meet, each choice, and the
/// arcs of each leg are determined.
pub fn one_route()
    ensures { OneRoute }
{}

/// If a hierarchy is right for a graph within the limits, a route is a walk of input arcs. It has the least
/// weight, and of the walks of that weight the fewest arcs. Its weight is the sum of the arcs' weights.
pub fn routes_are_least_walks()
    ensures { RoutesAreLeastWalks }
{}

/// Take a hierarchy that is right for a graph, and two search spaces within the same limit: one up from a
/// node, and one down to another, as [`ranked_spaces`](crate::ranked_spaces) lists them.
///
/// The distance is the least sum within the limit of the two weights for one node. If there is no such sum,
/// there is no walk of a weight within the limit.
pub fn search_spaces_give_distances()
    ensures { SearchSpacesGiveDistances }
{}

/// Take a hierarchy that is right for a graph, and two searches by weights alone that stall: one up from a
/// node, and one down to another.
///
/// Once no remaining key is below the least sum that they know, that sum is the least weight. They know no
/// sum exactly when no node is reached from both.
pub fn weights_are_enough()
    ensures { WeightsAreEnough }
{}

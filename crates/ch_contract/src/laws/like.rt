//! Laws on orders like given ones. Each is the contract of a function that does nothing.
ghost use Rattle.ch_contract.specs.OneOrder.{GivenNodesNameOneHierarchy, OrdersNameOneHierarchy};
ghost use Rattle.ch_contract.specs.LikeLaws.{HierarchiesFromGivenNodesAreKept, AllAfreshIsByDepth, NoneAfreshIsAsGiven, HierarchiesAreInTheirOrder, GraphsHaveHierarchiesLike};

/// Two hierarchies for a graph, with the same given nodes and the same order of the others, are equal.
pub fn one_hierarchy_from_given_nodes()
    ensures { GivenNodesNameOneHierarchy }
{}

/// Two hierarchies of a graph whose nodes are contracted in the same list are equal.
pub fn one_hierarchy_in_order()
    ensures { OrdersNameOneHierarchy }
{}

/// A hierarchy with given nodes is kept for its graph, for each bound on hops from 1 to
/// [`MOST_HOPS`](ch_graph::limits::MOST_HOPS).
pub fn hierarchies_from_given_nodes_are_kept()
    ensures { HierarchiesFromGivenNodesAreKept }
{}

/// If all nodes are ordered afresh, the hierarchy is the one by depth, whatever order is given.
pub fn all_afresh_is_by_depth()
    ensures { AllAfreshIsByDepth }
{}

/// If no node is ordered afresh, the hierarchy is the one in the given order.
pub fn none_afresh_is_as_given()
    ensures { NoneAfreshIsAsGiven }
{}

/// A hierarchy by difference or by depth is the one in the order of its levels.
pub fn hierarchies_are_in_their_order()
    ensures { HierarchiesAreInTheirOrder }
{}

/// Each graph within the limits has a hierarchy in an order like each given one, for each bound on hops from 1 to
/// [`MOST_HOPS`](ch_graph::limits::MOST_HOPS).
pub fn graphs_have_hierarchies_like()
    ensures { GraphsHaveHierarchiesLike }
{}

//! The law that the rules of contraction name one order, and so one hierarchy.
ghost use Rattle.ch_contract.specs.OneOrder.{RulesNameOneHierarchy, GraphsHaveHierarchies};

/// Two hierarchies in the same order for a graph and a bound on the legs of a witness are equal.
pub fn one_hierarchy()
    ensures { RulesNameOneHierarchy }
{}

/// Each graph within the limits has a hierarchy in each order, for each bound on hops from 1 to
/// [`MOST_HOPS`](ch_graph::limits::MOST_HOPS).
pub fn graphs_have_hierarchies()
    ensures { GraphsHaveHierarchies }
{}

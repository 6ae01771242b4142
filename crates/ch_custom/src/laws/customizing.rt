//! Laws on customization. Each is the contract of a function that does nothing.
ghost use Rattle.ch_custom.specs.Customizing.{ContractingIsLowering, LoweredAreContracted};
ghost use Rattle.ch_custom.specs.Customizing.{LegsStayInTopologies, TopologiesServeAllWeights, ParentsClose};
ghost use Rattle.ch_custom.specs.Ancestors.{ClimbsVisitAncestors};
ghost use Rattle.ch_custom.specs.Topologies.{RelaxingKeepsMetrics};

/// Contraction where a witness has one leg lowers each leg to the sum over the node that is taken, and nothing else.
pub fn contracting_is_lowering()
    ensures { ContractingIsLowering }
{}

/// The hierarchy of lowered legs is the contraction hierarchy in the same order, where a witness has one leg.
pub fn lowered_are_contracted()
    ensures { LoweredAreContracted }
{}

/// Lowering makes no leg outside a topology, which depends on no weight. So an array with a place for each pair of the
/// topology has a place for each leg, whatever the weights are.
pub fn legs_stay_in_topologies()
    ensures { LegsStayInTopologies }
{}

/// A topology serves each graph with the same roads, whatever their weights are.
pub fn topologies_serve_all_weights()
    ensures { TopologiesServeAllWeights }
{}

/// Rows are closed if each hands its places on to its least one. So one pass over the rows in order makes a topology.
pub fn parents_close()
    ensures { ParentsClose }
{}

/// One step of customization keeps the arrays of a topology right: each row has the legs just before its node is taken, or
/// the present ones if it is not taken yet.
pub fn relaxing_keeps_metrics()
    ensures { RelaxingKeepsMetrics }
{}

/// Each place that a walk over pairs of a topology comes to, from place to higher place, is an ancestor of its start:
/// going up from parent to parent comes there.
pub fn climbs_visit_ancestors()
    ensures { ClimbsVisitAncestors }
{}

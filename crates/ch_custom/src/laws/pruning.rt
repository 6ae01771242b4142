//! Laws of pruning. Each is the contract of a function that does nothing.
ghost use Rattle.ch_custom.specs.Pruning.{PrunedAreKept, KeptHierarchiesTakeLegs};

/// Take the legs of a kept hierarchy that cost the least of all walks between their ends, and arcs, so that the ends of
/// each arc have a leg that costs no more. They are a kept hierarchy.
pub fn pruned_are_kept()
    ensures { PrunedAreKept }
{}

/// In a kept hierarchy each least walk between a node and a higher one begins or ends with a leg of the lower node.
pub fn kept_hierarchies_take_legs()
    ensures { KeptHierarchiesTakeLegs }
{}

//! Laws of kept hierarchies. Each is the contract of a function that does nothing.
ghost use Rattle.ch_hierarchy.specs.KeptLaws.{KeptHierarchiesHaveWalks, LegsAreWalks, KeptHierarchiesGiveDistances, KeptHierarchiesAreTight};

/// In a kept hierarchy of a graph within the limits, each upward path is a walk, forwards or backwards.
/// Each least walk is matched by an upward path from its start and one from its end, and these two paths
/// meet.
pub fn kept_hierarchies_have_walks()
    ensures { KeptHierarchiesHaveWalks }
{}

/// Each leg of a kept hierarchy stands for a walk of exactly its weight and exactly its number of arcs.
pub fn legs_are_walks()
    ensures { LegsAreWalks }
{}

/// Take a kept hierarchy of a graph within the limits. The least cost of going up and then down in it is
/// the least cost of a walk. Going up and then down is impossible exactly when there is no walk.
pub fn kept_hierarchies_give_distances()
    ensures { KeptHierarchiesGiveDistances }
{}

/// Take two upward paths that meet and together cost as little as a least walk. They reach each of their
/// nodes at the least cost of a walk.
pub fn kept_hierarchies_are_tight()
    ensures { KeptHierarchiesAreTight }
{}

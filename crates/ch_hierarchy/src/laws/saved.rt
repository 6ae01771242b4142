//! Laws of saved hierarchies. Each is the contract of a function that does nothing.
ghost use Rattle.ch_hierarchy.specs.SavedLaws.{OneHierarchyIsNamed, KeptHierarchiesHaveNoFault, FaultlessIsKept, NamedHierarchiesHaveNoEarlyFault, OneFaultIsFirst, OneOrderIsByLevel, WrittenHierarchiesAreNamed, WrittenHierarchiesHaveNoFault};

/// A saved order and legs name at most one hierarchy.
pub fn one_saved_hierarchy()
    ensures { OneHierarchyIsNamed }
{}

/// If they name a hierarchy that is right for the graph, they have none of the seven faults. If they name
/// one with as many nodes as the graph, they have none of the first three faults.
pub fn kept_has_no_fault()
    ensures kept { KeptHierarchiesHaveNoFault }
    ensures named { NamedHierarchiesHaveNoEarlyFault }
{}

/// On a graph within the limits, take an order and legs without any of the seven faults. They name a
/// hierarchy that is right for the graph.
pub fn faultless_is_kept()
    ensures { FaultlessIsKept }
{}

/// Two faults that are both the first are equal.
pub fn one_first_fault()
    ensures { OneFaultIsFirst }
{}

/// The nodes of each hierarchy have exactly one order of level.
///
/// Written in this order, node by node with the legs of each, the hierarchy is the one that is named. If it
/// is right for the graph, it has none of the seven faults.
pub fn written_is_named()
    ensures order { OneOrderIsByLevel }
    ensures named { WrittenHierarchiesAreNamed }
    ensures kept { WrittenHierarchiesHaveNoFault }
{}

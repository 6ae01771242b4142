//! Laws on trees. Each is the contract of a function that does nothing.
ghost use Rattle.ch_tree.specs.Parents.{TreesFit, TreesFitPruned};

/// The tree of a topology is a tree for each hierarchy that is customized in it, whatever the weights are.
pub fn trees_fit()
    ensures { TreesFit }
{}

/// It is also a tree for what pruning leaves of such a hierarchy: all legs that are left lead to ancestors.
pub fn trees_fit_pruned()
    ensures { TreesFitPruned }
{}

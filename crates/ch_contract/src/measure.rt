//! The orders of contraction, and the keys of nodes in them.
ghost use Rattle.std.specs.Prelude.{◌≡◌, ◌^◌, ◌≤◌};
ghost use Rattle.ch_contract.specs.declared.measure.OrderBy.TheVariants as OrderBy;
ghost use Rattle.ch_contract.specs.Contraction.{key_by};

/// The order in which nodes are contracted, named after its key. The node of the least key comes first, and at
/// equal keys the node of the least number. Distances are the same in each order.
#[derive(Clone, Copy, Debug, PartialEq, Eq)]
pub enum OrderBy {
    /// The number of a node's shortcuts less the number of legs that touch it.
    Difference,
    /// Twice the number of a node's shortcuts, less the number of legs that touch it, plus its depth. The depth
    /// is 0 at first. When a neighbour is contracted, it becomes at least one more than the neighbour's depth.
    Depth,
}

/// The number of a node's shortcuts, and the number of legs that touch it.
#[derive(Clone, Copy)]
pub struct Measure {
    pub shortcuts: u64,
    pub legs: u64,
    ghost small: { (shortcuts ≤ 2 ^ 50) × (legs ≤ 2 ^ 26) },
}

impl OrderBy {
    /// Returns the key of a node in this order, from its measure and its depth.
    pub fn key(self, measure: Measure, depth: u32) -> i64
        ensures { result ≡ key_by self measure.shortcuts measure.legs depth }
    {
        let shortcuts = measure.shortcuts as i64;
        let legs = measure.legs as i64;
        match self {
            OrderBy::Difference => shortcuts - legs,
            OrderBy::Depth => 2 * shortcuts + i64::from(depth) - legs,
        }
    }
}

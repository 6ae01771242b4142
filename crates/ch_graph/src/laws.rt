//! Laws of costs. Each function does nothing, and its contract is the law.
//!
//! The lemmas that prove them are in `proofs/CostOrder.antt` and `proofs/CostSums.antt`. The proofs of the
//! crates above use these lemmas.
ghost use Rattle.std.specs.Prelude.{◌≡◌, Some};
ghost use Rattle.ch_graph.specs.declared.cost.Cost.{Cost};
ghost use Rattle.ch_graph.specs.Cost.{cost_cmp};
ghost use Rattle.ch_graph.specs.CostLaws.{CostsAreOrdered, CostsAdd, ComparingTellsOrder};

use crate::cost::Cost;

/// Costs are in a total order.
pub fn costs_are_ordered()
    ensures { CostsAreOrdered }
{}

/// Costs add up as numbers do, and sums keep the order.
pub fn costs_add()
    ensures { CostsAdd }
{}

/// `cmp` and `partial_cmp` compare costs by this order. So does all that uses them, such as `<` and `min`.
pub fn comparing_tells_order()
    ensures order { ComparingTellsOrder }
    ensures cmp { (a b : Cost) → ⟦<Cost as Ord>⟧.cmp a b ≡ cost_cmp a b }
    ensures partial_cmp { (a b : Cost) → ⟦<Cost as PartialOrd>⟧.partial_cmp a b ≡ Some (cost_cmp a b) }
{}

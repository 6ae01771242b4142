//! The cost of two legs together, one to a node and one from it.
ghost use Rattle.std.specs.Prelude.{◌≡◌, ◌+◌, ◌^◌, ◌<◌, ◌≤◌, ◌⊎◌, All, MatchOption};
ghost use Rattle.ch_graph.specs.declared.limits.TheConstants.{MOST_NODES, MOST_WEIGHT, MOST_SUM};
ghost use Rattle.ch_graph.specs.Cost.{IsAtMost, cost_sum};
ghost use Rattle.ch_contract.specs.Candidates.{IsCandidate, AreBounded};

use ch_graph::Cost;
use ch_graph::limits::MOST_WEIGHT;
use ch_hierarchy::Leg;

/// Returns the greatest cost of a leg to a node and a leg from it together. It counts only pairs of legs with
/// different other ends whose sum keeps the limits. Returns `None` if there is no such pair.
pub(super) fn most_cost(nodes: u32, first: Leg, up: &[Leg]) -> Option<Cost>
    requires first { (first.cost.weight ≤ MOST_WEIGHT) × (first.cost.arcs ≤ MOST_NODES) }
    requires up { All (λ l. (l.cost.weight ≤ MOST_WEIGHT) × (l.cost.arcs ≤ MOST_NODES)) up.now }
    ensures { AreBounded nodes first up.now result }
{
    let mut most = None;
    for second in up {
        if let Some(cost) = candidate_cost(nodes, first, *second) {
            most = Some(greatest(most, cost));
        }
    }
    most
}

/// Returns the greater of a cost and the greatest one so far.
fn greatest(so_far: Option<Cost>, cost: Cost) -> Cost
    ensures cost { IsAtMost cost result }
    ensures so_far { MatchOption so_far (result ≡ cost) (λ c. IsAtMost c result × ((result ≡ cost) ⊎ (result ≡ c))) }
{
    match so_far {
        Some(most) if cost.is_at_most(most) => most,
        _ => cost,
    }
}

/// Returns the cost of a leg to a node and a leg from it together. Returns `None` if they have the same other
/// end, or if the sum does not keep the limits.
#[inline]
pub(super) fn candidate_cost(nodes: u32, first: Leg, second: Leg) -> Option<Cost>
    requires weight { first.cost.weight + second.cost.weight ≤ MOST_SUM }
    requires arcs { first.cost.arcs + second.cost.arcs < 2 ^ 64 }
    ensures { MatchOption result (IsCandidate nodes first second → ⊥)
        (λ c. (c ≡ cost_sum first.cost second.cost) × IsCandidate nodes first second) }
{
    if first.node == second.node {
        return None;
    }
    let cost = first.cost.plus(second.cost);
    if cost.weight > MOST_WEIGHT || cost.arcs >= nodes as u64 {
        return None;
    }
    Some(cost)
}

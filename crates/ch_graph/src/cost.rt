//! Costs of walks.
ghost use Rattle.std.specs.Prelude.{◌≡◌, ◌↔◌, ◌+◌, ◌^◌, ◌<◌, ◌≤◌, IsTrue, MatchOption};
ghost use Rattle.ch_graph.specs.declared.limits.TheConstants.{MOST_SUM};
ghost use Rattle.ch_graph.specs.Cost.{IsAtMost, IsBelow, IsSumTooLarge, cost_sum};

use crate::limits::MOST_SUM;

/// The weight that stands for none. It is more than any sum of two weights within the limits, and adding another one
/// does not overflow.
pub const UNREACHED: u64 = 2 * MOST_SUM;

/// The cost of a walk.
///
/// Costs are compared by weight first, and at equal weight by number of arcs. So every arc costs more than
/// nothing, even at weight 0.
#[derive(Clone, Copy, Debug, PartialEq, Eq, PartialOrd, Ord)]
pub struct Cost {
    /// The sum of the weights.
    pub weight: u64,
    /// The number of arcs.
    pub arcs: u64,
}

impl Cost {
    /// Adds the cost of a walk and the cost of a walk that follows it.
    pub fn plus(self, other: Cost) -> Cost
        requires weights { self.weight + other.weight ≤ MOST_SUM }
        requires arcs { self.arcs + other.arcs < 2 ^ 64 }
        ensures { result ≡ cost_sum self other }
    {
        Cost {
            weight: self.weight + other.weight,
            arcs: self.arcs + other.arcs,
        }
    }

    /// Adds two costs, or returns `None` if their weights or their arcs add up to 2^64 or more.
    pub fn checked_plus(self, other: Cost) -> Option<Cost>
        ensures { MatchOption result (IsSumTooLarge self other) (λ sum. sum ≡ cost_sum self other) }
    {
        let weight = self.weight.checked_add(other.weight)?;
        let arcs = self.arcs.checked_add(other.arcs)?;
        Some(Cost { weight, arcs })
    }

    /// Whether this cost is the sum of two others.
    pub fn is_sum_of(self, first: Cost, second: Cost) -> bool
        ensures { IsTrue result ↔ (cost_sum first second ≡ self) }
    {
        first.weight <= self.weight
            && self.weight - first.weight == second.weight
            && first.arcs <= self.arcs
            && self.arcs - first.arcs == second.arcs
    }

    /// Whether this cost is less than the other.
    #[inline]
    pub fn is_below(self, other: Cost) -> bool
        ensures { IsTrue result ↔ IsBelow self other }
    {
        self < other
    }

    /// Whether this cost is at most the other.
    #[inline]
    pub fn is_at_most(self, other: Cost) -> bool
        ensures { IsTrue result ↔ IsAtMost self other }
    {
        self.weight < other.weight || (self.weight == other.weight && self.arcs <= other.arcs)
    }
}

//! The costs that a search holds: as pairs of weight and arcs, or in one word each.
ghost use Rattle.std.specs.Prelude.{◌≡◌, ℕ, ◌↔◌, IsTrue};
ghost use Rattle.ch_graph.specs.declared.limits.TheConstants.{MOST_WEIGHT};
ghost use Rattle.ch_graph.specs.declared.cost.Cost.{Cost};
ghost use Rattle.ch_graph.specs.Cost.{IsAtMost, cost_sum};
ghost use Rattle.ch_contract.specs.HeldCosts.{never, IsHeld, IsAddend, IsKnownCost, cost_in};

use ch_graph::Cost;
use ch_graph::limits::{MOST_HOPS, MOST_NODES, MOST_WEIGHT};

/// The most arcs of a chain with as many legs as a witness may have. Each leg stands for fewer arcs than there
/// are nodes.
pub(crate) const MOST_CHAIN_ARCS: u64 = MOST_HOPS as u64 * MOST_NODES as u64;

/// The greatest weight of a leg for searches over words.
pub(crate) const MOST_LIGHT: u64 = (1 << 30) - 1;

/// The number of arcs that stands for no known chain. It is more than any chain has.
pub(crate) const NEVER_ARCS: u64 = 1 << 62;

/// A weight of 1 in a word. The bits below it hold the arcs.
pub(crate) const WEIGHT_UNIT: u64 = 1 << 31;

/// The bit of a word that stands for no known chain. The bits below it hold the weight and then the arcs.
pub(crate) const NEVER_BIT: u64 = 1 << 63;

/// A cost in the form in which a search holds it.
pub(crate) trait HeldCost: Copy {
    /// The cost.
    ghost cost: { Self → Cost };

    /// The greatest weight that a leg may have.
    ghost limit: { ℕ };

    /// Returns the cost of a node without a known chain.
    fn never() -> Self
        ensures { cost result ≡ never };

    /// Returns the form of this cost.
    fn of(held: Cost) -> Self
        requires { IsHeld limit held }
        ensures { cost result ≡ held };

    /// Returns the form of the sum.
    fn plus(self, more: Self) -> Self
        requires known { IsKnownCost limit (cost self) }
        requires more { IsAddend limit (cost more) }
        ensures { cost result ≡ cost_sum (cost self) (cost more) };

    /// Whether this cost is at most the other.
    fn is_at_most(self, other: Self) -> bool
        ensures { IsTrue result ↔ IsAtMost (cost self) (cost other) };
}

/// More than any bound of a search.
const NEVER: Cost = Cost {
    weight: MOST_WEIGHT,
    arcs: NEVER_ARCS,
};

impl HeldCost for Cost {
    ghost cost = { λ c. c };

    ghost limit = { MOST_WEIGHT };

    #[inline]
    fn never() -> Cost {
        NEVER
    }

    #[inline]
    fn of(held: Cost) -> Cost {
        held
    }

    #[inline]
    fn plus(self, more: Cost) -> Cost {
        Cost {
            weight: self.weight + more.weight,
            arcs: self.arcs + more.arcs,
        }
    }

    #[inline]
    fn is_at_most(self, other: Cost) -> bool {
        Cost::is_at_most(self, other)
    }
}

/// A cost in one word, for legs that weigh at most [`MOST_LIGHT`]. The low 31 bits hold the arcs, the next 32
/// bits the weight. The highest bit is for nodes without a known chain.
///
/// No sum of a search carries from one part into the next. The known cost of a node is at most the bound of the
/// search. The bound is the cost of two legs, so it weighs less than 2^31. A search adds at most that much to a
/// known cost. No chain of a search stands for more than [`MOST_CHAIN_ARCS`] arcs, which is 2^29.
#[derive(Clone, Copy, Debug)]
pub(crate) struct Word(u64);

impl HeldCost for Word {
    ghost use Rattle.ch_contract.specs.declared.held_cost.TheConstants.{MOST_LIGHT};

    ghost cost = { λ w. cost_in w.0 };

    ghost limit = { MOST_LIGHT };

    #[inline]
    fn never() -> Word {
        Word(NEVER_BIT)
    }

    #[inline]
    fn of(held: Cost) -> Word {
        Word(held.weight * WEIGHT_UNIT + held.arcs)
    }

    #[inline]
    fn plus(self, more: Word) -> Word {
        Word(self.0 + more.0)
    }

    #[inline]
    fn is_at_most(self, other: Word) -> bool {
        self.0 <= other.0
    }
}

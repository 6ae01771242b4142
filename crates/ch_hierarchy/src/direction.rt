//! The direction of distances.
ghost use Rattle.std.specs.Prelude.{◌≡◌, ◌<◌, ℕ, map};
ghost use Rattle.ch_hierarchy.specs.Hierarchy.{IsLevelled, nodes_of};
ghost use Rattle.ch_hierarchy.specs.Ranked.{rank_of, ranked_leg};
ghost use Rattle.ch_hierarchy.specs.Rows.{row};
ghost use Rattle.ch_hierarchy.specs.Direction.{facing, source_side, target_side};

use crate::hierarchy::Hierarchy;
use crate::ranked::RankedLeg;
use crate::side::Side;

/// The direction of the distances of near rows.
#[derive(Clone, Copy, Debug, PartialEq, Eq)]
pub enum Direction {
    /// From a source to the targets.
    To,
    /// From the targets to a source.
    From,
}

impl Direction {
    /// The side of the searches from a source.
    pub fn side(self) -> Side
        ensures { result ≡ source_side self }
    {
        match self {
            Direction::To => Side::Up,
            Direction::From => Side::Down,
        }
    }

    /// The side of the searches from a target.
    pub fn target_side(self) -> Side
        ensures { result ≡ target_side self }
    {
        match self {
            Direction::To => Side::Down,
            Direction::From => Side::Up,
        }
    }

    /// The legs by rank that distances go along from the node of this rank, or to it.
    #[inline]
    pub fn ranked_legs(self, hierarchy: &Hierarchy, rank: u32) -> &[RankedLeg]
        requires { rank < nodes_of hierarchy.now }
        ensures legs { (v : ℕ) → v < nodes_of hierarchy.now → rank_of hierarchy.now v ≡ rank → result.now ≡ map (ranked_leg (facing self hierarchy.now)) (row (facing self hierarchy.now).up v) }
        ensures levelled { IsLevelled hierarchy.now }
    {
        hierarchy.ranked_legs(self.side(), rank)
    }
}

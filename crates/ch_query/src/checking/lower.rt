//! Pairs of legs through a lower node.
ghost use Rattle.std.specs.Prelude.{◌≡◌, ◌<◌, ◌↔◌, ℕ, Contains, IfOk, IsTrue, MatchOption};
ghost use Rattle.ch_hierarchy.specs.Hierarchy.{nodes_of};
ghost use Rattle.ch_hierarchy.specs.Kept.{MeetsWithin, IsCovered};
ghost use Rattle.ch_hierarchy.specs.Rows.{row};
ghost use Rattle.ch_query.specs.Covering.{IsCoveredFrom, IsFirstUncovered};

use super::covering::meets_within;
use super::finding::{ItemCheck, first_wrong, first_wrong_alone};
use super::leg_costs::is_leg_within;
use crate::sides::Sides;
use ch_graph::Cost;
use ch_hierarchy::{Hierarchy, Leg};
use ch_work::{Crew, Gate};
use std::alloc::{AllocError, Global};
use std::thread::Threads;

/// Whether going up from `start` and down to `end` costs at most `most`. In most cases one leg is enough to
/// show it.
fn is_pair_covered(
    hierarchy: &Hierarchy,
    sides: &mut Sides,
    start: u32,
    end: u32,
    most: Cost,
) -> bool
    requires sides { sides.old ≡ nodes_of hierarchy.now }
    requires start { start < nodes_of hierarchy.now }
    requires end { end < nodes_of hierarchy.now }
    ensures covered { IsTrue result ↔ MeetsWithin hierarchy.now start end most }
    ensures sides { sides.new ≡ sides.old }
{
    if is_leg_within(hierarchy, start, end, most) {
        return true;
    }
    meets_within(hierarchy, &mut sides.up, &mut sides.down, start, end, most)
}

/// Whether the pairs of the leg `into` and each leg up from `node` are covered.
fn are_covered_from(hierarchy: &Hierarchy, sides: &mut Sides, node: u32, into: Leg) -> bool
    requires sides { sides.old ≡ nodes_of hierarchy.now }
    requires node { node < nodes_of hierarchy.now }
    requires has { Contains (row hierarchy.now.down node) into }
    ensures covered { IsTrue result ↔ IsCoveredFrom hierarchy.now node into }
    ensures sides { sides.new ≡ sides.old }
{
    for out in hierarchy.up(node) {
        if into.node == out.node {
            continue;
        }
        let most = into.cost.plus(out.cost);
        if !is_pair_covered(hierarchy, sides, into.node, out.node, most) {
            return false;
        }
    }
    true
}

/// Whether each pair of legs through `node` is covered.
fn is_covered(hierarchy: &Hierarchy, sides: &mut Sides, node: u32) -> bool
    requires sides { sides.old ≡ nodes_of hierarchy.now }
    requires node { node < nodes_of hierarchy.now }
    ensures covered { IsTrue result ↔ IsCovered hierarchy.now node }
    ensures sides { sides.new ≡ sides.old }
{
    for into in hierarchy.down(node) {
        if !are_covered_from(hierarchy, sides, node, *into) {
            return false;
        }
    }
    true
}

/// Checks that each node is covered.
///
/// A node is not covered if some pair of legs through it, between different nodes, has no way around it.
/// Every way up and down between these nodes then costs more than the pair.
#[derive(Drop)]
struct CoverCheck<'a> {
    hierarchy: &'a Hierarchy,
}

impl ItemCheck for CoverCheck<'_> {
    type Room = Sides;

    ghost size = { λ check. nodes_of check.hierarchy.now };

    ghost right = { λ check node. IsCovered check.hierarchy.now node };

    ghost clean = { λ check sides. sides ≡ nodes_of check.hierarchy.now };

    fn room(&self, alloc: Global) -> Result<Sides, AllocError> {
        Sides::new(alloc, self.hierarchy.nodes())
    }

    fn is_right(&self, room: &mut Sides, node: u32) -> bool {
        is_covered(self.hierarchy, room, node)
    }
}

/// Returns the least numbered node that is not covered. The workers share the nodes as the plan says, each
/// in a room of its own.
pub(crate) fn first_uncovered<R: Threads + Sync, G: Gate>(
    crew: &Crew<'_, R, G>,
    hierarchy: &Hierarchy,
) -> Result<Option<u32>, AllocError>
    ensures { IfOk result (λ first. MatchOption first ((v : ℕ) → v < nodes_of hierarchy.now → IsCovered hierarchy.now v) (IsFirstUncovered hierarchy.now)) }
{
    first_wrong(crew, hierarchy.nodes(), &CoverCheck { hierarchy })
}

/// Like [`first_uncovered`], by the caller alone.
pub(crate) fn first_uncovered_alone(
    alloc: Global,
    hierarchy: &Hierarchy,
) -> Result<Option<u32>, AllocError>
    ensures { IfOk result (λ first. MatchOption first ((v : ℕ) → v < nodes_of hierarchy.now → IsCovered hierarchy.now v) (IsFirstUncovered hierarchy.now)) }
{
    first_wrong_alone(alloc, hierarchy.nodes(), &CoverCheck { hierarchy })
}

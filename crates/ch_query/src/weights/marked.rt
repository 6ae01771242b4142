//! Searches for a distance that mark the way back. The mark of a state is the rank of the node before it on a lightest
//! path, or says that there are two such nodes.
ghost use Rattle.std.specs.Prelude.{◌≡◌, ◌+◌, ◌*◌, ◌<◌, ◌≤◌, length, map, true, false};
ghost use Rattle.ch_graph.specs.declared.limits.TheConstants.{MOST_WEIGHT};
ghost use Rattle.ch_hierarchy.specs.Hierarchy.{nodes_of};
ghost use Rattle.ch_hierarchy.specs.Side.{other};
ghost use Rattle.ch_query.specs.Distance.{IsKeptForSome};
ghost use Rattle.ch_query.specs.Marks.{AreMarked, AreMarkedBut, KeepsMarks, ShowsMark, IsAdded, IsLeastMarked, IsMarkedWay};
ghost use Rattle.ch_query.specs.Underway.{IsTouched};
ghost use Rattle.ch_query.specs.Weights.{known_cost, IsWeighingAt, UnreachedStateIsUnkeyed, HasGoneOn, AtRank, IsCleanFor, AreKeysFrom, count_unsettled_states};

use super::search::WeightSearch;
use crate::question::Ends;
use ch_graph::UNREACHED;
use ch_graph::limits::MOST_WEIGHT;
use ch_hierarchy::{Hierarchy, Side};

/// The mark of a state with two nodes before it on lightest paths. It is also the rank of a least sum that two nodes
/// have, and is no rank of a node.
pub(crate) const TIED: u32 = u32::MAX;

/// The least sum of the weights of both states of a node.
#[derive(Clone, Copy)]
pub(crate) struct LeastSum {
    /// The sum, or [`UNREACHED`] if no node is reached from both sides.
    pub(crate) weight: u64,
    /// The rank of the node that has it, or [`TIED`] if two nodes have it.
    pub(crate) rank: u32,
}

impl LeastSum {
    /// Lowers the sum to that of the node of this rank, if it is not greater.
    #[inline]
    fn add(&mut self, weight: u64, rank: u32)
        ensures { IsAdded self.old weight rank self.new }
    {
        if weight < self.weight {
            self.weight = weight;
            self.rank = rank;
        } else if weight == self.weight && rank != self.rank {
            self.rank = TIED;
        }
    }
}

impl WeightSearch {
    /// Gives a state the weight of a path over the node of this rank, if that is less than the known weight, and marks
    /// it with the rank. If the weight is the known one, the state is tied.
    #[inline]
    fn relax_marked(&mut self, marks: &mut [u32], most: u64, state: u32, weight: u64, rank: u32)
        requires state { state < length self.old.known.items }
        requires most { most ≤ MOST_WEIGHT }
        requires queue { length self.old.queue ≡ length self.old.known.items }
        requires marks { length marks.old ≡ length self.old.known.items }
        requires unkeyed { UnreachedStateIsUnkeyed self.old state }
        requires touched { IsTouched (map known_cost self.old.known.items) self.old.touched }
        ensures shows { ShowsMark most self.old marks.old state weight rank self.new marks.new }
        ensures touched { IsTouched (map known_cost self.new.known.items) self.new.touched }
        ensures count { length marks.new ≡ length marks.old }
    {
        let known = self.known[state as usize];
        if weight == known {
            marks[state as usize] = TIED;
        } else if weight <= most && weight < known {
            marks[state as usize] = rank;
            self.reach(state, weight);
        }
    }

    /// Takes each leg of the state that was settled last, and marks the ends of these legs.
    #[inline]
    fn expand_marked(
        &mut self,
        marks: &mut [u32],
        hierarchy: &Hierarchy,
        ends: Ends,
        side: Side,
        rank: u32,
        weight: u64,
    )
        requires rank { rank < nodes_of hierarchy.now }
        requires weighing { AtRank hierarchy.now rank (λ v. IsWeighingAt hierarchy.now ends side self.old v weight) }
        requires count { length marks.old ≡ 2 * nodes_of hierarchy.now }
        requires marked { AtRank hierarchy.now rank (AreMarkedBut hierarchy.now ends side self.old marks.old) }
        ensures gone { HasGoneOn hierarchy.now ends side self.old self.new }
        ensures marked { AreMarked hierarchy.now ends side self.new marks.new }
        ensures there { KeepsMarks (other side) marks.old marks.new }
    {
        for leg in hierarchy.ranked_legs(side, rank) {
            self.relax_marked(
                marks,
                ends.most,
                side.state(leg.rank),
                weight + leg.weight,
                rank,
            );
        }
    }

    /// Takes the legs of the state that was settled last and marks their ends, unless the search stalls at it.
    #[inline]
    fn settle_marked(
        &mut self,
        marks: &mut [u32],
        hierarchy: &Hierarchy,
        ends: Ends,
        side: Side,
        rank: u32,
        weight: u64,
    )
        requires rank { rank < nodes_of hierarchy.now }
        requires weighing { AtRank hierarchy.now rank (λ v. IsWeighingAt hierarchy.now ends side self.old v weight) }
        requires count { length marks.old ≡ 2 * nodes_of hierarchy.now }
        requires marked { AtRank hierarchy.now rank (AreMarkedBut hierarchy.now ends side self.old marks.old) }
        ensures gone { HasGoneOn hierarchy.now ends side self.old self.new }
        ensures marked { AreMarked hierarchy.now ends side self.new marks.new }
        ensures there { KeepsMarks (other side) marks.old marks.new }
    {
        if self.is_stalled(hierarchy, ends, side, rank, weight) {
            return;
        }
        self.expand_marked(marks, hierarchy, ends, side, rank, weight);
    }

    /// Settles the state of least weight, unless that weight is greater than the least sum. Returns whether it did.
    fn advance_marked(
        &mut self,
        marks: &mut [u32],
        hierarchy: &Hierarchy,
        ends: Ends,
        least: &mut LeastSum,
    ) -> bool
        requires { IsLeastMarked hierarchy.now ends self.old marks.old least.old }
        ensures least { IsLeastMarked hierarchy.now ends self.new marks.new least.new }
        ensures less { result ≡ true → count_unsettled_states hierarchy.now self.new < count_unsettled_states hierarchy.now self.old }
        ensures past { result ≡ false → AreKeysFrom self.new.queue (least.new.weight + 1) }
    {
        let Some((weight, state)) = self.pop_below(least.weight + 1) else {
            return false;
        };
        let side = Side::of_state(state);
        let rank = state / 2;
        let there = self.known[side.other().state(rank) as usize];
        least.add(weight + there, rank);
        self.settle_marked(marks, hierarchy, ends, side, rank, weight);
        true
    }

    /// Finds the least weight of going up from `start` and down to `end`, and marks the ways back from there. It settles
    /// each state that does not weigh more, so that it meets each tie.
    pub(crate) fn least_marked(
        &mut self,
        marks: &mut [u32],
        hierarchy: &Hierarchy,
        start: u32,
        end: u32,
    ) -> LeastSum
        requires kept { IsKeptForSome hierarchy.now }
        requires clean { IsCleanFor (nodes_of hierarchy.now) self.old }
        requires count { length marks.old ≡ 2 * nodes_of hierarchy.now }
        requires start { start < nodes_of hierarchy.now }
        requires end { end < nodes_of hierarchy.now }
        ensures way { IsMarkedWay hierarchy.now start end marks.new result }
        ensures clean { IsCleanFor (nodes_of hierarchy.now) self.new }
        ensures count { length marks.new ≡ length marks.old }
    {
        let ends = Ends {
            start,
            end,
            most: MOST_WEIGHT,
        };
        self.begin(hierarchy, start, end);
        let mut least = LeastSum {
            weight: UNREACHED,
            rank: TIED,
        };
        while self.advance_marked(marks, hierarchy, ends, &mut least) {}
        self.clean();
        least
    }
}

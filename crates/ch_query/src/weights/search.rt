//! Distances by weights alone: one search from a source along legs to higher nodes, and back from a target
//! along legs from higher nodes.
//!
//! The distance is the weight of every walk of least weight. So the search counts no arcs and keeps no
//! parents.
//!
//! A node has a state on each side, and the two states are next to each other. One queue has the states of
//! both sides. So no two queues are compared, and the weight on the other side is quick to read.
ghost use Rattle.std.specs.Prelude.{◌≡◌, ℕ, ◌<◌, ◌≤◌, length, slice_set, map, Some, true, false, IfOk, MatchOption};
ghost use Rattle.ch_graph.specs.declared.limits.TheConstants.{MOST_WEIGHT};
ghost use Rattle.ch_hierarchy.specs.Hierarchy.{nodes_of, IsLevelled};
ghost use Rattle.ch_query.specs.Distance.{IsKeptForSome, IsLeastWeight};
ghost use Rattle.ch_query.specs.Questions.{all_paths};
ghost use Rattle.ch_query.specs.Underway.{IsTouched};
ghost use Rattle.ch_query.specs.Weights.{known_cost, is_idle_on, weight_cost, source_of, IsSizedFor, IsWeighingAt, UnreachedStateIsUnkeyed, HasGoneOn, ShowsWeight, AtRank, IsCleanFor, IsLeastSoFar, IsUnsettled, IsLeastState, AreKeysFrom, count_unsettled_states, without_state};

use crate::question::Ends;
use ch_graph::UNREACHED;
use ch_graph::limits::MOST_WEIGHT;
use ch_hierarchy::{Hierarchy, Side};
use ch_queue::KeyQueue;
use std::alloc::{AllocError, Global};

/// The state of a search for a distance, and the room for it.
#[derive(Drop)]
pub(crate) struct WeightSearch {
    /// By state: the least known weight of a path from the start to its node, or from its node to the end.
    pub(crate) known: Vec<u64>,
    /// The states that are reached and not settled, by weight.
    pub(crate) queue: KeyQueue<u64>,
    /// The states that are reached, each once.
    pub(crate) touched: Vec<u32>,
}

impl WeightSearch {
    /// Makes a clean search, with room for `nodes` nodes.
    pub(crate) fn new(alloc: Global, nodes: u32) -> Result<WeightSearch, AllocError>
        ensures { IfOk result (λ x. IsCleanFor nodes x) }
    {
        if nodes > u32::MAX / 2 {
            return Err(AllocError);
        }
        let states = 2 * nodes;
        let known = vec![in alloc; UNREACHED; states as usize]?;
        let queue = KeyQueue::new(alloc, states)?;
        let touched = Vec::with_capacity(alloc, states as usize)?;
        Ok(WeightSearch {
            known,
            queue,
            touched,
        })
    }

    /// Gives a state this weight, and puts it into the queue.
    #[inline]
    pub(crate) fn reach(&mut self, state: u32, weight: u64)
        requires state { state < length self.old.known.items }
        requires weight { weight ≤ MOST_WEIGHT }
        requires queue { length self.old.queue ≡ length self.old.known.items }
        requires unkeyed { UnreachedStateIsUnkeyed self.old state }
        requires touched { IsTouched (map known_cost self.old.known.items) self.old.touched }
        ensures known { self.new.known.items ≡ slice_set self.old.known.items state weight }
        ensures queue { self.new.queue ≡ slice_set self.old.queue state (Some weight) }
        ensures touched { IsTouched (map known_cost self.new.known.items) self.new.touched }
    {
        if self.known[state as usize] == UNREACHED {
            self.touched.push_reserved(state);
            self.queue.insert(state, weight);
        } else {
            self.queue.set(state, weight);
        }
        self.known[state as usize] = weight;
    }

    /// Gives a state the weight of a path to it, if that is at most `most` and less than the known weight.
    #[inline]
    fn relax(&mut self, most: u64, state: u32, weight: u64)
        requires state { state < length self.old.known.items }
        requires most { most ≤ MOST_WEIGHT }
        requires queue { length self.old.queue ≡ length self.old.known.items }
        requires unkeyed { UnreachedStateIsUnkeyed self.old state }
        requires touched { IsTouched (map known_cost self.old.known.items) self.old.touched }
        ensures shows { ShowsWeight most self.old state weight self.new }
        ensures touched { IsTouched (map known_cost self.new.known.items) self.new.touched }
    {
        if weight <= most && weight < self.known[state as usize] {
            self.reach(state, weight);
        }
    }

    /// Takes each leg of the state that was settled last.
    #[inline]
    fn expand(&mut self, hierarchy: &Hierarchy, ends: Ends, side: Side, rank: u32, weight: u64)
        requires rank { rank < nodes_of hierarchy.now }
        requires weighing { AtRank hierarchy.now rank (λ v. IsWeighingAt hierarchy.now ends side self.old v weight) }
        ensures { HasGoneOn hierarchy.now ends side self.old self.new }
    {
        for leg in hierarchy.ranked_legs(side, rank) {
            self.relax(ends.most, side.state(leg.rank), weight + leg.weight);
        }
    }

    /// Whether a leg from a higher node shows a way to the node of this rank that weighs less than
    /// `weight`.
    #[inline]
    pub(super) fn is_stalled(
        &self,
        hierarchy: &Hierarchy,
        ends: Ends,
        side: Side,
        rank: u32,
        weight: u64,
    ) -> bool
        requires rank { rank < nodes_of hierarchy.now }
        requires weighing { AtRank hierarchy.now rank (λ v. IsWeighingAt hierarchy.now ends side self.now v weight) }
        ensures levelled { IsLevelled hierarchy.now }
        ensures idle { result ≡ true → AtRank hierarchy.now rank (λ v. is_idle_on hierarchy.now side (source_of ends side) v (weight_cost weight)) }
    {
        for leg in hierarchy.ranked_legs(side.other(), rank) {
            if self.known[side.state(leg.rank) as usize] + leg.weight < weight {
                return true;
            }
        }
        false
    }

    /// Takes the legs of the state that was settled last, unless the search stalls at it ("stall on
    /// demand", Geisberger, Sanders, Schultes and Delling 2008). Returns whether it took them.
    #[inline]
    pub(crate) fn settle(
        &mut self,
        hierarchy: &Hierarchy,
        ends: Ends,
        side: Side,
        rank: u32,
        weight: u64,
    ) -> bool
        requires rank { rank < nodes_of hierarchy.now }
        requires weighing { AtRank hierarchy.now rank (λ v. IsWeighingAt hierarchy.now ends side self.old v weight) }
        ensures gone { HasGoneOn hierarchy.now ends side self.old self.new }
        ensures stalled { result ≡ false → AtRank hierarchy.now rank (λ v. is_idle_on hierarchy.now side (source_of ends side) v (weight_cost weight)) }
    {
        if self.is_stalled(hierarchy, ends, side, rank, weight) {
            return false;
        }
        self.expand(hierarchy, ends, side, rank, weight);
        true
    }

    /// Takes out the state of least weight, if that weight is less than `limit`.
    #[inline]
    pub(super) fn pop_below(&mut self, limit: u64) -> Option<(u64, u32)>
        ensures { MatchOption result (AreKeysFrom self.old.queue limit × (self.new ≡ self.old)) (λ e. IsLeastState self.old.queue e × (e.0 < limit) × (self.new ≡ without_state self.old e.1)) }
    {
        let (weight, _) = self.queue.least()?;
        if weight >= limit {
            return None;
        }
        self.queue.pop()
    }

    /// Settles the state of least weight, if that weight is less than the least sum. Returns whether it
    /// did.
    fn advance(&mut self, hierarchy: &Hierarchy, ends: Ends, least: &mut u64) -> bool
        requires { IsLeastSoFar hierarchy.now ends self.old least.old }
        ensures least { IsLeastSoFar hierarchy.now ends self.new least.new }
        ensures less { result ≡ true → count_unsettled_states hierarchy.now self.new < count_unsettled_states hierarchy.now self.old }
        ensures past { result ≡ false → AreKeysFrom self.new.queue least.new }
    {
        let Some((weight, state)) = self.pop_below(*least) else {
            return false;
        };
        let side = Side::of_state(state);
        let rank = state / 2;
        let there = self.known[side.other().state(rank) as usize];
        *least = (*least).min(weight + there);
        self.settle(hierarchy, ends, side, rank, weight);
        true
    }

    /// Puts both ends into a clean search.
    pub(super) fn begin(&mut self, hierarchy: &Hierarchy, start: u32, end: u32)
        requires clean { IsCleanFor (nodes_of hierarchy.now) self.old }
        requires start { start < nodes_of hierarchy.now }
        requires end { end < nodes_of hierarchy.now }
        ensures least { IsLeastSoFar hierarchy.now (all_paths start end) self.new UNREACHED }
        ensures unsettled { IsUnsettled hierarchy.now self.new }
    {
        self.reach(Side::Up.state(hierarchy.rank(start)), 0);
        self.reach(Side::Down.state(hierarchy.rank(end)), 0);
    }

    /// Removes all that the search knows, in a step for each state that was reached.
    pub(crate) fn clean(&mut self)
        requires { (n : ℕ) × IsSizedFor n self.old }
        ensures { (n : ℕ) → IsSizedFor n self.old → IsCleanFor n self.new }
    {
        self.queue.clear();
        while let Some(state) = self.touched.pop() {
            self.known[state as usize] = UNREACHED;
        }
    }

    /// Returns the least weight of going up from `start` and down to `end`, or `None` if no node is reached
    /// from both.
    pub(crate) fn least_weight(
        &mut self,
        hierarchy: &Hierarchy,
        start: u32,
        end: u32,
    ) -> Option<u64>
        requires kept { IsKeptForSome hierarchy.now }
        requires clean { IsCleanFor (nodes_of hierarchy.now) self.old }
        requires start { start < nodes_of hierarchy.now }
        requires end { end < nodes_of hierarchy.now }
        ensures least { IsLeastWeight hierarchy.now start end result }
        ensures clean { IsCleanFor (nodes_of hierarchy.now) self.new }
    {
        let ends = Ends {
            start,
            end,
            most: MOST_WEIGHT,
        };
        self.begin(hierarchy, start, end);
        let mut least = UNREACHED;
        while self.advance(hierarchy, ends, &mut least) {}
        self.clean();
        if least == UNREACHED {
            return None;
        }
        Some(least)
    }
}

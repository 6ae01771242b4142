//! One side of a query: Dijkstra's algorithm from a source, along legs to higher nodes.
ghost use Rattle.std.specs.Prelude.{◌≡◌, ◌+◌, ◌^◌, ◌<◌, ◌≤◌, length, slice_set, Some, true, false, IfOk};
ghost use Rattle.ch_graph.specs.declared.limits.TheConstants.{MOST_WEIGHT};
ghost use Rattle.ch_hierarchy.specs.Hierarchy.{nodes_of, IsLevelled};
ghost use Rattle.ch_query.specs.TwoSided.{LeadsKeys};
ghost use Rattle.ch_hierarchy.specs.Ranked.{rank_of};
ghost use Rattle.ch_query.specs.declared.question.Question.{Question as AnyQuestion};
ghost use Rattle.ch_query.specs.Underway.{idle_of, count_unsettled_in, IsTouched, IsRoom, UnreachedIsUnkeyed, RelaxesByRank, IsUnderway, IsExpandingAt, KeepsSettled, IsClean};
ghost use Rattle.ch_query.specs.Meeting.{IsFresh};

use super::labels::Labels;
use crate::question::Question;
use ch_graph::Cost;
use ch_hierarchy::{Hierarchy, RankedLeg};
use ch_queue::KeyQueue;
use std::alloc::{AllocError, Global};

/// The state of one side of a query, and the room for it.
#[derive(Drop)]
pub(crate) struct Search {
    /// By rank of a node: its label. This has the least known cost of a path from the source, and the least
    /// numbered node before it on a path of that cost.
    ///
    /// Most searches reach the high nodes. Their labels are together, because they are by rank.
    pub(crate) labels: Labels,
    /// The ranks of the nodes that are reached and not settled, by cost.
    pub(crate) queue: KeyQueue<Cost>,
    /// The ranks of the nodes that have a cost, each once.
    pub(crate) touched: Vec<u32>,
}

impl Search {
    /// Makes a clean search, with room for `nodes` nodes.
    pub(crate) fn new(alloc: Global, nodes: u32) -> Result<Search, AllocError>
        ensures clean { IfOk result (λ x. IsClean nodes x) }
    {
        let labels = Labels::new(alloc, nodes)?;
        let queue = KeyQueue::new(alloc, nodes)?;
        let touched = Vec::with_capacity(alloc, nodes as usize)?;
        Ok(Search {
            labels,
            queue,
            touched,
        })
    }

    /// Puts a source into a clean search. Afterwards the search is under way for each question from there.
    pub(crate) fn begin(&mut self, hierarchy: &Hierarchy, source: u32)
        requires clean { IsClean (nodes_of hierarchy.now) self.old }
        requires source { source < nodes_of hierarchy.now }
        ensures underway { (question : AnyQuestion) → question.source ≡ source → question.most ≤ MOST_WEIGHT → IsUnderway hierarchy.now question self.new }
        ensures fresh { IsFresh hierarchy.now self.new }
        ensures levelled { IsLevelled hierarchy.now }
    {
        let nothing = Cost { weight: 0, arcs: 0 };
        self.reach(hierarchy.rank(source), nothing, source);
    }

    /// Writes the cost and the parent of the node of this rank, which is not settled.
    fn reach(&mut self, rank: u32, cost: Cost, parent: u32)
        requires rank { rank < length self.old.labels.costs }
        requires weight { cost.weight ≤ MOST_WEIGHT }
        requires arcs { cost.arcs < 2 ^ 63 }
        requires room { IsRoom self.old }
        requires unkeyed { UnreachedIsUnkeyed self.old rank }
        ensures costs { self.new.labels.costs ≡ slice_set self.old.labels.costs rank (Some cost) }
        ensures queue { self.new.queue ≡ slice_set self.old.queue rank (Some cost) }
        ensures parents { self.new.labels.parents ≡ slice_set self.old.labels.parents rank parent }
        ensures touched { IsTouched self.new.labels.costs self.new.touched }
    {
        if self.labels.get(rank).is_none() {
            self.touched.push_reserved(rank);
            self.queue.insert(rank, cost);
        } else {
            self.queue.set(rank, cost);
        }
        self.labels.set(rank, cost, parent);
    }

    /// Takes a leg of `node`, which was settled at `cost`: lowers the cost at its other end, or the parent
    /// at equal cost. A leg that makes a path heavier than `most` is not taken.
    fn relax(&mut self, most: u64, node: u32, cost: Cost, leg: RankedLeg)
        requires most { most ≤ MOST_WEIGHT }
        requires rank { leg.rank < length self.old.labels.costs }
        requires room { IsRoom self.old }
        requires unkeyed { UnreachedIsUnkeyed self.old leg.rank }
        requires weights { (cost.weight ≤ MOST_WEIGHT) × (leg.weight ≤ MOST_WEIGHT) }
        requires arcs { cost.arcs + leg.arcs < 2 ^ 63 }
        ensures relaxes { RelaxesByRank most self.old node cost leg self.new }
        ensures touched { IsTouched self.new.labels.costs self.new.touched }
    {
        let sum = cost.plus(leg.cost());
        if sum.weight > most {
            return;
        }
        if let Some(known) = self.labels.get(leg.rank) {
            if known < sum {
                return;
            }
            if known == sum {
                if node < self.labels.parent(leg.rank) {
                    self.labels.set_parent(leg.rank, node);
                }
                return;
            }
        }
        self.reach(leg.rank, sum, node);
    }

    /// Takes each leg of the node that was settled last.
    pub(crate) fn expand(
        &mut self,
        hierarchy: &Hierarchy,
        question: Question,
        node: u32,
        rank: u32,
        cost: Cost,
    )
        requires expanding { IsExpandingAt hierarchy.now question self.old node cost }
        requires rank { rank ≡ rank_of hierarchy.now node }
        ensures underway { IsUnderway hierarchy.now question self.new }
        ensures settled { KeepsSettled hierarchy.now self.old self.new }
        ensures measure { count_unsettled_in hierarchy.now self.new ≡ count_unsettled_in hierarchy.now self.old }
    {
        for leg in hierarchy.ranked_legs(question.side, rank) {
            self.relax(question.most, node, cost, *leg);
        }
    }

    /// Whether a leg from a higher node shows a way to `node`, of this rank, that costs less than `cost`.
    pub(crate) fn is_stalled(
        &self,
        hierarchy: &Hierarchy,
        question: Question,
        node: u32,
        rank: u32,
        cost: Cost,
    ) -> bool
        requires expanding { IsExpandingAt hierarchy.now question self.now node cost }
        requires rank { rank ≡ rank_of hierarchy.now node }
        requires stalls { question.stalls ≡ true }
        ensures { result ≡ true → idle_of hierarchy.now question node cost }
    {
        for leg in hierarchy.ranked_legs(question.side.other(), rank) {
            if let Some(known) = self.labels.get(leg.rank) {
                if known.plus(leg.cost()).is_below(cost) {
                    return true;
                }
            }
        }
        false
    }

    /// Takes the legs of the node that was settled last, unless the search stalls at it.
    pub(crate) fn settle(
        &mut self,
        hierarchy: &Hierarchy,
        question: Question,
        node: u32,
        rank: u32,
        cost: Cost,
    )
        requires expanding { IsExpandingAt hierarchy.now question self.old node cost }
        requires rank { rank ≡ rank_of hierarchy.now node }
        ensures underway { IsUnderway hierarchy.now question self.new }
        ensures settled { KeepsSettled hierarchy.now self.old self.new }
        ensures measure { count_unsettled_in hierarchy.now self.new ≡ count_unsettled_in hierarchy.now self.old }
    {
        if question.stalls && self.is_stalled(hierarchy, question, node, rank, cost) {
            return;
        }
        self.expand(hierarchy, question, node, rank, cost);
    }

    /// Whether this side settles the next node: it has the least key of both sides, or neither has a key.
    /// At equal keys this side comes first.
    pub(crate) fn leads(&self, other: &Search) -> bool
        ensures here { result ≡ true → LeadsKeys self.now.queue other.now.queue }
        ensures there { result ≡ false → LeadsKeys other.now.queue self.now.queue }
    {
        match (self.queue.least(), other.queue.least()) {
            (Some((here, _)), Some((there, _))) => !there.is_below(here),
            (None, Some(_)) => false,
            (_, None) => true,
        }
    }

    /// Removes all that the search knows, in a step for each touched node.
    pub(crate) fn clean(&mut self)
        requires room { IsRoom self.old }
        ensures clean { IsClean (length self.old.labels.costs) self.new }
    {
        self.queue.clear();
        while let Some(rank) = self.touched.pop() {
            self.labels.clear(rank);
        }
    }
}

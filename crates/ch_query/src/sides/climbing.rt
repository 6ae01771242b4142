//! Searches without a queue: they take the legs of the ancestors of the source, from the lowest to the highest.
ghost use Rattle.std.specs.Prelude.{◌≡◌, ◌+◌, ◌^◌, ◌<◌, ◌≤◌, ℕ, List, length, slice_set, Some, MatchOption, All};
ghost use Rattle.ch_graph.specs.declared.limits.TheConstants.{MOST_WEIGHT};
ghost use Rattle.ch_hierarchy.specs.Hierarchy.{nodes_of};
ghost use Rattle.ch_hierarchy.specs.Paths.{IsMeet, NeverMeets};
ghost use Rattle.ch_hierarchy.specs.declared.side.Side.{Side as AnySide};
ghost use Rattle.ch_hierarchy.specs.declared.side.Side.TheVariants.{Up, Down};
ghost use Rattle.ch_query.specs.declared.question.Question.{Question as AnyQuestion};
ghost use Rattle.ch_query.specs.Climbs.{AreAncestors, IsClimbing, IsUnqueued, Takes};
ghost use Rattle.ch_query.specs.Distance.{IsKeptForSome};
ghost use Rattle.ch_query.specs.Meeting.{AreMeeting};
ghost use Rattle.ch_query.specs.Questions.{stalling};
ghost use Rattle.ch_query.specs.TwoSided.{IsPast};
ghost use Rattle.ch_query.specs.Underway.{leg_of_ranked, IsClean, IsTouched, IsUnderway, IsUnderwayBySome};

use super::meeting::met;
use super::search::Search;
use crate::question::Question;
use ch_graph::Cost;
use ch_graph::limits::MOST_WEIGHT;
use ch_hierarchy::{Hierarchy, RankedLeg, Side};

impl Search {
    /// Writes the cost and the parent of the node of this rank.
    fn label(&mut self, rank: u32, cost: Cost, parent: u32)
        requires rank { rank < length self.old.labels.costs }
        requires parents { length self.old.labels.parents ≡ length self.old.labels.costs }
        requires weight { cost.weight ≤ MOST_WEIGHT }
        requires arcs { cost.arcs < 2 ^ 63 }
        requires touched { IsTouched self.old.labels.costs self.old.touched }
        ensures costs { self.new.labels.costs ≡ slice_set self.old.labels.costs rank (Some cost) }
        ensures parents { self.new.labels.parents ≡ slice_set self.old.labels.parents rank parent }
        ensures touched { IsTouched self.new.labels.costs self.new.touched }
        ensures queue { self.new.queue ≡ self.old.queue }
    {
        if self.labels.get(rank).is_none() {
            self.touched.push_reserved(rank);
        }
        self.labels.set(rank, cost, parent);
    }

    /// Takes a leg of `node`, whose cost is `cost`: lowers the cost at its other end, or the parent at equal cost.
    fn take_leg(&mut self, node: u32, cost: Cost, leg: RankedLeg)
        requires rank { leg.rank < length self.old.labels.costs }
        requires parents { length self.old.labels.parents ≡ length self.old.labels.costs }
        requires weights { (cost.weight ≤ MOST_WEIGHT) × (leg.weight ≤ MOST_WEIGHT) }
        requires arcs { cost.arcs + leg.arcs < 2 ^ 63 }
        requires touched { IsTouched self.old.labels.costs self.old.touched }
        ensures takes { Takes MOST_WEIGHT self.old.labels.costs self.old.labels.parents node cost (leg_of_ranked leg) self.new.labels.costs self.new.labels.parents }
        ensures touched { IsTouched self.new.labels.costs self.new.touched }
        ensures queue { self.new.queue ≡ self.old.queue }
    {
        let sum = cost.plus(leg.cost());
        if sum.weight > MOST_WEIGHT {
            return;
        }
        if let Some(known) = self.labels.get(leg.rank) {
            if known < sum {
                return;
            }
            if known == sum {
                if node < self.labels.parent(leg.rank) {
                    self.labels.set_parent(leg.rank, node);
                }
                return;
            }
        }
        self.label(leg.rank, sum, node);
    }

    /// Takes the legs of the ancestor at this place, if the search has reached it.
    fn take_legs(
        &mut self,
        hierarchy: &Hierarchy,
        question: Question,
        ancestors: &[u32],
        place: usize,
    )
        requires ancestors { AreAncestors hierarchy.now question.side question.source ancestors.now }
        requires place { place < length ancestors.now }
        requires climbing { IsClimbing hierarchy.now question ancestors.now place self.old }
        ensures climbing { IsClimbing hierarchy.now question ancestors.now (place + 1) self.new }
    {
        let rank = ancestors[place];
        let Some(cost) = self.labels.get(rank) else {
            return;
        };
        let node = hierarchy.node_at(rank);
        for leg in hierarchy.ranked_legs(question.side, rank) {
            self.take_leg(node, cost, *leg);
        }
    }

    /// Puts the source into a clean search without a queue.
    fn start(&mut self, hierarchy: &Hierarchy, source: u32)
        requires clean { IsClean (nodes_of hierarchy.now) self.old }
        requires source { source < nodes_of hierarchy.now }
        ensures { (side : AnySide) (ancestors : List ℕ) → AreAncestors hierarchy.now side source ancestors → IsClimbing hierarchy.now (stalling side source) ancestors 0 self.new }
    {
        let nothing = Cost { weight: 0, arcs: 0 };
        self.label(hierarchy.rank(source), nothing, source);
    }

    /// Takes the legs of all ancestors of `source` in a clean search.
    fn climb(&mut self, hierarchy: &Hierarchy, side: Side, source: u32, ancestors: &[u32])
        requires clean { IsClean (nodes_of hierarchy.now) self.old }
        requires source { source < nodes_of hierarchy.now }
        requires ancestors { AreAncestors hierarchy.now side source ancestors.now }
        ensures unqueued { IsUnqueued hierarchy.now ancestors.now self.new }
        ensures underway { IsUnderway hierarchy.now (stalling side source) self.new }
    {
        let question = Question {
            side,
            source,
            stalls: true,
            most: MOST_WEIGHT,
        };
        self.start(hierarchy, source);
        for place in 0..ancestors.len() {
            self.take_legs(hierarchy, question, ancestors, place);
        }
    }
}

/// Returns the least sum of the two costs of an ancestor, with the least numbered node of that sum.
fn least_met(
    hierarchy: &Hierarchy,
    up: &Search,
    down: &Search,
    ancestors: &[u32],
) -> Option<(Cost, u32)>
    requires up { IsUnderwayBySome hierarchy.now up.now × IsUnqueued hierarchy.now ancestors.now up.now }
    requires down { IsUnderwayBySome hierarchy.now down.now }
    requires ancestors { All (λ rank. rank < nodes_of hierarchy.now) ancestors.now }
    ensures { (question other : AnyQuestion) → IsUnderway hierarchy.now question up.now → IsUnderway hierarchy.now other down.now → AreMeeting hierarchy.now question other up.now down.now result }
{
    let mut least = None;
    for place in 0..ancestors.len() {
        let rank = ancestors[place];
        let Some(cost) = up.labels.get(rank) else {
            continue;
        };
        let node = hierarchy.node_at(rank);
        least = met(hierarchy, down, node, rank, cost, least);
    }
    least
}

/// Returns the least sum of a path up from `start` and a path down to `end`, as [`meet`](super::meeting::meet) does, by the
/// ancestors of both. Afterwards both searches have reached all that they can.
pub(crate) fn meet_by_ancestors(
    hierarchy: &Hierarchy,
    up: &mut Search,
    down: &mut Search,
    start: u32,
    end: u32,
    ups: &[u32],
    downs: &[u32],
) -> Option<(Cost, u32)>
    requires kept { IsKeptForSome hierarchy.now }
    requires clean { IsClean (nodes_of hierarchy.now) up.old × IsClean (nodes_of hierarchy.now) down.old }
    requires start { start < nodes_of hierarchy.now }
    requires end { end < nodes_of hierarchy.now }
    requires ups { AreAncestors hierarchy.now Up start ups.now }
    requires downs { AreAncestors hierarchy.now Down end downs.now }
    ensures least { MatchOption result (NeverMeets hierarchy.now start end) (λ e. IsMeet hierarchy.now start end e.1 e.0) }
    ensures meeting { AreMeeting hierarchy.now (stalling Up start) (stalling Down end) up.new down.new result }
    ensures past { IsPast up.new.queue result × IsPast down.new.queue result }
{
    up.climb(hierarchy, Side::Up, start, ups);
    down.climb(hierarchy, Side::Down, end, downs);
    least_met(hierarchy, up, down, ups)
}

//! Two searches that meet.
ghost use Rattle.std.specs.Prelude.{◌≡◌, ◌+◌, ◌<◌, ◌≤◌, true, false, MatchOption};
ghost use Rattle.ch_graph.specs.declared.limits.TheConstants.{MOST_WEIGHT, MOST_PATH_ARCS};
ghost use Rattle.ch_hierarchy.specs.Hierarchy.{nodes_of};
ghost use Rattle.ch_hierarchy.specs.Paths.{IsMeet, NeverMeets};
ghost use Rattle.ch_query.specs.Distance.{IsKeptForSome};
ghost use Rattle.ch_graph.specs.Cost.{cost_at};
ghost use Rattle.ch_hierarchy.specs.Ranked.{rank_of};
ghost use Rattle.ch_hierarchy.specs.declared.side.Side.TheVariants.{Up, Down};
ghost use Rattle.ch_query.specs.declared.question.Question.{Question as AnyQuestion};
ghost use Rattle.ch_query.specs.ByNode.{IsSomeRank, costs_of};
ghost use Rattle.ch_query.specs.Underway.{count_unsettled_in, IsUnderway, IsUnderwayBySome, IsClean};
ghost use Rattle.ch_query.specs.TwoSided.{IsPast};
ghost use Rattle.ch_query.specs.Meeting.{IsLeastAfter, IsFirst, AreMeeting};
ghost use Rattle.ch_query.specs.Questions.{stalling};

use super::search::Search;
use crate::question::Question;
use ch_graph::Cost;
use ch_graph::limits::MOST_WEIGHT;
use ch_hierarchy::{Hierarchy, Side};
use ch_queue::KeyQueue;

/// Returns the first of the two, by cost and then by node.
fn first(least: Option<(Cost, u32)>, cost: Cost, node: u32) -> Option<(Cost, u32)>
    ensures { IsFirst least (cost, node) result }
{
    if let Some((known, at)) = least {
        if known < cost || known == cost && at <= node {
            return least;
        }
    }
    Some((cost, node))
}

/// Returns the least sum after one side has reached `node`, of this rank, at `cost`.
pub(super) fn met(
    hierarchy: &Hierarchy,
    there: &Search,
    node: u32,
    rank: u32,
    cost: Cost,
    least: Option<(Cost, u32)>,
) -> Option<(Cost, u32)>
    requires there { IsUnderwayBySome hierarchy.now there.now }
    requires node { node < nodes_of hierarchy.now }
    requires rank { rank ≡ rank_of hierarchy.now node }
    requires cost { (cost.weight ≤ MOST_WEIGHT) × (cost.arcs ≤ MOST_PATH_ARCS) }
    ensures { IsLeastAfter (cost_at (costs_of hierarchy.now there.now) node) node cost least result }
{
    match there.labels.get(rank) {
        Some(known) => first(least, cost.plus(known), node),
        None => least,
    }
}

/// Returns the least sum after all legs of the node of this rank were taken: a leg may lead to a node that the other side
/// has reached.
fn look_ahead(
    hierarchy: &Hierarchy,
    question: Question,
    here: &Search,
    there: &Search,
    rank: u32,
    least: Option<(Cost, u32)>,
) -> Option<(Cost, u32)>
    requires here { IsUnderway hierarchy.now question here.now }
    requires there { IsUnderwayBySome hierarchy.now there.now }
    requires rank { IsSomeRank hierarchy.now rank }
    ensures { (other : AnyQuestion) → AreMeeting hierarchy.now question other here.now there.now least → AreMeeting hierarchy.now question other here.now there.now result }
{
    let mut lowered = least;
    for leg in hierarchy.ranked_legs(question.side, rank) {
        if let Some(cost) = here.labels.get(leg.rank) {
            let node = hierarchy.node_at(leg.rank);
            lowered = met(hierarchy, there, node, leg.rank, cost, lowered);
        }
    }
    lowered
}

/// Whether each key is above the least sum.
fn is_past(queue: &KeyQueue<Cost>, least: Option<(Cost, u32)>) -> bool
    ensures { result ≡ true → IsPast queue.now least }
{
    match (queue.least(), least) {
        (Some((key, _)), Some((sum, _))) => sum.is_below(key),
        (None, _) => true,
        (Some(_), None) => false,
    }
}

/// Settles one node, unless each key of this side is above the least sum. Returns whether it settled one.
///
/// A search that does not stall looks for any sum within a bound. So it looks ahead over the legs of the node.
fn advance(
    hierarchy: &Hierarchy,
    question: Question,
    here: &mut Search,
    there: &Search,
    least: &mut Option<(Cost, u32)>,
) -> bool
    requires meeting { (other : AnyQuestion) × AreMeeting hierarchy.now question other here.old there.now least.old }
    ensures meeting { (other : AnyQuestion) → AreMeeting hierarchy.now question other here.old there.now least.old → AreMeeting hierarchy.now question other here.new there.now least.new }
    ensures less { result ≡ true → count_unsettled_in hierarchy.now here.new < count_unsettled_in hierarchy.now here.old }
    ensures stopped { result ≡ false → (here.new ≡ here.old) × (least.new ≡ least.old) × IsPast here.old.queue least.old }
{
    if is_past(&here.queue, *least) {
        return false;
    }
    let Some((cost, rank)) = here.queue.pop() else {
        return false;
    };
    let node = hierarchy.node_at(rank);
    *least = met(hierarchy, there, node, rank, cost, *least);
    here.settle(hierarchy, question, node, rank, cost);
    if !question.stalls {
        *least = look_ahead(hierarchy, question, here, there, rank, *least);
    }
    true
}

/// Settles one node on the side with the least key, and returns whether it did. If that key is above the
/// least sum, so are all keys of both sides.
pub(crate) fn step(
    hierarchy: &Hierarchy,
    ups: Question,
    downs: Question,
    up: &mut Search,
    down: &mut Search,
    least: &mut Option<(Cost, u32)>,
) -> bool
    requires meeting { AreMeeting hierarchy.now ups downs up.old down.old least.old }
    ensures meeting { AreMeeting hierarchy.now ups downs up.new down.new least.new }
    ensures less { result ≡ true → count_unsettled_in hierarchy.now up.new + count_unsettled_in hierarchy.now down.new < count_unsettled_in hierarchy.now up.old + count_unsettled_in hierarchy.now down.old }
    ensures stopped { result ≡ false → IsPast up.new.queue least.new × IsPast down.new.queue least.new }
{
    if up.leads(down) {
        advance(hierarchy, ups, up, down, least)
    } else {
        advance(hierarchy, downs, down, up, least)
    }
}

/// Returns the least sum of a path up from `start` and a path down to `end`. With it comes the least
/// numbered node where two paths of that sum meet. Afterwards both searches are as they stopped.
pub(crate) fn meet(
    hierarchy: &Hierarchy,
    up: &mut Search,
    down: &mut Search,
    start: u32,
    end: u32,
) -> Option<(Cost, u32)>
    requires kept { IsKeptForSome hierarchy.now }
    requires clean { IsClean (nodes_of hierarchy.now) up.old × IsClean (nodes_of hierarchy.now) down.old }
    requires start { start < nodes_of hierarchy.now }
    requires end { end < nodes_of hierarchy.now }
    ensures least { MatchOption result (NeverMeets hierarchy.now start end) (λ e. IsMeet hierarchy.now start end e.1 e.0) }
    ensures meeting { AreMeeting hierarchy.now (stalling Up start) (stalling Down end) up.new down.new result }
    ensures past { IsPast up.new.queue result × IsPast down.new.queue result }
{
    let ups = Question {
        side: Side::Up,
        source: start,
        stalls: true,
        most: MOST_WEIGHT,
    };
    let downs = Question {
        side: Side::Down,
        source: end,
        ..ups
    };
    up.begin(hierarchy, start);
    down.begin(hierarchy, end);
    let mut least = None;
    while step(hierarchy, ups, downs, up, down, &mut least) {}
    least
}

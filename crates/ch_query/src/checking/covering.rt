//! The search that decides whether going up from one node and down to another costs at most a bound.
ghost use Rattle.std.specs.Prelude.{◌≡◌, ◌+◌, ◌<◌, ◌↔◌, ◌⊎◌, true, false, IsTrue};
ghost use Rattle.ch_hierarchy.specs.Hierarchy.{nodes_of};
ghost use Rattle.ch_hierarchy.specs.Kept.{MeetsWithin};
ghost use Rattle.ch_query.specs.Covering.{IsSumWithin};
ghost use Rattle.ch_query.specs.Meeting.{AreMeeting};
ghost use Rattle.ch_query.specs.TwoSided.{IsPast};
ghost use Rattle.ch_query.specs.Underway.{count_unsettled_in, IsClean};

use crate::question::Question;
use crate::sides::meeting::step;
use crate::sides::search::Search;
use crate::start::most_within;
use ch_graph::Cost;
use ch_hierarchy::{Hierarchy, Side};

/// Whether there is a sum, and it is at most the bound.
fn is_within(least: Option<(Cost, u32)>, most: Cost) -> bool
    ensures { IsTrue result ↔ IsSumWithin least most }
{
    match least {
        Some((sum, _)) => !most.is_below(sum),
        None => false,
    }
}

/// Settles one node on the side with the least key, unless a sum within the bound is known. Returns whether it did.
fn step_within(
    hierarchy: &Hierarchy,
    ups: Question,
    downs: Question,
    up: &mut Search,
    down: &mut Search,
    least: &mut Option<(Cost, u32)>,
    most: Cost,
) -> bool
    requires meeting { AreMeeting hierarchy.now ups downs up.old down.old least.old }
    ensures meeting { AreMeeting hierarchy.now ups downs up.new down.new least.new }
    ensures less { result ≡ true → count_unsettled_in hierarchy.now up.new + count_unsettled_in hierarchy.now down.new < count_unsettled_in hierarchy.now up.old + count_unsettled_in hierarchy.now down.old }
    ensures stopped { result ≡ false → IsSumWithin least.new most ⊎ (IsPast up.new.queue least.new × IsPast down.new.queue least.new) }
{
    if is_within(*least, most) {
        return false;
    }
    step(hierarchy, ups, downs, up, down, least)
}

/// Whether going up from `start` to some node and down from there to `end` costs at most `most`.
///
/// It takes no leg that makes a path heavier than `most`, and stops once it has found a way.
pub(crate) fn meets_within(
    hierarchy: &Hierarchy,
    up: &mut Search,
    down: &mut Search,
    start: u32,
    end: u32,
    most: Cost,
) -> bool
    requires clean { IsClean (nodes_of hierarchy.now) up.old × IsClean (nodes_of hierarchy.now) down.old }
    requires start { start < nodes_of hierarchy.now }
    requires end { end < nodes_of hierarchy.now }
    ensures covered { IsTrue result ↔ MeetsWithin hierarchy.now start end most }
    ensures clean { IsClean (nodes_of hierarchy.now) up.new × IsClean (nodes_of hierarchy.now) down.new }
{
    let ups = Question {
        side: Side::Up,
        source: start,
        stalls: false,
        most: most_within(Some(most.weight)),
    };
    let downs = Question {
        side: Side::Down,
        source: end,
        ..ups
    };
    up.begin(hierarchy, start);
    down.begin(hierarchy, end);
    let mut least = None;
    while step_within(hierarchy, ups, downs, up, down, &mut least, most) {}
    up.clean();
    down.clean();
    is_within(least, most)
}

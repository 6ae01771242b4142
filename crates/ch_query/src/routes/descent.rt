//! The way back from the node where two searches meet to the source of one of them.
ghost use Rattle.std.specs.Prelude.{◌≡◌, vec_capacity};
ghost use Rattle.ch_query.specs.Distance.{IsKeptForSome};
ghost use Rattle.ch_query.specs.Descents.{HasReachedWithRoom, pending_of, IsTraced};
ghost use Rattle.ch_query.specs.Questions.{stalling};

use super::legs::leg_at;
use super::unpacking::PendingLeg;
use crate::sides::search::Search;
use ch_hierarchy::{Hierarchy, Leg, Side};

/// Returns the leg of a step up from `low` on this side, in the direction of the walk.
pub(super) fn directed(side: Side, low: u32, leg: Leg) -> PendingLeg
    ensures { result ≡ pending_of side (record { low = low; leg = leg }) }
{
    match side {
        Side::Up => PendingLeg::new(low, leg.node, leg),
        Side::Down => PendingLeg::new(leg.node, low, leg),
    }
}

/// Appends the legs of the steps from `meet` back to the source. Each step goes to the least numbered node
/// that comes before on a least path.
pub(crate) fn descend(
    hierarchy: &Hierarchy,
    search: &Search,
    side: Side,
    source: u32,
    meet: u32,
    pending: &mut Vec<PendingLeg>,
)
    requires kept { IsKeptForSome hierarchy.now }
    requires reached { HasReachedWithRoom hierarchy.now (stalling side source) search.now meet pending.old }
    ensures traced { IsTraced hierarchy.now side source meet pending.old.items pending.new.items }
    ensures capacity { vec_capacity pending.new ≡ vec_capacity pending.old }
{
    let mut node = meet;
    while node != source {
        let parent = search.labels.parent(hierarchy.rank(node));
        let leg = leg_at(hierarchy.legs(side, parent), node);
        pending.push_reserved(directed(side, parent, leg));
        node = parent;
    }
}

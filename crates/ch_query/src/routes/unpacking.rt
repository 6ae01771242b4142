//! Legs replaced by the arcs that they stand for.
ghost use Rattle.std.specs.Prelude.{◌≡◌, ◌+◌, ◌^◌, ◌<◌, ◌≤◌, vec_len, vec_capacity, Some};
ghost use Rattle.ch_query.specs.Distance.{IsKeptForSome};
ghost use Rattle.ch_query.specs.Unpacking.{IsPending, ArePending, HasRoomToUnpack, ArePendingArcs, IsSplit, pending_arcs};

use super::legs::leg_at;
use ch_graph::{Cost, InArc};
use ch_hierarchy::{Hierarchy, Leg};

/// A leg of a route that still has to be unpacked, with both of its nodes.
#[derive(Clone, Copy, Debug)]
pub struct PendingLeg {
    /// The node from which it leads.
    pub from: u32,
    /// The node to which it leads.
    pub to: u32,
    /// The weight of the arcs that it stands for, and their number.
    pub cost: Cost,
    /// The node between the two legs that it stands for, or `None` if it is an arc.
    pub middle: Option<u32>,
}

impl PendingLeg {
    /// Makes a pending leg of a leg of a row and its two nodes.
    pub(crate) fn new(from: u32, to: u32, leg: Leg) -> PendingLeg
        ensures { result ≡ record { from = from; to = to; cost = leg.cost; middle = leg.middle } }
    {
        PendingLeg {
            from,
            to,
            cost: leg.cost,
            middle: leg.middle,
        }
    }
}

/// Returns the number of arcs that the legs stand for.
pub(super) fn count_arcs(legs: &[PendingLeg]) -> usize
    requires { pending_arcs legs.now < 2 ^ 32 }
    ensures { result ≡ pending_arcs legs.now }
{
    let mut arcs = 0;
    for leg in legs {
        arcs += leg.cost.arcs as usize;
    }
    arcs
}

/// Appends the arcs that the legs stand for, from the last leg on. Afterwards no leg is left.
pub(crate) fn unpack(hierarchy: &Hierarchy, pending: &mut Vec<PendingLeg>, arcs: &mut Vec<InArc>)
    requires kept { IsKeptForSome hierarchy.now }
    requires legs { ArePending hierarchy.now pending.old.items }
    requires room { HasRoomToUnpack pending.old arcs.old }
    ensures { ArePendingArcs hierarchy.now pending.old.items arcs.new.items }
{
    while let Some(leg) = pending.pop() {
        match leg.middle {
            Some(middle) => split(hierarchy, leg, middle, pending),
            None => arcs.push_reserved(InArc {
                from: leg.from,
                to: leg.to,
                weight: leg.cost.weight,
            }),
        }
    }
}

/// Puts the two legs of a shortcut in place of the shortcut, with the first leg on top.
fn split(hierarchy: &Hierarchy, leg: PendingLeg, middle: u32, pending: &mut Vec<PendingLeg>)
    requires kept { IsKeptForSome hierarchy.now }
    requires leg { IsPending hierarchy.now leg }
    requires middle { leg.middle ≡ Some middle }
    requires room { vec_len pending.old + 2 ≤ vec_capacity pending.old }
    ensures split { IsSplit hierarchy.now leg.from middle leg.to pending.old.items pending.new.items }
    ensures len { vec_len pending.new ≡ vec_len pending.old + 2 }
    ensures capacity { vec_capacity pending.new ≡ vec_capacity pending.old }
{
    let first = leg_at(hierarchy.down(middle), leg.from);
    let second = leg_at(hierarchy.up(middle), leg.to);
    pending.push_reserved(PendingLeg::new(middle, leg.to, second));
    pending.push_reserved(PendingLeg::new(leg.from, middle, first));
}

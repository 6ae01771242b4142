//! Legs by their lower and their higher node.
ghost use Rattle.std.specs.Prelude.{◌<◌, length, AllPairs, Contains, IfOk, OnOk};
ghost use Rattle.ch_graph.specs.declared.saved.SavedLeg.{SavedLeg as LegOfFile};
ghost use Rattle.ch_hierarchy.specs.Placing.{from_of, to_of, ArePlaced, IsPushedWhereUp};
ghost use Rattle.ch_hierarchy.specs.Sorting.{IsEarlier};

use ch_graph::SavedLeg;
use std::alloc::{AllocError, Global};

/// The place of a leg in a list, with its lower and its higher node.
#[derive(Clone, Copy, Debug, PartialEq, Eq)]
pub(crate) struct Placed {
    pub(crate) lower: u32,
    pub(crate) higher: u32,
    pub(crate) place: usize,
}

/// The places of the legs that lead up, and of those that lead down.
#[derive(Drop)]
pub(crate) struct PlacedLegs {
    pub(crate) ups: Vec<Placed>,
    pub(crate) downs: Vec<Placed>,
}

/// Returns the places of these legs, in the order of the list. `levels` is by node.
pub(crate) fn place_legs(
    alloc: Global,
    levels: &[u32],
    legs: &[SavedLeg],
) -> Result<PlacedLegs, AllocError>
    requires { (l : LegOfFile) → Contains legs.now l → (l.from < length levels.now) × (l.to < length levels.now) }
    ensures up { IfOk result (λ p. ArePlaced from_of to_of levels.now legs.now p.ups.items × AllPairs IsEarlier p.ups.items) }
    ensures down { IfOk result (λ p. ArePlaced to_of from_of levels.now legs.now p.downs.items × AllPairs IsEarlier p.downs.items) }
{
    let mut ups = Vec::new(alloc);
    let mut downs = Vec::new(alloc);
    for (place, leg) in legs.iter().enumerate() {
        push_where_up(&mut ups, levels, leg.from, leg.to, place)?;
        push_where_up(&mut downs, levels, leg.to, leg.from, place)?;
    }
    Ok(PlacedLegs { ups, downs })
}

/// Appends the leg at this place if the second node is the higher one.
fn push_where_up(
    entries: &mut Vec<Placed>,
    levels: &[u32],
    lower: u32,
    higher: u32,
    place: usize,
) -> Result<(), AllocError>
    requires lower { lower < length levels.now }
    requires higher { higher < length levels.now }
    ensures { OnOk result (IsPushedWhereUp levels.now (record { lower = lower; higher = higher; place = place }) entries.old.items entries.new.items) }
{
    if levels[lower as usize] < levels[higher as usize] {
        entries.push(Placed {
            lower,
            higher,
            place,
        })?;
    }
    Ok(())
}

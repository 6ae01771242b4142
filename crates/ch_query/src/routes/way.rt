//! The legs of the route between two nodes, before they are unpacked.
ghost use Rattle.std.specs.Prelude.{◌≡◌, ◌<◌, [], IfOk, OnOk, Some};
ghost use Rattle.ch_hierarchy.specs.Hierarchy.{nodes_of};
ghost use Rattle.ch_hierarchy.specs.Paths.{IsMeet};
ghost use Rattle.ch_hierarchy.specs.declared.side.Side.TheVariants.{Up, Down};
ghost use Rattle.ch_query.specs.TwoSided.{IsPast};
ghost use Rattle.ch_query.specs.Meeting.{AreMeeting};
ghost use Rattle.ch_query.specs.Questions.{stalling};
ghost use Rattle.ch_query.specs.Distance.{IsKeptForSome};
ghost use Rattle.ch_query.specs.Ways.{AreLegsFound, AreLegsOver, IsFirstTry};

use super::descent::descend;
use super::query::clean;
use super::unique::{FirstTry, try_weights};
use super::unpacking::PendingLeg;
use crate::scratch::Scratch;
use crate::sides::Sides;
use crate::sides::meeting::meet;
use crate::sides::search::Search;
use ch_graph::Cost;
use ch_hierarchy::{Hierarchy, Side};
use std::alloc::{AllocError, Global};

/// Lists the legs of the route from `start` to `end`, from the last one to the first, and says whether there is a walk.
/// Without a walk there are no legs. The route is that of [`route`](crate::route), whose arcs these legs stand for.
///
/// The list is cleared first. After the search, steps grow with the number of legs, and memory with the number of arcs.
///
/// # Errors
/// `AllocError` if there is no memory for the legs, or for the two sides of a scratch that has none yet.
/// The scratch can still be used.
pub fn route_legs(
    alloc: Global,
    hierarchy: &Hierarchy,
    scratch: &mut Scratch,
    start: u32,
    end: u32,
    legs: &mut Vec<PendingLeg>,
) -> Result<bool, AllocError>
    requires kept { IsKeptForSome hierarchy.now }
    requires scratch { scratch.old ≡ nodes_of hierarchy.now }
    requires start { start < nodes_of hierarchy.now }
    requires end { end < nodes_of hierarchy.now }
    ensures legs { IfOk result (λ found. AreLegsFound hierarchy.now start end found legs.new.items) }
    ensures scratch { scratch.new ≡ scratch.old }
{
    match first_try(alloc, hierarchy, scratch, start, end, legs)? {
        FirstTry::NoWalk => Ok(false),
        FirstTry::Unique(_) => Ok(true),
        FirstTry::Tied => chosen_legs(alloc, hierarchy, scratch, start, end, legs),
    }
}

/// Lists the legs by a search by weights alone, if no other path has the least weight. Where most of these searches met ties
/// it does not search, and the answer is a tie.
///
/// # Errors
/// `AllocError` if there is no memory for the legs, or for the marks of a scratch that has none yet. The scratch can still
/// be used.
pub(super) fn first_try(
    alloc: Global,
    hierarchy: &Hierarchy,
    scratch: &mut Scratch,
    start: u32,
    end: u32,
    legs: &mut Vec<PendingLeg>,
) -> Result<FirstTry, AllocError>
    requires kept { IsKeptForSome hierarchy.now }
    requires scratch { scratch.old ≡ nodes_of hierarchy.now }
    requires start { start < nodes_of hierarchy.now }
    requires end { end < nodes_of hierarchy.now }
    ensures legs { IfOk result (λ first. IsFirstTry hierarchy.now start end first legs.new.items) }
    ensures scratch { scratch.new ≡ scratch.old }
{
    if !scratch.tries.is_due() {
        return Ok(FirstTry::Tied);
    }
    let mut marks = scratch.take_marks(alloc)?;
    let first = try_weights(
        hierarchy,
        &mut scratch.weights,
        marks.as_mut_slice(),
        start,
        end,
        legs,
    );
    scratch.put_marks(marks);
    let first = first?;
    scratch.tries.note(matches!(first, FirstTry::Tied));
    Ok(first)
}

/// Lists the legs, as [`route_legs`] does, by two searches by cost, which choose among paths of least weight.
fn chosen_legs(
    alloc: Global,
    hierarchy: &Hierarchy,
    scratch: &mut Scratch,
    start: u32,
    end: u32,
    legs: &mut Vec<PendingLeg>,
) -> Result<bool, AllocError>
    requires kept { IsKeptForSome hierarchy.now }
    requires scratch { scratch.old ≡ nodes_of hierarchy.now }
    requires start { start < nodes_of hierarchy.now }
    requires end { end < nodes_of hierarchy.now }
    ensures legs { IfOk result (λ found. AreLegsFound hierarchy.now start end found legs.new.items) }
    ensures scratch { scratch.new ≡ scratch.old }
{
    let mut sides = scratch.take_sides(alloc)?;
    let found = route_legs_in(hierarchy, &mut sides, start, end, legs);
    scratch.put_sides(sides);
    found
}

/// Lists the legs, as [`route_legs`] does, with these two sides.
fn route_legs_in(
    hierarchy: &Hierarchy,
    sides: &mut Sides,
    start: u32,
    end: u32,
    legs: &mut Vec<PendingLeg>,
) -> Result<bool, AllocError>
    requires kept { IsKeptForSome hierarchy.now }
    requires sides { sides.old ≡ nodes_of hierarchy.now }
    requires start { start < nodes_of hierarchy.now }
    requires end { end < nodes_of hierarchy.now }
    ensures legs { IfOk result (λ found. AreLegsFound hierarchy.now start end found legs.new.items) }
    ensures sides { sides.new ≡ sides.old }
{
    let Sides { up, down } = sides;
    legs.clear();
    let found = match meet(hierarchy, up, down, start, end) {
        Some(met) => match legs_over(hierarchy, up, down, start, end, met, legs) {
            Ok(()) => Ok(true),
            Err(refused) => Err(refused),
        },
        None => Ok(false),
    };
    clean(up, down);
    found
}

/// Lists the legs of the way over the node where the searches meet, in an empty list.
pub(crate) fn legs_over(
    hierarchy: &Hierarchy,
    up: &Search,
    down: &Search,
    start: u32,
    end: u32,
    met: (Cost, u32),
    legs: &mut Vec<PendingLeg>,
) -> Result<(), AllocError>
    requires kept { IsKeptForSome hierarchy.now }
    requires meeting { AreMeeting hierarchy.now (stalling Up start) (stalling Down end) up.now down.now (Some met) }
    requires past { IsPast up.now.queue (Some met) × IsPast down.now.queue (Some met) }
    requires meet { IsMeet hierarchy.now start end met.1 met.0 }
    requires empty { legs.old.items ≡ [] }
    ensures legs { OnOk result (AreLegsOver hierarchy.now start end met.0 legs.new) }
{
    let (cost, node) = met;
    legs.reserve(cost.arcs as usize)?;
    descend(hierarchy, down, Side::Down, end, node, legs);
    legs.reverse();
    descend(hierarchy, up, Side::Up, start, node, legs);
    Ok(())
}

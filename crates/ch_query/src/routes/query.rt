//! The route between two nodes.
ghost use Rattle.std.specs.Prelude.{◌≡◌, ◌^◌, ◌<◌, length, IfOk, MatchOption, Some, ⊤};
ghost use Rattle.ch_hierarchy.specs.Hierarchy.{nodes_of};
ghost use Rattle.ch_hierarchy.specs.Paths.{IsMeet, NeverMeets};
ghost use Rattle.ch_hierarchy.specs.declared.side.Side.TheVariants.{Up, Down};
ghost use Rattle.ch_query.specs.declared.routes.Route.{Route as FoundRoute};
ghost use Rattle.ch_query.specs.TwoSided.{IsPast};
ghost use Rattle.ch_query.specs.Underway.{IsRoom, IsClean};
ghost use Rattle.ch_query.specs.Meeting.{AreMeeting};
ghost use Rattle.ch_query.specs.Questions.{stalling};
ghost use Rattle.ch_query.specs.Distance.{IsKeptForSome};
ghost use Rattle.ch_query.specs.Routes.{IsRoute, IsRouteBy};
ghost use Rattle.ch_query.specs.Unpacking.{ArePending, pending_arcs};
ghost use Rattle.ch_query.specs.Ways.{IsRouteOf};

use super::Route;
use super::unique::FirstTry;
use super::unpacking::{PendingLeg, count_arcs, unpack};
use super::way::{first_try, legs_over};
use crate::scratch::Scratch;
use crate::sides::Sides;
use crate::sides::meeting::meet;
use crate::sides::search::Search;
use ch_graph::Cost;
use ch_hierarchy::Hierarchy;
use std::alloc::{AllocError, Global};

/// Returns the route from `start` to `end`, or `None` if there is no walk. The hierarchy is right for some
/// graph, and the scratch has room for its number of nodes.
///
/// It is a walk of least weight, and of these of the fewest arcs. A search by weights alone finds it if no other path of the
/// hierarchy has the least weight. Otherwise two searches go by weight and then by arcs, and the route leads over the node
/// where they meet. At each choice it takes the least numbered node.
///
/// Each shortcut is unpacked into the two legs of its middle (Geisberger, Sanders, Schultes and Delling
/// 2008). After the search, memory and steps grow with the number of its arcs, not with the number of
/// nodes.
///
/// # Errors
/// `AllocError` if there is no memory for the legs and the arcs, or for the marks or the two sides of a scratch that has none
/// yet. The scratch can still be used.
pub fn route(
    alloc: Global,
    hierarchy: &Hierarchy,
    scratch: &mut Scratch,
    start: u32,
    end: u32,
) -> Result<Option<Route>, AllocError>
    requires kept { IsKeptForSome hierarchy.now }
    requires scratch { scratch.old ≡ nodes_of hierarchy.now }
    requires start { start < nodes_of hierarchy.now }
    requires end { end < nodes_of hierarchy.now }
    ensures route { IfOk result (λ answer. MatchOption answer (NeverMeets hierarchy.now start end) (IsRoute hierarchy.now start end)) }
    ensures walk { IfOk result (IsRouteBy hierarchy.now start end) }
    ensures few { IfOk result (λ answer. MatchOption answer ⊤ (λ route. length route.arcs < nodes_of hierarchy.now)) }
    ensures scratch { scratch.new ≡ scratch.old }
{
    let mut legs = Vec::new(alloc);
    match first_try(alloc, hierarchy, scratch, start, end, &mut legs)? {
        FirstTry::NoWalk => Ok(None),
        FirstTry::Unique(weight) => route_of(alloc, hierarchy, weight, &mut legs),
        FirstTry::Tied => chosen_route(alloc, hierarchy, scratch, start, end),
    }
}

/// Returns the route of this weight that has these legs. Afterwards no leg is left.
fn route_of(
    alloc: Global,
    hierarchy: &Hierarchy,
    weight: u64,
    legs: &mut Vec<PendingLeg>,
) -> Result<Option<Route>, AllocError>
    requires kept { IsKeptForSome hierarchy.now }
    requires legs { ArePending hierarchy.now legs.old.items }
    requires few { pending_arcs legs.old.items < 2 ^ 32 }
    ensures { IfOk result (IsRouteOf hierarchy.now weight legs.old.items) }
{
    let count = count_arcs(legs);
    legs.reserve(count)?;
    let mut arcs = Vec::with_capacity(alloc, count)?;
    unpack(hierarchy, legs, &mut arcs);
    Ok(Some(Route { weight, arcs }))
}

/// Returns the route, as [`route`] does, by two searches by cost, which choose among paths of least weight.
fn chosen_route(
    alloc: Global,
    hierarchy: &Hierarchy,
    scratch: &mut Scratch,
    start: u32,
    end: u32,
) -> Result<Option<Route>, AllocError>
    requires kept { IsKeptForSome hierarchy.now }
    requires scratch { scratch.old ≡ nodes_of hierarchy.now }
    requires start { start < nodes_of hierarchy.now }
    requires end { end < nodes_of hierarchy.now }
    ensures route { IfOk result (λ answer. MatchOption answer (NeverMeets hierarchy.now start end) (IsRoute hierarchy.now start end)) }
    ensures walk { IfOk result (IsRouteBy hierarchy.now start end) }
    ensures few { IfOk result (λ answer. MatchOption answer ⊤ (λ route. length route.arcs < nodes_of hierarchy.now)) }
    ensures scratch { scratch.new ≡ scratch.old }
{
    let mut sides = scratch.take_sides(alloc)?;
    let answer = route_in(alloc, hierarchy, &mut sides, start, end);
    scratch.put_sides(sides);
    answer
}

/// Returns the route, as [`route`] does, with these two sides.
pub(crate) fn route_in(
    alloc: Global,
    hierarchy: &Hierarchy,
    sides: &mut Sides,
    start: u32,
    end: u32,
) -> Result<Option<Route>, AllocError>
    requires kept { IsKeptForSome hierarchy.now }
    requires sides { sides.old ≡ nodes_of hierarchy.now }
    requires start { start < nodes_of hierarchy.now }
    requires end { end < nodes_of hierarchy.now }
    ensures route { IfOk result (λ answer. MatchOption answer (NeverMeets hierarchy.now start end) (IsRoute hierarchy.now start end)) }
    ensures walk { IfOk result (IsRouteBy hierarchy.now start end) }
    ensures few { IfOk result (λ answer. MatchOption answer ⊤ (λ route. length route.arcs < nodes_of hierarchy.now)) }
    ensures sides { sides.new ≡ sides.old }
{
    let Sides { up, down } = sides;
    let answer = match meet(hierarchy, up, down, start, end) {
        Some(met) => route_over(alloc, hierarchy, up, down, start, end, met),
        None => Ok(None),
    };
    clean(up, down);
    answer
}

/// Leaves both sides clean for the next query.
pub(crate) fn clean(up: &mut Search, down: &mut Search)
    requires rooms { IsRoom up.old × IsRoom down.old }
    ensures up { IsClean (length up.old.labels.costs) up.new }
    ensures down { IsClean (length down.old.labels.costs) down.new }
{
    up.clean();
    down.clean();
}

/// Returns the route over the node where the searches meet.
pub(super) fn route_over(
    alloc: Global,
    hierarchy: &Hierarchy,
    up: &Search,
    down: &Search,
    start: u32,
    end: u32,
    met: (Cost, u32),
) -> Result<Option<Route>, AllocError>
    requires kept { IsKeptForSome hierarchy.now }
    requires meeting { AreMeeting hierarchy.now (stalling Up start) (stalling Down end) up.now down.now (Some met) }
    requires past { IsPast up.now.queue (Some met) × IsPast down.now.queue (Some met) }
    requires meet { IsMeet hierarchy.now start end met.1 met.0 }
    ensures route { IfOk result (λ answer. (route : FoundRoute) × (answer ≡ Some route) × IsRoute hierarchy.now start end route) }
{
    let mut pending = Vec::new(alloc);
    legs_over(hierarchy, up, down, start, end, met, &mut pending)?;
    let (cost, _) = met;
    let mut arcs = Vec::with_capacity(alloc, cost.arcs as usize)?;
    unpack(hierarchy, &mut pending, &mut arcs);
    Ok(Some(Route {
        weight: cost.weight,
        arcs,
    }))
}

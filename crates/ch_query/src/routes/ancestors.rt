//! The route between two nodes by their ancestors, where each leg of an ancestor leads to another one.
ghost use Rattle.std.specs.Prelude.{◌≡◌, ◌<◌, length, IfOk, MatchOption, ⊤};
ghost use Rattle.ch_hierarchy.specs.Hierarchy.{nodes_of};
ghost use Rattle.ch_hierarchy.specs.Paths.{NeverMeets};
ghost use Rattle.ch_hierarchy.specs.declared.side.Side.TheVariants.{Up, Down};
ghost use Rattle.ch_query.specs.Climbs.{AreAncestors};
ghost use Rattle.ch_query.specs.Distance.{IsKeptForSome};
ghost use Rattle.ch_query.specs.Routes.{IsRoute, IsRouteBy};

use super::Route;
use super::query::{clean, route_over};
use crate::scratch::Scratch;
use crate::sides::Sides;
use crate::sides::climbing::meet_by_ancestors;
use ch_hierarchy::Hierarchy;
use std::alloc::{AllocError, Global};

/// Returns the route from `start` to `end`, as [`route`](crate::route) does, without a queue (the elimination tree query of
/// Dibbelt, Strasser and Wagner 2016). `ups` has the ranks of the ancestors of `start`, and `downs` those of `end`, from the
/// node itself to the highest. Each leg of an ancestor leads to another one, as in a customized hierarchy.
///
/// It takes a step for each leg of each ancestor that is reached.
///
/// # Errors
/// `AllocError` if there is no memory for the arcs, or for the two sides of a scratch that has none yet.
/// The scratch can still be used.
pub fn route_by_ancestors(
    alloc: Global,
    hierarchy: &Hierarchy,
    scratch: &mut Scratch,
    start: u32,
    end: u32,
    ups: &[u32],
    downs: &[u32],
) -> Result<Option<Route>, AllocError>
    requires kept { IsKeptForSome hierarchy.now }
    requires scratch { scratch.old ≡ nodes_of hierarchy.now }
    requires start { start < nodes_of hierarchy.now }
    requires end { end < nodes_of hierarchy.now }
    requires ups { AreAncestors hierarchy.now Up start ups.now }
    requires downs { AreAncestors hierarchy.now Down end downs.now }
    ensures route { IfOk result (λ answer. MatchOption answer (NeverMeets hierarchy.now start end) (IsRoute hierarchy.now start end)) }
    ensures walk { IfOk result (IsRouteBy hierarchy.now start end) }
    ensures few { IfOk result (λ answer. MatchOption answer ⊤ (λ route. length route.arcs < nodes_of hierarchy.now)) }
    ensures scratch { scratch.new ≡ scratch.old }
{
    let mut sides = scratch.take_sides(alloc)?;
    let answer = route_in(alloc, hierarchy, &mut sides, start, end, ups, downs);
    scratch.put_sides(sides);
    answer
}

/// Returns the route, as [`route_by_ancestors`] does, with these two sides.
fn route_in(
    alloc: Global,
    hierarchy: &Hierarchy,
    sides: &mut Sides,
    start: u32,
    end: u32,
    ups: &[u32],
    downs: &[u32],
) -> Result<Option<Route>, AllocError>
    requires kept { IsKeptForSome hierarchy.now }
    requires sides { sides.old ≡ nodes_of hierarchy.now }
    requires start { start < nodes_of hierarchy.now }
    requires end { end < nodes_of hierarchy.now }
    requires ups { AreAncestors hierarchy.now Up start ups.now }
    requires downs { AreAncestors hierarchy.now Down end downs.now }
    ensures route { IfOk result (λ answer. MatchOption answer (NeverMeets hierarchy.now start end) (IsRoute hierarchy.now start end)) }
    ensures walk { IfOk result (IsRouteBy hierarchy.now start end) }
    ensures few { IfOk result (λ answer. MatchOption answer ⊤ (λ route. length route.arcs < nodes_of hierarchy.now)) }
    ensures sides { sides.new ≡ sides.old }
{
    let Sides { up, down } = sides;
    let answer = match meet_by_ancestors(hierarchy, up, down, start, end, ups, downs) {
        Some(met) => route_over(alloc, hierarchy, up, down, start, end, met),
        None => Ok(None),
    };
    clean(up, down);
    answer
}

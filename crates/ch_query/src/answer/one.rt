//! The answer to one query, with its route or without.
ghost use Rattle.std.specs.Prelude.{◌≡◌, ◌<◌, true, IfOk};
ghost use Rattle.ch_hierarchy.specs.Hierarchy.{nodes_of};
ghost use Rattle.ch_query.specs.Distance.{IsKeptForSome};
ghost use Rattle.ch_query.specs.Replies.{IsReply};

use super::Answer;
use crate::routes::query::route_in;
use crate::scratch::Scratch;
use crate::sides::Sides;
use crate::weights::distance;
use ch_hierarchy::Hierarchy;
use std::alloc::{AllocError, Global};

/// Returns the answer to one query. If `routes` is set, it has the arcs of the route.
///
/// # Errors
/// `AllocError` if there is no memory. The scratch can still be used.
pub fn answer_one(
    alloc: Global,
    hierarchy: &Hierarchy,
    scratch: &mut Scratch,
    query: (u32, u32),
    routes: bool,
) -> Result<Answer, AllocError>
    requires kept { IsKeptForSome hierarchy.now }
    requires scratch { scratch.old ≡ nodes_of hierarchy.now }
    requires query { (query.0 < nodes_of hierarchy.now) × (query.1 < nodes_of hierarchy.now) }
    ensures reply { IfOk result (IsReply hierarchy.now routes query) }
    ensures scratch { scratch.new ≡ scratch.old }
{
    if routes {
        let mut sides = scratch.take_sides(alloc)?;
        let answer = answer_with_route(alloc, hierarchy, &mut sides, query);
        scratch.put_sides(sides);
        return answer;
    }
    let (from, to) = query;
    let weight = distance(hierarchy, scratch, from, to);
    Ok(Answer {
        from,
        to,
        weight,
        arcs: None,
    })
}

/// Returns the answer to one query, with the arcs of its route, for callers that ask for routes alone. They need no
/// [`Scratch`], which also has room for distances.
///
/// # Errors
/// `AllocError` if there is no memory. The two sides can still be used.
pub fn answer_with_route(
    alloc: Global,
    hierarchy: &Hierarchy,
    sides: &mut Sides,
    query: (u32, u32),
) -> Result<Answer, AllocError>
    requires kept { IsKeptForSome hierarchy.now }
    requires sides { sides.old ≡ nodes_of hierarchy.now }
    requires query { (query.0 < nodes_of hierarchy.now) × (query.1 < nodes_of hierarchy.now) }
    ensures reply { IfOk result (IsReply hierarchy.now true query) }
    ensures sides { sides.new ≡ sides.old }
{
    let (from, to) = query;
    let (weight, arcs) = match route_in(alloc, hierarchy, sides, from, to)? {
        Some(route) => (Some(route.weight), Some(route.arcs)),
        None => (None, None),
    };
    Ok(Answer {
        from,
        to,
        weight,
        arcs,
    })
}

//! Distances, routes and search spaces, and answers to many queries.
ghost use Rattle.std.specs.Prelude.{◌≡◌, ◌<◌};
ghost use Rattle.ch_hierarchy.specs.Hierarchy.{nodes_of};
ghost use Rattle.ch_query.specs.Distance.{IsKeptForSome};

use crate::again::again;
use crate::crew::crew;
use crate::examples::{Files, RING, hierarchy};
use ch_hierarchy::{Hierarchy, Side};
use ch_query::{
    Answer, Scratch, Start, answer_all, answer_all_in, distance, ranked_spaces_alone, route, spread,
};
use ch_work::{MeetingGate, Open, Plan};
use std::alloc::{AllocError, Global};
use std::test::Fail;
use std::thread::Threads;

/// Three roads, open both ways. Nodes 1 and 2 are 10 apart on their own road, and 2 apart over node 3. The
/// nodes are contracted in order without a shortcut, so each leg is a road.
const STALLING: Files = (
    b"p sp 3 6\na 1 2 10\na 2 1 10\na 1 3 1\na 3 1 1\na 2 3 1\na 3 2 1\n",
    b"p ch 3 6\no 1\no 2\no 3\nl 1 2 10 1 0\nl 2 1 10 1 0\nl 1 3 1 1 0\nl 3 1 1 1 0\n\
      l 2 3 1 1 0\nl 3 2 1 1 0\n",
);

/// Returns the number of entries of the search space of an end of the long road.
fn entries(
    alloc: Global,
    roads: &Hierarchy,
    scratch: &mut Scratch,
    side: Side,
) -> Result<u64, AllocError>
    requires kept { IsKeptForSome roads.now }
    requires nodes { nodes_of roads.now ≡ 3 }
    requires scratch { scratch.old ≡ 3 }
    ensures { scratch.new ≡ 3 }
{
    let spaces = ranked_spaces_alone(alloc, roads, scratch, &[0], side, None)?;
    match spaces.first() {
        Some(space) => Ok(space.len() as u64),
        None => Ok(0),
    }
}

/// Returns the weight of the route from one end of the long road to the other. Then come the numbers of entries
/// of the spread of an end, of its search space, and of its search space on the other side.
fn asked(alloc: Global, roads: &Hierarchy, scratch: &mut Scratch) -> Result<[u64; 4], AllocError>
    requires kept { IsKeptForSome roads.now }
    requires nodes { nodes_of roads.now ≡ 3 }
    requires scratch { scratch.old ≡ 3 }
    ensures { scratch.new ≡ 3 }
{
    let _ = distance(roads, scratch, 0, 1);
    let weight = match route(alloc, roads, scratch, 0, 1)? {
        Some(way) => way.weight,
        None => 0,
    };
    let start = Start {
        source: 0,
        side: Side::Up,
        within: None,
    };
    let reached = spread(alloc, roads, scratch, start)?;
    let up = entries(alloc, roads, scratch, Side::Up)?;
    let down = entries(alloc, roads, scratch, Side::Down)?;
    Ok([weight, reached.len() as u64, up, down])
}

/// Returns the same as [`asked`]. If a call is refused memory, all calls are made a second time. They use the
/// scratch that the refused call left.
fn asked_again(alloc: Global, roads: &Hierarchy) -> Result<[u64; 4], AllocError>
    requires kept { IsKeptForSome roads.now }
    requires nodes { nodes_of roads.now ≡ 3 }
{
    let mut scratch = Scratch::new(alloc, 3)?;
    match asked(alloc, roads, &mut scratch) {
        Ok(found) => Ok(found),
        Err(AllocError) => asked(alloc, roads, &mut scratch),
    }
}

/// A node has no entry in a search space if a higher node shows a lighter way to it. In a spread it has an
/// entry.
///
/// It holds if any one request for memory is refused. The call that is refused answers that memory ran out.
/// Made again with what it was lent, it answers as with enough memory.
#[test]
fn refused_in_turn(rt: HostRuntime) -> Result<(), Fail> {
    let alloc = rt.alloc();
    let roads = hierarchy(&rt, alloc, STALLING)?;
    assert!(rt; roads.nodes() == 3);
    assert_eq!(rt; again!(asked_again(alloc, &roads)), [2, 3, 2, 2]);
    Ok(())
}

/// Returns the answers to two queries on the ring. It asks three times. The last call uses the scratches that the
/// second call left.
fn answered<R: Threads + Sync>(
    rt: &R,
    alloc: Global,
    ring: &Hierarchy,
    workers: u32,
    routes: bool,
) -> Result<Vec<Answer>, AllocError>
    requires kept { IsKeptForSome ring.now }
    requires nodes { nodes_of ring.now ≡ 5 }
    requires workers { (0 < workers) × (workers < 65) }
{
    let plan = Plan::new(workers, 1, 64);
    let crew = crew(rt, alloc, &plan, &Open);
    let queries = [(4, 3), (2, 1)];
    let mut scratches = Vec::new(alloc);
    let _ = answer_all(&crew, ring, &queries, routes)?;
    let _ = answer_all_in(&crew, ring, &mut scratches, &queries, routes)?;
    answer_all_in(&crew, ring, &mut scratches, &queries, routes)
}

/// One worker answers the queries, or two workers share them. The last call uses scratches that are kept. It
/// holds if any one request for memory is refused.
#[test]
fn answered_refused_in_turn(rt: HostRuntime) -> Result<(), Fail> {
    let alloc = rt.alloc();
    let ring = hierarchy(&rt, alloc, RING)?;
    assert!(rt; ring.nodes() == 5);
    for (workers, routes) in [(1, true), (2, false), (2, true)] {
        let answers = again!(answered(&rt, alloc, &ring, workers, routes));
        assert_eq!(rt; answers.len(), 2);
        for answer in answers.iter() {
            assert_eq!(rt; answer.weight, Some(4));
            assert_eq!(rt; answer.arcs.is_some(), routes);
        }
    }
    Ok(())
}

#[test]
fn two_queries_are_answered_at_once(rt: HostRuntime) -> Result<(), Fail> {
    let ring = hierarchy(&rt, rt.alloc(), RING)?;
    assert!(rt; ring.nodes() == 5);
    let gate = MeetingGate::new();
    let crew = crew(&rt, rt.alloc(), &Plan::new(2, 1, 64), &gate);
    answer_all(&crew, &ring, &[(4, 3), (2, 1)], true)?;
    assert!(rt; gate.has_met());
    Ok(())
}

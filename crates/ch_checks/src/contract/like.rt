//! Hierarchies in an order like a given one.
use super::HOPS;
use crate::again::{again, again_after};
use crate::crew::crew;
use crate::examples::RING_ARCS;
use ch_contract::Percent;
use ch_graph::Graph;
use ch_hierarchy::Hierarchy;
use ch_order::{LikeError, OrderError, build_like, build_like_quickly};
use ch_read::{ReadError, read_graph};
use ch_text::save_text;
use ch_work::{Open, Plan};
use std::alloc::{AllocError, Global};
use std::process::Abort;
use std::test::Fail;
use std::thread::Threads;

/// An order of the nodes of the ring.
const GIVEN: [u32; 5] = [4, 1, 3, 0, 2];

/// No node afresh.
const NONE: Percent = Percent { number: 0 };

/// Builds the hierarchy of a graph in an order like a given one, or the one that takes less time.
fn build<R: Threads + Sync>(
    rt: &R,
    alloc: Global,
    graph: &Graph,
    given: &[u32],
    fresh: Percent,
    quickly: bool,
) -> Result<Hierarchy, LikeError> {
    let plan = Plan::new(2, 1, 1);
    let crew = crew(rt, alloc, &plan, &Open);
    if !quickly {
        return build_like(&crew, graph, given, fresh, HOPS);
    }
    match build_like_quickly(&crew, graph, given, fresh, HOPS) {
        Ok(hierarchy) => Ok(hierarchy),
        Err(OrderError::Order) => Err(LikeError::Order),
        Err(OrderError::NoMemory) => Err(LikeError::NoMemory),
    }
}

/// Builds the hierarchy of the ring, and expects this text. Each call that is refused memory is made a second time.
fn expect<R: Threads + Abort + Sync>(
    rt: &R,
    alloc: Global,
    fresh: Percent,
    quickly: bool,
    text: &[u8],
) -> Result<(), Fail> {
    let ring = again_after!(ReadError::NoMemory, read_graph(alloc, RING_ARCS));
    let hierarchy = again_after!(
        LikeError::NoMemory,
        build(rt, alloc, &ring, &GIVEN, fresh, quickly)
    );
    let written = again!(save_text(alloc, &hierarchy));
    assert_eq!(rt;
        written.as_slice(),
        text,
        "{} per cent afresh",
        fresh.number
    );
    Ok(())
}

/// The ring in the given order.
const AS_GIVEN: &[u8] =
    b"p ch 5 8\no 5\no 2\no 4\no 1\no 3\nl 5 1 1 1 0\nl 4 5 1 1 0\nl 2 3 1 1 0\nl 1 2 1 1 0\n\
      l 4 1 2 2 5\nl 3 4 1 1 0\nl 1 3 2 2 2\nl 3 1 3 3 4\n";

/// The ring with two given nodes, and the others by depth. With no given node it is the same by chains: the nodes are looked at in
/// the given order, and no neighbour of a contracted node is contracted in the same round.
const BEGUN_AS_GIVEN: &[u8] =
    b"p ch 5 8\no 5\no 2\no 1\no 3\no 4\nl 5 1 1 1 0\nl 4 5 1 1 0\nl 2 3 1 1 0\nl 1 2 1 1 0\n\
      l 1 3 2 2 2\nl 4 1 2 2 5\nl 3 4 1 1 0\nl 4 3 4 4 1\n";

/// It holds if any one request for memory is refused. With no node afresh both hierarchies have the given order.
#[test]
fn built_like_refused_in_turn(rt: HostRuntime) -> Result<(), Fail> {
    expect(&rt, rt.alloc(), NONE, false, AS_GIVEN)?;
    expect(&rt, rt.alloc(), NONE, true, AS_GIVEN)?;
    expect(
        &rt,
        rt.alloc(),
        Percent { number: 60 },
        false,
        BEGUN_AS_GIVEN,
    )?;
    expect(
        &rt,
        rt.alloc(),
        Percent { number: 100 },
        true,
        BEGUN_AS_GIVEN,
    )
}

/// A list that lacks a node is refused as an order, with enough memory or without.
#[test]
fn other_lists_refused_as_orders(rt: HostRuntime) -> Result<(), Fail> {
    let ring = read_graph(rt.alloc(), RING_ARCS)?;
    for quickly in [false, true] {
        let refused = build(&rt, rt.alloc(), &ring, &GIVEN[1..], NONE, quickly);
        assert_eq!(rt; refused.err(), Some(LikeError::Order));
    }
    Ok(())
}

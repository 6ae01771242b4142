//! Hierarchies that are built. The tests compare their texts, as `chtab save` writes them.

mod like;
mod remaining;
mod workers;

use crate::again::{again, again_after};
use crate::crew::crew;
use crate::examples::{Files, RING, RING_ARCS, STAR};
use ch_contract::{Hierarchy, HopBound, OrderBy};
use ch_graph::Graph;
use ch_order::{build_in_turn, build_quickly};
use ch_read::{ReadError, read_graph};
use ch_text::save_text;
use ch_work::{Crew, Gate, Open, Plan};
use std::alloc::{AllocError, Global};
use std::process::Abort;
use std::test::Fail;
use std::thread::Threads;

/// The bound on the legs of a witness.
const HOPS: HopBound = HopBound { number: 5 };

/// How a test builds a hierarchy.
#[derive(Clone, Copy)]
enum Builder {
    /// In a named order.
    By(OrderBy),
    /// In the order that takes the least time to find.
    Quickly,
}

/// Builds the hierarchy of a graph.
fn build<R: Threads + Sync, G: Gate>(
    crew: &Crew<'_, R, G>,
    graph: &Graph,
    hops: HopBound,
    how: Builder,
) -> Result<Hierarchy, AllocError> {
    match how {
        Builder::By(order) => build_in_turn(crew, graph, hops, order),
        Builder::Quickly => build_quickly(crew, graph, hops),
    }
}

/// Builds the hierarchy of a graph, and returns its text. Each call that is refused memory is made a second
/// time.
fn built<R: Threads + Sync>(
    rt: &R,
    alloc: Global,
    graph: &Graph,
    hops: HopBound,
    how: Builder,
    plan: &Plan,
) -> Result<Vec<u8>, AllocError> {
    let hierarchy = again!(build(&crew(rt, alloc, plan, &Open), graph, hops, how));
    Ok(again!(save_text(alloc, &hierarchy)))
}

/// Builds the hierarchy of the graph with several numbers of workers and sizes of pieces. Expects the same
/// text with each plan.
fn expect<R: Threads + Abort + Sync>(
    rt: &R,
    alloc: Global,
    hops: HopBound,
    how: Builder,
    files: Files,
) -> Result<(), Fail> {
    let graph = again_after!(ReadError::NoMemory, read_graph(alloc, files.0));
    for (workers, piece) in [(1, 1), (2, 1), (2, 64), (3, 1), (4, 1), (64, 1)] {
        let plan = Plan::new(workers, piece, 1);
        let text = built(rt, alloc, &graph, hops, how, &plan)?;
        assert_eq!(rt;
            text.as_slice(),
            files.1,
            "{workers} workers, pieces of {piece}"
        );
    }
    Ok(())
}

/// The ring, and its hierarchy after each node was contracted as one of a chain, worked by hand.
const RING_QUICKLY: Files = (
    RING_ARCS,
    b"p ch 5 8\no 1\no 3\no 2\no 4\no 5\nl 1 2 1 1 0\nl 5 1 1 1 0\nl 3 4 1 1 0\nl 2 3 1 1 0\n\
      l 2 4 2 2 3\nl 5 2 2 2 1\nl 4 5 1 1 0\nl 5 4 4 4 2\n",
);

/// It holds if any one request for memory is refused. A call that is made again builds the same as with
/// enough memory.
#[test]
fn built_refused_in_turn(rt: HostRuntime) -> Result<(), Fail> {
    expect(
        &rt,
        rt.alloc(),
        HOPS,
        Builder::By(OrderBy::Difference),
        STAR,
    )?;
    expect(
        &rt,
        rt.alloc(),
        HOPS,
        Builder::By(OrderBy::Difference),
        RING,
    )?;
    expect(&rt, rt.alloc(), HOPS, Builder::Quickly, RING_QUICKLY)
}

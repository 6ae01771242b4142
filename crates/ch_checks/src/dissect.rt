//! Nested dissection orders, and customization in them by workers.
ghost use Rattle.std.specs.Prelude.{◌≤◌};
ghost use Rattle.ch_work.specs.declared.limits.TheConstants.{MOST_WORKERS};

use crate::again::{again, again_after};
use crate::crew::crew;
use ch_custom::{customize_by, topology_of};
use ch_dissect::dissect;
use ch_graph::{Graph, InArc};
use ch_read::{ReadError, read_graph};
use ch_text::save_text;
use ch_work::{Open, Plan};
use std::alloc::{AllocError, Global};
use std::test::Fail;
use std::thread::Threads;

/// A path of five nodes.
const PATH: &[u8] = b"p sp 5 4\na 1 2 1\na 2 3 1\na 3 4 1\na 4 5 1\n";

/// A star, of which node 1 is the middle, with a loop and with arcs both ways.
const STAR: &[u8] = b"p sp 5 6\na 1 1 1\na 1 2 1\na 2 1 1\na 3 1 1\na 1 4 1\na 5 1 1\n";

/// A grid of three by three nodes.
const GRID: &[u8] =
    b"p sp 9 12\na 1 2 1\na 1 4 1\na 2 3 1\na 2 5 1\na 3 6 1\na 4 5 1\na 4 7 1\na 5 6 1\na 5 8 1\na 6 9 1\na 7 8 1\n\
      a 8 9 1\n";

/// Two grids of four by four nodes, with a road from the last node of the first to the first of the second.
const BRIDGE: &[u8] =
    b"p sp 32 49\na 1 2 1\na 1 5 1\na 2 3 1\na 2 6 1\na 3 4 1\na 3 7 1\na 4 8 1\na 5 6 1\na 5 9 1\na 6 7 1\na 6 10 1\n\
      a 7 8 1\na 7 11 1\na 8 12 1\na 9 10 1\na 9 13 1\na 10 11 1\na 10 14 1\na 11 12 1\na 11 15 1\na 12 16 1\n\
      a 13 14 1\na 14 15 1\na 15 16 1\na 16 17 1\na 17 18 1\na 17 21 1\na 18 19 1\na 18 22 1\na 19 20 1\na 19 23 1\n\
      a 20 24 1\na 21 22 1\na 21 25 1\na 22 23 1\na 22 26 1\na 23 24 1\na 23 27 1\na 24 28 1\na 25 26 1\na 25 29 1\n\
      a 26 27 1\na 26 30 1\na 27 28 1\na 27 31 1\na 28 32 1\na 29 30 1\na 30 31 1\na 31 32 1\n";

/// The orders of small graphs, worked by hand. Every other node of the path comes first, the middle of the star comes last, and
/// the corners of the grid come before the other nodes, of which each time the first has the fewest neighbours.
const CASES: [(&[u8], &[u32]); 3] = [
    (PATH, &[0, 2, 4, 1, 3]),
    (STAR, &[1, 2, 3, 4, 0]),
    (GRID, &[0, 2, 6, 8, 1, 3, 4, 5, 7]),
];

/// Returns the order that so many workers find.
fn dissected<R: Threads + Sync>(
    rt: &R,
    alloc: Global,
    workers: u32,
    graph: &Graph,
) -> Result<Vec<u32>, AllocError>
    requires { (1 ≤ workers) × (workers ≤ MOST_WORKERS) }
{
    let plan = Plan::new(workers, 1, 1);
    dissect(&crew(rt, alloc, &plan, &Open), graph)
}

/// It holds if any one request for memory is refused. A call that is refused is made again with the same graph.
#[test]
fn dissected_refused_in_turn(rt: HostRuntime) -> Result<(), Fail> {
    for (file, order) in CASES {
        let graph = again_after!(ReadError::NoMemory, read_graph(rt.alloc(), file));
        let found = again!(dissected(&rt, rt.alloc(), 2, &graph));
        assert_eq!(rt; found.as_slice(), order);
    }
    Ok(())
}

/// One end of the bridge separates both grids, so it comes last. It holds if any one request for memory is refused.
#[test]
fn bridge_comes_last_refused_in_turn(rt: HostRuntime) -> Result<(), Fail> {
    let graph = again_after!(ReadError::NoMemory, read_graph(rt.alloc(), BRIDGE));
    let order = again!(dissected(&rt, rt.alloc(), 1, &graph));
    let last = order.last().copied();
    assert!(rt; last == Some(15) || last == Some(16));
    Ok(())
}

/// Returns the arcs of a grid with so many nodes on each side.
fn grid_arcs(alloc: Global, side: u32) -> Result<Vec<InArc>, AllocError> {
    let mut arcs = Vec::new(alloc);
    let nodes = side.saturating_mul(side);
    for from in 0..nodes {
        let below = from.saturating_add(side);
        if below < nodes {
            arcs.push(arc(from, below))?;
        }
        let right = from.saturating_add(1);
        if right < nodes && side != 0 && right % side != 0 {
            arcs.push(arc(from, right))?;
        }
    }
    Ok(arcs)
}

/// Returns an arc that weighs 1.
fn arc(from: u32, to: u32) -> InArc {
    InArc {
        from,
        to,
        weight: 1,
    }
}

/// A grid has enough nodes to be shared. The number of workers changes nothing.
#[test]
fn workers_find_one_order(rt: HostRuntime) -> Result<(), Fail> {
    let arcs = grid_arcs(rt.alloc(), 65)?;
    let Ok(grid) = Graph::new(4225, arcs) else {
        return Err(Fail::from(AllocError));
    };
    let alone = dissected(&rt, rt.alloc(), 1, &grid)?;
    let shared = dissected(&rt, rt.alloc(), 3, &grid)?;
    assert_eq!(rt; alone.len(), 4225);
    assert!(rt; shared.as_slice() == alone.as_slice());
    Ok(())
}

/// Returns the text of the hierarchy that so many workers customize in this order.
fn customized<R: Threads + Sync>(
    rt: &R,
    alloc: Global,
    workers: u32,
    graph: &Graph,
    order: &[u32],
) -> Result<Vec<u8>, AllocError>
    requires { (1 ≤ workers) × (workers ≤ MOST_WORKERS) }
{
    let plan = Plan::new(workers, 1, 1);
    match topology_of(alloc, graph, order, u64::MAX) {
        Ok(topology) => {
            let crew = crew(rt, alloc, &plan, &Open);
            let hierarchy = customize_by(&crew, &topology, graph)?;
            save_text(alloc, &hierarchy)
        }
        Err(_) => Err(AllocError),
    }
}

/// A grid has enough nodes to be shared. The number of workers changes nothing.
#[test]
fn workers_customize_one_hierarchy(rt: HostRuntime) -> Result<(), Fail> {
    let alloc = rt.alloc();
    let Ok(grid) = Graph::new(4225, grid_arcs(alloc, 65)?) else {
        return Err(Fail::from(AllocError));
    };
    let order = dissected(&rt, alloc, 1, &grid)?;
    let alone = customized(&rt, alloc, 1, &grid, order.as_slice())?;
    for workers in [2, 3, 9] {
        let shared = customized(&rt, alloc, workers, &grid, order.as_slice())?;
        assert!(rt; shared.as_slice() == alone.as_slice());
    }
    Ok(())
}

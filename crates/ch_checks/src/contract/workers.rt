//! How workers share the work of building: the pieces that pass the gate, and two pieces at once.
use super::HOPS;
use crate::crew::crew;
use crate::examples::STAR;
use ch_contract::OrderBy;
use ch_order::build_in_turn;
use ch_read::read_graph;
use ch_work::{CountingGate, MeetingGate, Plan};
use std::alloc::Global;
use std::process::Abort;
use std::test::Fail;
use std::thread::Threads;

/// Builds the hierarchy of the star. Expects how often each of the first four pieces passes the gate.
fn expect_passes<R: Threads + Abort + Sync>(
    rt: &R,
    alloc: Global,
    plan: &Plan,
    expected: [u64; 4],
) -> Result<(), Fail> {
    let graph = read_graph(alloc, STAR.0)?;
    let gate = CountingGate::new(alloc, 4)?;
    build_in_turn(
        &crew(rt, alloc, plan, &gate),
        &graph,
        HOPS,
        OrderBy::Difference,
    )?;
    for (piece, count) in expected.iter().enumerate() {
        assert_eq!(rt; gate.passes(piece as u32), Some(*count), "piece {piece}");
    }
    Ok(())
}

/// The nodes of a star of four nodes have one neighbour, two, one and none when they are contracted.
#[test]
fn neighbours_are_shared_where_they_are_many(rt: HostRuntime) -> Result<(), Fail> {
    for workers in [1, 2, 64] {
        for (wide, expected) in [(1, [4, 2, 1, 1]), (2, [2, 2, 1, 1]), (3, [1, 1, 1, 1])] {
            let plan = Plan::new(workers, 1, wide);
            expect_passes(&rt, rt.alloc(), &plan, expected)?;
        }
    }
    Ok(())
}

#[test]
fn two_pieces_at_once(rt: HostRuntime) -> Result<(), Fail> {
    let graph = read_graph(rt.alloc(), STAR.0)?;
    let gate = MeetingGate::new();
    let plan = Plan::new(2, 1, 64);
    build_in_turn(
        &crew(&rt, rt.alloc(), &plan, &gate),
        &graph,
        HOPS,
        OrderBy::Difference,
    )?;
    assert!(rt; gate.has_met());
    Ok(())
}

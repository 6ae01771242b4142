//! Workers: two pieces of a run are under way at once, and each layer passes the gate with its pieces.

use crate::runs::{ACROSS, BY_HIERARCHY, LINE, LINE_SAVED, PLAIN, SOURCES, STAR, TARGETS};
use ch_run::{Crew, MemoryInput, MemoryOutput, Options, Plan, Source, run_dist, run_table};
use ch_work::{CountingGate, MeetingGate};
use std::alloc::Global;
use std::process::Abort;
use std::test::Fail;
use std::thread::Threads;

/// The greatest number of bytes that a device of a run moves in one call.
const MOST: usize = 4096;

/// Makes a crew of two workers that share pieces of one item and pass this gate.
fn crew<'a, R, G>(rt: &'a R, alloc: Global, gate: &'a G) -> Crew<'a, R, G> {
    Crew {
        rt,
        alloc,
        plan: Plan::new(2, 1, 64),
        gate,
    }
}

/// The check of the saved hierarchy passes the gate too, with a piece for each node. So the two pieces that
/// meet may be pieces of the check.
#[test]
fn two_queries_are_answered_at_once(rt: HostRuntime) -> Result<(), Fail> {
    let gate = MeetingGate::new();
    let mut output = MemoryOutput::new(rt.alloc(), MOST, MOST)?;
    let result = run_dist(
        &crew(&rt, rt.alloc(), &gate),
        &mut MemoryInput::new(LINE, MOST),
        &mut Source::Saved(MemoryInput::new(LINE_SAVED, MOST)),
        &mut MemoryInput::new(b"p aux sp p2p 2\nq 1 3\nq 3 1\n", MOST),
        &mut output,
        &BY_HIERARCHY,
    );
    assert_eq!(rt; result, Ok(()));
    assert!(rt; gate.has_met());
    Ok(())
}

#[test]
fn two_nodes_of_a_table_are_searched_at_once(rt: HostRuntime) -> Result<(), Fail> {
    let gate = MeetingGate::new();
    let mut output = MemoryOutput::new(rt.alloc(), MOST, MOST)?;
    let result = run_table(
        &crew(&rt, rt.alloc(), &gate),
        &mut MemoryInput::new(LINE, MOST),
        &mut Source::Saved(MemoryInput::new(LINE_SAVED, MOST)),
        &mut MemoryInput::new(SOURCES, MOST),
        &mut MemoryInput::new(TARGETS, MOST),
        &mut output,
        &BY_HIERARCHY,
    );
    assert_eq!(rt; result, Ok(()));
    assert!(rt; gate.has_met());
    Ok(())
}

/// Expects how often each of the first five pieces passes the gate in a run. The run has two workers and
/// pieces of one item, and answers the query from 3 to 4 on the star.
fn expect_passes<R: Threads + Abort + Sync>(
    rt: &R,
    alloc: Global,
    options: &Options,
    expected: [u64; 5],
) -> Result<(), Fail> {
    let gate = CountingGate::new(alloc, 5)?;
    let mut output = MemoryOutput::new(alloc, MOST, MOST)?;
    let result = run_dist(
        &crew(rt, alloc, &gate),
        &mut MemoryInput::new(STAR, MOST),
        &mut Source::<MemoryInput>::Built,
        &mut MemoryInput::new(ACROSS, MOST),
        &mut output,
        options,
    );
    assert_eq!(rt; result, Ok(()));
    for (piece, count) in expected.iter().enumerate() {
        let passes = gate.passes(piece as u32);
        assert_eq!(rt; passes, Some(*count), "piece {piece}");
    }
    Ok(())
}

/// A run with routes has four pieces for priorities and one for the query. Without routes the star is contracted as chains,
/// and no node gets a priority. A plain run has no pieces.
#[test]
fn a_run_goes_by_the_pieces_of_its_layers(rt: HostRuntime) -> Result<(), Fail> {
    let with_routes = Options {
        routes: true,
        ..BY_HIERARCHY
    };
    expect_passes(&rt, rt.alloc(), &with_routes, [2, 1, 1, 1, 0])?;
    expect_passes(&rt, rt.alloc(), &BY_HIERARCHY, [1, 0, 0, 0, 0])?;
    expect_passes(&rt, rt.alloc(), &PLAIN, [0; 5])
}

//! Tables and buckets.
ghost use Rattle.std.specs.Prelude.{◌≡◌, ◌<◌};
ghost use Rattle.ch_hierarchy.specs.Hierarchy.{nodes_of};
ghost use Rattle.ch_query.specs.Distance.{IsKeptForSome};

use crate::again::again;
use crate::crew::crew;
use crate::examples::{Files, LINE, RING, hierarchy};
use ch_hierarchy::Hierarchy;
use ch_rows::{Buckets, Table, table};
use ch_work::{CountingGate, Gate, MeetingGate, Open, Plan};
use std::alloc::{AllocError, Global};
use std::process::Abort;
use std::test::Fail;
use std::thread::Threads;

/// Makes the table of three sources and two targets: the first node twice and the last, to the last two.
fn make<R: Threads + Sync, G: Gate>(
    rt: &R,
    alloc: Global,
    network: &Hierarchy,
    plan: &Plan,
    gate: &G,
) -> Result<Table, AllocError>
    requires kept { IsKeptForSome network.now }
    requires nodes { 1 < nodes_of network.now }
{
    let crew = crew(rt, alloc, plan, gate);
    let last = network.nodes() - 1;
    table(&crew, network, &[0, 0, last], &[last, last - 1], None)
}

/// Makes the table with `workers` workers, and expects how often each piece passes the gate. Each target,
/// each source and each node is a piece of its own.
fn expect_passes<R: Threads + Abort + Sync>(
    rt: &R,
    alloc: Global,
    files: Files,
    workers: u32,
    passes: [u64; 4],
) -> Result<(), Fail>
    requires { (0 < workers) × (workers < 65) }
{
    let network = hierarchy(rt, alloc, files)?;
    assert!(rt; network.nodes() > 1);
    let gate = CountingGate::new(alloc, 4)?;
    make(rt, alloc, &network, &Plan::new(workers, 1, 64), &gate)?;
    for (piece, expected) in passes.iter().enumerate() {
        assert_eq!(rt; gate.passes(piece as u32), Some(*expected), "piece {piece}");
    }
    Ok(())
}

/// Workers share the targets, the sources, and then the nodes. One worker makes rows, and leaves the nodes out.
#[test]
fn gates_passed(rt: HostRuntime) -> Result<(), Fail> {
    let alloc = rt.alloc();
    expect_passes(&rt, alloc, LINE, 2, [3, 3, 2, 0])?;
    expect_passes(&rt, alloc, RING, 1, [2, 2, 1, 0])?;
    expect_passes(&rt, alloc, RING, 3, [3, 3, 2, 1])?;
    expect_passes(&rt, alloc, RING, 4, [3, 3, 2, 1])
}

/// Fills buckets up and buckets down the ring. Returns the number of entries of one of each.
fn filled(alloc: Global, ring: &Hierarchy) -> Result<(usize, usize), AllocError>
    requires kept { IsKeptForSome ring.now }
    requires nodes { nodes_of ring.now ≡ 5 }
{
    let up = Buckets::fill_up(alloc, ring, &[0], Some(3))?;
    let down = Buckets::fill(alloc, ring, &[3, 4], None)?;
    Ok((up.at(3).len(), down.at(4).len()))
}

/// Expects the buckets of three targets on the ring, of which the first two are the same node. Only the targets and the
/// last node are reached by going down.
fn expect_buckets<R: Abort>(rt: &R, alloc: Global, ring: &Hierarchy) -> Result<(), AllocError>
    requires kept { IsKeptForSome ring.now }
    requires nodes { nodes_of ring.now ≡ 5 }
{
    let buckets = Buckets::fill(alloc, ring, &[3, 3, 4], None)?;
    assert_eq!(rt; buckets.at(3), [(0, 0), (1, 0)].as_slice());
    assert_eq!(rt; buckets.at(4), [(0, 4), (1, 4), (2, 0)].as_slice());
    for node in 0..3 {
        assert!(rt; buckets.at(node).is_empty());
    }
    Ok(())
}

/// Expects the buckets of both sides of a line of three nodes: those of the sources that reach a node by going up, and
/// of the targets that it reaches by going down.
fn expect_both<R: Abort>(rt: &R, alloc: Global, line: &Hierarchy) -> Result<(), AllocError>
    requires kept { IsKeptForSome line.now }
    requires nodes { nodes_of line.now ≡ 3 }
{
    let up = Buckets::fill_up(alloc, line, &[0, 0, 2], None)?;
    let down = Buckets::fill(alloc, line, &[2, 1], None)?;
    assert_eq!(rt; up.at(0), [(0, 0), (1, 0)].as_slice());
    assert!(rt; down.at(0).is_empty());
    assert_eq!(rt; up.at(1), [(0, 4), (1, 4)].as_slice());
    assert_eq!(rt; down.at(1), [(1, 0)].as_slice());
    assert_eq!(rt; up.at(2), [(0, 9), (1, 9), (2, 0)].as_slice());
    assert_eq!(rt; down.at(2), [(0, 0)].as_slice());
    Ok(())
}

#[test]
fn buckets_have_each_place_with_its_weight(rt: HostRuntime) -> Result<(), Fail> {
    let alloc = rt.alloc();
    let ring = hierarchy(&rt, alloc, RING)?;
    assert!(rt; ring.nodes() == 5);
    expect_buckets(&rt, alloc, &ring)?;
    let line = hierarchy(&rt, alloc, LINE)?;
    assert!(rt; line.nodes() == 3);
    expect_both(&rt, alloc, &line)?;
    Ok(())
}

/// Makes the table with `workers` workers, and expects its last row.
fn expect<R: Threads + Abort + Sync>(
    rt: &R,
    alloc: Global,
    ring: &Hierarchy,
    workers: u32,
) -> Result<(), AllocError>
    requires kept { IsKeptForSome ring.now }
    requires nodes { nodes_of ring.now ≡ 5 }
    requires workers { (0 < workers) × (workers < 65) }
{
    let table = make(rt, alloc, ring, &Plan::new(workers, 1, 1), &Open)?;
    assert!(rt; table.row_count() == 3);
    assert_eq!(rt; table.row(2), [Some(0), Some(4)].as_slice());
    Ok(())
}

/// It holds if any one request for memory is refused. The call that is refused answers `AllocError`. Made
/// again, it answers as with enough memory.
#[test]
fn refused_in_turn(rt: HostRuntime) -> Result<(), Fail> {
    let alloc = rt.alloc();
    let ring = hierarchy(&rt, alloc, RING)?;
    assert!(rt; ring.nodes() == 5);
    for workers in [1, 2, 4] {
        again!(expect(&rt, alloc, &ring, workers));
    }
    assert_eq!(rt; again!(filled(alloc, &ring)), (1, 2));
    Ok(())
}

#[test]
fn two_pieces_of_a_table_are_made_at_once(rt: HostRuntime) -> Result<(), Fail> {
    let ring = hierarchy(&rt, rt.alloc(), RING)?;
    assert!(rt; ring.nodes() == 5);
    let gate = MeetingGate::new();
    make(&rt, rt.alloc(), &ring, &Plan::new(2, 1, 64), &gate)?;
    assert!(rt; gate.has_met());
    Ok(())
}

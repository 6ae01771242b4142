//! Rows of the nearest targets, by searches and by the sweep.
ghost use Rattle.std.specs.Prelude.{◌≡◌, ◌<◌};
ghost use Rattle.ch_hierarchy.specs.Hierarchy.{nodes_of};
ghost use Rattle.ch_query.specs.Distance.{IsKeptForSome};

use crate::again::again;
use crate::crew::crew;
use crate::examples::{RING, hierarchy};
use ch_hierarchy::{Direction, Hierarchy};
use ch_rows::NearTargets;
use ch_work::{Open, Plan};
use std::alloc::{AllocError, Global};
use std::process::Abort;
use std::test::Fail;
use std::thread::Threads;

/// Searches for the rows of the ring's last two nodes, and expects the two nearest places of each. Places at
/// equal distances are in order of number. Two of the three places have the same node.
fn expect_searched<R: Threads + Abort + Sync>(
    rt: &R,
    alloc: Global,
    ring: &Hierarchy,
    workers: u32,
) -> Result<(), AllocError>
    requires kept { IsKeptForSome ring.now }
    requires nodes { nodes_of ring.now ≡ 5 }
    requires workers { (0 < workers) × (workers < 65) }
{
    let plan = Plan::new(workers, 1, 1);
    let crew = crew(rt, alloc, &plan, &Open);
    let near = NearTargets::search(&crew, ring, Direction::To, &[3, 4, 3], None, Some(2))?;
    let mut room = near.room(alloc)?;
    near.make_row(alloc, &mut room, 3, None)?;
    assert_eq!(rt; room.row(), [(0, 0), (0, 2)].as_slice());
    near.make_row(alloc, &mut room, 4, None)?;
    assert_eq!(rt; room.row(), [(0, 1), (4, 0)].as_slice());
    Ok(())
}

/// Expects the same rows from the sweep.
fn expect_swept<R: Threads + Abort + Sync>(
    rt: &R,
    alloc: Global,
    ring: &Hierarchy,
) -> Result<(), AllocError>
    requires kept { IsKeptForSome ring.now }
    requires nodes { nodes_of ring.now ≡ 5 }
{
    let plan = Plan::new(1, 1, 1);
    let crew = crew(rt, alloc, &plan, &Open);
    let near = NearTargets::search(&crew, ring, Direction::To, &[3, 4, 3], None, Some(2))?;
    let all = near.node_rows(alloc)?;
    assert_eq!(rt; all.row(3), [(0, 0), (0, 2)].as_slice());
    assert_eq!(rt; all.row(4), [(0, 1), (4, 0)].as_slice());
    Ok(())
}

/// It holds if any one request for memory is refused. The call that is refused answers `AllocError`. Made
/// again, it answers as with enough memory.
#[test]
fn refused_in_turn(rt: HostRuntime) -> Result<(), Fail> {
    let alloc = rt.alloc();
    let ring = hierarchy(&rt, alloc, RING)?;
    assert!(rt; ring.nodes() == 5);
    for workers in [1, 2] {
        again!(expect_searched(&rt, alloc, &ring, workers));
    }
    again!(expect_swept(&rt, alloc, &ring));
    Ok(())
}

//! The calls on the legs that remain: witnesses, shortcuts, priorities and contractions. Nodes are counted
//! from 0.
ghost use Rattle.std.specs.Prelude.{◌≡◌};

use super::HOPS;
use crate::again::again;
use crate::examples::{RING, STAR, read};
use ch_contract::Remaining;
use ch_graph::{Cost, Graph};
use ch_hierarchy::Leg;
use std::alloc::{AllocError, Global};
use std::process::Abort;
use std::test::Fail;

/// Asks about the middle of the star. Returns whether two other nodes have a witness, the number of its
/// shortcuts, its priority, and the number of legs from it that its contraction removes.
fn asked(alloc: Global, star: &Graph) -> Result<(bool, usize, i64, usize), AllocError>
    requires { star.now.nodes ≡ 4 }
{
    let legs = Remaining::open(alloc, star)?;
    let cost = Cost { weight: 2, arcs: 2 };
    let has_witness = legs.has_witness(0, 1, 2, cost, HOPS)?;
    let shortcuts = legs.shortcuts(0, HOPS)?.len();
    let priority = legs.priority(0, HOPS)?;
    let (_, removed) = legs.contract(0, HOPS)?;
    Ok((has_witness, shortcuts, priority, removed.up.len()))
}

/// It holds if any one request for memory is refused. The call that is refused answers that memory ran out.
/// A refused contraction drops the legs, so the second call opens them again. It answers as with enough memory.
#[test]
fn refused_in_turn(rt: HostRuntime) -> Result<(), Fail> {
    let alloc = rt.alloc();
    let (star, _) = read(alloc, STAR)?;
    assert!(rt; star.nodes() == 4);
    assert_eq!(rt; again!(asked(alloc, &star)), (false, 6, 0, 3));
    Ok(())
}

/// Contracts the first node of the ring, and expects the legs that the last node has then: one from it, which is the
/// shortcut, and one to it.
fn expect_legs<R: Abort>(rt: &R, alloc: Global, ring: &Graph) -> Result<(), AllocError>
    requires { ring.now.nodes ≡ 5 }
{
    let legs = Remaining::open(alloc, ring)?;
    let (left, removed) = legs.contract(0, HOPS)?;
    assert_eq!(rt; (removed.up.len(), removed.down.len()), (1, 1));
    let shortcut = Leg {
        node: 1,
        cost: Cost { weight: 2, arcs: 2 },
        middle: Some(0),
    };
    let arc = Leg {
        node: 3,
        cost: Cost { weight: 1, arcs: 1 },
        middle: None,
    };
    assert_eq!(rt; left.out_legs(4), [shortcut].as_slice());
    assert_eq!(rt; left.in_legs(4), [arc].as_slice());
    Ok(())
}

#[test]
fn legs_of_a_neighbour_after_a_contraction(rt: HostRuntime) -> Result<(), Fail> {
    let alloc = rt.alloc();
    let (ring, _) = read(alloc, RING)?;
    assert!(rt; ring.nodes() == 5);
    expect_legs(&rt, alloc, &ring)?;
    Ok(())
}

//! Worked examples at public calls: queues, rows and witnesses.
ghost use Rattle.std.specs.Prelude.{◌≡◌};

use ch_contract::{HopBound, Remaining};
use ch_graph::{Cost, Graph, Rows};
use ch_queue::KeyQueue;
use ch_read::read_graph;
use std::alloc::{AllocError, Global};
use std::test::Fail;

/// Makes the cost of a walk of this weight with so many arcs.
fn cost(weight: u64, arcs: u64) -> Cost
    ensures weight { result.weight ≡ weight }
    ensures arcs { result.arcs ≡ arcs }
{
    Cost { weight, arcs }
}

/// The least key leaves first, and of equal keys the one with the least number. A key that was removed or cleared is
/// gone, and its number may be given another one.
#[test]
fn keys_leave_by_cost_and_then_by_number(rt: HostRuntime) -> Result<(), Fail> {
    let mut queue = KeyQueue::new(rt.alloc(), 4)?;
    queue.set(0, cost(3, 1));
    queue.set(1, cost(2, 5));
    queue.set(2, cost(2, 4));
    queue.set(0, cost(2, 4));
    assert_eq!(rt; queue.key(3), None);
    assert_eq!(rt; queue.least(), Some((cost(2, 4), 0)));
    assert_eq!(rt; queue.remove(0), Some(cost(2, 4)));
    queue.set(2, cost(9, 1));
    assert_eq!(rt; queue.pop(), Some((cost(2, 5), 1)));
    assert_eq!(rt; queue.pop(), Some((cost(9, 1), 2)));
    assert_eq!(rt; queue.pop(), None);
    queue.set(1, cost(1, 1));
    queue.clear();
    assert_eq!(rt; queue.pop(), None);
    queue.set(0, cost(1, 1));
    assert_eq!(rt; queue.pop(), Some((cost(1, 1), 0)));
    Ok(())
}

/// A row has the values of its number, in the order in which they are given.
#[test]
fn rows_keep_the_order_of_their_values(rt: HostRuntime) -> Result<(), Fail> {
    let rows = Rows::build(rt.alloc(), 3, &[(2, 7), (0, 8), (2, 9)])?;
    assert!(rt; rows.row_count() == 3);
    assert_eq!(rt; rows.row(0), [8].as_slice());
    assert_eq!(rt; rows.row(1), [].as_slice());
    assert_eq!(rt; rows.row(2), [7, 9].as_slice());
    Ok(())
}

/// A pair of ways from node 1 to node 3: over node 2 with weight 2, and over nodes 4 and 5 with weight 0.
const TWO_WAYS: &[u8] = b"p sp 5 5\na 1 2 1\na 2 3 1\na 1 4 0\na 4 5 0\na 5 3 0\n";

/// Asks whether there is a witness around node 2 of at most this cost, for three bounds and costs. Then come its
/// priorities by witnesses of at most two and three legs.
fn asked(alloc: Global, graph: &Graph) -> Result<([bool; 4], [i64; 2]), AllocError>
    requires { graph.now.nodes ≡ 5 }
{
    let legs = Remaining::open(alloc, graph)?;
    let (two, three) = (HopBound { number: 2 }, HopBound { number: 3 });
    let witnesses = [
        legs.has_witness(1, 0, 2, cost(2, 2), two)?,
        legs.has_witness(1, 0, 2, cost(2, 2), three)?,
        legs.has_witness(1, 0, 2, cost(0, 2), three)?,
        legs.has_witness(1, 0, 2, cost(0, 3), three)?,
    ];
    Ok((
        witnesses,
        [legs.priority(1, two)?, legs.priority(1, three)?],
    ))
}

/// A witness has at most as many legs as its bound, and at most the given cost, which counts arcs too.
#[test]
fn witnesses_keep_their_bounds(rt: HostRuntime) -> Result<(), Fail> {
    let graph = read_graph(rt.alloc(), TWO_WAYS)?;
    assert!(rt; graph.nodes() == 5);
    let owed = ([false, true, false, true], [-1, -2]);
    assert_eq!(rt; asked(rt.alloc(), &graph)?, owed);
    Ok(())
}

//! Graphs and rows.
ghost use Rattle.std.specs.Prelude.{◌≡◌};

use crate::again::again;
use crate::examples::{LINE, read};
use ch_graph::{Graph, Rows, plain_distance, sort_by_key};
use std::alloc::{AllocError, Global};
use std::test::Fail;

/// Returns the distance from one end of the line to the other, the number of values that are sorted, and the
/// number of rows that are built.
fn asked(alloc: Global, line: &Graph) -> Result<(Option<u64>, usize, u32), AllocError>
    requires { line.now.nodes ≡ 3 }
{
    let distance = plain_distance(alloc, line, 0, 2)?;
    let pairs = [(2, 7), (0, 8), (2, 9)];
    let sorted = sort_by_key(alloc, 3, &pairs)?;
    let rows = Rows::build(alloc, 3, &pairs)?;
    Ok((distance, sorted.len(), rows.row_count()))
}

/// It holds if any one request for memory is refused. The call that is refused answers `AllocError`. Made
/// again with the same arguments, it answers as with enough memory.
#[test]
fn refused_in_turn(rt: HostRuntime) -> Result<(), Fail> {
    let alloc = rt.alloc();
    let (line, _) = read(alloc, LINE)?;
    assert!(rt; line.nodes() == 3);
    assert_eq!(rt; again!(asked(alloc, &line)), (Some(9), 3, 3));
    let mut rows = again!(Rows::with_room(alloc, 0, 0));
    again!(rows.push(&[7u64, 8]));
    assert_eq!(rt; rows.row_count(), 1);
    Ok(())
}

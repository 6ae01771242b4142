//! Hierarchies that are assembled from saved ones.
use crate::again::again_after;
use crate::examples::{RING, read};
use ch_hierarchy::{CheckError, Side, assemble};
use std::test::Fail;

/// It holds if any one request for memory is refused. The call that is refused answers that memory ran out.
/// Made again with the same arguments, it answers as with enough memory.
#[test]
fn refused_in_turn(rt: HostRuntime) -> Result<(), Fail> {
    let alloc = rt.alloc();
    let (graph, saved) = read(alloc, RING)?;
    let hierarchy = again_after!(CheckError::NoMemory, assemble(alloc, &graph, &saved));
    assert!(rt; hierarchy.nodes() == 5);
    let (down, ranked) = (
        hierarchy.down(3).len(),
        hierarchy.ranked_legs(Side::Down, 1).len(),
    );
    assert_eq!(rt; (down, ranked), (1, 1));
    Ok(())
}

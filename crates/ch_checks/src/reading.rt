//! Readers of files.
mod refusals;
mod requests;
mod sections;

use crate::again::again_after;
use ch_read::{ReadError, read_graph, read_nodes, read_queries, read_saved};
use std::alloc::Global;
use std::test::Fail;

/// Reads a file of each form, and returns the number of items in each.
fn read_each(alloc: Global) -> Result<[usize; 4], ReadError> {
    let graph = read_graph(alloc, b"p sp 2 2\na 1 2 7\na 2 1 8\n")?;
    let queries = read_queries(alloc, b"p aux sp p2p 2\nq 1 3\nq 3 1\n", 3)?;
    let nodes = read_nodes(alloc, b"p aux sp ss 3\ns 1\ns 1\ns 3\n", 3)?;
    let saved = read_saved(alloc, b"p ch 2 1\no 2\no 1\nl 1 2 9 1 0\n", 2)?;
    Ok([
        graph.arcs().len(),
        queries.len(),
        nodes.len(),
        saved.legs.len(),
    ])
}

/// It holds if any one request for memory is refused. The reader that is refused answers `NoMemory` and no
/// fault, and a second call answers as with enough memory.
#[test]
fn files_are_read_refused_in_turn(rt: HostRuntime) -> Result<(), Fail> {
    let counts = again_after!(ReadError::NoMemory, read_each(rt.alloc()));
    assert_eq!(rt; counts, [2, 2, 3, 1]);
    Ok(())
}

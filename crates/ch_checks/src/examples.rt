//! Small networks as files, and the hierarchies in these files.
ghost use Rattle.std.specs.Prelude.{IfOk};
ghost use Rattle.ch_query.specs.Distance.{IsKeptForSome};

use crate::again::again_after;
use crate::crew::crew;
use ch_graph::{Graph, Saved};
use ch_hierarchy::{CheckError, Hierarchy};
use ch_query::check;
use ch_read::{ReadError, read_graph, read_saved};
use ch_work::{Open, Plan};
use std::alloc::Global;
use std::test::Fail;
use std::thread::Threads;

/// The bytes of a graph file, and the bytes of a file with its hierarchy.
pub(crate) type Files = (&'static [u8], &'static [u8]);

/// A line of three nodes, with arcs from the first to the last.
pub(crate) const LINE: Files = (
    b"p sp 3 2\na 1 2 4\na 2 3 5\n",
    b"p ch 3 2\no 1\no 2\no 3\nl 1 2 4 1 0\nl 2 3 5 1 0\n",
);

/// Node 1 is in the middle, with arcs both ways. After the first step three priorities are equal, and the
/// middle has the least number.
pub(crate) const STAR: Files = (
    b"p sp 4 6\na 1 2 1\na 2 1 1\na 1 3 1\na 3 1 1\na 1 4 1\na 4 1 1\n",
    b"p ch 4 8\no 2\no 1\no 3\no 4\nl 2 1 1 1 0\nl 1 2 1 1 0\nl 1 3 1 1 0\nl 1 4 1 1 0\n\
      l 3 1 1 1 0\nl 4 1 1 1 0\nl 3 4 2 2 1\nl 4 3 2 2 1\n",
);

/// A ring of five nodes, whose arcs weigh 1 and lead one way.
pub(crate) const RING_ARCS: &[u8] = b"p sp 5 5\na 1 2 1\na 2 3 1\na 3 4 1\na 4 5 1\na 5 1 1\n";

/// The ring and its hierarchy. The last node has a leg of 1 to 4 arcs to each other node.
pub(crate) const RING: Files = (
    RING_ARCS,
    b"p ch 5 8\no 1\no 2\no 3\no 4\no 5\nl 1 2 1 1 0\nl 5 1 1 1 0\nl 2 3 1 1 0\nl 5 2 2 2 1\n\
      l 3 4 1 1 0\nl 5 3 3 3 2\nl 4 5 1 1 0\nl 5 4 4 4 3\n",
);

/// Reads the files of a network. Each call that is refused memory is made a second time.
pub(crate) fn read(alloc: Global, files: Files) -> Result<(Graph, Saved), Fail> {
    let graph = again_after!(ReadError::NoMemory, read_graph(alloc, files.0));
    let saved = again_after!(
        ReadError::NoMemory,
        read_saved(alloc, files.1, graph.nodes())
    );
    Ok((graph, saved))
}

fn checked<R: Threads + Sync>(
    rt: &R,
    alloc: Global,
    graph: &Graph,
    saved: Saved,
) -> Result<Hierarchy, CheckError>
    ensures { IfOk result IsKeptForSome }
{
    // This call tells the proof that the graph keeps the limits.
    let _ = graph.arcs();
    check(&crew(rt, alloc, &Plan::new(2, 1, 64), &Open), graph, saved)
}

/// Reads the files of a network, and returns its hierarchy. Each call that is refused memory is made a
/// second time.
pub(crate) fn hierarchy<R: Threads + Sync>(
    rt: &R,
    alloc: Global,
    files: Files,
) -> Result<Hierarchy, Fail>
    ensures { IfOk result IsKeptForSome }
{
    let (graph, saved) = read(alloc, files)?;
    if let Ok(hierarchy) = checked(rt, alloc, &graph, saved) {
        return Ok(hierarchy);
    }
    let (_, again) = read(alloc, files)?;
    Ok(checked(rt, alloc, &graph, again)?)
}

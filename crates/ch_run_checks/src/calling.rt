//! A caller of the crates, as in docs/CALLING.md: from the bytes of a graph file to a distance. And the worked
//! example of docs/claim.antt.txt.
ghost use Rattle.std.specs.Prelude.{◌≡◌, ◌≤◌, ◌⊎◌, IfOk};
ghost use Rattle.ch_graph.specs.Graph.{Network};
ghost use Rattle.ch_graph.specs.Walk.{IsAnswer};
ghost use Rattle.ch_read.specs.declared.fault.ReadFault.{ReadFault as FaultAt};
ghost use Rattle.ch_read.specs.declared.form.Form.TheVariants as Form;
ghost use Rattle.ch_read.specs.Checks.{IsFault};
ghost use Rattle.ch_read.specs.Names.{NamesGraph};

use crate::runs::BY_HIERARCHY;
use ch_contract::HopBound;
use ch_order::build;
use ch_query::{Scratch, distance};
use ch_read::{ReadError, ReadFault, read_graph};
use ch_run::{MemoryInput, MemoryOutput, Source, run_dist};
use ch_work::{Crew, Open, Plan};
use std::alloc::Global;
use std::test::Fail;
use std::thread::Threads;

/// Why there is no answer.
#[derive(Clone, Copy, Debug, PartialEq, Eq)]
enum Refused {
    /// The file has this fault.
    File(ReadFault),
    /// A node is not below the number of nodes.
    Node,
    /// There was no memory.
    Memory,
}

/// Returns the least weight of a walk between two nodes of the graph in the file, or `None` if there is no
/// walk. Nodes are counted from 0.
///
/// # Errors
/// The first fault of the file, a node that is out of range, or a lack of memory.
fn distance_in<R: Threads + Sync>(
    rt: &R,
    alloc: Global,
    file: &[u8],
    from: u32,
    to: u32,
) -> Result<Option<u64>, Refused>
    ensures answer { IfOk result (λ weight. (g : Network) × NamesGraph file.now g × IsAnswer g from to weight) }
    ensures file { (fault : FaultAt) → result ≡ Err (Refused.File fault) → IsFault Form.Graph file.now fault.line fault.kind }
    ensures node { result ≡ Err Refused.Node → (g : Network) × NamesGraph file.now g × ((g.nodes ≤ from) ⊎ (g.nodes ≤ to)) }
{
    let graph = match read_graph(alloc, file) {
        Ok(graph) => graph,
        Err(ReadError::Fault(fault)) => return Err(Refused::File(fault)),
        Err(ReadError::NoMemory) => return Err(Refused::Memory),
    };
    if from >= graph.nodes() || to >= graph.nodes() {
        return Err(Refused::Node);
    }
    let crew = Crew {
        rt,
        alloc,
        plan: Plan::new(2, 64, 64),
        gate: &Open,
    };
    let Ok(hierarchy) = build(&crew, &graph, HopBound { number: 5 }) else {
        return Err(Refused::Memory);
    };
    let Ok(mut scratch) = Scratch::new(alloc, graph.nodes()) else {
        return Err(Refused::Memory);
    };
    Ok(distance(&hierarchy, &mut scratch, from, to))
}

#[test]
fn a_file_is_asked_for_distances(rt: HostRuntime) -> Result<(), Fail> {
    let file: &[u8] = b"p sp 3 2\na 1 2 4\na 2 3 5\n";
    assert_eq!(rt; distance_in(&rt, rt.alloc(), file, 0, 2), Ok(Some(9)));
    assert_eq!(rt; distance_in(&rt, rt.alloc(), file, 2, 0), Ok(None));
    assert_eq!(rt;
        distance_in(&rt, rt.alloc(), file, 0, 3),
        Err(Refused::Node)
    );
    Ok(())
}

/// The files are examples/first.gr and examples/first.p2p. After such a run, the contract of `run_dist` says that the
/// bytes name a graph and queries.
#[test]
fn the_worked_example_is_answered(rt: HostRuntime) -> Result<(), Fail> {
    let graph: &[u8] = b"c three nodes, two one-way roads\np sp 3 2\na 1 2 4\na 2 3 5\n";
    let queries: &[u8] =
        b"c from the first node to the last, and back\np aux sp p2p 2\nq 1 3\nq 3 1\n";
    let crew = Crew {
        rt: &rt,
        alloc: rt.alloc(),
        plan: Plan::new(2, 64, 64),
        gate: &Open,
    };
    let mut output = MemoryOutput::new(rt.alloc(), 100, 100)?;
    let result = run_dist(
        &crew,
        &mut MemoryInput::new(graph, 100),
        &mut Source::<MemoryInput>::Built,
        &mut MemoryInput::new(queries, 100),
        &mut output,
        &BY_HIERARCHY,
    );
    assert_eq!(rt; result, Ok(()));
    assert_eq!(rt; output.bytes(), b"d 1 3 9\nd 3 1 -\n".as_slice());
    Ok(())
}

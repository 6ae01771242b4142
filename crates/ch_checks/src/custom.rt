//! Customized hierarchies, and queries by the elimination tree.
ghost use Rattle.std.specs.Prelude.{◌≡◌, ◌<◌, length};
ghost use Rattle.ch_custom.specs.Customizing.{IsTopology};
ghost use Rattle.ch_custom.specs.Topologies.{IsCustomized};
ghost use Rattle.ch_hierarchy.specs.Hierarchy.{nodes_of};
ghost use Rattle.ch_hierarchy.specs.Kept.{IsKept};
ghost use Rattle.ch_tree.specs.Tree.{IsTree};

use crate::again::{again, again_after};
use crate::examples::{RING, RING_ARCS};
use ch_custom::{Topology, TopologyError, customize, topology_of};
use ch_graph::Graph;
use ch_hierarchy::{Hierarchy, Side};
use ch_query::Start;
use ch_read::{ReadError, read_graph};
use ch_text::save_text;
use ch_tree::{TreeScratch, distance, ranked_space, tree_for};
use std::alloc::{AllocError, Global};
use std::test::Fail;

/// What the tests ask of a customized hierarchy.
#[derive(Drop)]
struct Answers {
    /// Its text, as `chtab save` writes it.
    text: Vec<u8>,
    /// The distance from node 0 to node 4, by the tree.
    distance: Option<u64>,
    /// The number of entries of the search space up from node 0.
    entries: usize,
}

/// Asks by the tree of a hierarchy.
fn by_tree(
    alloc: Global,
    graph: &Graph,
    hierarchy: &Hierarchy,
    parents: &[u32],
) -> Result<Answers, AllocError>
    requires nodes { 4 < nodes_of hierarchy.now }
    requires kept { IsKept graph.now hierarchy.now }
    requires tree { IsTree hierarchy.now parents.now }
{
    let _limits = graph.nodes();
    let mut scratch = TreeScratch::new(alloc, hierarchy.nodes())?;
    let distance = distance(hierarchy, parents, &mut scratch, 0, 4);
    let start = Start {
        source: 0,
        side: Side::Up,
        within: None,
    };
    let space = ranked_space(alloc, hierarchy, parents, &mut scratch, start)?;
    Ok(Answers {
        text: save_text(alloc, hierarchy)?,
        distance,
        entries: space.len(),
    })
}

/// Asks a hierarchy that was customized in this topology.
fn asked(
    alloc: Global,
    graph: &Graph,
    topology: &Topology,
    hierarchy: &Hierarchy,
) -> Result<Answers, AllocError>
    requires many { 4 < graph.now.nodes }
    requires nodes { length topology.now.pairs ≡ graph.now.nodes }
    requires topology { IsTopology graph.now topology.now.order topology.now.pairs }
    requires hierarchy { IsCustomized graph.now topology.now.order hierarchy.now }
    requires kept { IsKept graph.now hierarchy.now }
{
    let parents = tree_for(alloc, topology, graph, hierarchy)?;
    by_tree(alloc, graph, hierarchy, parents.as_slice())
}

/// Customizes the graph in a topology of it, and asks.
fn customized(alloc: Global, graph: &Graph, topology: &Topology) -> Result<Answers, AllocError>
    requires many { 4 < graph.now.nodes }
    requires nodes { length topology.now.pairs ≡ graph.now.nodes }
    requires topology { IsTopology graph.now topology.now.order topology.now.pairs }
{
    match customize(alloc, topology, graph) {
        Ok(hierarchy) => asked(alloc, graph, topology, &hierarchy),
        Err(refused) => Err(refused),
    }
}

/// Customizes the graph in this order, with at most so many triangles, and asks.
fn ordered(alloc: Global, graph: &Graph, order: &[u32], most: u64) -> Result<Answers, TopologyError>
    requires many { 4 < graph.now.nodes }
{
    match topology_of(alloc, graph, order, most) {
        Ok(topology) => Ok(customized(alloc, graph, &topology)?),
        Err(error) => Err(error),
    }
}

/// Returns why there is no topology, if there is none.
fn fault_of(alloc: Global, graph: &Graph, order: &[u32], most: u64) -> Option<TopologyError> {
    match topology_of(alloc, graph, order, most) {
        Ok(_) => None,
        Err(error) => Some(error),
    }
}

/// The legs of the ring are those of its hierarchy, and its tree gives distances. It holds if any one request for
/// memory is refused.
#[test]
fn refused_in_turn(rt: HostRuntime) -> Result<(), Fail> {
    let alloc = rt.alloc();
    let ring = again_after!(ReadError::NoMemory, read_graph(alloc, RING_ARCS));
    assert!(rt; ring.nodes() == 5);
    let asked = again_after!(
        TopologyError::NoMemory,
        ordered(alloc, &ring, &[0, 1, 2, 3, 4], 3)
    );
    assert_eq!(rt; asked.text.as_slice(), RING.1);
    assert_eq!(rt; (asked.distance, asked.entries), (Some(4), 5));
    Ok(())
}

/// An order of which there is no topology, and one with too many triangles.
#[test]
fn faults_are_told(rt: HostRuntime) -> Result<(), Fail> {
    let alloc = rt.alloc();
    let ring = read_graph(alloc, RING_ARCS)?;
    assert_eq!(rt;
        fault_of(alloc, &ring, &[0, 1, 2, 3, 3], 9),
        Some(TopologyError::Order)
    );
    assert_eq!(rt;
        fault_of(alloc, &ring, &[0, 1, 2, 3, 4], 2),
        Some(TopologyError::Triangles)
    );
    Ok(())
}

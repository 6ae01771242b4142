//! The hierarchy that engines share, with the lines of its legs and the tree of its topology.
ghost use Rattle.std.specs.Prelude.{◌≡◌, ◌≢◌, ◌<◌, length, IfOk, MatchOption, ⊤};
ghost use Rattle.std.specs.Arc.{arc_value};
ghost use Rattle.ch_hierarchy.specs.Hierarchy.{nodes_of};
ghost use Rattle.ch_hierarchy.specs.Kept.{IsKept};
ghost use Rattle.ch_hierarchy.specs.Rows.{row as the_row_of};
ghost use Rattle.ch_hierarchy.specs.Side.{rows_of};
ghost use Rattle.ch_query.specs.Distance.{IsKeptForSome};
ghost use Rattle.ch_engine.specs.Lines.{AreLines, IsLineBy, IsOfSome, head_of, node_at, tail_of};
ghost use Rattle.ch_tree.specs.Tree.{IsTree};

use crate::lines::{lines_of, word_at};
use ch_graph::{Graph, Rows};
use ch_hierarchy::{Hierarchy, Side};
use ch_tree::TreeScratch;
use std::alloc::{AllocError, Global};
use std::marker::Model;
use std::sync::Arc;

/// A hierarchy that is right for some graph, and the lines of that graph's arcs. The graph itself is not kept. If the
/// hierarchy is a customized one, it has the tree of its topology, which all networks of the topology share.
#[derive(Drop)]
pub struct Network {
    hierarchy: Hierarchy,
    /// For each leg up, by node, the line of the arc between its ends.
    ups: Rows<u32>,
    /// The same for each leg down.
    downs: Rows<u32>,
    /// The number of lines, which is that of the graph's arcs.
    count: usize,
    /// The place above each place, if distances go by the tree.
    tree: Option<Arc<Vec<u32>, Global>>,
}

impl Model for Network {
    ghost use Rattle.std.specs.Prelude.{MatchOption, ⊤};
    ghost use Rattle.std.specs.Arc.{arc_value};
    ghost use Rattle.ch_hierarchy.specs.Hierarchy.{LevelsAndLegs};
    ghost use Rattle.ch_tree.specs.Tree.{IsTree};
    ghost use Rattle.ch_engine.specs.Lines.{IsOfSome, Lines};

    ghost Value = { LevelsAndLegs × Lines };

    ghost view = { λ network. (network.hierarchy, record { up = network.ups; down = network.downs; count = network.count }) };

    ghost invariant = { λ network. IsOfSome network.hierarchy (record { up = network.ups; down = network.downs; count = network.count }) × MatchOption network.tree ⊤ (λ tree. IsTree network.hierarchy (arc_value tree).items) };
}

impl Network {
    /// Finds the lines of a graph's arcs for the legs of its hierarchy.
    ///
    /// # Errors
    /// `AllocError` if there is no memory.
    pub(crate) fn of(
        alloc: Global,
        graph: &Graph,
        hierarchy: Hierarchy,
    ) -> Result<Network, AllocError>
        requires { IsKept graph.now hierarchy }
        ensures hierarchy { IfOk result (λ network. network.0 ≡ hierarchy) }
        ensures lines { IfOk result (λ network. AreLines graph.now network.0 network.1) }
    {
        let count = graph.arcs().len();
        let ups = lines_of(alloc, graph, &hierarchy, Side::Up)?;
        let downs = lines_of(alloc, graph, &hierarchy, Side::Down)?;
        Ok(Network {
            hierarchy,
            ups,
            downs,
            count,
            tree: None,
        })
    }

    /// Returns the network with the tree of its hierarchy.
    pub(crate) fn with_tree(self, tree: Arc<Vec<u32>, Global>) -> Network
        requires { IsTree self.0 (arc_value tree).items }
        ensures { result ≡ self }
    {
        let mut network = self;
        network.tree = Some(tree);
        network
    }

    /// Returns the place above each place of the hierarchy's tree, if distances go by it.
    pub(crate) fn tree(&self) -> Option<&[u32]>
        ensures { MatchOption result ⊤ (λ tree. IsTree self.now.0 tree.now) }
    {
        match &self.tree {
            Some(tree) => Some(tree.as_slice()),
            None => None,
        }
    }

    /// Returns scratch space for distances by the tree, if there is a tree. It takes 16 bytes for each node.
    ///
    /// # Errors
    /// `AllocError` if there is no memory.
    pub(crate) fn tree_scratch(&self, alloc: Global) -> Result<Option<TreeScratch>, AllocError>
        ensures { IfOk result (λ made. MatchOption made ⊤ (λ scratch. scratch ≡ nodes_of self.now.0)) }
    {
        if self.tree.is_none() {
            return Ok(None);
        }
        let scratch = TreeScratch::new(alloc, self.hierarchy.nodes())?;
        Ok(Some(scratch))
    }

    /// Returns the number of lines.
    pub(crate) fn count(&self) -> usize
        ensures { result ≡ self.now.1.count }
    {
        self.count
    }

    /// Returns the hierarchy.
    pub(crate) fn hierarchy(&self) -> &Hierarchy
        ensures same { result.now ≡ self.now.0 }
        ensures kept { IsKeptForSome self.now.0 }
        ensures lines { IsOfSome self.now.0 self.now.1 }
    {
        &self.hierarchy
    }

    /// Returns the line of the arc from a node to another one, or [`NO_LINE`](crate::NO_LINE) if there is no such arc.
    pub(crate) fn line(&self, from: u32, to: u32) -> u32
        requires from { from < nodes_of self.now.0 }
        requires to { to < nodes_of self.now.0 }
        ensures { from ≢ to → IsLineBy self.now.0 self.now.1 from to result }
    {
        let hierarchy = &self.hierarchy;
        if hierarchy.level(from) < hierarchy.level(to) {
            word_at(hierarchy.up(from), self.ups.row(from), to)
        } else {
            word_at(hierarchy.down(to), self.downs.row(to), from)
        }
    }

    /// Returns the line of the arc between the ends of the leg at place `place` in the row of a node.
    pub(crate) fn line_of_leg(&self, side: Side, node: u32, place: usize) -> u32
        requires node { node < nodes_of self.now.0 }
        requires place { place < length (the_row_of (rows_of self.now.0 side) node) }
        ensures { IsLineBy self.now.0 self.now.1 (tail_of side node (node_at (the_row_of (rows_of self.now.0 side) node) place)) (head_of side node (node_at (the_row_of (rows_of self.now.0 side) node) place)) result }
    {
        match side {
            Side::Up => self.ups.row(node)[place],
            Side::Down => self.downs.row(node)[place],
        }
    }
}

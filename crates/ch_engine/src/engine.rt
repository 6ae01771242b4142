//! Engines: a network, with room for the questions of one thread.
ghost use Rattle.std.specs.Prelude.{◌≡◌, ◌<◌, [], length, All, IfErr, IfOk, None, OnOk, MatchOption, ⊤};
ghost use Rattle.ch_graph.specs.Graph.{HasEnds};
ghost use Rattle.ch_hierarchy.specs.Hierarchy.{nodes_of};
ghost use Rattle.ch_hierarchy.specs.Paths.{NeverMeets};
ghost use Rattle.ch_query.specs.Distance.{IsKeptForSome};
ghost use Rattle.ch_query.specs.Routes.{IsRoute, IsRouteBy};
ghost use Rattle.ch_tree.specs.Tree.{IsTree};
ghost use Rattle.ch_engine.specs.Lines.{IsOfSome};
ghost use Rattle.ch_text.specs.SaveText.{IsHierarchyText};
ghost use Rattle.ch_engine.specs.Held.{KeepsNothing, only, without_places};
ghost use Rattle.ch_engine.specs.Opened.{IsOpened, IsOpenedLike, IsOpenedOfArrays, IsOpenedQuickly};
ghost use Rattle.ch_engine.specs.Cells.{ArePairCells, AreTableCells, IsCell};
ghost use Rattle.ch_engine.specs.Routes.{IsFound};
ghost use Rattle.ch_engine.specs.Refusals.{AreNodes, ArePairs, AreTableLists, IsLikeError, IsOpenError, IsRefusalOfPairs, IsRefusalOfTable, IsArraysOpenError};

use crate::fault::{OpenError, Refusal};
use crate::kept_values::shared;
use crate::leg_sums::KeptSums;
use crate::network::Network;
use crate::opening::{opened, opened_like, opened_of_arrays, opened_quickly};
use crate::place_trees::PlaceTrees;
use crate::slots::Slots;
use crate::source_tree::SourceTree;
use crate::sum_trees::TreeRoom;
use crate::tables::Asked;
use crate::words::{are_both_nodes, word_of};
use ch_graph::limits::MOST_LISTED;
use ch_hierarchy::{Direction, Hierarchy};
use ch_query::{Route, Scratch, distance, route};
use ch_rows::KeptTargets;
use ch_text::save_text;
use ch_tree::TreeScratch;
use std::alloc::{AllocError, Global};
use std::marker::Model;
use std::sync::Arc;

/// A network, with room for one question at a time, and with what the engine keeps: places of near rows, values of lines,
/// and sums along legs. Several engines may share the network and the values. Contracts see the hierarchy, what is asked of
/// the places, and the values. So all of it always belongs to the engine's own network.
#[derive(Drop)]
pub struct Engine {
    pub(crate) network: Arc<Network, Global>,
    pub(crate) scratch: Scratch,
    /// Scratch space for distances by the network's tree, if it has one.
    by_tree: Option<TreeScratch>,
    /// The places of near rows, if some are kept.
    pub(crate) kept: Option<KeptTargets>,
    /// The direction of their distances.
    pub(crate) direction: Direction,
    /// Their nodes.
    pub(crate) places: Vec<u32>,
    /// Their trees for the kept values, as far as near rows with sums had them.
    pub(crate) place_trees: Option<PlaceTrees>,
    /// The kept values of lines with the sums along all legs for them, if some are kept.
    pub(crate) values: Option<Arc<KeptSums, Global>>,
    /// The same for the values of the last call that needed such sums for other values than the kept ones.
    pub(crate) sums: Option<Arc<KeptSums, Global>>,
    /// The nodes or ranks that searches from the targets of a table reach, if there was a table. Only room for them is kept.
    pub(crate) slots: Option<Slots>,
    /// Room for search trees with sums, if they were needed.
    pub(crate) trees: Option<TreeRoom>,
    /// Room for the tree of a source by node, if it was needed.
    pub(crate) source_tree: Option<SourceTree>,
}

impl Model for Engine {
    ghost use Rattle.std.specs.Prelude.{◌≡◌, MatchOption, option_map, ⊤};
    ghost use Rattle.std.specs.Arc.{arc_value};
    ghost use Rattle.ch_hierarchy.specs.Hierarchy.{nodes_of};
    ghost use Rattle.ch_rows.specs.Kept.{AreKeptIn, asked_by};
    ghost use Rattle.ch_engine.specs.Held.{Held};
    ghost use Rattle.ch_engine.specs.LegSums.{AreKeptOfLines, AreKeptSums, values_of};
    ghost use Rattle.ch_engine.specs.PlaceTrees.{AreKeptTrees};
    ghost use Rattle.ch_engine.specs.Refusals.{AreNodes};

    ghost Value = { Held };

    ghost view = { λ engine. record { hierarchy = (arc_value engine.network).0; lines = (arc_value engine.network).1; near = option_map asked_by engine.kept; values = option_map (λ kept. values_of (arc_value kept)) engine.values } };

    ghost invariant = { λ engine. (engine.scratch ≡ nodes_of (arc_value engine.network).0) × MatchOption engine.by_tree ⊤ (λ scratch. scratch ≡ nodes_of (arc_value engine.network).0) × MatchOption engine.kept ⊤ (AreKeptIn (arc_value engine.network).0) × MatchOption engine.kept ⊤ (λ kept. (engine.direction ≡ (asked_by kept).direction) × (engine.places.items ≡ (asked_by kept).targets)) × MatchOption engine.values ⊤ (λ kept. AreKeptOfLines (arc_value engine.network).0 (arc_value engine.network).1 (arc_value kept)) × MatchOption engine.sums ⊤ (λ kept. AreKeptSums (arc_value engine.network).0 (arc_value engine.network).1 (arc_value kept)) × MatchOption engine.slots ⊤ (λ slots. slots.numbers ≡ nodes_of (arc_value engine.network).0) × MatchOption engine.place_trees ⊤ (AreKeptTrees (record { hierarchy = (arc_value engine.network).0; lines = (arc_value engine.network).1; near = option_map asked_by engine.kept; values = option_map (λ kept. values_of (arc_value kept)) engine.values })) × AreNodes (nodes_of (arc_value engine.network).0) engine.places.items };
}

impl Engine {
    /// Opens an engine from the bytes of a graph file and of a file with its saved hierarchy. The hierarchy is
    /// checked against the graph. If `saved` is empty, the hierarchy is built by depth. On road networks this takes
    /// about 3 to 15 microseconds per node.
    ///
    /// # Errors
    /// The first fault of the graph's bytes, otherwise that of the saved hierarchy's bytes, otherwise its first fault
    /// for the graph; or `NoMemory`.
    pub fn open(alloc: Global, graph: &[u8], saved: &[u8]) -> Result<Engine, OpenError>
        ensures value { IfOk result (λ held. KeepsNothing held × IsOpened graph.now saved.now held.hierarchy held.lines) }
        ensures error { IfErr result (IsOpenError graph.now saved.now) }
    {
        let network = opened(alloc, graph, saved)?;
        Ok(Engine::of(alloc, network)?)
    }

    /// Opens an engine for the graph of `nodes` nodes where arc k leads from `tails[k]` to `heads[k]` and weighs `weights[k]`.
    /// Arc k is line k. Nodes count from 0. `saved` is as in [`Engine::open`], but a hierarchy that is built is built as by
    /// [`Engine::open_quickly`].
    ///
    /// # Errors
    /// `Lengths` if the lengths of the arrays differ, otherwise `BadArrays` with the first fault of the graph, otherwise the
    /// errors of [`Engine::open`] for the saved hierarchy; or `NoMemory`.
    pub fn open_arrays(
        alloc: Global,
        nodes: u32,
        tails: &[u32],
        heads: &[u32],
        weights: &[u64],
        saved: &[u8],
    ) -> Result<Engine, OpenError>
        ensures value { IfOk result (λ held. KeepsNothing held × IsOpenedOfArrays nodes tails.now heads.now weights.now saved.now held.hierarchy held.lines) }
        ensures error { IfErr result (IsArraysOpenError nodes tails.now heads.now weights.now saved.now) }
    {
        let network = opened_of_arrays(alloc, nodes, tails, heads, weights, saved)?;
        Ok(Engine::of(alloc, network)?)
    }

    /// Opens an engine from the bytes of a graph file alone. The hierarchy is built in an order that takes little time to find,
    /// which no rule names. On road networks this takes a third to a half of the time of building by depth.
    ///
    /// # Errors
    /// The first fault of the graph's bytes, or `NoMemory`.
    pub fn open_quickly(alloc: Global, graph: &[u8]) -> Result<Engine, OpenError>
        ensures value { IfOk result (λ held. KeepsNothing held × IsOpenedQuickly graph.now held.hierarchy held.lines) }
        ensures error { IfErr result (IsOpenError graph.now []) }
    {
        let network = opened_quickly(alloc, graph)?;
        Ok(Engine::of(alloc, network)?)
    }

    /// Opens an engine for a graph with as many nodes, such as the same roads with new weights. Arcs may differ in any way.
    /// The hierarchy is built in the order of this engine's hierarchy, and only the last `fresh` per cent of the nodes are
    /// ordered afresh, by depth. The answers are as exact as those of [`Engine::open`], whatever changed. With 5 per cent
    /// this takes about 0.6 of the time of building by depth, and questions take up to a quarter longer, if the weights
    /// are still of the same kind. With 100 per cent the hierarchy is the one by depth. So it is with fewer, if more than 128 legs
    /// touch one of the given nodes in its turn, while more than a hundredth of the nodes are left.
    ///
    /// # Errors
    /// The first fault of the graph's bytes, otherwise `OtherNodes` if the graph has another number of nodes, otherwise
    /// `FreshRange` if `fresh` is above 100; or `NoMemory`.
    pub fn open_like(&self, alloc: Global, graph: &[u8], fresh: u32) -> Result<Engine, OpenError>
        ensures value { IfOk result (λ held. KeepsNothing held × IsOpenedLike graph.now self.now.hierarchy fresh held.hierarchy held.lines) }
        ensures afresh { fresh ≡ 100 → IfOk result (λ held. IsOpened graph.now [] held.hierarchy held.lines) }
        ensures error { IfErr result (IsLikeError graph.now (nodes_of self.now.hierarchy) fresh) }
    {
        let network = opened_like(alloc, graph, self.network.hierarchy(), fresh)?;
        Ok(Engine::of(alloc, network)?)
    }

    pub(crate) fn of(alloc: Global, network: Network) -> Result<Engine, AllocError>
        ensures { IfOk result (λ held. held ≡ only network.0 network.1) }
    {
        let nodes = network.hierarchy().nodes();
        let scratch = Scratch::new(alloc, nodes)?;
        let by_tree = network.tree_scratch(alloc)?;
        let network = Arc::new(alloc, network)?;
        Ok(for_any_thread(Engine {
            network,
            scratch,
            by_tree,
            kept: None,
            direction: Direction::To,
            places: Vec::new(alloc),
            place_trees: None,
            values: None,
            sums: None,
            slots: None,
            trees: None,
            source_tree: None,
        }))
    }

    /// Makes a second engine in the same network, with room of its own. It keeps the same values, and no places.
    ///
    /// # Errors
    /// `AllocError` if there is no memory, or if more engines share the network or the values than can be counted.
    pub fn share(&self, alloc: Global) -> Result<Engine, AllocError>
        ensures { IfOk result (λ held. held ≡ without_places self.now) }
    {
        let network = Arc::try_clone(&self.network)?;
        let scratch = Scratch::new(alloc, network.hierarchy().nodes())?;
        let by_tree = network.tree_scratch(alloc)?;
        let values = shared(&self.values)?;
        Ok(Engine {
            network,
            scratch,
            by_tree,
            kept: None,
            direction: Direction::To,
            places: Vec::new(alloc),
            place_trees: None,
            values,
            sums: None,
            slots: None,
            trees: None,
            source_tree: None,
        })
    }

    /// Returns the number of nodes.
    pub fn nodes(&self) -> u32
        ensures nodes { result ≡ nodes_of self.now.hierarchy }
        ensures kept { IsOfSome self.now.hierarchy self.now.lines }
    {
        self.network.hierarchy().nodes()
    }

    /// Returns the text of the hierarchy, as `chtab save` writes it.
    ///
    /// # Errors
    /// `AllocError` if there is no memory.
    pub fn save(&self, alloc: Global) -> Result<Vec<u8>, AllocError>
        ensures { IfOk result (λ text. IsHierarchyText self.now.hierarchy text.items) }
    {
        save_text(alloc, self.network.hierarchy())
    }

    /// Writes the distance from each source to the target at the same place as a word. The word is
    /// [`NO_DISTANCE`](crate::NO_DISTANCE) if there is no walk.
    ///
    /// # Errors
    /// `Lengths` if the lengths differ, otherwise `NodeRange` if a number is no node. Then nothing is written.
    pub fn distances(
        &mut self,
        sources: &[u32],
        targets: &[u32],
        out: &mut [u64],
    ) -> Result<(), Refusal>
        ensures cells { OnOk result (ArePairCells self.old.hierarchy sources.now targets.now out.new) }
        ensures fit { OnOk result (ArePairs (nodes_of self.old.hierarchy) sources.now targets.now (length out.old)) }
        ensures refused { IfErr result (λ refusal. (out.new ≡ out.old) × IsRefusalOfPairs (nodes_of self.old.hierarchy) sources.now targets.now (length out.old) refusal) }
        ensures same { self.new ≡ self.old }
    {
        if sources.len() != out.len() || targets.len() != out.len() {
            return Err(Refusal::Lengths);
        }
        let nodes = self.nodes();
        if !are_both_nodes(sources, targets, nodes) {
            return Err(Refusal::NodeRange);
        }
        self.write_distances(sources, targets, out);
        Ok(())
    }

    fn write_distances(&mut self, sources: &[u32], targets: &[u32], out: &mut [u64])
        requires lengths { (length sources.now ≡ length out.old) × (length targets.now ≡ length out.old) }
        requires sources { AreNodes (nodes_of self.old.hierarchy) sources.now }
        requires targets { AreNodes (nodes_of self.old.hierarchy) targets.now }
        ensures cells { ArePairCells self.old.hierarchy sources.now targets.now out.new }
        ensures same { self.new ≡ self.old }
    {
        for i in 0..out.len() {
            out[i] = self.cell(sources[i], targets[i]);
        }
    }

    fn cell(&mut self, source: u32, target: u32) -> u64
        requires source { source < nodes_of self.old.hierarchy }
        requires target { target < nodes_of self.old.hierarchy }
        ensures cell { IsCell self.old.hierarchy None source target result }
        ensures same { self.new ≡ self.old }
    {
        let hierarchy = self.network.hierarchy();
        let answer = match (self.network.tree(), &mut self.by_tree) {
            (Some(tree), Some(by_tree)) => {
                ch_tree::distance(hierarchy, tree, by_tree, source, target)
            }
            _ => distance(hierarchy, &mut self.scratch, source, target),
        };
        word_of(answer)
    }

    /// Writes the distance from each source to each target, row after row, as words. A word is
    /// [`NO_DISTANCE`](crate::NO_DISTANCE) if there is no walk, or no walk within the limit.
    ///
    /// # Errors
    /// `Lengths` if `out` has another length, otherwise `NodeRange` if a number is no node, otherwise `TooLarge` if a
    /// list is too long; or `NoMemory`. Then nothing is written.
    pub fn table(
        &mut self,
        alloc: Global,
        sources: &[u32],
        targets: &[u32],
        within: Option<u64>,
        out: &mut [u64],
    ) -> Result<(), Refusal>
        ensures cells { OnOk result (AreTableCells self.old.hierarchy within sources.now targets.now out.new) }
        ensures fit { OnOk result (AreTableLists (nodes_of self.old.hierarchy) sources.now targets.now (length out.old)) }
        ensures refused { IfErr result (λ refusal. (out.new ≡ out.old) × IsRefusalOfTable (nodes_of self.old.hierarchy) sources.now targets.now (length out.old) refusal) }
        ensures same { self.new ≡ self.old }
    {
        if sources.len().checked_mul(targets.len()) != Some(out.len()) {
            return Err(Refusal::Lengths);
        }
        let nodes = self.nodes();
        if !are_both_nodes(sources, targets, nodes) {
            return Err(Refusal::NodeRange);
        }
        let most = MOST_LISTED as usize;
        if sources.len() > most || targets.len() > most {
            return Err(Refusal::TooLarge);
        }
        Slots::keep(alloc, &mut self.slots, nodes)?;
        let Some(slots) = &mut self.slots else {
            return Err(Refusal::NoMemory);
        };
        // No cell is written before there is memory for all.
        let asked = Asked {
            sources,
            targets,
            within,
        };
        let words = self.network.table_words(
            alloc,
            &mut self.scratch,
            &mut self.by_tree,
            slots,
            asked,
            out.len(),
        )?;
        out.copy_from_slice(&words);
        Ok(())
    }

    /// Returns the route between two nodes, or `None` if there is no walk.
    pub(crate) fn find_route(
        &mut self,
        alloc: Global,
        source: u32,
        target: u32,
    ) -> Result<Option<Route>, AllocError>
        requires source { source < nodes_of self.old.hierarchy }
        requires target { target < nodes_of self.old.hierarchy }
        ensures route { IfOk result (IsFound self.old.hierarchy source target) }
        ensures ends { IfOk result (λ answer. MatchOption answer ⊤ (λ route. All (HasEnds (nodes_of self.old.hierarchy)) route.arcs)) }
        ensures same { self.new ≡ self.old }
    {
        let hierarchy = self.network.hierarchy();
        let tree = self.network.tree();
        route_by(alloc, hierarchy, tree, &mut self.scratch, source, target)
    }
}

/// Returns the route between two nodes, by the tree of the hierarchy if there is one.
fn route_by(
    alloc: Global,
    hierarchy: &Hierarchy,
    tree: Option<&[u32]>,
    scratch: &mut Scratch,
    source: u32,
    target: u32,
) -> Result<Option<Route>, AllocError>
    requires kept { IsKeptForSome hierarchy.now }
    requires tree { MatchOption tree ⊤ (λ parents. IsTree hierarchy.now parents.now) }
    requires scratch { scratch.old ≡ nodes_of hierarchy.now }
    requires source { source < nodes_of hierarchy.now }
    requires target { target < nodes_of hierarchy.now }
    ensures route { IfOk result (λ answer. MatchOption answer (NeverMeets hierarchy.now source target) (IsRoute hierarchy.now source target)) }
    ensures walk { IfOk result (IsRouteBy hierarchy.now source target) }
    ensures few { IfOk result (λ answer. MatchOption answer ⊤ (λ route. length route.arcs < nodes_of hierarchy.now)) }
    ensures scratch { scratch.new ≡ scratch.old }
{
    match tree {
        Some(parents) => ch_tree::route(alloc, hierarchy, parents, scratch, source, target),
        None => route(alloc, hierarchy, scratch, source, target),
    }
}

/// Returns an engine that any thread may use, one at a time. This compiles only for values that can be sent to a thread.
fn for_any_thread<T: Send>(engine: T) -> T
    ensures { result ≡ engine }
{
    engine
}

//! Near rows with the sums of the kept values along the routes of their pairs.
ghost use Rattle.std.specs.Prelude.{◌≡◌, ◌<◌, length, IfErr, IfOk, MatchOption, OnOk, ⊤};
ghost use Rattle.ch_hierarchy.specs.Hierarchy.{nodes_of};
ghost use Rattle.ch_hierarchy.specs.Direction.{source_side as the_source_side, target_side as the_target_side};
ghost use Rattle.ch_engine.specs.Lines.{IsOfSome};
ghost use Rattle.ch_engine.specs.NearRows.{IsKeptRow, StaysFrom, begin_of};
ghost use Rattle.ch_engine.specs.NearSums.{AreNearSums, AreSummedRowsWritten, IsNearPair, IsNearSum, IsNearSumEnd, IsRowSumsEnd, KeepsNodes, ends_in as the_ends};
ghost use Rattle.ch_engine.specs.PlaceTrees.{IsSourceTree};
ghost use Rattle.ch_engine.specs.Refusals.{AreNodes, AreSummedRowLengths, AreSummedRowSources, IsRefusalOfSummedRows};

use crate::engine::Engine;
use crate::fault::Refusal;
use crate::near::write_row;
use crate::place_trees::PlaceTrees;
use crate::source_tree::SourceTree;
use crate::sum_meets::known_meeting;
use crate::sum_trees::TreeRoom;
use crate::sums::write_found;
use crate::words::are_nodes;
use crate::written::{RowsEnd, SummedRows};
use ch_hierarchy::{Direction, Side};
use std::alloc::{AllocError, Global};

impl Engine {
    /// Writes the same rows as [`Engine::near_rows`], and for each pair the sum of the values that [`Engine::keep_values`] keeps
    /// along its route: from the source to the place, or from the place to the source if the distances go that way. Routes and
    /// lines are those of [`Engine::routes`]. It ends before the first row that has a sum of 2^64 or more, or for which there
    /// is no room or no memory.
    ///
    /// A row takes one more search, and a look at the search tree of each of its places. That tree is found when the first row
    /// has the place, and kept until other places or other values are.
    ///
    /// # Errors
    /// `NoValues` if no values are kept, otherwise `Lengths` if the lengths do not fit, otherwise `NoPlaces` if no places are
    /// kept, otherwise `NodeRange` if a number is no node. Then nothing is written.
    pub fn kept_near_sums(
        &mut self,
        alloc: Global,
        sources: &[u32],
        ends: &mut [u64],
        weights: &mut [u64],
        places: &mut [u32],
        sums: &mut [u64],
    ) -> Result<SummedRows, Refusal>
        ensures written { IfOk result (AreSummedRowsWritten self.old sources.now ends.new weights.new places.new sums.new) }
        ensures rest { IfOk result (λ written. StaysFrom written.count ends.old ends.new) }
        ensures behind { IfOk result (λ written. StaysFrom (begin_of ends.new written.count) weights.old weights.new × StaysFrom (begin_of ends.new written.count) places.old places.new × StaysFrom (begin_of ends.new written.count) sums.old sums.new) }
        ensures fit { OnOk result (AreSummedRowSources (nodes_of self.old.hierarchy) self.old.values self.old.near sources.now (length ends.old) (length weights.old) (length places.old) (length sums.old)) }
        ensures refused { IfErr result (λ refusal. (ends.new ≡ ends.old) × (weights.new ≡ weights.old) × (places.new ≡ places.old) × (sums.new ≡ sums.old) × IsRefusalOfSummedRows (nodes_of self.old.hierarchy) self.old.values self.old.near sources.now (length ends.old) (length weights.old) (length places.old) (length sums.old) refusal) }
        ensures same { self.new ≡ self.old }
    {
        if self.values.is_none() {
            return Err(Refusal::NoValues);
        }
        let pairs = places.len();
        if sources.len() != ends.len() || weights.len() != pairs || sums.len() != pairs {
            return Err(Refusal::Lengths);
        }
        if self.kept.is_none() {
            return Err(Refusal::NoPlaces);
        }
        if !are_nodes(sources, self.nodes()) {
            return Err(Refusal::NodeRange);
        }
        Ok(self.write_summed_rows(alloc, sources, ends, weights, places, sums))
    }

    fn write_summed_rows(
        &mut self,
        alloc: Global,
        sources: &[u32],
        ends: &mut [u64],
        weights: &mut [u64],
        places: &mut [u32],
        sums: &mut [u64],
    ) -> SummedRows
        requires lengths { AreSummedRowLengths (length sources.now) (length ends.old) (length weights.old) (length places.old) (length sums.old) }
        requires sources { AreNodes (nodes_of self.old.hierarchy) sources.now }
        requires lines { IsOfSome self.old.hierarchy self.old.lines }
        requires places { KeepsNodes self.old }
        ensures written { AreSummedRowsWritten self.old sources.now ends.new weights.new places.new sums.new result }
        ensures rest { StaysFrom result.count ends.old ends.new }
        ensures behind { StaysFrom (begin_of ends.new result.count) weights.old weights.new × StaysFrom (begin_of ends.new result.count) places.old places.new × StaysFrom (begin_of ends.new result.count) sums.old sums.new }
        ensures same { self.new ≡ self.old }
    {
        let mut row = Vec::new(alloc);
        let mut found = Vec::new(alloc);
        let mut begin = 0;
        for i in 0..sources.len() {
            let count = i as u64;
            let Ok(()) = self.near_row(alloc, sources[i], &mut row) else {
                let end = RowsEnd::NoMemory;
                return SummedRows { count, end };
            };
            if row.len() > weights.len() - begin {
                let end = RowsEnd::NoRoom;
                return SummedRows { count, end };
            }
            if let Err(end) = self.row_sums(alloc, sources[i], &row, &mut found) {
                return SummedRows { count, end };
            }
            write_row(&row, begin, weights, places);
            begin = write_found(&found, begin, sums);
            ends[i] = begin as u64;
        }
        SummedRows {
            count: sources.len() as u64,
            end: RowsEnd::All,
        }
    }

    /// Finds the sums of the pairs in the row of a source.
    fn row_sums(
        &mut self,
        alloc: Global,
        source: u32,
        row: &[(u64, u32)],
        found: &mut Vec<u64>,
    ) -> Result<(), RowsEnd>
        requires source { source < nodes_of self.old.hierarchy }
        requires row { IsKeptRow self.old source row.now }
        requires lines { IsOfSome self.old.hierarchy self.old.lines }
        requires places { KeepsNodes self.old }
        ensures sums { OnOk result (AreNearSums self.old source row.now found.new.items) }
        ensures long { OnOk result (length found.new.items ≡ length row.now) }
        ensures refused { IfErr result (IsRowSumsEnd self.old source row.now) }
        ensures same { self.new ≡ self.old }
    {
        let Ok(tree) = self.find_source_tree(alloc, source) else {
            return Err(RowsEnd::NoMemory);
        };
        let ended = self.pair_sums(alloc, source, &tree, row, found);
        self.source_tree = Some(tree);
        ended
    }

    /// Finds the tree of a source on the side that the distances ask for.
    ///
    /// # Errors
    /// `AllocError` if there is no memory.
    fn find_source_tree(&mut self, alloc: Global, source: u32) -> Result<SourceTree, AllocError>
        requires { source < nodes_of self.old.hierarchy }
        ensures tree { IfOk result (IsSourceTree self.old source) }
        ensures same { self.new ≡ self.old }
    {
        let nodes = self.nodes();
        TreeRoom::keep(alloc, &mut self.trees, nodes)?;
        let mut tree = match self.source_tree.take() {
            Some(tree) => tree,
            None => SourceTree::new(alloc, nodes)?,
        };
        let Some(room) = &mut self.trees else {
            return Err(AllocError);
        };
        let Some(kept) = &self.values else {
            return Err(AllocError);
        };
        let side = source_side(self.direction);
        self.network
            .find_branches(alloc, &mut self.scratch, kept, side, source, room)?;
        tree.note(&room.branches)?;
        Ok(tree)
    }

    /// Finds the sums of the pairs in the row of a source by its tree.
    fn pair_sums(
        &mut self,
        alloc: Global,
        source: u32,
        tree: &SourceTree,
        row: &[(u64, u32)],
        found: &mut Vec<u64>,
    ) -> Result<(), RowsEnd>
        requires source { source < nodes_of self.old.hierarchy }
        requires tree { IsSourceTree self.old source tree.now }
        requires row { IsKeptRow self.old source row.now }
        requires lines { IsOfSome self.old.hierarchy self.old.lines }
        requires places { KeepsNodes self.old }
        ensures sums { OnOk result (AreNearSums self.old source row.now found.new.items) }
        ensures long { OnOk result (length found.new.items ≡ length row.now) }
        ensures refused { IfErr result (IsRowSumsEnd self.old source row.now) }
        ensures same { self.new ≡ self.old }
    {
        found.clear();
        for j in 0..row.len() {
            match self.pair_sum(alloc, source, tree, row[j]) {
                Ok(sum) => {
                    let Ok(()) = found.push(sum) else {
                        return Err(RowsEnd::NoMemory);
                    };
                }
                Err(end) => return Err(end),
            }
        }
        Ok(())
    }

    /// Finds the sum of a pair in the row of a source: by the trees of both ends, or along the route itself.
    fn pair_sum(
        &mut self,
        alloc: Global,
        source: u32,
        tree: &SourceTree,
        pair: (u64, u32),
    ) -> Result<u64, RowsEnd>
        requires source { source < nodes_of self.old.hierarchy }
        requires tree { IsSourceTree self.old source tree.now }
        requires lines { IsOfSome self.old.hierarchy self.old.lines }
        requires pair { IsNearPair self.old source pair }
        ensures sum { IfOk result (IsNearSum self.old source pair.1 pair.0) }
        ensures refused { IfErr result (IsNearSumEnd self.old source pair.1) }
        ensures same { self.new ≡ self.old }
    {
        match self.known_sum(alloc, source, tree, pair) {
            Ok(Some(sum)) => Ok(sum),
            Ok(None) => self.sum_of_route(alloc, source, pair),
            Err(_) => Err(RowsEnd::NoMemory),
        }
    }

    /// Returns the sum of a pair, if the trees of both ends tell it.
    ///
    /// # Errors
    /// `AllocError` if there is no memory.
    fn known_sum(
        &mut self,
        alloc: Global,
        source: u32,
        tree: &SourceTree,
        pair: (u64, u32),
    ) -> Result<Option<u64>, AllocError>
        requires source { source < nodes_of self.old.hierarchy }
        requires tree { IsSourceTree self.old source tree.now }
        requires lines { IsOfSome self.old.hierarchy self.old.lines }
        requires pair { IsNearPair self.old source pair }
        ensures sum { IfOk result (λ known. MatchOption known ⊤ (IsNearSum self.old source pair.1 pair.0)) }
        ensures same { self.new ≡ self.old }
    {
        let (_, place) = pair;
        self.need_tree(alloc, place)?;
        let Some(trees) = &self.place_trees else {
            return Ok(None);
        };
        let Some(branches) = trees.branches(place as usize) else {
            return Ok(None);
        };
        let Some((_, sum)) = known_meeting(tree.first_meeting(branches)) else {
            return Ok(None);
        };
        Ok(Some(sum))
    }

    /// Finds the tree of a place, unless it is known.
    ///
    /// # Errors
    /// `AllocError` if there is no memory.
    fn need_tree(&mut self, alloc: Global, place: u32) -> Result<(), AllocError>
        ensures { self.new ≡ self.old }
    {
        let place = place as usize;
        if place >= self.places.len() || has_tree(&self.place_trees, place) {
            return Ok(());
        }
        let nodes = self.nodes();
        TreeRoom::keep(alloc, &mut self.trees, nodes)?;
        // Without memory the trees are dropped.
        let mut known = self.place_trees.take();
        PlaceTrees::keep(alloc, &mut known, self.places.len())?;
        let Some(mut trees) = known else {
            return Err(AllocError);
        };
        let Some(room) = &mut self.trees else {
            return Err(AllocError);
        };
        let Some(kept) = &self.values else {
            return Err(AllocError);
        };
        let node = self.places[place];
        let side = target_side(self.direction);
        self.network
            .find_branches(alloc, &mut self.scratch, kept, side, node, room)?;
        trees.push(place, &room.branches)?;
        self.place_trees = Some(trees);
        Ok(())
    }

    /// Finds the sum of a pair along its route.
    fn sum_of_route(&mut self, alloc: Global, source: u32, pair: (u64, u32)) -> Result<u64, RowsEnd>
        requires source { source < nodes_of self.old.hierarchy }
        requires lines { IsOfSome self.old.hierarchy self.old.lines }
        requires pair { IsNearPair self.old source pair }
        ensures sum { IfOk result (IsNearSum self.old source pair.1 pair.0) }
        ensures refused { IfErr result (IsNearSumEnd self.old source pair.1) }
        ensures same { self.new ≡ self.old }
    {
        let node = self.places[pair.1 as usize];
        let (from, to) = ends_in(self.direction, source, node);
        let Ok(answer) = self.find_route(alloc, from, to) else {
            return Err(RowsEnd::NoMemory);
        };
        let Some(kept) = &self.values else {
            return Err(RowsEnd::NoMemory);
        };
        match self.network.sum_along(&answer, &kept.values) {
            Some(sum) => Ok(sum),
            None => Err(RowsEnd::TooLarge),
        }
    }
}

/// Whether the tree of a place is known.
fn has_tree(trees: &Option<PlaceTrees>, place: usize) -> bool {
    match trees {
        Some(trees) => trees.branches(place).is_some(),
        None => false,
    }
}

/// Returns the side of the searches from sources.
fn source_side(direction: Direction) -> Side
    ensures { result ≡ the_source_side direction }
{
    match direction {
        Direction::To => Side::Up,
        Direction::From => Side::Down,
    }
}

/// Returns the side of the searches from places.
fn target_side(direction: Direction) -> Side
    ensures { result ≡ the_target_side direction }
{
    match direction {
        Direction::To => Side::Down,
        Direction::From => Side::Up,
    }
}

/// Returns where the route of a source and a place begins and where it ends.
fn ends_in(direction: Direction, source: u32, place: u32) -> (u32, u32)
    ensures { result ≡ the_ends direction source place }
{
    match direction {
        Direction::To => (source, place),
        Direction::From => (place, source),
    }
}

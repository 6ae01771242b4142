//! Near rows of an engine, over the places that it keeps.
ghost use Rattle.std.specs.Prelude.{◌≡◌, ◌*◌, ◌+◌, ◌<◌, ◌≤◌, ℕ, length, slice_index, IfErr, IfOk, OnOk, IsSome};
ghost use Rattle.ch_hierarchy.specs.Hierarchy.{nodes_of};
ghost use Rattle.ch_engine.specs.Held.{with_places};
ghost use Rattle.ch_engine.specs.NearRows.{AreRowsWritten, IsKeptRow, StandsAt, StaysFrom, begin_of};
ghost use Rattle.ch_engine.specs.NearTable.{AreCellsWritten, AreKeptCells, KeepsAll, places_of};
ghost use Rattle.ch_engine.specs.Refusals.{AreCellSources, AreNodes, ArePlaces, AreRowSources, IsRefusalOfCells, IsRefusalOfPlaces, IsRefusalOfRows, IsRefusalOfSweep};

use crate::engine::Engine;
use crate::fault::Refusal;
use crate::sums::write_found;
use crate::words::are_nodes;
use crate::written::{End, Written};
use ch_graph::limits::MOST_LISTED;
use ch_hierarchy::Direction;
use ch_rows::KeptTargets;
use std::alloc::{AllocError, Global};

impl Engine {
    /// Searches from places and keeps the results for near rows. They replace the places that were kept. A row has
    /// the first `count` places in order of distance, or all if `count` is `None`. With a limit it has only the
    /// places whose distance is at most the limit.
    ///
    /// # Errors
    /// `TooLarge` if there are too many places, otherwise `NodeRange` if a place is no node; or `NoMemory`. Then the
    /// places that were kept stay.
    pub fn keep_places(
        &mut self,
        alloc: Global,
        direction: Direction,
        places: &[u32],
        within: Option<u64>,
        count: Option<u32>,
    ) -> Result<(), Refusal>
        ensures kept { OnOk result (self.new ≡ with_places self.old (record { direction = direction; targets = places.now; limit = within; count = count })) }
        ensures fit { OnOk result (ArePlaces (nodes_of self.old.hierarchy) places.now) }
        ensures refused { IfErr result (λ refusal. (self.new ≡ self.old) × IsRefusalOfPlaces (nodes_of self.old.hierarchy) places.now refusal) }
    {
        if places.len() > MOST_LISTED as usize {
            return Err(Refusal::TooLarge);
        }
        if !are_nodes(places, self.nodes()) {
            return Err(Refusal::NodeRange);
        }
        let hierarchy = self.network.hierarchy();
        let kept = KeptTargets::search(alloc, hierarchy, direction, places, within, count)?;
        let nodes = Vec::from_slice(alloc, places)?;
        self.kept = Some(kept);
        self.direction = direction;
        self.places = nodes;
        self.place_trees = None;
        Ok(())
    }

    /// Makes the rows of all nodes in one sweep, and keeps them. After that no row needs a search.
    ///
    /// # Errors
    /// `NoPlaces` or `NoMemory`.
    pub fn sweep(&mut self, alloc: Global) -> Result<(), Refusal>
        ensures refused { IfErr result (IsRefusalOfSweep self.old.near) }
        ensures some { OnOk result (IsSome self.old.near) }
        ensures same { self.new ≡ self.old }
    {
        let hierarchy = self.network.hierarchy();
        let Some(kept) = &mut self.kept else {
            return Err(Refusal::NoPlaces);
        };
        kept.sweep(alloc, hierarchy)?;
        Ok(())
    }

    /// Writes the rows of sources, one after the other: the end of each row, and the distance and the place of each
    /// of its pairs. It ends before the first row for which there is no room or no memory. A row has at most as many
    /// pairs as there are places, so room for that many is always enough for one row.
    ///
    /// # Errors
    /// `Lengths` if the lengths do not fit, otherwise `NoPlaces` if no places are kept, otherwise `NodeRange` if a
    /// number is no node. Then nothing is written.
    pub fn near_rows(
        &mut self,
        alloc: Global,
        sources: &[u32],
        ends: &mut [u64],
        weights: &mut [u64],
        places: &mut [u32],
    ) -> Result<Written, Refusal>
        ensures written { IfOk result (AreRowsWritten self.old sources.now ends.new weights.new places.new) }
        ensures rest { IfOk result (λ written. StaysFrom written.count ends.old ends.new) }
        ensures behind { IfOk result (λ written. StaysFrom (begin_of ends.new written.count) weights.old weights.new × StaysFrom (begin_of ends.new written.count) places.old places.new) }
        ensures fit { OnOk result (AreRowSources (nodes_of self.old.hierarchy) self.old.near sources.now (length ends.old) (length weights.old) (length places.old)) }
        ensures refused { IfErr result (λ refusal. (ends.new ≡ ends.old) × (weights.new ≡ weights.old) × (places.new ≡ places.old) × IsRefusalOfRows (nodes_of self.old.hierarchy) self.old.near sources.now (length ends.old) (length weights.old) (length places.old) refusal) }
        ensures same { self.new ≡ self.old }
    {
        if sources.len() != ends.len() || weights.len() != places.len() {
            return Err(Refusal::Lengths);
        }
        if self.kept.is_none() {
            return Err(Refusal::NoPlaces);
        }
        if !are_nodes(sources, self.nodes()) {
            return Err(Refusal::NodeRange);
        }
        Ok(self.write_rows(alloc, sources, ends, weights, places))
    }

    fn write_rows(
        &mut self,
        alloc: Global,
        sources: &[u32],
        ends: &mut [u64],
        weights: &mut [u64],
        places: &mut [u32],
    ) -> Written
        requires lengths { (length sources.now ≡ length ends.old) × (length weights.old ≡ length places.old) }
        requires sources { AreNodes (nodes_of self.old.hierarchy) sources.now }
        ensures written { AreRowsWritten self.old sources.now ends.new weights.new places.new result }
        ensures rest { StaysFrom result.count ends.old ends.new }
        ensures behind { StaysFrom (begin_of ends.new result.count) weights.old weights.new × StaysFrom (begin_of ends.new result.count) places.old places.new }
        ensures same { self.new ≡ self.old }
    {
        let mut row = Vec::new(alloc);
        let mut begin = 0;
        for i in 0..sources.len() {
            let count = i as u64;
            let Ok(()) = self.near_row(alloc, sources[i], &mut row) else {
                let end = End::NoMemory;
                return Written { count, end };
            };
            if row.len() > weights.len() - begin {
                let end = End::NoRoom;
                return Written { count, end };
            }
            write_row(&row, begin, weights, places);
            begin += row.len();
            ends[i] = begin as u64;
        }
        Written {
            count: sources.len() as u64,
            end: End::All,
        }
    }

    /// Makes the row of a source, if places are kept.
    pub(crate) fn near_row(
        &mut self,
        alloc: Global,
        source: u32,
        row: &mut Vec<(u64, u32)>,
    ) -> Result<(), AllocError>
        requires { source < nodes_of self.old.hierarchy }
        ensures row { OnOk result (IsKeptRow self.old source row.new.items) }
        ensures same { self.new ≡ self.old }
    {
        let hierarchy = self.network.hierarchy();
        match &mut self.kept {
            Some(kept) => kept.row(alloc, hierarchy, source, row),
            None => Ok(()),
        }
    }

    /// Writes rows of a table, one after the other: for each source the distance of each kept place, in their order, as
    /// [`Engine::table`] writes it. It ends before the first row for which there is no memory.
    ///
    /// # Errors
    /// `NoPlaces` if no places are kept, or fewer than all for a row, otherwise `Lengths` if the lengths do not fit,
    /// otherwise `NodeRange` if a number is no node. Then nothing is written.
    pub fn near_table(
        &mut self,
        alloc: Global,
        sources: &[u32],
        cells: &mut [u64],
    ) -> Result<Written, Refusal>
        ensures written { IfOk result (AreCellsWritten self.old sources.now cells.new) }
        ensures behind { IfOk result (λ written. StaysFrom (written.count * places_of self.old.near) cells.old cells.new) }
        ensures fit { OnOk result (AreCellSources (nodes_of self.old.hierarchy) self.old.near sources.now (length cells.old)) }
        ensures refused { IfErr result (λ refusal. (cells.new ≡ cells.old) × IsRefusalOfCells (nodes_of self.old.hierarchy) self.old.near sources.now (length cells.old) refusal) }
        ensures same { self.new ≡ self.old }
    {
        let Some(kept) = &self.kept else {
            return Err(Refusal::NoPlaces);
        };
        if !kept.is_whole() {
            return Err(Refusal::NoPlaces);
        }
        if sources.len().checked_mul(self.places.len()) != Some(cells.len()) {
            return Err(Refusal::Lengths);
        }
        if !are_nodes(sources, self.nodes()) {
            return Err(Refusal::NodeRange);
        }
        Ok(self.write_cells(alloc, sources, cells))
    }

    fn write_cells(&mut self, alloc: Global, sources: &[u32], cells: &mut [u64]) -> Written
        requires whole { KeepsAll self.old.near }
        requires room { length cells.old ≡ length sources.now * places_of self.old.near }
        requires sources { AreNodes (nodes_of self.old.hierarchy) sources.now }
        ensures written { AreCellsWritten self.old sources.now cells.new result }
        ensures behind { StaysFrom (result.count * places_of self.old.near) cells.old cells.new }
        ensures same { self.new ≡ self.old }
    {
        let mut row = Vec::new(alloc);
        let mut begin = 0;
        for i in 0..sources.len() {
            let Ok(()) = self.near_cells(alloc, sources[i], &mut row) else {
                return Written {
                    count: i as u64,
                    end: End::NoMemory,
                };
            };
            begin = write_found(&row, begin, cells);
        }
        Written {
            count: sources.len() as u64,
            end: End::All,
        }
    }

    /// Makes the cells of a source, if places are kept.
    fn near_cells(
        &mut self,
        alloc: Global,
        source: u32,
        row: &mut Vec<u64>,
    ) -> Result<(), AllocError>
        requires whole { KeepsAll self.old.near }
        requires source { source < nodes_of self.old.hierarchy }
        ensures row { OnOk result (AreKeptCells self.old source row.new.items) }
        ensures same { self.new ≡ self.old }
    {
        let hierarchy = self.network.hierarchy();
        match &mut self.kept {
            Some(kept) => kept.write_cells(alloc, hierarchy, source, row),
            None => Ok(()),
        }
    }
}

/// Writes the weights and the places of a row from the place `begin` on.
pub(crate) fn write_row(row: &[(u64, u32)], begin: usize, weights: &mut [u64], places: &mut [u32])
    requires room { begin + length row.now ≤ length weights.old }
    requires lengths { length weights.old ≡ length places.old }
    ensures stands { StandsAt begin row.now weights.new places.new }
    ensures before { (k : ℕ) → k < begin → (slice_index weights.new k ≡ slice_index weights.old k) × (slice_index places.new k ≡ slice_index places.old k) }
    ensures behind { StaysFrom (begin + length row.now) weights.old weights.new × StaysFrom (begin + length row.now) places.old places.new }
    ensures lengths { (length weights.new ≡ length weights.old) × (length places.new ≡ length places.old) }
{
    for j in 0..row.len() {
        let (weight, place) = row[j];
        weights[begin + j] = weight;
        places[begin + j] = place;
    }
}

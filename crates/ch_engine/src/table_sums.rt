//! Sums of values along the routes of the cells of a table.
ghost use Rattle.std.specs.Prelude.{◌≡◌, ◌+◌, ◌*◌, ◌<◌, ◌≤◌, ℕ, List, length, slice_index, IfErr, IfOk, MatchOption, OnOk, false, true, ⊤};
ghost use Rattle.ch_hierarchy.specs.Hierarchy.{LevelsAndLegs, nodes_of};
ghost use Rattle.ch_engine.specs.Held.{only};
ghost use Rattle.ch_engine.specs.LegSums.{AreKeptOfLines, AreKeptSums};
ghost use Rattle.ch_engine.specs.Lines.{IsOfSome, Lines};
ghost use Rattle.ch_engine.specs.NearRows.{StaysFrom};
ghost use Rattle.ch_engine.specs.Refusals.{AreKeptSumLists, AreNodes, IsCellRoom, IsRefusalOfKeptSums};
ghost use Rattle.ch_engine.specs.RouteSums.{IsPairSum};
ghost use Rattle.ch_engine.specs.Routes.{IsFound};
ghost use Rattle.ch_engine.specs.TableSums.{AreCells, AreKeptSumsWritten, AreRowSums, AreStops, AreTableSumsWritten, IsCell, IsCellEnd, IsEarly, IsRowEnd, IsWhole};

use crate::engine::Engine;
use crate::fault::Refusal;
use crate::leg_sums::{KeptSums, UNKNOWN};
use crate::network::Network;
use crate::route_sums::write_pair;
use crate::routes::weight_of;
use crate::slots::Slots;
use crate::sum_meets::{Meeting, Stops, SumTable};
use crate::sum_trees::TreeRoom;
use crate::words::{NO_DISTANCE, are_both_nodes};
use crate::written::{Summed, SumsEnd};
use ch_query::{Route, Scratch, route};
use std::alloc::{AllocError, Global};
use std::sync::Arc;

impl Engine {
    /// Writes the weight of the route of each cell of a table as a word, and the sum of the values that [`Engine::keep_values`]
    /// keeps on the lines of its arcs, row after row. Routes and lines are those of [`Engine::routes`]. Without a walk the word
    /// is [`NO_DISTANCE`] and the sum is 0. It ends before the first cell whose sum is 2^64 or more, or before a row for which
    /// there is no memory.
    ///
    /// Each source and each target takes one search. A table takes about twice as long as one of [`Engine::table`], on a network
    /// of any size.
    ///
    /// # Errors
    /// `NoValues` if no values are kept, otherwise `Lengths` if the lengths do not fit, otherwise `NodeRange` if a number is no
    /// node. Then nothing is written.
    pub fn kept_table_sums(
        &mut self,
        alloc: Global,
        sources: &[u32],
        targets: &[u32],
        weights: &mut [u64],
        sums: &mut [u64],
    ) -> Result<Summed, Refusal>
        ensures written { IfOk result (AreKeptSumsWritten self.old sources.now targets.now weights.new sums.new) }
        ensures behind { IfOk result (λ summed. StaysFrom summed.count weights.old weights.new × StaysFrom summed.count sums.old sums.new) }
        ensures fit { OnOk result (AreKeptSumLists (nodes_of self.old.hierarchy) self.old.values sources.now targets.now (length weights.old) (length sums.old)) }
        ensures refused { IfErr result (λ refusal. (weights.new ≡ weights.old) × (sums.new ≡ sums.old) × IsRefusalOfKeptSums (nodes_of self.old.hierarchy) self.old.values sources.now targets.now (length weights.old) (length sums.old) refusal) }
        ensures same { self.new ≡ self.old }
    {
        let Some(kept) = &self.values else {
            return Err(Refusal::NoValues);
        };
        let cells = sources.len().checked_mul(targets.len());
        if cells != Some(weights.len()) || cells != Some(sums.len()) {
            return Err(Refusal::Lengths);
        }
        let count = self.nodes();
        if !are_both_nodes(sources, targets, count) {
            return Err(Refusal::NodeRange);
        }
        let Ok(kept) = Arc::try_clone(kept) else {
            return Ok(ended(0, SumsEnd::NoMemory));
        };
        Ok(self.write_table_sums(alloc, &kept, sources, targets, weights, sums))
    }

    fn write_table_sums<'a>(
        &mut self,
        alloc: Global,
        kept: &'a KeptSums,
        sources: &'a [u32],
        targets: &'a [u32],
        weights: &mut [u64],
        sums: &mut [u64],
    ) -> Summed
        requires lengths { IsCellRoom (length sources.now) (length targets.now) (length weights.old) (length sums.old) }
        requires sources { AreNodes (nodes_of self.old.hierarchy) sources.now }
        requires targets { AreNodes (nodes_of self.old.hierarchy) targets.now }
        requires lines { IsOfSome self.old.hierarchy self.old.lines }
        requires kept { AreKeptOfLines self.old.hierarchy self.old.lines kept.now }
        ensures written { AreTableSumsWritten self.old sources.now targets.now kept.now.values.items weights.new sums.new result }
        ensures behind { StaysFrom result.count weights.old weights.new × StaysFrom result.count sums.old sums.new }
        ensures same { self.new ≡ self.old }
    {
        let none = ended(0, SumsEnd::NoMemory);
        let nodes = self.nodes();
        let Ok(()) = Slots::keep(alloc, &mut self.slots, nodes) else {
            return none;
        };
        let Ok(()) = TreeRoom::keep(alloc, &mut self.trees, nodes) else {
            return none;
        };
        let Some(slots) = &mut self.slots else {
            return none;
        };
        let Some(room) = &mut self.trees else {
            return none;
        };
        let table = SumTable {
            alloc,
            kept,
            sources,
            targets,
        };
        self.network
            .write_table(&mut self.scratch, &table, slots, room, weights, sums)
    }
}

/// Where a row of a table begins.
#[derive(Clone, Copy)]
struct Start {
    source: u32,
    /// The place of its first cell.
    first: usize,
}

impl Network {
    /// Writes the cells of all rows, one row after the other.
    fn write_table(
        &self,
        scratch: &mut Scratch,
        table: &SumTable<'_>,
        slots: &mut Slots,
        room: &mut TreeRoom,
        weights: &mut [u64],
        sums: &mut [u64],
    ) -> Summed
        requires scratch { scratch.old ≡ nodes_of self.now.0 }
        requires slots { slots.old.numbers ≡ nodes_of self.now.0 }
        requires lines { IsOfSome self.now.0 self.now.1 }
        requires kept { AreKeptSums self.now.0 self.now.1 table.now.kept.now }
        requires cells { (length weights.old ≡ length table.now.sources.now * length table.now.targets.now) × (length sums.old ≡ length table.now.sources.now * length table.now.targets.now) }
        requires values { length table.now.kept.now.values.items ≡ self.now.1.count }
        requires sources { AreNodes (nodes_of self.now.0) table.now.sources.now }
        requires targets { AreNodes (nodes_of self.now.0) table.now.targets.now }
        ensures written { AreTableSumsWritten (only self.now.0 self.now.1) table.now.sources.now table.now.targets.now table.now.kept.now.values.items weights.new sums.new result }
        ensures behind { StaysFrom result.count weights.old weights.new × StaysFrom result.count sums.old sums.new }
        ensures slots { slots.new.numbers ≡ slots.old.numbers }
        ensures scratch { scratch.new ≡ scratch.old }
    {
        let (kept, targets) = (table.kept, table.targets);
        let Ok(rows) = self.find_stops(table.alloc, scratch, kept, targets, slots, room) else {
            return ended(0, SumsEnd::NoMemory);
        };
        let stops = Stops {
            slots: &*slots,
            rows,
        };
        self.write_rows(scratch, table, &stops, room, weights, sums)
    }

    /// Writes the cells of all rows, by the stops of all targets.
    fn write_rows(
        &self,
        scratch: &mut Scratch,
        table: &SumTable<'_>,
        stops: &Stops<'_>,
        room: &mut TreeRoom,
        weights: &mut [u64],
        sums: &mut [u64],
    ) -> Summed
        requires scratch { scratch.old ≡ nodes_of self.now.0 }
        requires lines { IsOfSome self.now.0 self.now.1 }
        requires kept { AreKeptSums self.now.0 self.now.1 table.now.kept.now }
        requires cells { (length weights.old ≡ length table.now.sources.now * length table.now.targets.now) × (length sums.old ≡ length table.now.sources.now * length table.now.targets.now) }
        requires values { length table.now.kept.now.values.items ≡ self.now.1.count }
        requires sources { AreNodes (nodes_of self.now.0) table.now.sources.now }
        requires targets { AreNodes (nodes_of self.now.0) table.now.targets.now }
        requires count { length stops.now.rows ≡ length stops.now.slots.now.names }
        requires stops { AreStops self.now.0 self.now.1 table.now.kept.now.values.items table.now.targets.now stops.now.slots.now.names stops.now.rows }
        ensures written { AreTableSumsWritten (only self.now.0 self.now.1) table.now.sources.now table.now.targets.now table.now.kept.now.values.items weights.new sums.new result }
        ensures behind { StaysFrom result.count weights.old weights.new × StaysFrom result.count sums.old sums.new }
        ensures scratch { scratch.new ≡ scratch.old }
    {
        let mut first = 0;
        for i in 0..table.sources.len() {
            let source = table.sources[i];
            let Ok(row) = self.find_row(scratch, table, source, stops, room) else {
                return ended(first, SumsEnd::NoMemory);
            };
            let start = Start { source, first };
            let (count, end) = self.write_row(scratch, table, start, &row, weights, sums);
            first += count;
            if !is_all(end) {
                return ended(first, end);
            }
        }
        ended(first, SumsEnd::All)
    }

    /// Writes the cells of a row. Returns their number, and why no more were written.
    fn write_row(
        &self,
        scratch: &mut Scratch,
        table: &SumTable<'_>,
        start: Start,
        row: &[Option<Meeting>],
        weights: &mut [u64],
        sums: &mut [u64],
    ) -> (usize, SumsEnd)
        requires scratch { scratch.old ≡ nodes_of self.now.0 }
        requires source { start.source < nodes_of self.now.0 }
        requires targets { AreNodes (nodes_of self.now.0) table.now.targets.now }
        requires values { length table.now.kept.now.values.items ≡ self.now.1.count }
        requires lines { IsOfSome self.now.0 self.now.1 }
        requires row { AreCells self.now.0 self.now.1 table.now.kept.now.values.items start.source table.now.targets.now row.now }
        requires fits { (start.first + length table.now.targets.now ≤ length weights.old) × (start.first + length table.now.targets.now ≤ length sums.old) }
        ensures cells { AreRowSums (only self.now.0 self.now.1) table.now.kept.now.values.items start.source table.now.targets.now start.first weights.new sums.new result.0 }
        ensures end { IsRowEnd (only self.now.0 self.now.1) table.now.kept.now.values.items start.source table.now.targets.now result.0 result.1 }
        ensures before { (k : ℕ) → k < start.first → (slice_index weights.new k ≡ slice_index weights.old k) × (slice_index sums.new k ≡ slice_index sums.old k) }
        ensures behind { StaysFrom (start.first + result.0) weights.old weights.new × StaysFrom (start.first + result.0) sums.old sums.new }
        ensures lengths { (length weights.new ≡ length weights.old) × (length sums.new ≡ length sums.old) }
        ensures scratch { scratch.new ≡ scratch.old }
    {
        let Start { source, first } = start;
        let (alloc, kept) = (table.alloc, table.kept);
        for c in 0..table.targets.len() {
            match self.cell_sum(alloc, scratch, kept, source, table.targets[c], row[c]) {
                Ok((weight, sum)) => write_pair(first + c, weight, sum, weights, sums),
                Err(end) => return (c, end),
            }
        }
        (table.targets.len(), SumsEnd::All)
    }

    /// Returns the weight and the sum of a cell whose trees meet here, or why there are none.
    fn cell_sum(
        &self,
        alloc: Global,
        scratch: &mut Scratch,
        kept: &KeptSums,
        source: u32,
        target: u32,
        met: Option<Meeting>,
    ) -> Result<(u64, u64), SumsEnd>
        requires scratch { scratch.old ≡ nodes_of self.now.0 }
        requires source { source < nodes_of self.now.0 }
        requires target { target < nodes_of self.now.0 }
        requires values { length kept.now.values.items ≡ self.now.1.count }
        requires lines { IsOfSome self.now.0 self.now.1 }
        requires met { IsCell self.now.0 self.now.1 kept.now.values.items source target met }
        ensures cell { IfOk result (λ found. IsPairSum (only self.now.0 self.now.1) kept.now.values.items source target found.0 found.1) }
        ensures refused { IfErr result (IsCellEnd (only self.now.0 self.now.1) kept.now.values.items source target) }
        ensures scratch { scratch.new ≡ scratch.old }
    {
        if let Some(found) = known_cell(met) {
            return Ok(found);
        }
        let Ok(answer) = self.route_between(alloc, scratch, source, target) else {
            return Err(SumsEnd::NoMemory);
        };
        match self.sum_along(&answer, &kept.values) {
            Some(sum) => Ok((weight_of(&answer), sum)),
            None => Err(SumsEnd::TooLarge),
        }
    }

    /// Returns the route between two nodes.
    fn route_between(
        &self,
        alloc: Global,
        scratch: &mut Scratch,
        source: u32,
        target: u32,
    ) -> Result<Option<Route>, AllocError>
        requires scratch { scratch.old ≡ nodes_of self.now.0 }
        requires source { source < nodes_of self.now.0 }
        requires target { target < nodes_of self.now.0 }
        ensures route { IfOk result (IsFound self.now.0 source target) }
        ensures scratch { scratch.new ≡ scratch.old }
    {
        route(alloc, self.hierarchy(), scratch, source, target)
    }
}

/// Returns the weight and the sum of a cell whose trees meet here, if the sum is known.
fn known_cell(met: Option<Meeting>) -> Option<(u64, u64)>
    ensures { (H : LevelsAndLegs) (lines : Lines) (values : List ℕ) (s t : ℕ) → IsOfSome H lines → t < nodes_of H → IsCell H lines values s t met → MatchOption result ⊤ (λ found. IsPairSum (only H lines) values s t found.0 found.1) }
{
    let Some(first) = met else {
        return Some((NO_DISTANCE, 0));
    };
    let sum = first.sum;
    if sum == UNKNOWN {
        return None;
    }
    Some((first.cost.weight, sum))
}

/// Returns whether all cells of a row were written.
fn is_all(end: SumsEnd) -> bool
    ensures whole { result ≡ true → IsWhole end }
    ensures early { result ≡ false → IsEarly end }
{
    match end {
        SumsEnd::All => true,
        SumsEnd::TooLarge => false,
        SumsEnd::NoMemory => false,
    }
}

/// Returns what became of a table after so many cells.
fn ended(cells: usize, end: SumsEnd) -> Summed
    ensures { (result.count ≡ cells) × (result.end ≡ end) }
{
    Summed {
        count: cells as u64,
        end,
    }
}

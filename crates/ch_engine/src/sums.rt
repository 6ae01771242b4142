//! Sums of values over near rows, added up while the rows are made.
ghost use Rattle.std.specs.Prelude.{◌≡◌, ◌*◌, ◌+◌, ◌^◌, ◌<◌, ◌≤◌, ℕ, true, false, length, slice_index, All, IfErr, IfOk, MatchOption, OnOk};
ghost use Rattle.ch_hierarchy.specs.Hierarchy.{nodes_of};
ghost use Rattle.ch_engine.specs.NearRows.{StaysFrom};
ghost use Rattle.ch_engine.specs.Refusals.{AreNodes, AreSumSources, HasValues, IsRefusalOfSums};
ghost use Rattle.ch_engine.specs.Routes.{HoldsFrom};
ghost use Rattle.ch_engine.specs.Sums.{AreSumsWritten, share_of as the_share, sum_within as the_sum};

use crate::engine::Engine;
use crate::fault::Refusal;
use crate::words::are_nodes;
use crate::written::{Summed, SumsEnd};
use std::alloc::Global;

impl Engine {
    /// Writes sums over the near rows of sources. For each source there is one sum for each limit: of the values of
    /// the places in its row whose distances are at most the limit. There is a value for each kept place. It ends
    /// before the first source that has a sum of 2^64 or more, or for whose row there is no memory.
    ///
    /// # Errors
    /// `NoPlaces` if no places are kept, otherwise `Lengths` if the lengths do not fit, otherwise `NodeRange` if a
    /// number is no node. Then nothing is written.
    pub fn near_sums(
        &mut self,
        alloc: Global,
        sources: &[u32],
        values: &[u64],
        limits: &[u64],
        sums: &mut [u64],
    ) -> Result<Summed, Refusal>
        ensures written { IfOk result (AreSumsWritten self.old sources.now values.now limits.now sums.new) }
        ensures behind { IfOk result (λ summed. StaysFrom (summed.count * length limits.now) sums.old sums.new) }
        ensures fit { OnOk result (AreSumSources (nodes_of self.old.hierarchy) self.old.near sources.now values.now (length limits.now) (length sums.old)) }
        ensures refused { IfErr result (λ refusal. (sums.new ≡ sums.old) × IsRefusalOfSums (nodes_of self.old.hierarchy) self.old.near sources.now values.now (length limits.now) (length sums.old) refusal) }
        ensures same { self.new ≡ self.old }
    {
        if self.kept.is_none() {
            return Err(Refusal::NoPlaces);
        }
        let room = sources.len().checked_mul(limits.len());
        if values.len() != self.places.len() || room != Some(sums.len()) {
            return Err(Refusal::Lengths);
        }
        if !are_nodes(sources, self.nodes()) {
            return Err(Refusal::NodeRange);
        }
        Ok(self.write_sums(alloc, sources, values, limits, sums))
    }

    fn write_sums(
        &mut self,
        alloc: Global,
        sources: &[u32],
        values: &[u64],
        limits: &[u64],
        sums: &mut [u64],
    ) -> Summed
        requires values { HasValues self.old.near values.now }
        requires room { length sums.old ≡ length sources.now * length limits.now }
        requires sources { AreNodes (nodes_of self.old.hierarchy) sources.now }
        ensures written { AreSumsWritten self.old sources.now values.now limits.now sums.new result }
        ensures behind { StaysFrom (result.count * length limits.now) sums.old sums.new }
        ensures same { self.new ≡ self.old }
    {
        let mut row = Vec::new(alloc);
        let Ok(mut room) = vec![in alloc; 0; limits.len()] else {
            let end = SumsEnd::NoMemory;
            return Summed { count: 0, end };
        };
        let found = room.as_mut_slice();
        let mut begin = 0;
        for i in 0..sources.len() {
            let count = i as u64;
            let Ok(()) = self.near_row(alloc, sources[i], &mut row) else {
                let end = SumsEnd::NoMemory;
                return Summed { count, end };
            };
            if !add_up(&row, values, limits, found) {
                let end = SumsEnd::TooLarge;
                return Summed { count, end };
            }
            begin = write_found(found, begin, sums);
        }
        Summed {
            count: sources.len() as u64,
            end: SumsEnd::All,
        }
    }
}

/// Writes the sum of a row for each limit. Returns `false` if one of them is 2^64 or more.
fn add_up(row: &[(u64, u32)], values: &[u64], limits: &[u64], found: &mut [u64]) -> bool
    requires places { All (λ e. e.1 < length values.now) row.now }
    requires room { length found.old ≡ length limits.now }
    ensures all { result ≡ true → (j : ℕ) → j < length limits.now → slice_index found.new j ≡ the_sum values.now (slice_index limits.now j) row.now }
    ensures large { result ≡ false → (j : ℕ) × (j < length limits.now) × (2 ^ 64 ≤ the_sum values.now (slice_index limits.now j) row.now) }
    ensures room { length found.new ≡ length found.old }
{
    for j in 0..limits.len() {
        let Some(sum) = sum_within(row, values, limits[j]) else {
            return false;
        };
        found[j] = sum;
    }
    true
}

/// Returns the sum of the values of the places in a row whose distances are at most the limit, or `None` if it is
/// 2^64 or more.
fn sum_within(row: &[(u64, u32)], values: &[u64], limit: u64) -> Option<u64>
    requires { All (λ e. e.1 < length values.now) row.now }
    ensures { MatchOption result (2 ^ 64 ≤ the_sum values.now limit row.now) (λ sum. sum ≡ the_sum values.now limit row.now) }
{
    let mut sum: u64 = 0;
    for pair in row {
        let share = share_of(values, limit, *pair);
        let Some(more) = sum.checked_add(share) else {
            return None;
        };
        sum = more;
    }
    Some(sum)
}

/// Returns what a pair of a distance and a place counts.
#[inline]
fn share_of(values: &[u64], limit: u64, pair: (u64, u32)) -> u64
    requires { pair.1 < length values.now }
    ensures { result ≡ the_share values.now limit pair }
{
    let (weight, place) = pair;
    if weight <= limit {
        values[place as usize]
    } else {
        0
    }
}

/// Writes the sums or cells of a row from the place `begin` on, and returns where they end.
pub(crate) fn write_found(found: &[u64], begin: usize, sums: &mut [u64]) -> usize
    requires { begin + length found.now ≤ length sums.old }
    ensures end { result ≡ begin + length found.now }
    ensures holds { HoldsFrom begin found.now sums.new }
    ensures before { (k : ℕ) → k < begin → slice_index sums.new k ≡ slice_index sums.old k }
    ensures behind { StaysFrom (begin + length found.now) sums.old sums.new }
    ensures room { length sums.new ≡ length sums.old }
{
    for j in 0..found.len() {
        sums[begin + j] = found[j];
    }
    begin + found.len()
}

//! Sums of values along the routes of many pairs of nodes.
ghost use Rattle.std.specs.Prelude.{◌≡◌, ◌≢◌, ◌+◌, ◌<◌, ℕ, List, length, slice_index, slice_set, IfErr, IfOk, MatchOption, OnOk, Some, ⊤};
ghost use Rattle.ch_graph.specs.Graph.{HasEnds};
ghost use Rattle.ch_hierarchy.specs.Hierarchy.{LevelsAndLegs, nodes_of};
ghost use Rattle.ch_engine.specs.Held.{only};
ghost use Rattle.ch_engine.specs.Lines.{IsLineBy, IsOfSome, Lines as AnyLines};
ghost use Rattle.ch_engine.specs.NearRows.{StaysFrom};
ghost use Rattle.ch_engine.specs.PlaceTrees.{ArePairTrees};
ghost use Rattle.ch_engine.specs.Refusals.{AreNodes, ArePairSumLengths, IsRefusalOfPairSums};
ghost use Rattle.ch_engine.specs.RouteSums.{AreLinesAlong, ArePairSumsWritten, IsOfSomePair, IsPairSum, IsSumAlong, IsTotal, sum_on};

use crate::engine::Engine;
use crate::fault::Refusal;
use crate::network::Network;
use crate::pair_trees::{PairTrees, different};
use crate::routes::weight_of;
use crate::words::are_both_nodes;
use crate::written::{Summed, SumsEnd};
use ch_graph::InArc;
use ch_query::Route;
use std::alloc::Global;

/// Lines of the graph for each pair, up to which the sums along all legs are worth their time.
const WORTH: usize = 32;

/// Pairs for each tree, from which on trees take less time than a search for each pair.
const PAIRS: usize = 3;

impl Engine {
    /// Writes sums along the routes of pairs: the weight of each route as a word, and the sum of the values on the
    /// lines of its arcs. Routes and lines are those of [`Engine::routes`], and there is a value for each line of the
    /// graph. If there is no walk, the word is [`NO_DISTANCE`](crate::NO_DISTANCE), and the sum is 0. It ends before the
    /// first pair whose sum is 2^64 or more, or for whose route there is no memory.
    ///
    /// # Errors
    /// `Lengths` if the lengths do not fit, otherwise `NodeRange` if a number is no node. Then nothing is written.
    pub fn route_sums(
        &mut self,
        alloc: Global,
        sources: &[u32],
        targets: &[u32],
        values: &[u64],
        weights: &mut [u64],
        sums: &mut [u64],
    ) -> Result<Summed, Refusal>
        ensures written { IfOk result (ArePairSumsWritten self.old sources.now targets.now values.now weights.new sums.new) }
        ensures behind { IfOk result (λ summed. StaysFrom summed.count weights.old weights.new × StaysFrom summed.count sums.old sums.new) }
        ensures fit { OnOk result (ArePairSumLengths (length sources.now) (length targets.now) (length weights.old) (length sums.old) (length values.now) self.old.lines.count) }
        ensures known { OnOk result (AreNodes (nodes_of self.old.hierarchy) sources.now × AreNodes (nodes_of self.old.hierarchy) targets.now) }
        ensures refused { IfErr result (λ refusal. (weights.new ≡ weights.old) × (sums.new ≡ sums.old) × IsRefusalOfPairSums (nodes_of self.old.hierarchy) self.old.lines.count sources.now targets.now (length values.now) (length weights.old) (length sums.old) refusal) }
        ensures same { self.new ≡ self.old }
    {
        let pairs = sources.len();
        if targets.len() != pairs || weights.len() != pairs || sums.len() != pairs {
            return Err(Refusal::Lengths);
        }
        if values.len() != self.network.count() {
            return Err(Refusal::Lengths);
        }
        let count = self.nodes();
        if !are_both_nodes(sources, targets, count) {
            return Err(Refusal::NodeRange);
        }
        Ok(self.write_pair_sums(alloc, sources, targets, values, weights, sums))
    }

    fn write_pair_sums(
        &mut self,
        alloc: Global,
        sources: &[u32],
        targets: &[u32],
        values: &[u64],
        weights: &mut [u64],
        sums: &mut [u64],
    ) -> Summed
        requires lengths { ArePairSumLengths (length sources.now) (length targets.now) (length weights.old) (length sums.old) (length values.now) self.old.lines.count }
        requires sources { AreNodes (nodes_of self.old.hierarchy) sources.now }
        requires targets { AreNodes (nodes_of self.old.hierarchy) targets.now }
        requires kept { IsOfSome self.old.hierarchy self.old.lines }
        ensures written { ArePairSumsWritten self.old sources.now targets.now values.now weights.new sums.new result }
        ensures behind { StaysFrom result.count weights.old weights.new × StaysFrom result.count sums.old sums.new }
        ensures same { self.new ≡ self.old }
    {
        let mut trees = self.trees_for(alloc, sources, targets, values);
        let summed = self.write_pairs_by(
            alloc, &mut trees, sources, targets, values, weights, sums,
        );
        self.keep_room(trees);
        summed
    }

    /// Writes the same by trees, as far as they tell the sums, and otherwise by a search for each pair.
    fn write_pairs_by(
        &mut self,
        alloc: Global,
        trees: &mut Option<PairTrees>,
        sources: &[u32],
        targets: &[u32],
        values: &[u64],
        weights: &mut [u64],
        sums: &mut [u64],
    ) -> Summed
        requires trees { MatchOption trees.old ⊤ (ArePairTrees self.old.hierarchy self.old.lines values.now) }
        requires lengths { ArePairSumLengths (length sources.now) (length targets.now) (length weights.old) (length sums.old) (length values.now) self.old.lines.count }
        requires sources { AreNodes (nodes_of self.old.hierarchy) sources.now }
        requires targets { AreNodes (nodes_of self.old.hierarchy) targets.now }
        requires kept { IsOfSome self.old.hierarchy self.old.lines }
        ensures written { ArePairSumsWritten self.old sources.now targets.now values.now weights.new sums.new result }
        ensures behind { StaysFrom result.count weights.old weights.new × StaysFrom result.count sums.old sums.new }
        ensures same { self.new ≡ self.old }
    {
        for i in 0..sources.len() {
            if let Some((weight, sum)) = sum_by(trees, sources[i], targets[i]) {
                write_pair(i, weight, sum, weights, sums);
                continue;
            }
            let count = i as u64;
            let Ok(answer) = self.find_route(alloc, sources[i], targets[i]) else {
                let end = SumsEnd::NoMemory;
                return Summed { count, end };
            };
            let Some(sum) = self.network.sum_along(&answer, values) else {
                let end = SumsEnd::TooLarge;
                return Summed { count, end };
            };
            write_pair(i, weight_of(&answer), sum, weights, sums);
        }
        Summed {
            count: sources.len() as u64,
            end: SumsEnd::All,
        }
    }

    /// Returns the trees of all pairs, if the sums along all legs are kept or there are so many pairs that these are worth
    /// their time, if there are so many pairs for each tree, and memory for them.
    fn trees_for(
        &mut self,
        alloc: Global,
        sources: &[u32],
        targets: &[u32],
        values: &[u64],
    ) -> Option<PairTrees>
        ensures trees { MatchOption result ⊤ (ArePairTrees self.old.hierarchy self.old.lines values.now) }
        ensures same { self.new ≡ self.old }
    {
        if sources.len() < PAIRS {
            return None;
        }
        let Ok(starts) = different(alloc, sources) else {
            return None;
        };
        let Ok(ends) = different(alloc, targets) else {
            return None;
        };
        if sources.len() / PAIRS < starts.len().saturating_add(ends.len()) {
            return None;
        }
        if sources.len() < self.network.count() / WORTH && self.known_sums(values).is_none() {
            return None;
        }
        let Ok(kept) = self.sums_for(alloc, values) else {
            return None;
        };
        self.pair_trees(alloc, &kept, starts, ends)
    }

    /// Keeps the room for the tree of a source for further calls.
    fn keep_room(&mut self, trees: Option<PairTrees>)
        ensures { self.new ≡ self.old }
    {
        let Some(trees) = trees else {
            return;
        };
        self.source_tree = Some(trees.tree);
    }
}

impl Network {
    /// Returns the sum of the values on the lines of a route's arcs, or `None` if it is 2^64 or more.
    pub(crate) fn sum_along(&self, answer: &Option<Route>, values: &[u64]) -> Option<u64>
        requires kept { IsOfSome self.now.0 self.now.1 }
        requires route { IsOfSomePair self.now.0 answer.now }
        requires values { length values.now ≡ self.now.1.count }
        ensures { (sum : ℕ) × IsSumAlong self.now.0 self.now.1 values.now answer.now sum × IsTotal sum result }
    {
        match answer {
            Some(route) => self.sum_of(route.arcs.as_slice(), values),
            None => Some(0),
        }
    }

    /// Returns the sum of the values on the lines of some arcs of a route.
    fn sum_of(&self, arcs: &[InArc], values: &[u64]) -> Option<u64>
        requires kept { IsOfSome self.now.0 self.now.1 }
        requires route { (weight : ℕ) × IsOfSomePair self.now.0 (Some (record { weight = weight; arcs = arcs.now })) }
        requires values { length values.now ≡ self.now.1.count }
        ensures { (along : List ℕ) × AreLinesAlong self.now.0 self.now.1 arcs.now along × IsTotal (sum_on values.now along) result }
    {
        let mut sum = Some(0);
        for j in 0..arcs.len() {
            let line = self.line_of(arcs[j]);
            sum = plus(sum, value_on(values, line));
        }
        sum
    }

    /// Returns the line of an arc.
    #[inline]
    fn line_of(&self, arc: InArc) -> u32
        requires { HasEnds (nodes_of self.now.0) arc }
        ensures { arc.from ≢ arc.to → IsLineBy self.now.0 self.now.1 arc.from arc.to result }
    {
        self.line(arc.from, arc.to)
    }
}

/// Returns the weight of the route of a pair and the sum along it, if there are trees that tell it.
fn sum_by(trees: &mut Option<PairTrees>, source: u32, target: u32) -> Option<(u64, u64)>
    ensures trees { (H : LevelsAndLegs) (lines : AnyLines) (values : List ℕ) → MatchOption trees.old ⊤ (ArePairTrees H lines values) → MatchOption trees.new ⊤ (ArePairTrees H lines values) }
    ensures sum { (H : LevelsAndLegs) (lines : AnyLines) (values : List ℕ) → MatchOption trees.old ⊤ (ArePairTrees H lines values) → IsOfSome H lines → target < nodes_of H → MatchOption result ⊤ (λ found. IsPairSum (only H lines) values source target found.0 found.1) }
{
    match trees {
        Some(trees) => trees.sum(source, target),
        None => None,
    }
}

/// Writes the weight and the sum of a pair at its place.
#[inline]
pub(crate) fn write_pair(place: usize, weight: u64, sum: u64, weights: &mut [u64], sums: &mut [u64])
    requires { (place < length weights.old) × (place < length sums.old) }
    ensures weights { weights.new ≡ slice_set weights.old place weight }
    ensures sums { sums.new ≡ slice_set sums.old place sum }
{
    weights[place] = weight;
    sums[place] = sum;
}

/// Returns the value on a line.
#[inline]
fn value_on(values: &[u64], line: u32) -> u64
    requires { line < length values.now }
    ensures { result ≡ slice_index values.now line }
{
    values[line as usize]
}

/// Adds a value to a sum. The sum is `None` if it is 2^64 or more.
#[inline]
fn plus(sum: Option<u64>, value: u64) -> Option<u64>
    ensures { (total : ℕ) → IsTotal total sum → IsTotal (total + value) result }
{
    match sum {
        Some(sum) => sum.checked_add(value),
        None => None,
    }
}

//! The routes of many pairs of nodes, one after the other.
ghost use Rattle.std.specs.Prelude.{◌≡◌, ◌≢◌, ◌↔◌, ◌+◌, ◌<◌, ◌≤◌, ℕ, length, slice_index, slice_index_or, All, IfErr, IfOk, IsTrue, MatchOption, OnOk, ⊤};
ghost use Rattle.ch_graph.specs.declared.arc.InArc.{InArc as AnyArc};
ghost use Rattle.ch_graph.specs.Graph.{HasEnds};
ghost use Rattle.ch_hierarchy.specs.Hierarchy.{nodes_of};
ghost use Rattle.ch_engine.specs.Lines.{IsLineBy};
ghost use Rattle.ch_engine.specs.NearRows.{StaysFrom, begin_of};
ghost use Rattle.ch_engine.specs.Refusals.{AreNodes, AreRouteLengths, IsLinesRoom, IsRefusalOfRoutes};
ghost use Rattle.ch_engine.specs.Routes.{AreNoted, AreRoutesWritten, HoldsFrom, heads_of, nodes_from, weight_word};

use crate::engine::Engine;
use crate::fault::Refusal;
use crate::lines::NO_LINE;
use crate::network::Network;
use crate::words::{NO_DISTANCE, are_both_nodes};
use crate::written::{End, Written};
use ch_graph::InArc;
use ch_query::Route;
use std::alloc::Global;

impl Engine {
    /// Writes the routes of pairs, one after the other: the weight of each as a word, the end of its nodes, and the
    /// nodes, from the source on. If there is no walk, the word is [`NO_DISTANCE`], and there are no nodes. It ends before
    /// the first route for which there is no room or no memory. Room for as many nodes as the network has is always enough
    /// for one route.
    ///
    /// If `lines` is not empty, it is as long as `nodes`. Beside each node but the first of a route stands the line of
    /// the arc that leads to it: the place of the arc in the graph's file, counted from 0. Of several arcs between two
    /// nodes it is the one of least weight, and of these the first. Beside the first node stands
    /// [`NO_LINE`](crate::NO_LINE).
    ///
    /// # Errors
    /// `Lengths` if the lengths do not fit, otherwise `NodeRange` if a number is no node. Then nothing is written.
    pub fn routes(
        &mut self,
        alloc: Global,
        sources: &[u32],
        targets: &[u32],
        weights: &mut [u64],
        ends: &mut [u64],
        nodes: &mut [u32],
        lines: &mut [u32],
    ) -> Result<Written, Refusal>
        ensures written { IfOk result (AreRoutesWritten self.old sources.now targets.now weights.new ends.new nodes.new lines.new) }
        ensures rest { IfOk result (λ written. StaysFrom written.count weights.old weights.new × StaysFrom written.count ends.old ends.new) }
        ensures behind { IfOk result (λ written. StaysFrom (begin_of ends.new written.count) nodes.old nodes.new × StaysFrom (begin_of ends.new written.count) lines.old lines.new) }
        ensures fit { OnOk result (AreRouteLengths (length sources.now) (length targets.now) (length weights.old) (length ends.old) (length nodes.old) (length lines.old)) }
        ensures known { OnOk result (AreNodes (nodes_of self.old.hierarchy) sources.now × AreNodes (nodes_of self.old.hierarchy) targets.now) }
        ensures refused { IfErr result (λ refusal. (weights.new ≡ weights.old) × (ends.new ≡ ends.old) × (nodes.new ≡ nodes.old) × (lines.new ≡ lines.old) × IsRefusalOfRoutes (nodes_of self.old.hierarchy) sources.now targets.now (length weights.old) (length ends.old) (length nodes.old) (length lines.old) refusal) }
        ensures same { self.new ≡ self.old }
    {
        let pairs = sources.len();
        if targets.len() != pairs || weights.len() != pairs || ends.len() != pairs {
            return Err(Refusal::Lengths);
        }
        if !is_lines_room(nodes.len(), lines.len()) {
            return Err(Refusal::Lengths);
        }
        let count = self.nodes();
        if !are_both_nodes(sources, targets, count) {
            return Err(Refusal::NodeRange);
        }
        Ok(self.write_routes(alloc, sources, targets, weights, ends, nodes, lines))
    }

    fn write_routes(
        &mut self,
        alloc: Global,
        sources: &[u32],
        targets: &[u32],
        weights: &mut [u64],
        ends: &mut [u64],
        nodes: &mut [u32],
        lines: &mut [u32],
    ) -> Written
        requires lengths { (length targets.now ≡ length sources.now) × (length weights.old ≡ length sources.now) × (length ends.old ≡ length sources.now) }
        requires lined { IsLinesRoom (length nodes.old) (length lines.old) }
        requires sources { AreNodes (nodes_of self.old.hierarchy) sources.now }
        requires targets { AreNodes (nodes_of self.old.hierarchy) targets.now }
        ensures written { AreRoutesWritten self.old sources.now targets.now weights.new ends.new nodes.new lines.new result }
        ensures rest { StaysFrom result.count weights.old weights.new × StaysFrom result.count ends.old ends.new }
        ensures behind { StaysFrom (begin_of ends.new result.count) nodes.old nodes.new × StaysFrom (begin_of ends.new result.count) lines.old lines.new }
        ensures same { self.new ≡ self.old }
    {
        let mut begin = 0;
        for i in 0..sources.len() {
            let count = i as u64;
            let Ok(answer) = self.find_route(alloc, sources[i], targets[i]) else {
                let end = End::NoMemory;
                return Written { count, end };
            };
            let size = size_of(sources[i], &answer);
            if size > nodes.len() - begin {
                let end = End::NoRoom;
                return Written { count, end };
            }
            write_way(sources[i], &answer, begin, nodes);
            self.network.note_route(sources[i], &answer, begin, lines);
            begin += size;
            weights[i] = weight_of(&answer);
            ends[i] = begin as u64;
        }
        Written {
            count: sources.len() as u64,
            end: End::All,
        }
    }
}

impl Network {
    /// Notes the lines of a route's arcs from the place `begin` on, if lines are asked for.
    fn note_route(&self, source: u32, answer: &Option<Route>, begin: usize, lines: &mut [u32])
        requires ends { MatchOption answer.now ⊤ (λ route. All (HasEnds (nodes_of self.now.0)) route.arcs) }
        requires room { 0 < length lines.old → begin + length (nodes_from source answer.now) ≤ length lines.old }
        ensures lines { AreNoted self.now.0 self.now.1 answer.now begin lines.new }
        ensures before { (k : ℕ) → k < begin → slice_index lines.new k ≡ slice_index lines.old k }
        ensures behind { StaysFrom (begin + length (nodes_from source answer.now)) lines.old lines.new }
        ensures room { length lines.new ≡ length lines.old }
    {
        let _ = source;
        if lines.is_empty() {
            return;
        }
        let Some(route) = answer else {
            return;
        };
        lines[begin] = NO_LINE;
        self.note_arcs(route.arcs.as_slice(), begin + 1, lines);
    }

    /// Notes the line of each arc from the place `begin` on.
    fn note_arcs(&self, arcs: &[InArc], begin: usize, lines: &mut [u32])
        requires ends { All (HasEnds (nodes_of self.now.0)) arcs.now }
        requires room { begin + length arcs.now ≤ length lines.old }
        ensures lines { (j : ℕ) (d : AnyArc) → j < length arcs.now → (slice_index_or arcs.now j d).from ≢ (slice_index_or arcs.now j d).to → IsLineBy self.now.0 self.now.1 (slice_index_or arcs.now j d).from (slice_index_or arcs.now j d).to (slice_index lines.new (begin + j)) }
        ensures before { (k : ℕ) → k < begin → slice_index lines.new k ≡ slice_index lines.old k }
        ensures behind { StaysFrom (begin + length arcs.now) lines.old lines.new }
        ensures room { length lines.new ≡ length lines.old }
    {
        for j in 0..arcs.len() {
            let arc = arcs[j];
            lines[begin + j] = self.line(arc.from, arc.to);
        }
    }
}

/// Whether so many lines can be asked for with room for so many nodes: none, or as many.
fn is_lines_room(nodes: usize, lines: usize) -> bool
    ensures { IsTrue result ↔ IsLinesRoom nodes lines }
{
    lines == 0 || lines == nodes
}

/// Returns the word of a route's weight.
pub(crate) fn weight_of(answer: &Option<Route>) -> u64
    ensures { result ≡ weight_word answer.now }
{
    match answer {
        Some(route) => route.weight,
        None => NO_DISTANCE,
    }
}

/// Returns the number of nodes of a route from `source`.
fn size_of(source: u32, answer: &Option<Route>) -> usize
    ensures { result ≡ length (nodes_from source answer.now) }
{
    let _ = source;
    match answer {
        Some(route) => route.arcs.len() + 1,
        None => 0,
    }
}

/// Writes the nodes of a route from the place `begin` on.
fn write_way(source: u32, answer: &Option<Route>, begin: usize, nodes: &mut [u32])
    requires { begin + length (nodes_from source answer.now) ≤ length nodes.old }
    ensures holds { HoldsFrom begin (nodes_from source answer.now) nodes.new }
    ensures before { (k : ℕ) → k < begin → slice_index nodes.new k ≡ slice_index nodes.old k }
    ensures behind { StaysFrom (begin + length (nodes_from source answer.now)) nodes.old nodes.new }
    ensures room { length nodes.new ≡ length nodes.old }
{
    let Some(route) = answer else {
        return;
    };
    nodes[begin] = source;
    write_heads(route.arcs.as_slice(), begin + 1, nodes);
}

/// Writes the node to which each arc leads, from the place `begin` on.
fn write_heads(arcs: &[InArc], begin: usize, nodes: &mut [u32])
    requires { begin + length arcs.now ≤ length nodes.old }
    ensures holds { HoldsFrom begin (heads_of arcs.now) nodes.new }
    ensures before { (k : ℕ) → k < begin → slice_index nodes.new k ≡ slice_index nodes.old k }
    ensures behind { StaysFrom (begin + length arcs.now) nodes.old nodes.new }
    ensures room { length nodes.new ≡ length nodes.old }
{
    for j in 0..arcs.len() {
        nodes[begin + j] = arcs[j].to;
    }
}

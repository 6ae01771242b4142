//! The lines of arcs, kept for the legs of a hierarchy.
ghost use Rattle.std.specs.Prelude.{◌≡◌, ◌≢◌, ◌⊎◌, ◌<◌, ◌≤◌, ℕ, length, slice_index, IfOk, MatchOption, OnOk};
ghost use Rattle.ch_graph.specs.declared.limits.TheConstants.{MOST_ARCS};
ghost use Rattle.ch_graph.specs.Rows.{AreRowsOf};
ghost use Rattle.ch_hierarchy.specs.Hierarchy.{nodes_of};
ghost use Rattle.ch_hierarchy.specs.Rows.{IsRow};
ghost use Rattle.ch_hierarchy.specs.Side.{rows_of};
ghost use Rattle.ch_engine.specs.Lines.{AreLinesOn, IsBetter, IsLineWord, IsSeen, IsWordAt, arc_on, ended_lines, far_end as the_far_end, near_end as the_near_end, no_line, node_at};

use ch_graph::{Graph, InArc, Rows};
use ch_hierarchy::{Hierarchy, Leg, Side};
use std::alloc::{AllocError, Global};

/// The word for no line. Each line is less.
pub const NO_LINE: u32 = u32::MAX;

/// Returns for each leg in a direction the line of the arc between its ends, or [`NO_LINE`] if there is no such arc.
/// Of several arcs between the same ends it is the one of least weight, and of these the first. It takes one look at
/// each arc, and a binary search in the legs of one of its ends.
pub(crate) fn lines_of(
    alloc: Global,
    graph: &Graph,
    hierarchy: &Hierarchy,
    side: Side,
) -> Result<Rows<u32>, AllocError>
    requires { nodes_of hierarchy.now ≡ graph.now.nodes }
    ensures { IfOk result (AreLinesOn side graph.now.arcs (rows_of hierarchy.now side)) }
{
    let arcs = graph.arcs();
    let seen = lines_by_end(alloc, graph, side)?;
    let mut rows = Rows::with_room(alloc, hierarchy.nodes(), 0)?;
    let mut row = Vec::new(alloc);
    for node in 0..hierarchy.nodes() {
        let legs = hierarchy.legs(side, node);
        find_lines(arcs, side, legs, seen.row(node), &mut row)?;
        rows.push(&row)?;
    }
    Ok(rows)
}

/// Returns for each node the lines of the arcs that have it as their end on this side.
fn lines_by_end(alloc: Global, graph: &Graph, side: Side) -> Result<Rows<u32>, AllocError>
    ensures { IfOk result (AreRowsOf graph.now.nodes (ended_lines side graph.now.arcs)) }
{
    let arcs = graph.arcs();
    let mut pairs = Vec::with_capacity(alloc, arcs.len())?;
    for line in 0..arcs.len() {
        pairs.push((near_end(side, arcs[line]), line as u32))?;
    }
    Rows::build(alloc, graph.nodes(), &pairs)
}

/// Finds for each leg of a node the line of the arc between its ends, among these lines.
fn find_lines(
    arcs: &[InArc],
    side: Side,
    legs: &[Leg],
    seen: &[u32],
    row: &mut Vec<u32>,
) -> Result<(), AllocError>
    requires few { length arcs.now ≤ MOST_ARCS }
    requires seen { (i : ℕ) → i < length seen.now → slice_index seen.now i < length arcs.now }
    requires order { IsRow legs.now }
    ensures long { OnOk result (length row.new.items ≡ length legs.now) }
    ensures each { OnOk result ((k : ℕ) → k < length legs.now → IsLineWord arcs.now (IsSeen arcs.now side seen.now (length seen.now) (node_at legs.now k)) (slice_index row.new.items k)) }
{
    row.clear();
    row.resize(legs.len(), NO_LINE)?;
    note_lines(arcs, side, legs, seen, row.as_mut_slice());
    Ok(())
}

/// Notes each of these lines beside its leg.
fn note_lines(arcs: &[InArc], side: Side, legs: &[Leg], seen: &[u32], row: &mut [u32])
    requires few { length arcs.now ≤ MOST_ARCS }
    requires seen { (i : ℕ) → i < length seen.now → slice_index seen.now i < length arcs.now }
    requires order { IsRow legs.now }
    requires long { length row.old ≡ length legs.now }
    requires none { (k : ℕ) → k < length row.old → slice_index row.old k ≡ no_line }
    ensures long { length row.new ≡ length legs.now }
    ensures each { (k : ℕ) → k < length legs.now → IsLineWord arcs.now (IsSeen arcs.now side seen.now (length seen.now) (node_at legs.now k)) (slice_index row.new k) }
{
    for i in 0..seen.len() {
        note_line(arcs, side, legs, seen[i], row);
    }
}

/// Notes a line beside its leg, if there is one, unless a line that is there precedes it.
fn note_line(arcs: &[InArc], side: Side, legs: &[Leg], line: u32, row: &mut [u32])
    requires line { line < length arcs.now }
    requires order { IsRow legs.now }
    requires long { length row.old ≡ length legs.now }
    requires words { (k : ℕ) → k < length row.old → (slice_index row.old k ≡ no_line) ⊎ (slice_index row.old k < length arcs.now) }
    ensures long { length row.new ≡ length row.old }
    ensures here { (k : ℕ) → k < length legs.now → node_at legs.now k ≡ the_far_end side (arc_on arcs.now line) → IsBetter arcs.now (slice_index row.old k) line (slice_index row.new k) }
    ensures others { (k : ℕ) → k < length legs.now → node_at legs.now k ≢ the_far_end side (arc_on arcs.now line) → slice_index row.new k ≡ slice_index row.old k }
{
    let far = far_end(side, arcs[line as usize]);
    let Some(place) = place_in(legs, far) else {
        return;
    };
    row[place] = better(arcs, row[place], line);
}

/// Returns the line that precedes: the word's, if it has one, or the other.
fn better(arcs: &[InArc], word: u32, line: u32) -> u32
    requires word { (word ≡ no_line) ⊎ (word < length arcs.now) }
    requires line { line < length arcs.now }
    ensures { IsBetter arcs.now word line result }
{
    if word == NO_LINE {
        return line;
    }
    let old = arcs[word as usize].weight;
    let new = arcs[line as usize].weight;
    if new < old {
        return line;
    }
    if new == old && line < word {
        return line;
    }
    word
}

/// Returns the end of an arc from which it is seen.
fn near_end(side: Side, arc: InArc) -> u32
    ensures { result ≡ the_near_end side arc }
{
    match side {
        Side::Up => arc.from,
        Side::Down => arc.to,
    }
}

/// Returns the other end of an arc.
fn far_end(side: Side, arc: InArc) -> u32
    ensures { result ≡ the_far_end side arc }
{
    match side {
        Side::Up => arc.to,
        Side::Down => arc.from,
    }
}

/// Returns the place of the leg at a node, if there is one, by binary search.
pub(crate) fn place_in(legs: &[Leg], node: u32) -> Option<usize>
    requires { IsRow legs.now }
    ensures { MatchOption result ((k : ℕ) → k < length legs.now → node_at legs.now k ≢ node) (λ k. (k < length legs.now) × (node_at legs.now k ≡ node)) }
{
    match legs.binary_search_by_key(&node, |leg| leg.node) {
        Ok(place) => Some(place),
        Err(_) => None,
    }
}

/// Returns the word beside the leg at a node, or [`NO_LINE`] if there is no such leg.
pub(crate) fn word_at(legs: &[Leg], words: &[u32], node: u32) -> u32
    requires order { IsRow legs.now }
    requires long { length words.now ≡ length legs.now }
    ensures { IsWordAt legs.now words.now node result }
{
    match place_in(legs, node) {
        Some(place) => words[place],
        None => NO_LINE,
    }
}

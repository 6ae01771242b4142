//! One part of a graph, with numbers of its own, from 0 on.
ghost use Rattle.std.specs.Prelude.{◌≡◌, ◌+◌, ◌<◌, ◌≤◌, length, vec_len, IfOk, OnOk};
ghost use Rattle.ch_dissect.specs.Rows.{AreBelow, AreUpTo, IsPart};

use crate::neighbours::Neighbours;
use crate::nodes::push_node;
use std::alloc::{AllocError, Global};

/// The edges within a part. Each edge is two arcs, one of each of its ends.
#[derive(Drop)]
pub(crate) struct Part {
    /// The number of nodes.
    pub(crate) count: u32,
    /// Where the arcs of each node begin, and then where those of the last node end.
    pub(crate) starts: Vec<u32>,
    /// The other end of each arc.
    pub(crate) heads: Vec<u32>,
    /// The arc that leads back.
    pub(crate) twins: Vec<u32>,
    ghost sound: { IsPart count starts.items heads.items twins.items },
}

impl Part {
    /// Makes a part without nodes.
    ///
    /// # Errors
    /// `AllocError` if there is no memory.
    pub(crate) fn none(alloc: Global) -> Result<Part, AllocError>
        ensures { IfOk result (λ part. part.count ≡ 0) }
    {
        let starts = vec![in alloc; 0; 1]?;
        Ok(Part {
            count: 0,
            starts,
            heads: Vec::new(alloc),
            twins: Vec::new(alloc),
        })
    }

    /// Makes a part of these `count` nodes, in the memory of an older one. The place of a node is its number, and `start` more.
    ///
    /// # Errors
    /// `AllocError` if there is no memory.
    pub(crate) fn laid(
        self,
        rows: &Neighbours,
        nodes: &[u32],
        count: u32,
        places: &[u32],
        start: u32,
        cursors: &mut Vec<u32>,
    ) -> Result<Part, AllocError>
        requires count { length nodes.now ≡ count }
        requires nodes { AreBelow rows.now.count nodes.now }
        requires places { length places.now ≡ rows.now.count }
        ensures { IfOk result (λ part. part.count ≡ count) }
    {
        let Part {
            count: _,
            mut starts,
            mut heads,
            mut twins,
        } = self;
        starts.clear();
        heads.clear();
        push_rows(rows, nodes, count, places, start, &mut starts, &mut heads)?;
        cursors.clear();
        cursors.extend_from_slice(starts.as_slice())?;
        twins.clear();
        twins.resize(heads.len(), 0)?;
        pair_all(starts.as_slice(), heads.as_slice(), &mut twins, cursors);
        Ok(Part {
            count,
            starts,
            heads,
            twins,
        })
    }
}

/// Returns how many arcs have these ends: fewer than 2^32, since a graph has no more.
fn arcs_of(heads: &[u32]) -> u32
    ensures { result ≤ length heads.now }
{
    heads.len().min(u32::MAX as usize) as u32
}

/// Appends where the arcs of each node begin, and the ends of these arcs. The last start is where they end.
fn push_rows(
    rows: &Neighbours,
    nodes: &[u32],
    count: u32,
    places: &[u32],
    start: u32,
    starts: &mut Vec<u32>,
    heads: &mut Vec<u32>,
) -> Result<(), AllocError>
    requires nodes { AreBelow rows.now.count nodes.now }
    requires count { length nodes.now ≡ count }
    requires places { length places.now ≡ rows.now.count }
    requires starts { vec_len starts.old ≡ 0 }
    requires heads { vec_len heads.old ≡ 0 }
    ensures starts { OnOk result (vec_len starts.new ≡ count + 1) }
    ensures within { OnOk result (AreUpTo (vec_len heads.new) starts.new.items) }
    ensures heads { OnOk result (AreBelow count heads.new.items) }
{
    starts.push(0)?;
    for at in 0..nodes.len() {
        push_row(rows, nodes[at], places, start, count, heads)?;
        starts.push(arcs_of(heads))?;
    }
    Ok(())
}

/// Appends the numbers below `count` of the neighbours of a node.
#[inline]
fn push_row(
    rows: &Neighbours,
    node: u32,
    places: &[u32],
    start: u32,
    count: u32,
    heads: &mut Vec<u32>,
) -> Result<(), AllocError>
    requires node { node < rows.now.count }
    requires places { length places.now ≡ rows.now.count }
    requires heads { AreBelow count heads.old.items }
    ensures heads { AreBelow count heads.new.items }
    ensures len { OnOk result (vec_len heads.old ≤ vec_len heads.new) }
{
    for place in rows.starts[node as usize]..rows.ends[node as usize] {
        let number = places[rows.heads[place as usize] as usize].wrapping_sub(start);
        if number >= count {
            continue;
        }
        push_node(count, number, heads)?;
    }
    Ok(())
}

/// Pairs each arc with that which leads back. The arcs of a node are in order of their ends.
fn pair_all(starts: &[u32], heads: &[u32], twins: &mut [u32], cursors: &mut [u32])
    requires starts { AreUpTo (length heads.now) starts.now }
    requires heads { AreBelow (length cursors.old) heads.now }
    requires twins { length twins.old ≡ length heads.now }
    requires arcs { AreBelow (length heads.now) twins.old }
    ensures { AreBelow (length heads.now) twins.new }
{
    for node in 1..starts.len() {
        pair_arcs(
            heads,
            node - 1,
            starts[node - 1],
            starts[node],
            twins,
            cursors,
        );
    }
}

/// Pairs the arcs of a node to later nodes with those that lead back.
fn pair_arcs(
    heads: &[u32],
    node: usize,
    start: u32,
    end: u32,
    twins: &mut [u32],
    cursors: &mut [u32],
)
    requires end { end ≤ length heads.now }
    requires heads { AreBelow (length cursors.old) heads.now }
    requires twins { length twins.old ≡ length heads.now }
    requires arcs { AreBelow (length heads.now) twins.old }
    ensures { AreBelow (length heads.now) twins.new }
{
    for arc in start..end {
        let head = heads[arc as usize] as usize;
        let twin = cursors[head];
        if node < head && (twin as usize) < heads.len() {
            twins[arc as usize] = twin;
            twins[twin as usize] = arc;
            cursors[head] = twin.saturating_add(1);
        }
    }
}

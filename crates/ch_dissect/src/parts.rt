//! The nodes in the order that is made, and the parts of it that are not yet in order.
ghost use Rattle.std.specs.Prelude.{◌≡◌, ℕ, ◌+◌, ◌<◌, ◌≤◌, length, vec_len, IfOk, OnOk};
ghost use Rattle.ch_dissect.specs.Rows.{AreBelow};

use crate::chains::numbers_below;
use crate::shares::{count_keys, next_rank, sum_before};
use std::alloc::{AllocError, Global};

/// Nodes in order. A part is a range of places.
#[derive(Drop)]
pub(crate) struct Parts {
    /// The number of nodes.
    pub(crate) count: u32,
    /// The node at each place.
    pub(crate) nodes: Vec<u32>,
    /// The place of each node.
    pub(crate) places: Vec<u32>,
    /// Where the parts that are not yet in order begin and end.
    pub(crate) pending: Vec<(u32, u32)>,
    /// By group of the part that is arranged: the place of its next node, counted from the start of the part.
    cursors: Vec<u32>,
    /// The nodes of the part that is arranged.
    arranged: Vec<u32>,
    ghost nodes_count: { vec_len nodes ≡ count },
    ghost places_count: { vec_len places ≡ count },
    ghost below: { AreBelow count nodes.items },
}

impl Parts {
    /// Makes one part of all nodes.
    ///
    /// # Errors
    /// `AllocError` if there is no memory.
    pub(crate) fn all(alloc: Global, count: u32) -> Result<Parts, AllocError>
        ensures { IfOk result (λ parts. parts.count ≡ count) }
    {
        let mut pending = Vec::new(alloc);
        pending.push((0, count))?;
        Ok(Parts {
            count,
            nodes: numbers_below(alloc, count)?,
            places: numbers_below(alloc, count)?,
            pending,
            cursors: Vec::new(alloc),
            arranged: Vec::new(alloc),
        })
    }

    /// Copies the nodes and their places. No part of the copy waits to be put in order.
    ///
    /// # Errors
    /// `AllocError` if there is no memory.
    pub(crate) fn copied(&self, alloc: Global) -> Result<Parts, AllocError>
        ensures { IfOk result (λ parts. parts.count ≡ self.now.count) }
    {
        Ok(Parts {
            count: self.count,
            nodes: Vec::from_slice(alloc, self.nodes.as_slice())?,
            places: Vec::from_slice(alloc, self.places.as_slice())?,
            pending: Vec::new(alloc),
            cursors: Vec::new(alloc),
            arranged: Vec::new(alloc),
        })
    }

    /// Puts these nodes at the places from `start` on.
    pub(crate) fn put_all(&mut self, start: u32, nodes: &[u32])
        ensures { self.new.count ≡ self.old.count }
    {
        let mut place = start;
        for node in nodes {
            if *node < self.count {
                self.put(place, *node);
            }
            place = place.saturating_add(1);
        }
    }

    /// Takes a part that is not yet in order: where it begins, and where it ends.
    pub(crate) fn take(&mut self) -> Option<(u32, u32)>
        ensures { self.new.count ≡ self.old.count }
    {
        self.pending.pop()
    }

    /// Arranges the nodes of a part by their groups, of which there are `count`. Nodes of a group stay in order.
    ///
    /// # Errors
    /// `AllocError` if there is no memory.
    pub(crate) fn arrange(
        &mut self,
        start: u32,
        groups: &[u32],
        count: u32,
    ) -> Result<(), AllocError>
        requires { start + length groups.now ≤ self.old.count }
        ensures { self.new.count ≡ self.old.count }
    {
        self.cursors.clear();
        self.cursors.resize(count as usize, 0)?;
        count_keys(groups, &mut self.cursors);
        sum_before(&mut self.cursors);
        self.arranged.clear();
        push_from(
            self.nodes.as_slice(),
            start as usize,
            groups.len(),
            &mut self.arranged,
        )?;
        for number in 0..groups.len() {
            let rank = next_rank(&mut self.cursors, groups[number]);
            let node = self.arranged[number];
            self.put(start.saturating_add(rank), node);
        }
        Ok(())
    }

    /// Puts a node at a place.
    fn put(&mut self, place: u32, node: u32)
        requires { node < self.old.count }
        ensures count { self.new.count ≡ self.old.count }
        ensures arranged { self.new.arranged ≡ self.old.arranged }
    {
        if place < self.count {
            self.nodes[place as usize] = node;
            self.places[node as usize] = place;
        }
    }

    /// Makes the first `count` groups of the part that was arranged parts of their own.
    ///
    /// # Errors
    /// `AllocError` if there is no memory.
    pub(crate) fn split(&mut self, start: u32, count: u32) -> Result<(), AllocError>
        ensures { self.new.count ≡ self.old.count }
    {
        let mut from = start;
        for group in 0..(count as usize).min(self.cursors.len()) {
            let to = start.saturating_add(self.cursors[group]);
            self.pending.push((from, to))?;
            from = to;
        }
        Ok(())
    }
}

/// Appends `count` nodes from this place on to none.
fn push_from(
    nodes: &[u32],
    start: usize,
    count: usize,
    copy: &mut Vec<u32>,
) -> Result<(), AllocError>
    requires within { start + count ≤ length nodes.now }
    requires copy { vec_len copy.old ≡ 0 }
    ensures count { OnOk result (vec_len copy.new ≡ count) }
    ensures nodes { OnOk result ((n : ℕ) → AreBelow n nodes.now → AreBelow n copy.new.items) }
{
    for number in 0..count {
        copy.push(nodes[start + number])?;
    }
    Ok(())
}

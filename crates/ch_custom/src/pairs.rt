//! Rows of nodes that grow until they are a topology.
ghost use Rattle.std.specs.Prelude.{◌≡◌, ℕ, ◌+◌, ◌^◌, ◌<◌, ◌≤◌, []};
ghost use Rattle.std.specs.Prelude.{AllPairs, IfOk, OnOk, length, replicate, slice_index, vec_len};
ghost use Rattle.ch_custom.specs.Pairs.{nodes_row, IsUnion, IsPutAt, IsMerged};

use ch_graph::Rows;
use std::alloc::{AllocError, Global};
use std::marker::Model;

/// A row of nodes for each node, in order of their number.
#[derive(Drop)]
pub(crate) struct Pairs {
    rows: Vec<Vec<u32>>,
}

impl Model for Pairs {
    ghost use Rattle.std.specs.Prelude.{List, ℕ, map};

    ghost Value = { List (List ℕ) };

    ghost view = { λ p. map (λ r. r.items) p.rows.items };
}

impl Pairs {
    /// Makes an empty row for each node.
    ///
    /// # Errors
    /// `AllocError` if there is no memory for the rows.
    pub(crate) fn empty(alloc: Global, nodes: u32) -> Result<Pairs, AllocError>
        ensures { IfOk result (λ p. p ≡ replicate nodes []) }
    {
        let mut rows = Vec::with_capacity(alloc, nodes as usize)?;
        for _node in 0..nodes {
            rows.push(Vec::new(alloc))?;
        }
        Ok(Pairs { rows })
    }

    /// The row of a node.
    pub(crate) fn row(&self, node: u32) -> &[u32]
        requires { node < length self.now }
        ensures { result.now ≡ nodes_row self.now node }
    {
        self.rows[node as usize].as_slice()
    }

    /// Copies the row of a node into a vector, in place of what it had.
    ///
    /// # Errors
    /// `AllocError` if there is no memory for the copy.
    pub(crate) fn copy_row(&self, node: u32, copy: &mut Vec<u32>) -> Result<(), AllocError>
        requires { node < length self.now }
        ensures { OnOk result (copy.new.items ≡ nodes_row self.now node) }
    {
        copy.clear();
        copy.extend_from_slice(self.row(node))
    }

    /// Puts the others into the row of a node, without one.
    ///
    /// # Errors
    /// `AllocError` if there is no memory for the row.
    pub(crate) fn merge(
        &mut self,
        node: u32,
        others: &[u32],
        without: u32,
    ) -> Result<(), AllocError>
        requires node { node < length self.old }
        requires row { AllPairs ◌<◌ (nodes_row self.old node) }
        requires others { AllPairs ◌<◌ others.now }
        ensures { OnOk result (IsMerged node others.now without self.old self.new) }
    {
        merge_into(&mut self.rows[node as usize], others, without)
    }

    /// Returns the rows one after another.
    ///
    /// # Errors
    /// `AllocError` if there is no memory for the rows.
    pub(crate) fn to_rows(&self, alloc: Global) -> Result<Rows<u32>, AllocError>
        requires { length self.now + 1 < 2 ^ 32 }
        ensures { IfOk result (λ rows. rows ≡ self.now) }
    {
        let count = self.rows.len() as u32;
        let mut rows = Rows::with_room(alloc, count, 0)?;
        for node in 0..count {
            rows.push(self.row(node))?;
        }
        Ok(rows)
    }
}

/// Puts the others into a row, without one.
fn merge_into(row: &mut Vec<u32>, others: &[u32], without: u32) -> Result<(), AllocError>
    requires row { AllPairs ◌<◌ row.old.items }
    requires others { AllPairs ◌<◌ others.now }
    ensures { OnOk result (IsUnion row.old.items others.now without row.new.items) }
{
    let mut next = 0;
    for place in 0..others.len() {
        let node = others[place];
        next = first_from(row.as_slice(), next, node);
        if node != without {
            put_at(row, next, node)?;
        }
    }
    Ok(())
}

/// Inserts a node at this place unless it is there.
fn put_at(row: &mut Vec<u32>, next: usize, node: u32) -> Result<(), AllocError>
    requires { next ≤ vec_len row.old }
    ensures { OnOk result (IsPutAt row.old.items next node row.new.items) }
{
    if next < row.len() && row[next] == node {
        return Ok(());
    }
    row.insert(next, node)?;
    Ok(())
}

/// Returns the first place from `next` on that has at least this node, or the length of the row.
fn first_from(row: &[u32], next: usize, node: u32) -> usize
    requires next { next ≤ length row.now }
    requires before { (k : ℕ) → k < next → slice_index row.now k < node }
    ensures within { result ≤ length row.now }
    ensures before { (k : ℕ) → k < result → slice_index row.now k < node }
    ensures after { result < length row.now → node ≤ slice_index row.now result }
{
    let mut place = next;
    while place < row.len() && row[place] < node {
        place += 1;
    }
    place
}

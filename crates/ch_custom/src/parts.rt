//! Cuts of a topology into parts, which workers customize apart from one another.
ghost use Rattle.std.specs.Prelude.{◌≡◌, ◌≢◌, ◌⊎◌, ℕ, ◌+◌, ◌-◌, ◌^◌, ◌<◌, ◌≤◌, false};
ghost use Rattle.std.specs.Prelude.{Contains, IfOk, MatchOption, length, slice_index};
ghost use Rattle.ch_hierarchy.specs.Saved.{AreLevelsOf};
ghost use Rattle.ch_custom.specs.Parts.{AreParts, AreRowsOf, MayBeIn};
ghost use Rattle.ch_custom.specs.Topologies.{IsSound};

use crate::topology::first_of;
use ch_graph::Rows;
use std::alloc::{AllocError, Global};

/// A node with all nodes below it may be given to a worker if they take less than this part of a worker's share.
const CRUMBS: u64 = 8;

/// The work of nodes, counted in nodes and triangles.
#[derive(Drop)]
struct Works {
    /// For each node the work of itself and of all nodes below it.
    below: Vec<u64>,
    /// The work of all nodes.
    all: u64,
}

/// Returns the part of each node, of `rest` parts and the rest. Each part has whole branches of the elimination tree, and the
/// rest the nodes above them. Returns `None` if the rows are not those of a topology.
///
/// # Errors
/// `AllocError` if there is no memory.
pub(crate) fn parts_of(
    alloc: Global,
    order: &[u32],
    levels: &[u32],
    rows: &Rows<u32>,
    rest: u32,
) -> Result<Option<Vec<u32>>, AllocError>
    requires sound { IsSound (record { order = order.now; pairs = rows.now }) }
    requires levels { AreLevelsOf order.now levels.now }
    requires rest { 0 < rest }
    ensures { IfOk result (λ found. MatchOption found (Unit {0}) (λ parts. AreParts order.now rows.now rest parts.items)) }
{
    let works = works_of(alloc, order, levels, rows)?;
    let mut loads = vec![in alloc; 0u64; rest as usize]?;
    let mut parts = vec![in alloc; rest; rows.row_count() as usize]?;
    let most = works.all / CRUMBS / rest as u64;
    for step in 0..order.len() {
        let node = order[order.len() - 1 - step];
        let row = rows.row(node);
        let work = works.below[node as usize];
        let Some(part) = part_for(row, parts.as_slice(), rest, work, most, &mut loads) else {
            return Ok(None);
        };
        parts[node as usize] = part;
    }
    Ok(Some(parts))
}

/// Returns the work of nodes in this order.
fn works_of(
    alloc: Global,
    order: &[u32],
    levels: &[u32],
    rows: &Rows<u32>,
) -> Result<Works, AllocError>
    requires sound { IsSound (record { order = order.now; pairs = rows.now }) }
    requires levels { AreLevelsOf order.now levels.now }
    ensures { IfOk result (λ works. length works.below.items ≡ length rows.now) }
{
    let mut below = vec![in alloc; 0u64; rows.row_count() as usize]?;
    let mut all = 0u64;
    for place in 0..order.len() {
        let node = order[place];
        let work = add_work(levels, node, rows.row(node), &mut below);
        all = all.saturating_add(work);
    }
    Ok(Works { below, all })
}

/// Adds the work of a node with this row to that of the nodes below it, and all of it to the first node of the row. Returns
/// the work of the node.
fn add_work(levels: &[u32], node: u32, row: &[u32], below: &mut [u64]) -> u64
    requires node { node < length below.old }
    requires row { (y : ℕ) → Contains row.now y → y < length below.old }
    requires levels { length levels.now ≡ length below.old }
    ensures { length below.new ≡ length below.old }
{
    let size = row.len() as u64;
    let work = size.saturating_mul(size) / 2 + 1;
    let sum = below[node as usize].saturating_add(work);
    below[node as usize] = sum;
    if !row.is_empty() {
        let parent = first_of(levels, row);
        below[parent as usize] = below[parent as usize].saturating_add(sum);
    }
    work
}

/// Returns the part of a node with this row: that of the nodes of the row which are in a part. If all are in the rest, and the
/// node and all below it have at most so much work, they are given to the part with the least load. Returns `None` if nodes of
/// the row are in different parts.
fn part_for(
    row: &[u32],
    parts: &[u32],
    rest: u32,
    work: u64,
    most: u64,
    loads: &mut [u64],
) -> Option<u32>
    requires inside { (y : ℕ) → Contains row.now y → y < length parts.now }
    requires within { (v : ℕ) → v < length parts.now → slice_index parts.now v ≤ rest }
    requires rest { 0 < rest }
    requires loads { length loads.old ≡ rest }
    ensures found { MatchOption result (Unit {0}) (MayBeIn parts.now rest row.now) }
    ensures loads { length loads.new ≡ length loads.old }
{
    let part = part_above(row, parts, rest)?;
    Some(given_part(part, rest, work, most, loads))
}

/// Returns the part of a node whose row is in this part. See [`part_for`].
fn given_part(part: u32, rest: u32, work: u64, most: u64, loads: &mut [u64]) -> u32
    requires rest { 0 < rest }
    requires loads { length loads.old ≡ rest }
    ensures given { (result ≡ part) ⊎ ((part ≡ rest) × (result ≤ rest)) }
    ensures loads { length loads.new ≡ length loads.old }
{
    if part == rest && work <= most {
        least_loaded(loads, work)
    } else {
        part
    }
}

/// Returns the part of the nodes of a row that are in a part, the rest if there are none, or `None` if there are several parts.
fn part_above(row: &[u32], parts: &[u32], rest: u32) -> Option<u32>
    requires inside { (y : ℕ) → Contains row.now y → y < length parts.now }
    requires within { (v : ℕ) → v < length parts.now → slice_index parts.now v ≤ rest }
    ensures { MatchOption result (Unit {0}) (MayBeIn parts.now rest row.now) }
{
    let mut part = rest;
    for place in 0..row.len() {
        part = shared_part(part, parts[row[place] as usize], rest)?;
    }
    Some(part)
}

/// Returns the part of a node that is both in the rest or in `part`, and in the rest or in `other`, if there is one.
fn shared_part(part: u32, other: u32, rest: u32) -> Option<u32>
    ensures { MatchOption result (Unit {0}) (λ p. ((p ≡ part) ⊎ ((part ≡ rest) × (p ≡ other))) × ((other ≡ rest) ⊎ (other ≡ p))) }
{
    if other == rest || other == part {
        Some(part)
    } else if part == rest {
        Some(other)
    } else {
        None
    }
}

/// Adds this work to the least load, and returns its place.
fn least_loaded(loads: &mut [u64], work: u64) -> u32
    requires some { 0 < length loads.old }
    requires few { length loads.old < 2 ^ 32 }
    ensures within { result < length loads.old }
    ensures size { length loads.new ≡ length loads.old }
{
    let mut least = 0usize;
    for place in 0..loads.len() {
        if loads[place] < loads[least] {
            least = place;
        }
    }
    loads[least] = loads[least].saturating_add(work);
    least as u32
}

/// Returns whether a node of this row is in this part.
pub(crate) fn has_part(row: &[u32], parts: &[u32], part: u32) -> bool
    requires { (y : ℕ) → Contains row.now y → y < length parts.now }
    ensures { result ≡ false → (y : ℕ) → Contains row.now y → slice_index parts.now y ≢ part }
{
    for place in 0..row.len() {
        if parts[row[place] as usize] == part {
            return true;
        }
    }
    false
}

/// Returns the rows of a part, and empty ones for all other nodes.
pub(crate) fn rows_of_part(
    alloc: Global,
    rows: &Rows<u32>,
    parts: &[u32],
    part: u32,
) -> Result<Rows<u32>, AllocError>
    requires size { length parts.now ≡ length rows.now }
    requires few { length rows.now + 1 < 2 ^ 32 }
    ensures { IfOk result (AreRowsOf rows.now parts.now part) }
{
    let mut own = Rows::with_room(alloc, rows.row_count(), 0)?;
    for node in 0..rows.row_count() {
        if parts[node as usize] == part {
            own.push(rows.row(node))?;
        } else {
            own.push(&[])?;
        }
    }
    Ok(own)
}

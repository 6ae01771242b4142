//! Topologies: the pairs of nodes between which there may be a leg, whatever the weights are.
ghost use Rattle.std.specs.Prelude.{◌≡◌, ℕ, ◌+◌, ◌<◌, ◌≤◌, [], Contains, Err, IfOk, OnOk, MatchOption, length, slice_index};
ghost use Rattle.ch_custom.specs.declared.topology.TopologyError.TheVariants as TopologyError;
ghost use Rattle.ch_hierarchy.specs.Saved.{IsOrderOf, AreLevelsOf};
ghost use Rattle.ch_custom.specs.Customizing.{IsTopology};
ghost use Rattle.ch_custom.specs.Topologies.{IsSound};
ghost use Rattle.ch_custom.specs.Pairs.{nodes_row, AreRowsFor, AreHandedOn};
ghost use Rattle.ch_custom.specs.Triangles.{pairs_among, triangles_over, IsCountKept, AreNeeded, AllHaveMore};

use crate::pairs::Pairs;
use ch_graph::{Graph, Rows};
use ch_hierarchy::levels_of;
use std::alloc::{AllocError, Global};
use std::marker::Model;

/// The number of triangles a node up to which customization pays. Roads in a nested dissection order have some 30.
pub const TRIANGLES_A_NODE: u64 = 40;

/// Why an order has no topology.
#[derive(Clone, Copy, Debug, PartialEq, Eq)]
pub enum TopologyError {
    /// The order does not have each node of the graph exactly once.
    Order,
    /// The topology in this order has more triangles than are allowed.
    Triangles,
    /// There is no memory.
    NoMemory,
}

impl From<AllocError> for TopologyError {
    ghost from_gives = { λ _ error. error ≡ TopologyError.NoMemory };

    fn from(_refused: AllocError) -> TopologyError {
        TopologyError::NoMemory
    }
}

/// An order of nodes, and for each node the later nodes to and from which there may be a leg.
#[derive(Drop)]
pub struct Topology {
    order: Vec<u32>,
    /// The place of each node in the order, counted from 1.
    levels: Vec<u32>,
    /// For each node the later nodes of its pairs, in order of their number.
    rows: Rows<u32>,
}

impl Model for Topology {
    ghost use Rattle.ch_hierarchy.specs.Saved.{AreLevelsOf};
    ghost use Rattle.ch_custom.specs.Topologies.{OrderAndPairs, IsSound};

    ghost Value = { OrderAndPairs };

    ghost view = { λ f. record { order = f.order.items; pairs = f.rows } };

    ghost invariant = { λ f. IsSound (record { order = f.order.items; pairs = f.rows }) × AreLevelsOf f.order.items f.levels.items };
}

impl Topology {
    /// The nodes in order.
    pub fn order(&self) -> &[u32]
        ensures order { result.now ≡ self.now.order }
        ensures sound { IsSound self.now }
    {
        self.order.as_slice()
    }

    /// The place of each node in the order, counted from 1.
    pub fn levels(&self) -> &[u32]
        ensures { AreLevelsOf self.now.order result.now }
    {
        self.levels.as_slice()
    }

    /// The later nodes of the pairs of each node.
    pub fn rows(&self) -> &Rows<u32>
        ensures { result.now ≡ self.now.pairs }
    {
        &self.rows
    }
}

/// Returns the topology of the roads of a graph in this order, if it has at most `most` triangles: pairs of a node to
/// two later nodes. It is the least topology. No weight changes it.
///
/// Each node in order hands the nodes of its row on to the first of them. The work is that of joining as many pairs
/// of rows as there are nodes. The triangles of a node are counted before its row is handed on, so there are never
/// more than `most` pairs besides those of the arcs.
///
/// # Errors
/// `Order` if the order does not have each node of the graph exactly once, `Triangles` if there are more, and
/// `NoMemory` if there is no memory.
pub fn topology_of(
    alloc: Global,
    graph: &Graph,
    order: &[u32],
    most: u64,
) -> Result<Topology, TopologyError>
    ensures order { IfOk result (λ f. f.order ≡ order.now) }
    ensures nodes { IfOk result (λ f. length f.pairs ≡ graph.now.nodes) }
    ensures topology { IfOk result (λ f. IsTopology graph.now f.order f.pairs) }
    ensures least { IfOk result (λ f. AreNeeded graph.now f.order f.pairs) }
    ensures triangles { IfOk result (λ f. triangles_over f.pairs f.order ≤ most) }
    ensures exceeded { result ≡ Err TopologyError.Triangles → AllHaveMore graph.now order.now most }
    ensures each { result ≡ Err TopologyError.Triangles → IsOrderOf graph.now.nodes order.now }
    ensures refused { result ≡ Err TopologyError.Order → IsOrderOf graph.now.nodes order.now → ⊥ }
{
    let Some(levels) = levels_of(alloc, graph.nodes(), order)? else {
        return Err(TopologyError::Order);
    };
    let mut pairs = Pairs::empty(alloc, graph.nodes())?;
    put_roads(graph, order, levels.as_slice(), &mut pairs)?;
    hand_all_on(alloc, graph, order, levels.as_slice(), most, &mut pairs)?;
    let copied = Vec::from_slice(alloc, order)?;
    let rows = pairs.to_rows(alloc)?;
    Ok(made(graph, copied, levels, rows))
}

/// Returns the topology of these rows.
fn made(_graph: &Graph, order: Vec<u32>, levels: Vec<u32>, rows: Rows<u32>) -> Topology
    requires handed { AreHandedOn _graph.now order.items levels.items _graph.now.nodes rows }
    requires needed { AreNeeded _graph.now order.items rows }
    ensures order { result.order ≡ order.items }
    ensures pairs { result.pairs ≡ rows }
    ensures nodes { length result.pairs ≡ _graph.now.nodes }
    ensures topology { IsTopology _graph.now result.order result.pairs }
    ensures least { AreNeeded _graph.now result.order result.pairs }
{
    Topology {
        order,
        levels,
        rows,
    }
}

/// Puts the ends of each arc into the rows.
fn put_roads(
    graph: &Graph,
    _order: &[u32],
    levels: &[u32],
    pairs: &mut Pairs,
) -> Result<(), AllocError>
    requires rows { AreRowsFor graph.now _order.now levels.now [] pairs.old }
    requires needed { AreNeeded graph.now _order.now pairs.old }
    ensures handed { OnOk result (AreHandedOn graph.now _order.now levels.now 0 pairs.new) }
    ensures needed { OnOk result (AreNeeded graph.now _order.now pairs.new) }
{
    let arcs = graph.arcs();
    for place in 0..arcs.len() {
        let arc = arcs[place];
        if levels[arc.from as usize] < levels[arc.to as usize] {
            pairs.merge(arc.from, &[arc.to], arc.from)?;
        } else {
            pairs.merge(arc.to, &[arc.from], arc.to)?;
        }
    }
    Ok(())
}

/// Lets each node in order hand its row on to the first node of it, while there are at most `most` triangles.
fn hand_all_on(
    alloc: Global,
    graph: &Graph,
    order: &[u32],
    levels: &[u32],
    most: u64,
    pairs: &mut Pairs,
) -> Result<(), TopologyError>
    requires handed { AreHandedOn graph.now order.now levels.now 0 pairs.old }
    requires needed { AreNeeded graph.now order.now pairs.old }
    ensures handed { OnOk result (AreHandedOn graph.now order.now levels.now graph.now.nodes pairs.new) }
    ensures needed { OnOk result (AreNeeded graph.now order.now pairs.new) }
    ensures triangles { OnOk result (triangles_over pairs.new order.now ≤ most) }
    ensures exceeded { result ≡ Err TopologyError.Triangles → AllHaveMore graph.now order.now most }
    ensures order { result ≡ Err TopologyError.Order → ⊥ }
{
    let mut row = Vec::new(alloc);
    let mut triangles = 0u64;
    for place in 0..order.len() {
        pairs.copy_row(order[place], &mut row)?;
        let Some(count) = counted(triangles, row.len(), most) else {
            return Err(TopologyError::Triangles);
        };
        triangles = count;
        hand_on(graph, order, levels, place, row.as_slice(), pairs)?;
    }
    Ok(())
}

/// Returns this count and the number of triangles of a node with a row of this size, or `None` if it is above `most`.
fn counted(count: u64, size: usize, most: u64) -> Option<u64>
    requires { count ≤ most }
    ensures { MatchOption result (most < count + pairs_among size) (λ sum. (sum ≡ count + pairs_among size) × (sum ≤ most)) }
{
    let size = size as u128;
    let sum = count as u128 + size * size.saturating_sub(1) / 2;
    if sum <= most as u128 {
        Some(sum as u64)
    } else {
        None
    }
}

/// Hands the row of the node at this place on to the first node of it.
fn hand_on(
    _graph: &Graph,
    order: &[u32],
    levels: &[u32],
    place: usize,
    row: &[u32],
    pairs: &mut Pairs,
) -> Result<(), AllocError>
    requires place { place < length order.now }
    requires row { row.now ≡ nodes_row pairs.old (slice_index order.now place) }
    requires handed { AreHandedOn _graph.now order.now levels.now place pairs.old }
    requires needed { AreNeeded _graph.now order.now pairs.old }
    ensures handed { OnOk result (AreHandedOn _graph.now order.now levels.now (place + 1) pairs.new) }
    ensures needed { OnOk result (AreNeeded _graph.now order.now pairs.new) }
    ensures count { OnOk result (IsCountKept order.now (place + 1) pairs.old pairs.new) }
{
    if row.is_empty() {
        return Ok(());
    }
    let parent = first_of(levels, row);
    pairs.merge(parent, row, parent)
}

/// Returns the node of a row that comes first in the order.
pub(crate) fn first_of(levels: &[u32], row: &[u32]) -> u32
    requires some { 0 < length row.now }
    requires within { (y : ℕ) → Contains row.now y → y < length levels.now }
    ensures within { Contains row.now result }
    ensures least { (y : ℕ) → Contains row.now y → slice_index levels.now result ≤ slice_index levels.now y }
{
    let mut first = row[0];
    for place in 0..row.len() {
        let node = row[place];
        if levels[node as usize] < levels[first as usize] {
            first = node;
        }
    }
    first
}

//! Perfect customization: the legs of a metric, lowered to the least costs of walks between their ends.
ghost use Rattle.std.specs.Prelude.{◌≡◌, ◌≢◌, ◌+◌, ◌<◌, OnOk, length, slice_index};
ghost use Rattle.ch_custom.specs.declared.leg_pair.LegPair.{LegPair as AnyPair};
ghost use Rattle.ch_custom.specs.LegPairs.{AreHeld, pairs_row};
ghost use Rattle.ch_custom.specs.Exact.{IsPairShortened, AreAllHeld, AreBothLowered, IsSoundRow, IsShortenedOver};
ghost use Rattle.ch_custom.specs.Exact.{AreShortenedOver, CanBeShortened, AreTakenLegs, AreExactFrom, IsExactRow, IsShortenedRow, pair_at};
ghost use Rattle.ch_custom.specs.Topologies.{AreFor};

use crate::leg_pair::{BEATEN, LegPair};
use crate::lowering::{first_from, lower};
use crate::metric::Metric;
use ch_graph::{Graph, Rows};
use std::alloc::{AllocError, Global};

/// Lowers the legs of all nodes to the least costs of walks, from the last node of the order back to the first. A leg
/// that becomes cheaper gets the middle [`BEATEN`].
///
/// # Errors
/// `AllocError` if there is no memory for the copy of a row.
pub(crate) fn make_exact(
    alloc: Global,
    graph: &Graph,
    order: &[u32],
    rows: &Rows<u32>,
    metric: &mut Metric,
) -> Result<(), AllocError>
    requires ready { AreFor graph.now order.now rows.now }
    requires legs { AreTakenLegs graph.now order.now rows.now }
    requires metric { AreExactFrom graph.now order.now rows.now (length order.now) metric.old }
    ensures { OnOk result (AreExactFrom graph.now order.now rows.now 0 metric.new) }
{
    let mut row = Vec::new(alloc);
    for step in 0..order.len() {
        let place = order.len() - 1 - step;
        shorten_at(graph, order, rows, place, &mut row, metric)?;
    }
    Ok(())
}

/// Lowers the legs of the node at this place of the order, where those of later nodes are exact.
fn shorten_at(
    graph: &Graph,
    order: &[u32],
    rows: &Rows<u32>,
    place: usize,
    row: &mut Vec<LegPair>,
    metric: &mut Metric,
) -> Result<(), AllocError>
    requires ready { AreFor graph.now order.now rows.now }
    requires legs { AreTakenLegs graph.now order.now rows.now }
    requires place { place < length order.now }
    requires metric { AreExactFrom graph.now order.now rows.now (place + 1) metric.old }
    ensures { OnOk result (AreExactFrom graph.now order.now rows.now place metric.new) }
{
    let node = order[place];
    metric.copy_row(node, row)?;
    shorten_row(graph, order, rows, place, metric, row);
    put_exact(graph, order, rows, place, row.as_slice(), metric);
    Ok(())
}

/// Writes the exact row of the node at this place.
fn put_exact(
    graph: &Graph,
    order: &[u32],
    _rows: &Rows<u32>,
    place: usize,
    row: &[LegPair],
    metric: &mut Metric,
)
    requires ready { AreFor graph.now order.now _rows.now }
    requires place { place < length order.now }
    requires metric { AreExactFrom graph.now order.now _rows.now (place + 1) metric.old }
    requires row { IsShortenedRow graph.now order.now _rows.now place row.now }
    requires exact { IsExactRow graph.now order.now place row.now }
    ensures { AreExactFrom graph.now order.now _rows.now place metric.new }
{
    // This call tells the proof that the graph keeps the limits.
    let _nodes = graph.nodes();
    metric.put_row(order[place], row);
}

/// Makes the legs of the row of the node at this place exact, where those of later nodes are.
fn shorten_row(
    graph: &Graph,
    order: &[u32],
    _rows: &Rows<u32>,
    place: usize,
    metric: &Metric,
    row: &mut [LegPair],
)
    requires ready { AreFor graph.now order.now _rows.now }
    requires legs { AreTakenLegs graph.now order.now _rows.now }
    requires place { place < length order.now }
    requires metric { AreExactFrom graph.now order.now _rows.now (place + 1) metric.now }
    requires row { row.old ≡ pairs_row metric.now (slice_index order.now place) }
    ensures row { IsShortenedRow graph.now order.now _rows.now place row.new }
    ensures exact { IsExactRow graph.now order.now place row.new }
{
    // This call tells the proof that the graph keeps the limits.
    let _nodes = graph.nodes();
    shorten_over_all(graph, order[place], metric, row);
}

/// Lowers the legs of the row of a node over each node of the row. These are the triangles in which the node is the
/// lowest.
fn shorten_over_all(graph: &Graph, node: u32, metric: &Metric, row: &mut [LegPair])
    requires ready { CanBeShortened graph.now node metric.now row.old }
    ensures { AreShortenedOver graph.now node metric.now (length row.old) row.old row.new }
{
    for place in 0..row.len() {
        shorten_over(graph, node, place, metric.row(row[place].node), row);
    }
}

/// Lowers the legs of the row of a node over its pair at `place`: `others` is the row of the node of that pair. Both
/// rows are walked once.
fn shorten_over(graph: &Graph, _node: u32, place: usize, others: &[LegPair], row: &mut [LegPair])
    requires node { _node < graph.now.nodes }
    requires place { place < length row.old }
    requires row { IsSoundRow graph.now _node row.old }
    requires others { (d : AnyPair) → IsSoundRow graph.now (pair_at row.old place d).node others.now }
    ensures { IsShortenedOver graph.now _node place others.now (length others.now) row.old row.new }
{
    let nodes = graph.nodes();
    let mut far = 0;
    for next in 0..others.len() {
        let node = others[next].node;
        far = first_from(row, far, node);
        if far < row.len() && row[far].node == node {
            shorten_both(nodes, &others[next], place, far, row);
        }
    }
}

/// Lowers two pairs of a row over each other: `between` is the pair of their nodes in the row of the node at `near`.
#[inline]
fn shorten_both(nodes: u32, between: &LegPair, near: usize, far: usize, row: &mut [LegPair])
    requires near { near < length row.old }
    requires far { far < length row.old }
    requires apart { near ≢ far }
    requires between { AreHeld between.now }
    requires row { AreAllHeld row.old }
    ensures { AreBothLowered nodes between.now near far row.old row.new }
{
    let first = row[near];
    let second = row[far];
    shorten(nodes, &first, between, &mut row[far]);
    shorten(nodes, &second, &between.turned(), &mut row[near]);
}

/// Lowers the legs of a pair in both directions to the sums of those of `first` and `second`.
#[inline]
fn shorten(nodes: u32, first: &LegPair, second: &LegPair, pair: &mut LegPair)
    requires first { AreHeld first.now }
    requires second { AreHeld second.now }
    requires pair { AreHeld pair.old }
    ensures node { pair.new.node ≡ pair.old.node }
    ensures legs { IsPairShortened nodes first.now second.now pair.old pair.new }
    ensures held { AreHeld pair.new }
{
    lower(nodes, BEATEN, first.up, second.up, &mut pair.up);
    lower(nodes, BEATEN, first.down, second.down, &mut pair.down);
}

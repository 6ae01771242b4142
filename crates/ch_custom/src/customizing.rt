//! Customization: the legs of a topology, lowered over one node after the other.
ghost use Rattle.std.specs.Prelude.{◌≡◌, ◌+◌, ◌<◌, OnOk, IfOk, length, map};
ghost use Rattle.ch_hierarchy.specs.Kept.{IsKept};
ghost use Rattle.ch_hierarchy.specs.Saved.{AreLevelsOf};
ghost use Rattle.ch_hierarchy.specs.declared.side.Side.TheVariants.{Up, Down};
ghost use Rattle.ch_custom.specs.Customizing.{IsTopology};
ghost use Rattle.ch_custom.specs.LegPairs.{no_pair, rows_at};
ghost use Rattle.ch_custom.specs.Opening.{IsPut, AreLegsOfMetric};
ghost use Rattle.ch_custom.specs.Pruning.{IsArcPut};
ghost use Rattle.ch_custom.specs.Parts.{AreTakenAt};
ghost use Rattle.ch_custom.specs.Topologies.{AreRowsIn, AreFor, AreMetricsAt, IsCustomized};

use crate::division::Division;
use crate::leg_pair::LegPair;
use crate::metric::Metric;
use crate::parts::parts_of;
use crate::topology::Topology;
use ch_graph::{Graph, InArc, Rows};
use ch_hierarchy::{Hierarchy, Leg, Side};
use ch_lists::Lists;
use ch_work::{Crew, Gate};
use std::alloc::{AllocError, Global};
use std::thread::Threads;

/// The least number of nodes that workers share.
const LEAST_SHARED: usize = 4096;

/// The most parts that workers share. Each takes memory for all nodes, and the rest of the work is about a third of it.
const MOST_PARTS: u32 = 8;

/// Returns the hierarchy of the graph in the order of the topology: each leg is lowered to the sums of two legs over
/// the lower nodes. The work is that of all triangles of the topology.
///
/// # Errors
/// `AllocError` if there is no memory for the legs of the topology or the hierarchy.
pub fn customize(alloc: Global, topology: &Topology, graph: &Graph) -> Result<Hierarchy, AllocError>
    requires nodes { length topology.now.pairs ≡ graph.now.nodes }
    requires topology { IsTopology graph.now topology.now.order topology.now.pairs }
    ensures hierarchy { IfOk result (IsCustomized graph.now topology.now.order) }
    ensures kept { IfOk result (IsKept graph.now) }
{
    customize_over(
        alloc,
        graph,
        topology.order(),
        topology.levels(),
        topology.rows(),
    )
}

/// Like [`customize`], by all workers: each lowers the legs of parts of the topology, and the caller those of the nodes above
/// them. The hierarchy is the same for each number of workers.
///
/// # Errors
/// `AllocError` if there is no memory for the legs of the topology, twice while they are gathered, or for the hierarchy.
pub fn customize_by<R: Threads + Sync, G: Gate>(
    crew: &Crew<'_, R, G>,
    topology: &Topology,
    graph: &Graph,
) -> Result<Hierarchy, AllocError>
    requires nodes { length topology.now.pairs ≡ graph.now.nodes }
    requires topology { IsTopology graph.now topology.now.order topology.now.pairs }
    ensures hierarchy { IfOk result (IsCustomized graph.now topology.now.order) }
    ensures kept { IfOk result (IsKept graph.now) }
{
    customize_over_by(
        crew,
        graph,
        topology.order(),
        topology.levels(),
        topology.rows(),
    )
}

/// Returns the hierarchy of the graph over these rows of a topology, by all workers.
fn customize_over_by<R: Threads + Sync, G: Gate>(
    crew: &Crew<'_, R, G>,
    graph: &Graph,
    order: &[u32],
    levels: &[u32],
    rows: &Rows<u32>,
) -> Result<Hierarchy, AllocError>
    requires ready { AreFor graph.now order.now rows.now }
    requires levels { AreLevelsOf order.now levels.now }
    ensures hierarchy { IfOk result (IsCustomized graph.now order.now) }
    ensures kept { IfOk result (IsKept graph.now) }
{
    let metric = lowered_by(crew, graph, order, levels, rows)?;
    close(crew.alloc, graph, order, levels, rows, metric)
}

/// Returns the legs of the graph over these rows of a topology, lowered over all nodes, by all workers if there are enough
/// nodes.
fn lowered_by<R: Threads + Sync, G: Gate>(
    crew: &Crew<'_, R, G>,
    graph: &Graph,
    order: &[u32],
    levels: &[u32],
    rows: &Rows<u32>,
) -> Result<Metric, AllocError>
    requires ready { AreFor graph.now order.now rows.now }
    requires levels { AreLevelsOf order.now levels.now }
    ensures { IfOk result (λ m. AreMetricsAt graph.now order.now rows.now graph.now.nodes (rows_at Up m) (rows_at Down m)) }
{
    if crew.plan.shares(order.len(), LEAST_SHARED) {
        let rest = crew.plan.workers().min(MOST_PARTS);
        if let Some(parts) = parts_of(crew.alloc, order, levels, rows, rest)? {
            let division = Division {
                graph,
                order,
                levels,
                rows,
                parts: parts.as_slice(),
                rest,
            };
            return division.lowered(crew);
        }
    }
    lowered(crew.alloc, graph, order, levels, rows)
}

/// Returns the hierarchy of the graph over these rows of a topology.
fn customize_over(
    alloc: Global,
    graph: &Graph,
    order: &[u32],
    levels: &[u32],
    rows: &Rows<u32>,
) -> Result<Hierarchy, AllocError>
    requires ready { AreFor graph.now order.now rows.now }
    requires levels { AreLevelsOf order.now levels.now }
    ensures hierarchy { IfOk result (IsCustomized graph.now order.now) }
    ensures kept { IfOk result (IsKept graph.now) }
{
    let metric = lowered(alloc, graph, order, levels, rows)?;
    close(alloc, graph, order, levels, rows, metric)
}

/// Returns the legs of the graph over these rows of a topology, lowered over all nodes.
///
/// # Errors
/// `AllocError` if there is no memory for the legs.
pub(crate) fn lowered(
    alloc: Global,
    graph: &Graph,
    order: &[u32],
    levels: &[u32],
    rows: &Rows<u32>,
) -> Result<Metric, AllocError>
    requires ready { AreFor graph.now order.now rows.now }
    requires levels { AreLevelsOf order.now levels.now }
    ensures { IfOk result (λ m. AreMetricsAt graph.now order.now rows.now graph.now.nodes (rows_at Up m) (rows_at Down m)) }
{
    let mut metric = Metric::open(alloc, rows)?;
    put_arcs(graph, order, levels, rows, &mut metric);
    lower_all(alloc, graph, order, rows, &mut metric)?;
    Ok(metric)
}

/// Returns the hierarchy of the legs in these arrays, which are gone before the legs are put in order of rank.
fn close(
    alloc: Global,
    graph: &Graph,
    order: &[u32],
    levels: &[u32],
    rows: &Rows<u32>,
    metric: Metric,
) -> Result<Hierarchy, AllocError>
    requires ready { AreFor graph.now order.now rows.now }
    requires levels { AreLevelsOf order.now levels.now }
    requires metric { AreMetricsAt graph.now order.now rows.now graph.now.nodes (rows_at Up metric) (rows_at Down metric) }
    ensures hierarchy { IfOk result (IsCustomized graph.now order.now) }
    ensures kept { IfOk result (IsKept graph.now) }
{
    let copied = Vec::from_slice(alloc, levels)?;
    let rows_up = metric.legs(alloc, Side::Up)?;
    let rows_down = metric.legs(alloc, Side::Down)?;
    drop(metric);
    closed(alloc, graph, order, rows, copied, rows_up, rows_down)
}

/// Returns the hierarchy of these rows, which are the legs of arrays.
fn closed(
    alloc: Global,
    graph: &Graph,
    _order: &[u32],
    _rows: &Rows<u32>,
    levels: Vec<u32>,
    rows_up: Lists<Leg>,
    rows_down: Lists<Leg>,
) -> Result<Hierarchy, AllocError>
    requires ready { AreFor graph.now _order.now _rows.now }
    requires levels { AreLevelsOf _order.now levels.items }
    requires rows { AreLegsOfMetric graph.now _order.now _rows.now rows_up rows_down }
    ensures hierarchy { IfOk result (IsCustomized graph.now _order.now) }
    ensures kept { IfOk result (IsKept graph.now) }
{
    let _nodes = graph.nodes();
    Hierarchy::from_rows(alloc, levels, rows_up, rows_down)
}

/// Puts the arcs of the graph into the empty places.
pub(crate) fn put_arcs(
    graph: &Graph,
    order: &[u32],
    levels: &[u32],
    rows: &Rows<u32>,
    metric: &mut Metric,
)
    requires ready { AreRowsIn graph.now order.now rows.now }
    requires levels { AreLevelsOf order.now levels.now }
    requires metric { metric.old ≡ map (λ r. map no_pair r) rows.now }
    ensures { AreMetricsAt graph.now order.now rows.now 0 (rows_at Up metric.new) (rows_at Down metric.new) }
{
    let arcs = graph.arcs();
    for place in 0..arcs.len() {
        put_arc(levels, arcs[place], metric);
    }
}

/// Puts one arc into the row of its lower end.
pub(crate) fn put_arc(levels: &[u32], arc: InArc, metric: &mut Metric)
    requires levels { (arc.from < length levels.now) × (arc.to < length levels.now) }
    requires metric { length metric.old ≡ length levels.now }
    ensures pairs { IsArcPut levels.now arc metric.old metric.new }
    ensures legs { IsPut levels.now arc (rows_at Up metric.old) (rows_at Down metric.old) (rows_at Up metric.new) (rows_at Down metric.new) }
{
    if levels[arc.from as usize] < levels[arc.to as usize] {
        metric.lighten(arc.from, Side::Up, arc.to, arc.weight);
    } else {
        metric.lighten(arc.to, Side::Down, arc.from, arc.weight);
    }
}

/// Lowers all legs over the nodes of the order, one after the other.
fn lower_all(
    alloc: Global,
    graph: &Graph,
    order: &[u32],
    rows: &Rows<u32>,
    metric: &mut Metric,
) -> Result<(), AllocError>
    requires ready { AreFor graph.now order.now rows.now }
    requires metric { AreMetricsAt graph.now order.now rows.now 0 (rows_at Up metric.old) (rows_at Down metric.old) }
    ensures { OnOk result (AreMetricsAt graph.now order.now rows.now graph.now.nodes (rows_at Up metric.new) (rows_at Down metric.new)) }
{
    let mut taken = Vec::new(alloc);
    for place in 0..order.len() {
        lower_over(graph, order, rows, place, &mut taken, metric)?;
    }
    Ok(())
}

/// Lowers the legs over the node at this place of the order.
fn lower_over(
    graph: &Graph,
    order: &[u32],
    rows: &Rows<u32>,
    place: usize,
    taken: &mut Vec<LegPair>,
    metric: &mut Metric,
) -> Result<(), AllocError>
    requires ready { AreFor graph.now order.now rows.now }
    requires place { place < length order.now }
    requires metric { AreMetricsAt graph.now order.now rows.now place (rows_at Up metric.old) (rows_at Down metric.old) }
    ensures { OnOk result (AreMetricsAt graph.now order.now rows.now (place + 1) (rows_at Up metric.new) (rows_at Down metric.new)) }
{
    // This call tells the proof that the graph keeps the limits.
    let _nodes = graph.nodes();
    metric.copy_row(order[place], taken)?;
    lower_with(graph, order, rows, rows, place, taken.as_slice(), metric);
    Ok(())
}

/// Lowers the legs in these arrays over the node at this place of the order, whose row is `taken`. The arrays have the rows
/// `_own`, and need no row for this node.
pub(crate) fn lower_with(
    graph: &Graph,
    order: &[u32],
    _rows: &Rows<u32>,
    _own: &Rows<u32>,
    place: usize,
    taken: &[LegPair],
    metric: &mut Metric,
)
    requires ready { AreFor graph.now order.now _rows.now }
    requires own { AreRowsIn graph.now order.now _own.now }
    requires place { place < length order.now }
    requires metric { AreMetricsAt graph.now order.now _own.now place (rows_at Up metric.old) (rows_at Down metric.old) }
    requires taken { AreTakenAt graph.now order.now _rows.now place taken.now }
    ensures { AreMetricsAt graph.now order.now _own.now (place + 1) (rows_at Up metric.new) (rows_at Down metric.new) }
{
    metric.relax(graph.nodes(), order[place], taken);
}

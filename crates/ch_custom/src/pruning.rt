//! Pruning of a customized hierarchy: legs that are dearer than another way between their ends are taken out, but for
//! those that are arcs.
ghost use Rattle.std.specs.Prelude.{◌≡◌, [], IfOk, OnOk, filter, length, map};
ghost use Rattle.ch_hierarchy.specs.Kept.{IsKept};
ghost use Rattle.ch_hierarchy.specs.Saved.{AreLevelsOf};
ghost use Rattle.ch_hierarchy.specs.declared.side.Side.TheVariants.{Up, Down};
ghost use Rattle.ch_custom.specs.Customizing.{IsTopology};
ghost use Rattle.ch_custom.specs.Exact.{AreTakenLegs, AreExactFrom};
ghost use Rattle.ch_custom.specs.LegPairs.{rows_at};
ghost use Rattle.ch_custom.specs.Opening.{is_live};
ghost use Rattle.ch_custom.specs.Pruning.{HasCustomized, IsCustomizedAndPruned, AreLeft};
ghost use Rattle.ch_custom.specs.Topologies.{AreFor, AreMetricsAt};

use crate::customizing::{lowered, put_arc};
use crate::exact::make_exact;
use crate::metric::Metric;
use crate::topology::Topology;
use ch_graph::{Graph, Rows};
use ch_hierarchy::{Hierarchy, Leg, Side};
use ch_lists::Lists;
use std::alloc::{AllocError, Global};

/// Returns what exact pruning leaves of the customized hierarchy of the graph in the order of the topology (Dibbelt,
/// Strasser and Wagner 2016, *perfect customization*): the legs that cost the least of all walks between their ends,
/// and the lightest arc between two nodes if it costs more than that. Answers are the same, and searches look at fewer
/// legs. It goes through all triangles twice, and [`customize`](crate::customize) once.
///
/// # Errors
/// `AllocError` if there is no memory for the legs of the topology or the hierarchy.
pub fn customize_and_prune(
    alloc: Global,
    topology: &Topology,
    graph: &Graph,
) -> Result<Hierarchy, AllocError>
    requires nodes { length topology.now.pairs ≡ graph.now.nodes }
    requires topology { IsTopology graph.now topology.now.order topology.now.pairs }
    ensures pruned { IfOk result (IsCustomizedAndPruned graph.now topology.now.order) }
    ensures kept { IfOk result (IsKept graph.now) }
{
    prune_over(
        alloc,
        graph,
        topology.order(),
        topology.levels(),
        topology.rows(),
    )
}

/// Returns the pruned hierarchy of the graph over these rows of a topology.
fn prune_over(
    alloc: Global,
    graph: &Graph,
    order: &[u32],
    levels: &[u32],
    rows: &Rows<u32>,
) -> Result<Hierarchy, AllocError>
    requires ready { AreFor graph.now order.now rows.now }
    requires levels { AreLevelsOf order.now levels.now }
    ensures pruned { IfOk result (IsCustomizedAndPruned graph.now order.now) }
    ensures kept { IfOk result (IsKept graph.now) }
{
    // This call tells the proof that the graph keeps the limits.
    let _nodes = graph.nodes();
    let mut metric = lowered(alloc, graph, order, levels, rows)?;
    prune(alloc, graph, order, levels, rows, &mut metric)?;
    let copied = Vec::from_slice(alloc, levels)?;
    let rows_up = metric.legs(alloc, Side::Up)?;
    let rows_down = metric.legs(alloc, Side::Down)?;
    close(
        alloc, graph, order, rows, copied, rows_up, rows_down, &metric,
    )
}

/// Takes out of the lowered legs those that are dearer than another way, but for the arcs.
fn prune(
    alloc: Global,
    graph: &Graph,
    order: &[u32],
    levels: &[u32],
    rows: &Rows<u32>,
    metric: &mut Metric,
) -> Result<(), AllocError>
    requires ready { AreFor graph.now order.now rows.now }
    requires levels { AreLevelsOf order.now levels.now }
    requires metric { AreMetricsAt graph.now order.now rows.now graph.now.nodes (rows_at Up metric.old) (rows_at Down metric.old) }
    ensures { OnOk result (AreLeft graph.now order.now rows.now graph.now.arcs metric.new) }
{
    // This call tells the proof that the graph keeps the limits.
    let _nodes = graph.nodes();
    make_exact(alloc, graph, order, rows, metric)?;
    drop_beaten(graph, order, rows, metric);
    put_back(graph, order, levels, rows, metric);
    Ok(())
}

/// Takes out the legs that are dearer than another way.
fn drop_beaten(_graph: &Graph, _order: &[u32], _rows: &Rows<u32>, metric: &mut Metric)
    requires ready { AreFor _graph.now _order.now _rows.now }
    requires legs { AreTakenLegs _graph.now _order.now _rows.now }
    requires metric { AreExactFrom _graph.now _order.now _rows.now 0 metric.old }
    ensures { AreLeft _graph.now _order.now _rows.now [] metric.new }
{
    // This call tells the proof that the graph keeps the limits.
    let _nodes = _graph.nodes();
    metric.drop_beaten();
}

/// Puts the arcs of the graph back where no leg is left.
fn put_back(graph: &Graph, _order: &[u32], levels: &[u32], _rows: &Rows<u32>, metric: &mut Metric)
    requires ready { AreFor graph.now _order.now _rows.now }
    requires levels { AreLevelsOf _order.now levels.now }
    requires metric { AreLeft graph.now _order.now _rows.now [] metric.old }
    ensures { AreLeft graph.now _order.now _rows.now graph.now.arcs metric.new }
{
    let arcs = graph.arcs();
    for place in 0..arcs.len() {
        put_arc(levels, arcs[place], metric);
    }
}

/// Returns the hierarchy of these rows, which are the legs that are left.
fn close(
    alloc: Global,
    graph: &Graph,
    _order: &[u32],
    _rows: &Rows<u32>,
    levels: Vec<u32>,
    rows_up: Lists<Leg>,
    rows_down: Lists<Leg>,
    _metric: &Metric,
) -> Result<Hierarchy, AllocError>
    requires ready { AreFor graph.now _order.now _rows.now }
    requires levels { AreLevelsOf _order.now levels.items }
    requires customized { HasCustomized graph.now _order.now levels.items }
    requires metric { AreLeft graph.now _order.now _rows.now graph.now.arcs _metric.now }
    requires up { rows_up ≡ map (λ r. filter is_live r) (rows_at Up _metric.now) }
    requires down { rows_down ≡ map (λ r. filter is_live r) (rows_at Down _metric.now) }
    ensures pruned { IfOk result (IsCustomizedAndPruned graph.now _order.now) }
    ensures kept { IfOk result (IsKept graph.now) }
{
    // This call tells the proof that the graph keeps the limits.
    let _nodes = graph.nodes();
    Hierarchy::from_rows(alloc, levels, rows_up, rows_down)
}

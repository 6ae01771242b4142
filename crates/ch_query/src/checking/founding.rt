//! The checks of single legs of a saved hierarchy, and of single arcs of a graph.
ghost use Rattle.std.specs.Prelude.{◌<◌, ◌↔◌, ◌^◌, All, Contains, IfOk, IsTrue, MatchOption, length};
ghost use Rattle.ch_graph.specs.Graph.{Network, IsWithinLimits};
ghost use Rattle.ch_hierarchy.specs.Hierarchy.{nodes_of};
ghost use Rattle.ch_hierarchy.specs.Assembling.{IsFirstFailing};
ghost use Rattle.ch_query.specs.Checking.{AreArcRows, IsArcIfBase, IsSumOver, IsSumIfShortcut, IsServed};

use super::arcs::{arc_rows, has_arc};
use super::leg_costs::{cost_in_row, is_leg_within};
use super::lists::{ListCheck, first_failing, first_failing_by};
use ch_graph::{Cost, Graph, InArc, Rows, SavedLeg};
use ch_hierarchy::Hierarchy;
use ch_work::{Crew, Gate};
use std::alloc::{AllocError, Global};
use std::marker::Model;
use std::thread::Threads;

/// Returns the place of the first leg without a middle that is not an arc of the graph.
pub(crate) fn first_without_arc(
    alloc: Global,
    graph: &Graph,
    legs: &[SavedLeg],
) -> Result<Option<usize>, AllocError>
    ensures { IfOk result (λ found. MatchOption found (All (IsArcIfBase graph.now) legs.now) (IsFirstFailing (IsArcIfBase graph.now) legs.now)) }
{
    let rows = arc_rows(alloc, graph)?;
    let check = ArcCheck { graph, rows: &rows };
    Ok(first_failing(&check, legs))
}

/// Returns the same as [`first_without_arc`]. The workers of a crew share the legs.
pub(crate) fn first_without_arc_by<R: Threads + Sync, G: Gate>(
    crew: &Crew<'_, R, G>,
    graph: &Graph,
    legs: &[SavedLeg],
) -> Result<Option<usize>, AllocError>
    requires { length legs.now < 2 ^ 32 }
    ensures { IfOk result (λ found. MatchOption found (All (IsArcIfBase graph.now) legs.now) (IsFirstFailing (IsArcIfBase graph.now) legs.now)) }
{
    let rows = arc_rows(crew.alloc, graph)?;
    let check = ArcCheck { graph, rows: &rows };
    first_failing_by(crew, &check, legs)
}

/// Checks that each leg without a middle is an arc of the graph.
#[derive(Drop)]
struct ArcCheck<'a> {
    graph: &'a Graph,
    rows: &'a Rows<InArc>,
}

impl<'a> Model for ArcCheck<'a> {
    ghost use Rattle.ch_graph.specs.Graph.{Network, IsWithinLimits};
    ghost use Rattle.ch_query.specs.Checking.{AreArcRows};

    ghost Value = { Network };

    ghost view = { λ check. check.graph.now };

    ghost invariant = { λ check. IsWithinLimits check.graph.now × AreArcRows check.graph.now check.rows.now };
}

impl ListCheck for ArcCheck<'_> {
    type Item = SavedLeg;

    ghost takes = { λ check leg. Unit {0} };

    ghost right = { λ check leg. IsArcIfBase check leg };

    fn is_right(&self, item: &SavedLeg) -> bool {
        is_arc_if_base(self.rows, *item)
    }
}

/// Checks that each leg with a middle is the sum of the two legs of that middle.
#[derive(Drop)]
pub(crate) struct SumCheck<'a> {
    pub(crate) hierarchy: &'a Hierarchy,
}

impl ListCheck for SumCheck<'_> {
    type Item = SavedLeg;

    ghost takes = { λ check leg. Unit {0} };

    ghost right = { λ check leg. IsSumIfShortcut check.hierarchy.now leg };

    fn is_right(&self, item: &SavedLeg) -> bool {
        is_sum_if_shortcut(self.hierarchy, *item)
    }
}

/// Checks that each arc is a loop, or has a leg that costs at most as much.
#[derive(Drop)]
pub(crate) struct ServedCheck<'a> {
    pub(crate) hierarchy: &'a Hierarchy,
}

impl ListCheck for ServedCheck<'_> {
    type Item = InArc;

    ghost takes = { λ check arc. (arc.from < nodes_of check.hierarchy.now) × (arc.to < nodes_of check.hierarchy.now) };

    ghost right = { λ check arc. IsServed check.hierarchy.now arc };

    fn is_right(&self, item: &InArc) -> bool {
        is_served(self.hierarchy, *item)
    }
}

/// Whether the leg has a middle, or is an arc of the graph with these rows.
fn is_arc_if_base(rows: &Rows<InArc>, leg: SavedLeg) -> bool
    requires { (g : Network) × AreArcRows g rows.now }
    ensures { (g : Network) → IsWithinLimits g → AreArcRows g rows.now → (IsTrue result ↔ IsArcIfBase g leg) }
{
    leg.middle.is_some() || leg.cost.arcs == 1 && is_arc(rows, leg)
}

/// Whether an arc of the graph with these rows has the ends and the weight of the leg.
fn is_arc(rows: &Rows<InArc>, leg: SavedLeg) -> bool
    requires { (g : Network) × AreArcRows g rows.now }
    ensures { (g : Network) → IsWithinLimits g → AreArcRows g rows.now → (IsTrue result ↔ Contains g.arcs (record { from = leg.from; to = leg.to; weight = leg.cost.weight })) }
{
    leg.from < rows.row_count() && has_arc(rows.row(leg.from), leg.to, leg.cost.weight)
}

/// Whether the leg has no middle, or is the sum of the two legs of its middle.
fn is_sum_if_shortcut(hierarchy: &Hierarchy, leg: SavedLeg) -> bool
    ensures { IsTrue result ↔ IsSumIfShortcut hierarchy.now leg }
{
    match leg.middle {
        Some(middle) => is_sum_over(hierarchy, leg, middle),
        None => true,
    }
}

/// Whether the leg is the sum of the leg to `middle` and the leg from there. Both are in the rows of
/// `middle`, so `middle` is lower than both ends.
fn is_sum_over(hierarchy: &Hierarchy, leg: SavedLeg, middle: u32) -> bool
    ensures { IsTrue result ↔ IsSumOver hierarchy.now leg middle }
{
    if middle >= hierarchy.nodes() {
        return false;
    }
    let Some(into) = cost_in_row(hierarchy.down(middle), leg.from) else {
        return false;
    };
    let Some(out) = cost_in_row(hierarchy.up(middle), leg.to) else {
        return false;
    };
    into.plus(out) == leg.cost
}

/// Whether the arc is a loop, or has a leg that costs at most as much.
fn is_served(hierarchy: &Hierarchy, arc: InArc) -> bool
    requires from { arc.from < nodes_of hierarchy.now }
    requires to { arc.to < nodes_of hierarchy.now }
    ensures { IsTrue result ↔ IsServed hierarchy.now arc }
{
    let cost = Cost {
        weight: arc.weight,
        arcs: 1,
    };
    arc.from == arc.to || is_leg_within(hierarchy, arc.from, arc.to, cost)
}

//! Customization by workers: each lowers the legs of a part of the topology, and the caller those of the rest.
ghost use Rattle.std.specs.Prelude.{◌≡◌, ◌+◌, ◌<◌, IfOk, OnOk, length};
ghost use Rattle.ch_custom.specs.Divisions.{IsApart, HasRows, AreLoweredAt, IsTakenAt, HasLegsOf, HasLegsOfAll};

use crate::customizing::{lower_with, put_arcs};
use crate::leg_pair::LegPair;
use crate::metric::Metric;
use crate::parts::{has_part, rows_of_part};
use ch_graph::{Graph, Rows};
use ch_work::{Crew, Gate, ListJob, Open, Plan, run_list};
use std::alloc::{AllocError, Global};
use std::thread::Threads;

/// A topology of a graph that is cut into parts.
#[derive(Drop)]
pub(crate) struct Division<'a> {
    pub(crate) graph: &'a Graph,
    pub(crate) order: &'a [u32],
    pub(crate) levels: &'a [u32],
    pub(crate) rows: &'a Rows<u32>,
    /// The part of each node.
    pub(crate) parts: &'a [u32],
    /// The number of parts, and the number of the rest.
    pub(crate) rest: u32,
}

impl ListJob for Division<'_> {
    type Item = u32;

    type Room = ();

    type Out = Metric;

    ghost takes = { λ job part. (part < job.rest) × IsApart job };

    ghost meaning = { λ job part metric. HasLegsOf job part metric };

    ghost clean = { λ job room. Unit {0} };

    fn room(&self, _alloc: Global) -> Result<(), AllocError> {
        Ok(())
    }

    fn value(&self, alloc: Global, _room: &mut (), part: &u32) -> Result<Metric, AllocError> {
        self.lowered_part(alloc, *part)
    }
}

impl Division<'_> {
    /// Returns the legs of a part, lowered over its nodes.
    fn lowered_part(&self, alloc: Global, part: u32) -> Result<Metric, AllocError>
        requires division { IsApart self.now }
        requires part { part < self.now.rest }
        ensures { IfOk result (HasLegsOf self.now part) }
    {
        // This call tells the proof that the graph keeps the limits.
        let _nodes = self.graph.nodes();
        let own = rows_of_part(alloc, self.rows, self.parts, part)?;
        let mut metric = Metric::open(alloc, &own)?;
        put_arcs(self.graph, self.order, self.levels, &own, &mut metric);
        self.lower_part(alloc, part, &own, &mut metric)?;
        Ok(metric)
    }

    /// Lowers the legs of a part over its nodes, one after the other.
    fn lower_part(
        &self,
        alloc: Global,
        part: u32,
        own: &Rows<u32>,
        metric: &mut Metric,
    ) -> Result<(), AllocError>
        requires division { IsApart self.now }
        requires part { part < self.now.rest }
        requires own { HasRows self.now part own.now }
        requires metric { AreLoweredAt self.now own.now 0 metric.old }
        ensures { OnOk result (AreLoweredAt self.now own.now self.now.graph.now.nodes metric.new) }
    {
        let mut taken = Vec::new(alloc);
        for place in 0..self.order.len() {
            self.lower_part_at(part, own, place, &mut taken, metric)?;
        }
        Ok(())
    }

    /// Lowers the legs of a part over the node at this place, if it is in the part. No other node lowers any.
    fn lower_part_at(
        &self,
        part: u32,
        own: &Rows<u32>,
        place: usize,
        taken: &mut Vec<LegPair>,
        metric: &mut Metric,
    ) -> Result<(), AllocError>
        requires division { IsApart self.now }
        requires part { part < self.now.rest }
        requires own { HasRows self.now part own.now }
        requires place { place < length self.now.order.now }
        requires metric { AreLoweredAt self.now own.now place metric.old }
        ensures { OnOk result (AreLoweredAt self.now own.now (place + 1) metric.new) }
    {
        // This call tells the proof that the graph keeps the limits.
        let _nodes = self.graph.nodes();
        let node = self.order[place];
        if self.parts[node as usize] != part {
            return Ok(());
        }
        metric.copy_row(node, taken)?;
        lower_with(
            self.graph,
            self.order,
            self.rows,
            own,
            place,
            taken.as_slice(),
            metric,
        );
        Ok(())
    }

    /// Returns the legs of the rest, lowered over all nodes, where those of the parts are lowered.
    fn lowered_rest(&self, alloc: Global, metrics: &[Metric]) -> Result<Metric, AllocError>
        requires division { IsApart self.now }
        requires count { length metrics.now ≡ self.now.rest }
        requires metrics { HasLegsOfAll self.now metrics.now }
        ensures { IfOk result (HasLegsOf self.now self.now.rest) }
    {
        // This call tells the proof that the graph keeps the limits.
        let _nodes = self.graph.nodes();
        let own = rows_of_part(alloc, self.rows, self.parts, self.rest)?;
        let mut metric = Metric::open(alloc, &own)?;
        put_arcs(self.graph, self.order, self.levels, &own, &mut metric);
        self.lower_rest(alloc, metrics, &own, &mut metric)?;
        Ok(metric)
    }

    /// Lowers the legs of the rest over all nodes, one after the other.
    fn lower_rest(
        &self,
        alloc: Global,
        metrics: &[Metric],
        own: &Rows<u32>,
        metric: &mut Metric,
    ) -> Result<(), AllocError>
        requires division { IsApart self.now }
        requires count { length metrics.now ≡ self.now.rest }
        requires metrics { HasLegsOfAll self.now metrics.now }
        requires own { HasRows self.now self.now.rest own.now }
        requires metric { AreLoweredAt self.now own.now 0 metric.old }
        ensures { OnOk result (AreLoweredAt self.now own.now self.now.graph.now.nodes metric.new) }
    {
        let mut taken = Vec::new(alloc);
        for place in 0..self.order.len() {
            self.lower_rest_at(metrics, own, place, &mut taken, metric)?;
        }
        Ok(())
    }

    /// Lowers the legs of the rest over the node at this place, if its row has a node of the rest.
    fn lower_rest_at(
        &self,
        metrics: &[Metric],
        own: &Rows<u32>,
        place: usize,
        taken: &mut Vec<LegPair>,
        metric: &mut Metric,
    ) -> Result<(), AllocError>
        requires division { IsApart self.now }
        requires count { length metrics.now ≡ self.now.rest }
        requires metrics { HasLegsOfAll self.now metrics.now }
        requires own { HasRows self.now self.now.rest own.now }
        requires place { place < length self.now.order.now }
        requires metric { AreLoweredAt self.now own.now place metric.old }
        ensures { OnOk result (AreLoweredAt self.now own.now (place + 1) metric.new) }
    {
        // This call tells the proof that the graph keeps the limits.
        let _nodes = self.graph.nodes();
        if !has_part(self.rows.row(self.order[place]), self.parts, self.rest) {
            return Ok(());
        }
        self.copy_taken(metrics, own, place, metric, taken)?;
        lower_with(
            self.graph,
            self.order,
            self.rows,
            own,
            place,
            taken.as_slice(),
            metric,
        );
        Ok(())
    }

    /// Copies the row of the node at this place of the order from the legs of its part.
    fn copy_taken(
        &self,
        metrics: &[Metric],
        own: &Rows<u32>,
        place: usize,
        metric: &Metric,
        taken: &mut Vec<LegPair>,
    ) -> Result<(), AllocError>
        requires division { IsApart self.now }
        requires count { length metrics.now ≡ self.now.rest }
        requires metrics { HasLegsOfAll self.now metrics.now }
        requires own { HasRows self.now self.now.rest own.now }
        requires place { place < length self.now.order.now }
        requires metric { AreLoweredAt self.now own.now place metric.now }
        ensures { OnOk result (IsTakenAt self.now place taken.new.items) }
    {
        // This call tells the proof that the graph keeps the limits.
        let _nodes = self.graph.nodes();
        let node = self.order[place];
        let part = self.parts[node as usize] as usize;
        if part < metrics.len() {
            metrics[part].copy_row(node, taken)
        } else {
            metric.copy_row(node, taken)
        }
    }

    /// Returns the legs of all nodes, lowered over all nodes. Each worker lowers those of one part after the other.
    pub(crate) fn lowered<R: Threads + Sync, G: Gate>(
        &self,
        crew: &Crew<'_, R, G>,
    ) -> Result<Metric, AllocError>
        requires division { IsApart self.now }
        ensures { IfOk result (λ m. AreLoweredAt self.now self.now.rows.now self.now.graph.now.nodes m) }
    {
        let mut metrics = self.lowered_parts(crew)?;
        let rest = self.lowered_rest(crew.alloc, metrics.as_slice())?;
        metrics.push(rest)?;
        self.gathered(crew.alloc, metrics.as_slice())
    }

    /// Returns the legs of each part, lowered over its nodes. The workers share the parts. They do not pass the caller's gate.
    fn lowered_parts<R: Threads + Sync, G: Gate>(
        &self,
        crew: &Crew<'_, R, G>,
    ) -> Result<Vec<Metric>, AllocError>
        requires division { IsApart self.now }
        ensures count { IfOk result (λ metrics. length metrics.items ≡ self.now.rest) }
        ensures metrics { IfOk result (λ metrics. HasLegsOfAll self.now metrics.items) }
    {
        let mut numbers = Vec::with_capacity(crew.alloc, self.rest as usize)?;
        for part in 0..self.rest {
            numbers.push(part)?;
        }
        let by_part = Crew {
            rt: crew.rt,
            alloc: crew.alloc,
            plan: Plan::new(crew.plan.workers(), 1, 1),
            gate: &Open,
        };
        run_list(&by_part, numbers.as_slice(), self)
    }

    /// Returns the legs of all nodes, each row from those of its part.
    fn gathered(&self, alloc: Global, metrics: &[Metric]) -> Result<Metric, AllocError>
        requires division { IsApart self.now }
        requires count { length metrics.now ≡ self.now.rest + 1 }
        requires metrics { HasLegsOfAll self.now metrics.now }
        ensures { IfOk result (λ m. AreLoweredAt self.now self.now.rows.now self.now.graph.now.nodes m) }
    {
        // This call tells the proof that the graph keeps the limits.
        let _nodes = self.graph.nodes();
        Metric::gathered(alloc, self.parts, metrics)
    }
}

//! Flows on the lines of the graph: for each the sum of the demands of the pairs whose routes take its arc.
ghost use Rattle.std.specs.Prelude.{◌≡◌, ℕ, List, All, IfErr, IfOk, OnOk, length};
ghost use Rattle.ch_hierarchy.specs.Hierarchy.{nodes_of};
ghost use Rattle.ch_flows.specs.Plans.{AreFlowsOf, IsPlanOf, IsRefusal};
ghost use Rattle.ch_engine.specs.Flows.{AreFlowsWritten, ArePut, AreTableFlowsWritten};
ghost use Rattle.ch_engine.specs.Held.{only};
ghost use Rattle.ch_engine.specs.Lines.{IsOfSome};
ghost use Rattle.ch_engine.specs.Refusals.{AreFlowLengths, AreFlowTableLengths, AreNodes, IsRefusalOfFlowTable, IsRefusalOfFlows};

use crate::engine::Engine;
use crate::fault::Refusal;
use crate::network::Network;
use crate::words::are_both_nodes;
use ch_flows::{FlowError, LegFlows, Plan, flows, make_plan, table_flows};
use std::alloc::Global;

/// What became of the flows of pairs. They are written whole or not at all.
#[derive(Clone, Copy, Debug, PartialEq, Eq)]
pub enum Flowed {
    /// All flows are written, and so many pairs have no walk.
    All(u64),
    /// A flow is more than 2^63.
    TooLarge,
    /// There was no memory.
    NoMemory,
}

impl Engine {
    /// Writes the flow on each line of the graph: the sum of the demands of the pairs whose routes take the arc on it, as
    /// often as they take it. Routes and lines are those of [`Engine::routes`]: of lines between the same nodes the first
    /// of least weight has the flow. A pair without a walk adds nothing, and is counted. If a flow is more than 2^63, or
    /// if there is no memory, nothing is written.
    ///
    /// # Errors
    /// `Lengths` if the lengths do not fit, otherwise `NodeRange` if a number is no node. Then nothing is written.
    pub fn flows(
        &mut self,
        alloc: Global,
        sources: &[u32],
        targets: &[u32],
        demands: &[u64],
        out: &mut [u64],
    ) -> Result<Flowed, Refusal>
        ensures written { IfOk result (AreFlowsWritten self.old sources.now targets.now demands.now out.old out.new) }
        ensures fit { OnOk result (AreFlowLengths (length sources.now) (length targets.now) (length demands.now) (length out.old) self.old.lines.count) }
        ensures known { OnOk result (AreNodes (nodes_of self.old.hierarchy) sources.now × AreNodes (nodes_of self.old.hierarchy) targets.now) }
        ensures refused { IfErr result (λ refusal. (out.new ≡ out.old) × IsRefusalOfFlows (nodes_of self.old.hierarchy) self.old.lines.count sources.now targets.now (length demands.now) (length out.old) refusal) }
        ensures same { self.new ≡ self.old }
    {
        let pairs = sources.len();
        if targets.len() != pairs || demands.len() != pairs || out.len() != self.network.count() {
            return Err(Refusal::Lengths);
        }
        let count = self.nodes();
        if !are_both_nodes(sources, targets, count) {
            return Err(Refusal::NodeRange);
        }
        Ok(self.write_flows(alloc, sources, targets, demands, out))
    }

    /// Writes the flow on each line of the graph as [`Engine::flows`] does, of the pairs of each source with each target.
    /// Their demands stand row after row. Each target has a tree of its legs to higher nodes, and each row takes one more
    /// search, so that a pair takes about the time of a cell of a table.
    ///
    /// # Errors
    /// `Lengths` if the lengths do not fit, otherwise `NodeRange` if a number is no node. Then nothing is written.
    pub fn flows_table(
        &mut self,
        alloc: Global,
        sources: &[u32],
        targets: &[u32],
        demands: &[u64],
        out: &mut [u64],
    ) -> Result<Flowed, Refusal>
        ensures written { IfOk result (AreTableFlowsWritten self.old sources.now targets.now demands.now out.old out.new) }
        ensures fit { OnOk result (AreFlowTableLengths (length sources.now) (length targets.now) (length demands.now) (length out.old) self.old.lines.count) }
        ensures known { OnOk result (AreNodes (nodes_of self.old.hierarchy) sources.now × AreNodes (nodes_of self.old.hierarchy) targets.now) }
        ensures refused { IfErr result (λ refusal. (out.new ≡ out.old) × IsRefusalOfFlowTable (nodes_of self.old.hierarchy) self.old.lines.count sources.now targets.now (length demands.now) (length out.old) refusal) }
        ensures same { self.new ≡ self.old }
    {
        let cells = sources.len().checked_mul(targets.len());
        if cells != Some(demands.len()) || out.len() != self.network.count() {
            return Err(Refusal::Lengths);
        }
        let count = self.nodes();
        if !are_both_nodes(sources, targets, count) {
            return Err(Refusal::NodeRange);
        }
        Ok(self.write_table_flows(alloc, sources, targets, demands, out))
    }

    fn write_table_flows(
        &mut self,
        alloc: Global,
        sources: &[u32],
        targets: &[u32],
        demands: &[u64],
        out: &mut [u64],
    ) -> Flowed
        requires lengths { AreFlowTableLengths (length sources.now) (length targets.now) (length demands.now) (length out.old) self.old.lines.count }
        requires sources { AreNodes (nodes_of self.old.hierarchy) sources.now }
        requires targets { AreNodes (nodes_of self.old.hierarchy) targets.now }
        ensures written { AreTableFlowsWritten self.old sources.now targets.now demands.now out.old out.new result }
        ensures same { self.new ≡ self.old }
    {
        let hierarchy = self.network.hierarchy();
        let Ok(plan) = make_plan(alloc, hierarchy) else {
            return Flowed::NoMemory;
        };
        let scratch = &mut self.scratch;
        let found = table_flows(alloc, hierarchy, &plan, scratch, sources, targets, demands);
        self.network.put_found(&plan, found, out)
    }

    fn write_flows(
        &mut self,
        alloc: Global,
        sources: &[u32],
        targets: &[u32],
        demands: &[u64],
        out: &mut [u64],
    ) -> Flowed
        requires lengths { AreFlowLengths (length sources.now) (length targets.now) (length demands.now) (length out.old) self.old.lines.count }
        requires sources { AreNodes (nodes_of self.old.hierarchy) sources.now }
        requires targets { AreNodes (nodes_of self.old.hierarchy) targets.now }
        ensures written { AreFlowsWritten self.old sources.now targets.now demands.now out.old out.new result }
        ensures same { self.new ≡ self.old }
    {
        let hierarchy = self.network.hierarchy();
        let Ok(plan) = make_plan(alloc, hierarchy) else {
            return Flowed::NoMemory;
        };
        let scratch = &mut self.scratch;
        let found = flows(alloc, hierarchy, &plan, scratch, sources, targets, demands);
        self.network.put_found(&plan, found, out)
    }
}

impl Network {
    /// Writes flows of legs that were found on the lines of the graph, or nothing if they were refused.
    fn put_found(&self, plan: &Plan, found: Result<LegFlows, FlowError>, out: &mut [u64]) -> Flowed
        requires kept { IsOfSome self.now.0 self.now.1 }
        requires plan { IsPlanOf self.now.0 plan.now }
        requires legs { IfOk found (λ flows. length flows.legs.items ≡ length plan.now.parts.items) }
        requires lines { length out.old ≡ self.now.1.count }
        ensures { (sources targets demands : List ℕ) → IfOk found (λ flows. AreFlowsOf self.now.0 plan.now sources targets demands flows.legs.items flows.missed) → IfErr found (IsRefusal self.now.0 plan.now sources targets demands) → AreFlowsWritten (only self.now.0 self.now.1) sources targets demands out.old out.new result }
    {
        match found {
            Ok(found) => {
                self.put_flows(plan, &found.legs, out);
                Flowed::All(found.missed as u64)
            }
            Err(error) => match error {
                FlowError::TooLarge => Flowed::TooLarge,
                FlowError::NoMemory => Flowed::NoMemory,
            },
        }
    }

    /// Writes the flow of each leg that is an arc on the line of this arc, and 0 on all other lines.
    fn put_flows(&self, plan: &Plan, legs: &[u64], out: &mut [u64])
        requires kept { IsOfSome self.now.0 self.now.1 }
        requires plan { IsPlanOf self.now.0 plan.now }
        requires legs { length legs.now ≡ length plan.now.parts.items }
        requires lines { length out.old ≡ self.now.1.count }
        ensures put { ArePut self.now.0 self.now.1 plan.now legs.now (length plan.now.parts.items) out.new }
        ensures long { length out.new ≡ length out.old }
    {
        clear(out);
        for place in 0..plan.legs() {
            if let Some((from, to)) = plan.arc(place) {
                let line = self.line(from, to);
                out[line as usize] = legs[place];
            }
        }
    }
}

/// Writes 0 everywhere.
fn clear(out: &mut [u64])
    ensures none { All (λ flow. flow ≡ 0) out.new }
    ensures long { length out.new ≡ length out.old }
{
    for i in 0..out.len() {
        out[i] = 0;
    }
}

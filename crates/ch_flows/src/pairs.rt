//! Flows of pairs of nodes.
ghost use Rattle.std.specs.Prelude.{◌≡◌, [], ◌<◌, ◌≤◌, ◌+◌, ◌*◌, ℕ, List, length, All, IfErr, IfOk, OnOk};
ghost use Rattle.ch_graph.specs.declared.arc.InArc.{InArc as AnyArc};
ghost use Rattle.ch_hierarchy.specs.Hierarchy.{LevelsAndLegs, nodes_of};
ghost use Rattle.ch_hierarchy.specs.declared.side.Side.TheVariants.{Down as DownSide, Up as UpSide};
ghost use Rattle.ch_query.specs.Distance.{IsKeptForSome};
ghost use Rattle.ch_query.specs.Unpacking.{ArePending, ArePendingArcs};
ghost use Rattle.ch_flows.specs.Handing.{AreParts};
ghost use Rattle.ch_flows.specs.Layouts.{IsLaid};
ghost use Rattle.ch_flows.specs.Meetings.{IsMeetingSoFar};
ghost use Rattle.ch_flows.specs.Plans.{AreCounted, AreFlowsOf, IsPairAt, IsPlanOf, IsRefusal, IsTally, IsWay, IsWayFound};
ghost use Rattle.ch_flows.specs.Found.{IsFound};
ghost use Rattle.ch_flows.specs.Trees.{AreBranches, IsTree};
ghost use Rattle.ch_flows.specs.declared.gathering.Branch.{Branch as AnyBranch};
ghost use Rattle.ch_flows.specs.declared.plan.Plan.{Plan as AnyPlan};

use crate::meeting::{Found, Meeting, way_between};
use crate::plan::{Layout, Plan};
use crate::tally::{add_pair, no_flows, take_down};
use crate::tree::Tree;
use ch_hierarchy::Hierarchy;
use ch_query::{PendingLeg, Scratch, route_legs};
use std::alloc::{AllocError, Global};

/// The reason why flows are refused.
#[derive(Debug, Clone, Copy, PartialEq, Eq)]
pub enum FlowError {
    /// There is no memory.
    NoMemory,
    /// An arc has more than [`MOST_FLOW`](crate::MOST_FLOW).
    TooLarge,
}

/// The flows of all legs of a plan, of which those of arcs count.
#[derive(Drop)]
pub struct LegFlows {
    /// For each leg that is an arc the sum of the demands of the pairs whose routes take it.
    pub legs: Vec<u64>,
    /// The number of pairs without a walk.
    pub missed: usize,
}

/// The legs of a pair's way, and their places in the plan.
#[derive(Drop)]
pub(crate) struct Way {
    pub(crate) legs: Vec<PendingLeg>,
    pub(crate) places: Vec<usize>,
}

/// Returns for each leg of the plan that is an arc the sum of the demands of the pairs whose routes take it, as
/// often as they take it. A pair without a walk adds nothing.
///
/// # Errors
/// `TooLarge` if some arc has more than [`MOST_FLOW`](crate::MOST_FLOW), and `NoMemory` if there is no memory.
pub fn flows(
    alloc: Global,
    hierarchy: &Hierarchy,
    plan: &Plan,
    scratch: &mut Scratch,
    sources: &[u32],
    targets: &[u32],
    demands: &[u64],
) -> Result<LegFlows, FlowError>
    requires kept { IsKeptForSome hierarchy.now }
    requires plan { IsPlanOf hierarchy.now plan.now }
    requires scratch { scratch.old ≡ nodes_of hierarchy.now }
    requires lengths { (length targets.now ≡ length sources.now) × (length demands.now ≡ length sources.now) }
    requires sources { All (λ node. node < nodes_of hierarchy.now) sources.now }
    requires targets { All (λ node. node < nodes_of hierarchy.now) targets.now }
    ensures long { IfOk result (λ flows. length flows.legs.items ≡ length plan.now.parts.items) }
    ensures flows { IfOk result (λ flows. AreFlowsOf hierarchy.now plan.now sources.now targets.now demands.now flows.legs.items flows.missed) }
    ensures refused { IfErr result (IsRefusal hierarchy.now plan.now sources.now targets.now demands.now) }
    ensures scratch { scratch.new ≡ scratch.old }
{
    let Ok(mut legs) = no_flows(alloc, plan.parts.len()) else {
        return Err(FlowError::NoMemory);
    };
    match fill(
        alloc,
        hierarchy,
        plan,
        scratch,
        sources,
        targets,
        demands,
        legs.as_mut_slice(),
    ) {
        Ok(missed) => Ok(LegFlows { legs, missed }),
        Err(error) => Err(error),
    }
}

/// Writes the flows of all pairs over none, and returns the number of pairs without a walk.
fn fill(
    alloc: Global,
    hierarchy: &Hierarchy,
    plan: &Plan,
    scratch: &mut Scratch,
    sources: &[u32],
    targets: &[u32],
    demands: &[u64],
    flows: &mut [u64],
) -> Result<usize, FlowError>
    requires kept { IsKeptForSome hierarchy.now }
    requires plan { IsPlanOf hierarchy.now plan.now }
    requires scratch { scratch.old ≡ nodes_of hierarchy.now }
    requires lengths { (length targets.now ≡ length sources.now) × (length demands.now ≡ length sources.now) }
    requires sources { All (λ node. node < nodes_of hierarchy.now) sources.now }
    requires targets { All (λ node. node < nodes_of hierarchy.now) targets.now }
    requires long { length flows.old ≡ length plan.now.parts.items }
    requires none { IsTally hierarchy.now plan.now.layout.links.items [] flows.old }
    ensures flows { IfOk result (λ missed. AreFlowsOf hierarchy.now plan.now sources.now targets.now demands.now flows.new missed) }
    ensures refused { IfErr result (IsRefusal hierarchy.now plan.now sources.now targets.now demands.now) }
    ensures scratch { scratch.new ≡ scratch.old }
    ensures long { length flows.new ≡ length flows.old }
{
    let mut missed = 0;
    let mut way = Way {
        legs: Vec::new(alloc),
        places: Vec::new(alloc),
    };
    for i in 0..sources.len() {
        let Ok(is_found) = way.find(
            alloc,
            hierarchy,
            &plan.layout,
            scratch,
            sources[i],
            targets[i],
        ) else {
            return Err(FlowError::NoMemory);
        };
        match way.count(is_found, demands[i], flows) {
            Ok(more) => missed += more,
            Err(error) => return Err(error),
        }
    }
    finish(plan, missed, flows)
}

/// Hands the flows of counted pairs down to the arcs, and returns the number of pairs without a walk again.
pub(crate) fn finish(plan: &Plan, missed: usize, flows: &mut [u64]) -> Result<usize, FlowError>
    requires parts { AreParts plan.now.parts.items }
    requires long { length flows.old ≡ length plan.now.parts.items }
    ensures flows { IfOk result (λ all. (H : LevelsAndLegs) (sources targets demands : List ℕ) → IsPlanOf H plan.now → AreCounted H plan.now.layout.links.items sources targets demands (length sources) flows.old missed → AreFlowsOf H plan.now sources targets demands flows.new all) }
    ensures refused { IfErr result (λ error. (H : LevelsAndLegs) (sources targets demands : List ℕ) → IsPlanOf H plan.now → AreCounted H plan.now.layout.links.items sources targets demands (length sources) flows.old missed → IsRefusal H plan.now sources targets demands error) }
    ensures long { length flows.new ≡ length flows.old }
{
    let Ok(()) = take_down(&plan.parts, flows) else {
        return Err(FlowError::TooLarge);
    };
    Ok(missed)
}

impl Way {
    /// Finds the places of the legs of the way between two nodes, and says whether there is one.
    pub(crate) fn find(
        &mut self,
        alloc: Global,
        hierarchy: &Hierarchy,
        layout: &Layout,
        scratch: &mut Scratch,
        source: u32,
        target: u32,
    ) -> Result<bool, AllocError>
        requires kept { IsKeptForSome hierarchy.now }
        requires laid { IsLaid hierarchy.now layout.now.starts.items layout.now.links.items (2 * nodes_of hierarchy.now) }
        requires scratch { scratch.old ≡ nodes_of hierarchy.now }
        requires source { source < nodes_of hierarchy.now }
        requires target { target < nodes_of hierarchy.now }
        ensures way { IfOk result (IsWayFound hierarchy.now layout.now.links.items source target self.new.places.items) }
        ensures scratch { scratch.new ≡ scratch.old }
    {
        self.places.clear();
        let is_found = route_legs(alloc, hierarchy, scratch, source, target, &mut self.legs)?;
        push_places(hierarchy, layout, &self.legs, &mut self.places)?;
        Ok(is_found)
    }

    /// Finds the way between the sources of two trees, which meet there. Where it is not known, it is searched, and its legs
    /// are listed.
    pub(crate) fn find_in(
        &mut self,
        alloc: Global,
        hierarchy: &Hierarchy,
        plan: &Plan,
        scratch: &mut Scratch,
        ups: &Tree,
        downs: &Tree,
        meeting: Meeting,
    ) -> Result<Found, AllocError>
        requires kept { IsKeptForSome hierarchy.now }
        requires plan { IsPlanOf hierarchy.now plan.now }
        requires scratch { scratch.old ≡ nodes_of hierarchy.now }
        requires source { ups.now.source < nodes_of hierarchy.now }
        requires target { downs.now.source < nodes_of hierarchy.now }
        ensures found { IfOk result (λ found. (row columns : List AnyBranch) → AreBranches UpSide hierarchy.now plan.now.layout.links.items row → AreBranches DownSide hierarchy.now plan.now.layout.links.items columns → IsTree UpSide hierarchy.now row ups.now → IsTree DownSide hierarchy.now columns downs.now → IsMeetingSoFar ups.now.kept.items downs.now.kept.items (length ups.now.kept.items) meeting → IsFound hierarchy.now plan.now.layout.links.items row columns ups.now.source downs.now.source self.new.places.items found) }
        ensures places { OnOk result (All (λ place. place < length plan.now.parts.items) self.new.places.items) }
        ensures scratch { scratch.new ≡ scratch.old }
    {
        let places = &mut self.places;
        places.clear();
        match way_between(meeting) {
            Some(found) => Ok(found),
            None => {
                let is_found = self.find(
                    alloc,
                    hierarchy,
                    &plan.layout,
                    scratch,
                    ups.source,
                    downs.source,
                )?;
                Ok(Found::Listed(is_found))
            }
        }
    }

    /// Adds the demand of a pair to the legs of its way. Returns 1 if there is no way, and otherwise 0.
    pub(crate) fn count(
        &self,
        is_found: bool,
        demand: u64,
        flows: &mut [u64],
    ) -> Result<usize, FlowError>
        requires { All (λ place. place < length flows.old) self.now.places.items }
        ensures counted { IfOk result (λ more. (H : LevelsAndLegs) (plan : AnyPlan) (sources targets demands : List ℕ) (n missed : ℕ) → IsPlanOf H plan → IsPairAt H plan.layout.links.items sources targets demands n self.now.places.items is_found demand → AreCounted H plan.layout.links.items sources targets demands n flows.old missed → AreCounted H plan.layout.links.items sources targets demands (n + 1) flows.new (missed + more)) }
        ensures few { IfOk result (λ more. more ≤ 1) }
        ensures refused { IfErr result (λ error. (H : LevelsAndLegs) (plan : AnyPlan) (sources targets demands : List ℕ) (n missed : ℕ) → IsPlanOf H plan → length flows.old ≡ length plan.parts.items → n < length sources → IsPairAt H plan.layout.links.items sources targets demands n self.now.places.items is_found demand → AreCounted H plan.layout.links.items sources targets demands n flows.old missed → IsRefusal H plan sources targets demands error) }
        ensures long { length flows.new ≡ length flows.old }
    {
        let Ok(()) = add_pair(&self.places, demand, flows) else {
            return Err(FlowError::TooLarge);
        };
        Ok(if is_found { 0 } else { 1 })
    }
}

/// Appends the places of some legs to none.
fn push_places(
    hierarchy: &Hierarchy,
    layout: &Layout,
    legs: &[PendingLeg],
    places: &mut Vec<usize>,
) -> Result<(), AllocError>
    requires kept { IsKeptForSome hierarchy.now }
    requires laid { IsLaid hierarchy.now layout.now.starts.items layout.now.links.items (2 * nodes_of hierarchy.now) }
    requires legs { ArePending hierarchy.now legs.now }
    requires empty { places.old.items ≡ [] }
    ensures { OnOk result ((arcs : List AnyArc) → ArePendingArcs hierarchy.now legs.now arcs → IsWay hierarchy.now layout.now.links.items places.new.items arcs) }
{
    for j in 0..legs.len() {
        places.push(layout.leg_place(hierarchy, legs[j]))?;
    }
    Ok(())
}

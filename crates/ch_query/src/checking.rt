//! The check whether a saved hierarchy of any origin is right for a graph.

mod arcs;
mod covering;
mod finding;
mod founding;
mod leg_costs;
mod lists;
mod lower;

ghost use Rattle.std.specs.Prelude.{◌≡◌, ◌<◌, ◌^◌, ℕ, All, IfErr, IfOk, MatchOption, length};
ghost use Rattle.ch_hierarchy.specs.declared.fault.CheckFault.{CheckFault as AnyFault};
ghost use Rattle.ch_hierarchy.specs.declared.fault.CheckFault.TheVariants as CheckFault;
ghost use Rattle.ch_hierarchy.specs.declared.fault.CheckError.TheVariants as CheckError;
ghost use Rattle.ch_hierarchy.specs.Hierarchy.{nodes_of};
ghost use Rattle.ch_hierarchy.specs.Kept.{IsCovered};
ghost use Rattle.ch_hierarchy.specs.Saved.{IsFaultless, IsFirstFault, NamesFor, NamesKept, AnswersWhere};
ghost use Rattle.ch_hierarchy.specs.Assembling.{IsFirstFailing};
ghost use Rattle.ch_query.specs.Checking.{IsArcIfBase, IsIfFault, IsOkWhere, NamesFounded};
ghost use Rattle.ch_query.specs.Covering.{IsFirstUncovered};

use ch_graph::{Graph, Saved};
use ch_hierarchy::{CheckError, CheckFault, Hierarchy, assemble};
use ch_work::{Crew, Gate, Stage};
use founding::{ServedCheck, SumCheck, first_without_arc, first_without_arc_by};
use lists::{first_failing, first_failing_by};
use lower::{first_uncovered, first_uncovered_alone};
use std::alloc::{AllocError, Global};
use std::thread::Threads;

/// Returns the hierarchy that a saved one names, if it is right for the graph.
///
/// Its distances and routes are then those of the graph, whatever its origin. It has exactly the levels and
/// legs of the saved hierarchy.
///
/// Before [`assemble`] it looks for the arc of each leg without a middle, so the rows of arcs are freed
/// before there is a hierarchy. After it, it looks for the two legs of each other leg, and for the leg of
/// each arc.
///
/// Then it takes each pair of legs through a lower node. If no leg between their other ends costs at most
/// as much, it searches from both ends. It takes O(k log k) steps for k nodes, arcs, legs and such pairs
/// together, and the steps of these searches.
///
/// It reports to the gate when it begins. The gate changes no answer. The saved hierarchy is freed before the
/// searches, so the memory for them is not needed beside it.
///
/// # Errors
/// The first fault of all seven kinds, or `NoMemory`.
pub fn check<R: Threads + Sync, G: Gate>(
    crew: &Crew<'_, R, G>,
    graph: &Graph,
    saved: Saved,
) -> Result<Hierarchy, CheckError>
    ensures accepted { IsOkWhere result (IsFaultless graph.now saved) }
    ensures hierarchy { IfOk result (NamesKept graph.now saved) }
    ensures fault { (f : AnyFault) → AnswersWhere result (Err (CheckError.Fault f)) (IsFirstFault graph.now saved f) }
{
    crew.gate
        .watch(Stage::Checking, 0, crew.plan.pieces(graph.nodes()));
    let hierarchy = founded_by(crew, graph, &saved)?;
    drop(saved);
    covered(crew, hierarchy)
}

/// Like [`check`], by the caller alone: it starts no thread and passes no gate. It is for programs that
/// have no handle to start threads with.
///
/// # Errors
/// The first fault of all seven kinds, or `NoMemory`. The graph and the saved hierarchy stay as they were.
pub fn check_alone(alloc: Global, graph: &Graph, saved: &Saved) -> Result<Hierarchy, CheckError>
    ensures accepted { IsOkWhere result (IsFaultless graph.now saved.now) }
    ensures hierarchy { IfOk result (NamesKept graph.now saved.now) }
    ensures fault { (f : AnyFault) → AnswersWhere result (Err (CheckError.Fault f)) (IsFirstFault graph.now saved.now f) }
{
    let hierarchy = founded(alloc, graph, saved)?;
    covered_alone(alloc, hierarchy)
}

/// Returns the hierarchy that a saved one names, if each leg is what its middle says and each arc has its
/// leg. This is all of the check except the pairs of legs through lower nodes.
fn founded(alloc: Global, graph: &Graph, saved: &Saved) -> Result<Hierarchy, CheckError>
    ensures value { IfOk result (NamesFounded graph.now saved.now) }
    ensures fault { IfErr result (IsIfFault (IsFirstFault graph.now saved.now)) }
{
    let baseless = first_without_arc(alloc, graph, saved.legs.as_slice())?;
    let hierarchy = assemble(alloc, graph, saved)?;
    match first_unfounded(graph, saved, &hierarchy, baseless) {
        Some(fault) => Err(CheckError::Fault(fault)),
        None => Ok(hierarchy),
    }
}

/// Returns the same as [`founded`]. The workers of a crew share the checks.
fn founded_by<R: Threads + Sync, G: Gate>(
    crew: &Crew<'_, R, G>,
    graph: &Graph,
    saved: &Saved,
) -> Result<Hierarchy, CheckError>
    ensures value { IfOk result (NamesFounded graph.now saved.now) }
    ensures fault { IfErr result (IsIfFault (IsFirstFault graph.now saved.now)) }
{
    let legs = saved.legs.as_slice();
    // Workers count legs in 32 bits. The caller checks longer lists alone.
    if u32::try_from(legs.len()).is_err() {
        return founded(crew.alloc, graph, saved);
    }
    let baseless = first_without_arc_by(crew, graph, legs)?;
    let hierarchy = assemble(crew.alloc, graph, saved)?;
    match first_unfounded_by(crew, graph, saved, &hierarchy, baseless)? {
        Some(fault) => Err(CheckError::Fault(fault)),
        None => Ok(hierarchy),
    }
}

/// Returns the first fault of a leg or an arc with respect to the named hierarchy. `baseless` is the place
/// of the first leg without a middle that is not an arc of the graph.
fn first_unfounded(
    graph: &Graph,
    saved: &Saved,
    hierarchy: &Hierarchy,
    baseless: Option<usize>,
) -> Option<CheckFault>
    requires named { NamesFor graph.now saved.now hierarchy.now }
    requires bases { MatchOption baseless (All (IsArcIfBase graph.now) saved.now.legs) (IsFirstFailing (IsArcIfBase graph.now) saved.now.legs) }
    ensures { MatchOption result (NamesFounded graph.now saved.now hierarchy.now) (IsFirstFault graph.now saved.now) }
{
    if let Some(place) = baseless {
        return Some(CheckFault::Base(place));
    }
    let legs = saved.legs.as_slice();
    if let Some(place) = first_failing(&SumCheck { hierarchy }, legs) {
        return Some(CheckFault::Middle(place));
    }
    if let Some(place) = first_failing(&ServedCheck { hierarchy }, graph.arcs()) {
        return Some(CheckFault::Arc(place));
    }
    None
}

/// Returns the same as [`first_unfounded`]. The workers of a crew share the checks.
fn first_unfounded_by<R: Threads + Sync, G: Gate>(
    crew: &Crew<'_, R, G>,
    graph: &Graph,
    saved: &Saved,
    hierarchy: &Hierarchy,
    baseless: Option<usize>,
) -> Result<Option<CheckFault>, AllocError>
    requires named { NamesFor graph.now saved.now hierarchy.now }
    requires bases { MatchOption baseless (All (IsArcIfBase graph.now) saved.now.legs) (IsFirstFailing (IsArcIfBase graph.now) saved.now.legs) }
    requires count { length saved.now.legs < 2 ^ 32 }
    ensures { IfOk result (λ found. MatchOption found (NamesFounded graph.now saved.now hierarchy.now) (IsFirstFault graph.now saved.now)) }
{
    if let Some(place) = baseless {
        return Ok(Some(CheckFault::Base(place)));
    }
    let legs = saved.legs.as_slice();
    if let Some(place) = first_failing_by(crew, &SumCheck { hierarchy }, legs)? {
        return Ok(Some(CheckFault::Middle(place)));
    }
    if let Some(place) = first_failing_by(crew, &ServedCheck { hierarchy }, graph.arcs())? {
        return Ok(Some(CheckFault::Arc(place)));
    }
    Ok(None)
}

/// Returns the hierarchy if all pairs of legs through lower nodes are covered.
fn covered<R: Threads + Sync, G: Gate>(
    crew: &Crew<'_, R, G>,
    hierarchy: Hierarchy,
) -> Result<Hierarchy, CheckError>
    ensures value { IfOk result (λ H. (H ≡ hierarchy) × ((v : ℕ) → v < nodes_of H → IsCovered H v)) }
    ensures fault { IfErr result (IsIfFault (λ f. (v : ℕ) × (f ≡ CheckFault.Lower v) × IsFirstUncovered hierarchy v)) }
{
    match first_uncovered(crew, &hierarchy)? {
        Some(node) => Err(CheckError::Fault(CheckFault::Lower(node))),
        None => Ok(hierarchy),
    }
}

/// Like [`covered`], by the caller alone.
fn covered_alone(alloc: Global, hierarchy: Hierarchy) -> Result<Hierarchy, CheckError>
    ensures value { IfOk result (λ H. (H ≡ hierarchy) × ((v : ℕ) → v < nodes_of H → IsCovered H v)) }
    ensures fault { IfErr result (IsIfFault (λ f. (v : ℕ) × (f ≡ CheckFault.Lower v) × IsFirstUncovered hierarchy v)) }
{
    match first_uncovered_alone(alloc, &hierarchy)? {
        Some(node) => Err(CheckError::Fault(CheckFault::Lower(node))),
        None => Ok(hierarchy),
    }
}

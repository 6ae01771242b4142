//! The levels and rows of legs of a saved hierarchy, or its first early fault.
ghost use Rattle.std.specs.Prelude.{◌≡◌, ℕ, List, Contains, IfOk, MatchOption};
ghost use Rattle.ch_graph.specs.declared.saved.SavedLeg.{SavedLeg as LegOfFile};
ghost use Rattle.ch_hierarchy.specs.declared.fault.CheckFault.{CheckFault as AnyFault};
ghost use Rattle.ch_hierarchy.specs.declared.fault.CheckFault.TheVariants as CheckFault;
ghost use Rattle.ch_hierarchy.specs.declared.fault.CheckError.TheVariants as CheckError;
ghost use Rattle.ch_hierarchy.specs.Hierarchy.{LevelsAndLegs};
ghost use Rattle.ch_hierarchy.specs.Saved.{IsOrderOf, AreLevelsOf, JoinsNodes, IsWithinBounds, IsFirstFault, IsEarly, NamesFor, AnswersWhere};
ghost use Rattle.ch_hierarchy.specs.Assembling.{IsFirstFailing, IsFirstPairFault, ArePairs};

use crate::doubles::first_twin;
use crate::fault::{CheckError, CheckFault};
use crate::hierarchy::Hierarchy;
use crate::placing::{PlacedLegs, place_legs};
use crate::sorting::leg_lists;
use ch_graph::limits::MOST_WEIGHT;
use ch_graph::{Graph, Saved, SavedLeg};
use std::alloc::{AllocError, Global};

/// Returns the hierarchy that a saved one names, among the nodes of the graph.
///
/// It judges the order, the pairs of the legs and their bounds. It does not judge whether the legs are
/// right for the graph. The work is linear in the number of nodes and legs.
///
/// # Errors
/// The first fault of the kinds `Order`, `Pair` and `Bound`, or `NoMemory` if memory ran out before a fault
/// was found. The graph and the saved hierarchy stay as they were.
pub fn assemble(alloc: Global, graph: &Graph, saved: &Saved) -> Result<Hierarchy, CheckError>
    ensures value { (H : LevelsAndLegs) → AnswersWhere result (Ok H) (NamesFor graph.now saved.now H) }
    ensures fault { (f : AnyFault) →
        AnswersWhere result (Err (CheckError.Fault f))
        (IsEarly f × IsFirstFault graph.now saved.now f) }
{
    let nodes = graph.nodes();
    let Some(levels) = levels_of(alloc, nodes, saved.order.as_slice())? else {
        return Err(CheckError::Fault(CheckFault::Order));
    };
    let legs = saved.legs.as_slice();
    let pairs = pairs_of(alloc, nodes, levels.as_slice(), legs)?;
    if let Some(place) = first_past_bounds(nodes, legs) {
        return Err(CheckError::Fault(CheckFault::Bound(place)));
    }
    let ups = leg_lists(alloc, nodes, legs, pairs.ups.as_slice())?;
    drop(pairs.ups);
    let downs = leg_lists(alloc, nodes, legs, pairs.downs.as_slice())?;
    drop(pairs.downs);
    Ok(Hierarchy::from_rows(alloc, levels, ups, downs)?)
}

/// Returns the level of each node, or `None` if the order does not have each node below `n` exactly once.
pub fn levels_of(alloc: Global, n: u32, order: &[u32]) -> Result<Option<Vec<u32>>, AllocError>
    ensures { IfOk result (λ found. MatchOption found (IsOrderOf n order.now → ⊥) (λ levels. IsOrderOf n order.now × AreLevelsOf order.now levels.items)) }
{
    if order.len() != n as usize {
        return Ok(None);
    }
    let mut levels = vec![in alloc; 0; n as usize]?;
    let mut level = 0;
    for node in order {
        if *node >= n || levels[*node as usize] != 0 {
            return Ok(None);
        }
        level += 1;
        levels[*node as usize] = level;
    }
    Ok(Some(levels))
}

/// Returns the legs of both directions in order, or the first leg whose pair of nodes is faulty.
///
/// It sorts the legs before the first one that does not join two nodes. It then looks among them for a leg
/// with the same two nodes as an earlier leg.
fn pairs_of(
    alloc: Global,
    n: u32,
    levels: &[u32],
    legs: &[SavedLeg],
) -> Result<PlacedLegs, CheckError>
    requires { (order : List ℕ) × IsOrderOf n order × AreLevelsOf order levels.now }
    ensures pairs { IfOk result (λ p. ArePairs n levels.now legs.now p.ups.items p.downs.items) }
    ensures fault { (f : AnyFault) → result ≡ Err (CheckError.Fault f) →
        (i : ℕ) × (f ≡ CheckFault.Pair i) × IsFirstPairFault n legs.now i }
{
    let faulty = first_not_joining(n, legs);
    let end = faulty.unwrap_or(legs.len());
    let placed = place_legs(alloc, levels, &legs[..end])?;
    let pairs = placed.sorted(alloc, n)?;
    let least = first_twin(alloc, n, pairs.ups.as_slice(), faulty)?;
    match first_twin(alloc, n, pairs.downs.as_slice(), least)? {
        Some(place) => Err(CheckError::Fault(CheckFault::Pair(place))),
        None => Ok(pairs),
    }
}

/// Returns the place of the first leg whose ends are not two different nodes below `n`.
fn first_not_joining(n: u32, legs: &[SavedLeg]) -> Option<usize>
    ensures { MatchOption result ((l : LegOfFile) → Contains legs.now l → JoinsNodes n l) (IsFirstFailing (JoinsNodes n) legs.now) }
{
    legs.iter()
        .position(|leg| leg.from >= n || leg.to >= n || leg.from == leg.to)
}

/// Returns the place of the first leg that exceeds a limit.
fn first_past_bounds(n: u32, legs: &[SavedLeg]) -> Option<usize>
    ensures { MatchOption result ((l : LegOfFile) → Contains legs.now l → IsWithinBounds n l) (IsFirstFailing (IsWithinBounds n) legs.now) }
{
    legs.iter().position(|leg| leg.cost.weight > MOST_WEIGHT || leg.cost.arcs >= u64::from(n))
}

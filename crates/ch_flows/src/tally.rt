//! The flows of pairs: demands are added to the legs of ways, and handed down once at the end.
ghost use Rattle.std.specs.Prelude.{◌≡◌, ◌<◌, ◌++◌, [], ◌∷◌, ℕ, List, Option, length, All, IfOk, OnErr, OnOk};
ghost use Rattle.ch_hierarchy.specs.Hierarchy.{LevelsAndLegs};
ghost use Rattle.ch_query.specs.declared.routes.Route.{Route as AnyRoute};
ghost use Rattle.ch_flows.specs.declared.handing.Halves.{Halves as AnyHalves};
ghost use Rattle.ch_flows.specs.declared.plan.Link.{Link as AnyLink};
ghost use Rattle.ch_flows.specs.Flows.{arcs_of};
ghost use Rattle.ch_flows.specs.Handing.{AreParts};
ghost use Rattle.ch_flows.specs.Plans.{AreFlows, IsPlan, IsTally, IsTooMuch, IsWay};

use crate::handing::{Halves, TooLarge, add_along, hand_down};
use std::alloc::{AllocError, Global};

/// Returns the flows of legs before any pair.
///
/// # Errors
/// `AllocError` if there is no memory.
pub fn no_flows(alloc: Global, legs: usize) -> Result<Vec<u64>, AllocError>
    ensures long { IfOk result (λ flows. length flows.items ≡ legs) }
    ensures none { IfOk result (λ flows. (H : LevelsAndLegs) (links : List AnyLink) → IsTally H links [] flows.items) }
{
    let flows = vec![in alloc; 0; legs]?;
    Ok(flows)
}

/// Adds the demand of a pair to the legs of its way.
///
/// # Errors
/// `TooLarge` if some arc has more than [`MOST_FLOW`](crate::MOST_FLOW) by this pair and those before it.
pub fn add_pair(way: &[usize], demand: u64, flows: &mut [u64]) -> Result<(), TooLarge>
    requires { All (λ place. place < length flows.old) way.now }
    ensures long { length flows.new ≡ length flows.old }
    ensures added { OnOk result ((H : LevelsAndLegs) (links : List AnyLink) (parts : List (Option AnyHalves)) (served : List (ℕ × Option AnyRoute)) (answer : Option AnyRoute) → IsPlan H links parts → IsTally H links served flows.old → IsWay H links way.now (arcs_of answer) → IsTally H links (served ++ (demand, answer) ∷ []) flows.new) }
    ensures excess { OnErr result ((H : LevelsAndLegs) (links : List AnyLink) (parts : List (Option AnyHalves)) (served : List (ℕ × Option AnyRoute)) (answer : Option AnyRoute) → length flows.old ≡ length parts → IsPlan H links parts → IsTally H links served flows.old → IsWay H links way.now (arcs_of answer) → IsTooMuch links parts (served ++ (demand, answer) ∷ [])) }
{
    add_along(way, demand, flows)
}

/// Hands the flows of all legs down to the arcs.
///
/// # Errors
/// `TooLarge` if some arc has more than [`MOST_FLOW`](crate::MOST_FLOW).
pub fn take_down(parts: &[Option<Halves>], flows: &mut [u64]) -> Result<(), TooLarge>
    requires parts { AreParts parts.now }
    requires long { length flows.old ≡ length parts.now }
    ensures long { length flows.new ≡ length flows.old }
    ensures flows { OnOk result ((H : LevelsAndLegs) (links : List AnyLink) (served : List (ℕ × Option AnyRoute)) → IsPlan H links parts.now → IsTally H links served flows.old → AreFlows links parts.now served flows.new) }
    ensures excess { OnErr result ((H : LevelsAndLegs) (links : List AnyLink) (served : List (ℕ × Option AnyRoute)) → IsPlan H links parts.now → IsTally H links served flows.old → IsTooMuch links parts.now served) }
{
    hand_down(parts, flows)
}

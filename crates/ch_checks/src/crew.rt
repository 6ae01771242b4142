//! Crews for tests.
use ch_work::{Crew, Plan};
use std::alloc::Global;

/// Makes a crew with this plan and this gate.
pub(crate) fn crew<'a, R, G>(rt: &'a R, alloc: Global, plan: &Plan, gate: &'a G) -> Crew<'a, R, G> {
    Crew {
        rt,
        alloc,
        plan: *plan,
        gate,
    }
}

//! Who does the work, and how the work is cut.

use crate::plan::Plan;
use std::alloc::Global;

/// What shared work needs: the handle that starts threads, the memory, the plan that divides the work, and
/// the gate that workers pass. None of them changes an answer.
#[derive(Drop)]
pub struct Crew<'a, R, G> {
    pub rt: &'a R,
    pub alloc: Global,
    pub plan: Plan,
    pub gate: &'a G,
}

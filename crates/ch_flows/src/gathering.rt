//! Demands that are held where ways meet, and handed on along the ways back to the sources.
//!
//! A branch is a way back to a source: its last step, and an earlier branch for the other steps. What is held at a branch
//! counts on each leg of its way. It is handed to the leg of the last step and to the branch before it, from the last
//! branch down, so that each step is gone once for all demands that take it.
ghost use Rattle.std.specs.Prelude.{◌≡◌, ◌≢◌, ◌+◌, ◌*◌, ◌<◌, ℕ, length, slice_index, OnErr, OnOk};
ghost use Rattle.ch_flows.specs.Gathering.{AreStepsBack, IsFull, IsHandedOn, IsNothing, IsOver, gathered, worth};
ghost use Rattle.ch_flows.specs.Handing.{weighed};

use crate::handing::{TooLarge, add};

/// The last step of a way.
#[derive(Clone, Copy)]
pub(crate) struct Step {
    /// The place of the entry or of the branch that it comes from.
    pub(crate) before: usize,
    /// The place of the leg between both in the layout.
    pub(crate) leg_place: usize,
}

/// A way from a node back to a source.
#[derive(Clone, Copy)]
pub(crate) struct Branch {
    pub(crate) node: u32,
    pub(crate) source: u32,
    /// The last step. The source has none.
    pub(crate) step: Option<Step>,
}

/// Hands what is held at all branches on to the legs of their ways.
///
/// # Errors
/// `TooLarge` if a leg would get more than [`MOST_FLOW`](crate::MOST_FLOW).
pub(crate) fn hand_on(
    branches: &[Branch],
    held: &mut [u64],
    flows: &mut [u64],
) -> Result<(), TooLarge>
    requires steps { AreStepsBack (length flows.old) branches.now }
    requires held { length held.old ≡ length branches.now }
    ensures long { length flows.new ≡ length flows.old }
    ensures held { length held.new ≡ length held.old }
    ensures handed { OnOk result ((share : ℕ → ℕ) → weighed share flows.new ≡ weighed share flows.old + gathered share branches.now held.old) }
    ensures none { OnOk result (IsNothing held.new) }
    ensures over { OnErr result (IsOver (length flows.old) (λ share. weighed share flows.old + gathered share branches.now held.old)) }
{
    let last = branches.len();
    for i in 0..last {
        hand_back(branches, last - 1 - i, held, flows)?;
    }
    Ok(())
}

/// Hands what is held at a branch to the leg of its last step and to the branch before it.
fn hand_back(
    branches: &[Branch],
    place: usize,
    held: &mut [u64],
    flows: &mut [u64],
) -> Result<(), TooLarge>
    requires steps { AreStepsBack (length flows.old) branches.now }
    requires held { length held.old ≡ length branches.now }
    requires place { place < length branches.now }
    ensures long { length flows.new ≡ length flows.old }
    ensures held { length held.new ≡ length held.old }
    ensures handed { OnOk result (IsHandedOn branches.now place held.old flows.old held.new flows.new) }
    ensures over { OnErr result (IsOver (length flows.old) (λ share. weighed share flows.old + gathered share branches.now held.old)) }
{
    let demand = held[place];
    held[place] = 0;
    let Some(step) = branches[place].step else {
        return Ok(());
    };
    if demand == 0 {
        return Ok(());
    }
    add(flows, step.leg_place, demand)?;
    hold(branches, step.before, demand, held)
}

/// Adds a demand to what is held at a branch. A source has no leg to hand it to, so what would be too much there is left out.
///
/// # Errors
/// `TooLarge` if the branch has a step, and would get more than [`MOST_FLOW`](crate::MOST_FLOW).
pub(crate) fn hold(
    branches: &[Branch],
    place: usize,
    demand: u64,
    held: &mut [u64],
) -> Result<(), TooLarge>
    requires held { length held.old ≡ length branches.now }
    requires place { place < length branches.now }
    ensures held { length held.new ≡ length held.old }
    ensures added { OnOk result ((share : ℕ → ℕ) → gathered share branches.now held.new ≡ gathered share branches.now held.old + demand * worth share branches.now place) }
    ensures others { (k : ℕ) → k ≢ place → slice_index held.new k ≡ slice_index held.old k }
    ensures full { OnErr result (IsFull branches.now held.old place demand) }
{
    match add(held, place, demand) {
        Ok(()) => Ok(()),
        Err(error) => match branches[place].step {
            Some(_) => Err(error),
            None => Ok(()),
        },
    }
}

//! The branches of a tree: the way back from each of its entries, of which each goes on from a shorter one.
//!
//! What is noted of an entry's branch only says where it may be. Whoever reads it looks whether the branch there has the
//! entry's node and the source.
ghost use Rattle.std.specs.Prelude.{◌≡◌, ◌<◌, ⊤, List, Some, length, map, IfOk, OnOk, MatchOption};
ghost use Rattle.ch_hierarchy.specs.Hierarchy.{LevelsAndLegs};
ghost use Rattle.ch_hierarchy.specs.declared.side.Side.{Side as AnySide};
ghost use Rattle.ch_flows.specs.declared.plan.Link.{Link as AnyLink};
ghost use Rattle.ch_flows.specs.Trees.{AreBranches, AreMoreBranches, AreSpots, GoesOn, IsBranchAt, IsReach, entry_at, plain, step_at};

use crate::gathering::{Branch, Step};
use crate::tree::{Mark, Reach, place_of};
use ch_graph::Cost;
use std::alloc::{AllocError, Global};

impl Reach {
    /// Marks some entries with their branches, and appends those that are not there yet.
    ///
    /// # Errors
    /// `AllocError` if there is no memory.
    pub(crate) fn marks(
        &self,
        alloc: Global,
        kept: &[(u32, Cost)],
        places: &[usize],
        branches: &mut Vec<Branch>,
    ) -> Result<Vec<(u32, Mark)>, AllocError>
        ensures marked { IfOk result (λ marks. map plain marks.items ≡ kept.now) }
        ensures spots { IfOk result (λ marks. AreSpots branches.new.items self.now.source marks.items) }
        ensures branches { OnOk result ((side : AnySide) (H : LevelsAndLegs) (links : List AnyLink) → IsReach side H links self.now → AreBranches side H links branches.old.items → AreBranches side H links branches.new.items) }
        ensures more { OnOk result (AreMoreBranches branches.old.items branches.new.items) }
    {
        let mut spots = vec![in alloc; 0; self.entries.len()]?;
        let mut pending = Vec::new(alloc);
        let mut marks = Vec::new(alloc);
        for k in 0..kept.len() {
            let (node, cost) = kept[k];
            let spot = self.spot(node, places, spots.as_mut_slice(), &mut pending, branches)?;
            marks.push((node, Mark { cost, spot }))?;
        }
        Ok(marks)
    }

    /// Returns the branch of a node's entry, after it was appended if it was not there yet, or `None` if it is not known.
    fn spot(
        &self,
        node: u32,
        places: &[usize],
        spots: &mut [usize],
        pending: &mut Vec<usize>,
        branches: &mut Vec<Branch>,
    ) -> Result<Option<u32>, AllocError>
        ensures spot { IfOk result (λ spot. MatchOption spot ⊤ (λ k. IsBranchAt branches.new.items self.now.source node k)) }
        ensures long { length spots.new ≡ length spots.old }
        ensures branches { OnOk result ((side : AnySide) (H : LevelsAndLegs) (links : List AnyLink) → IsReach side H links self.now → AreBranches side H links branches.old.items → AreBranches side H links branches.new.items) }
        ensures more { OnOk result (AreMoreBranches branches.old.items branches.new.items) }
    {
        let Some(place) = place_of(&self.entries, places, node) else {
            return Ok(None);
        };
        self.push_pending(place, spots, pending, branches)?;
        self.append_all(spots, pending, branches)?;
        let Some(branch) = self.branch_of(place, spots, branches) else {
            return Ok(None);
        };
        Ok(as_word(branch))
    }

    /// Appends the entries on the way back from an entry that have no branch yet, up to the first one that has, or the source.
    fn push_pending(
        &self,
        place: usize,
        spots: &[usize],
        pending: &mut Vec<usize>,
        branches: &[Branch],
    ) -> Result<(), AllocError> {
        let mut at = place;
        for _ in 0..self.entries.len() {
            if self.branch_of(at, spots, branches).is_some() {
                return Ok(());
            }
            pending.push(at)?;
            let Some(step) = self.step(at) else {
                return Ok(());
            };
            at = step.before;
        }
        Ok(())
    }

    /// Appends the branches of pending entries, the last one first.
    fn append_all(
        &self,
        spots: &mut [usize],
        pending: &mut Vec<usize>,
        branches: &mut Vec<Branch>,
    ) -> Result<(), AllocError>
        ensures long { length spots.new ≡ length spots.old }
        ensures branches { OnOk result ((side : AnySide) (H : LevelsAndLegs) (links : List AnyLink) → IsReach side H links self.now → AreBranches side H links branches.old.items → AreBranches side H links branches.new.items) }
        ensures more { OnOk result (AreMoreBranches branches.old.items branches.new.items) }
    {
        while let Some(place) = pending.pop() {
            self.append(place, spots, branches)?;
        }
        Ok(())
    }

    /// Appends the branch of an entry, if the entry before it has one, and notes its place.
    fn append(
        &self,
        place: usize,
        spots: &mut [usize],
        branches: &mut Vec<Branch>,
    ) -> Result<(), AllocError>
        ensures long { length spots.new ≡ length spots.old }
        ensures branches { OnOk result ((side : AnySide) (H : LevelsAndLegs) (links : List AnyLink) → IsReach side H links self.now → AreBranches side H links branches.old.items → AreBranches side H links branches.new.items) }
        ensures more { OnOk result (AreMoreBranches branches.old.items branches.new.items) }
    {
        let Some(branch) = self.next_branch(place, spots, branches) else {
            return Ok(());
        };
        if place < spots.len() {
            spots[place] = branches.len();
        }
        branches.push(branch)?;
        Ok(())
    }

    /// Returns the branch of an entry, if it is the source's or that of the entry before it is known.
    fn next_branch(&self, place: usize, spots: &[usize], branches: &[Branch]) -> Option<Branch>
        ensures { MatchOption result ⊤ (λ branch. (side : AnySide) (H : LevelsAndLegs) (links : List AnyLink) → IsReach side H links self.now → GoesOn side H links branches.now (length branches.now) branch) }
    {
        if place >= self.entries.len() {
            return None;
        }
        let (node, source) = (self.entries[place].0, self.source);
        if node == source {
            return Some(Branch {
                node,
                source,
                step: None,
            });
        }
        let step = self.step(place)?;
        let before = self.branch_of(step.before, spots, branches)?;
        Some(Branch {
            node,
            source,
            step: Some(Step {
                before,
                leg_place: step.leg_place,
            }),
        })
    }

    /// Returns the step to an entry, if there is one.
    fn step(&self, place: usize) -> Option<Step>
        ensures { MatchOption result ⊤ (λ step. (place < length self.now.steps.items) × (step_at self.now.steps.items place ≡ Some step)) }
    {
        if place < self.steps.len() {
            self.steps[place]
        } else {
            None
        }
    }

    /// Returns the branch of an entry, if it is where it may be.
    fn branch_of(&self, place: usize, spots: &[usize], branches: &[Branch]) -> Option<usize>
        ensures { MatchOption result ⊤ (λ k. (place < length self.now.entries.items) × IsBranchAt branches.now self.now.source (entry_at self.now.entries.items place).0 k) }
    {
        if place >= self.entries.len() || place >= spots.len() {
            return None;
        }
        let k = spots[place];
        if k >= branches.len() {
            return None;
        }
        if branches[k].source == self.source && branches[k].node == self.entries[place].0 {
            Some(k)
        } else {
            None
        }
    }
}

/// Returns a number as a word of 32 bits, if it fits.
fn as_word(number: usize) -> Option<u32>
    ensures { MatchOption result ⊤ (λ word. word ≡ number) }
{
    if number < u32::MAX as usize {
        Some(number as u32)
    } else {
        None
    }
}

//! The search tree of a source by node, and where it meets that of a target.
ghost use Rattle.std.specs.Prelude.{◌≡◌, ◌∷◌, [], Contains, IfSome, OnOk};
ghost use Rattle.ch_engine.specs.declared.sum_trees.Branch.{Branch as AnyBranch};
ghost use Rattle.ch_engine.specs.PlaceTrees.{AreInSlots, IsFirstMeeting, IsNoted};

use crate::leg_sums::joined;
use crate::slots::Slots;
use crate::sum_meets::{Meeting, put_first};
use crate::sum_trees::Branch;
use std::alloc::{AllocError, Global};

/// The branches of a source, to be looked up by node.
#[derive(Drop)]
pub(crate) struct SourceTree {
    pub(crate) slots: Slots,
    /// By slot, the branch at its node.
    pub(crate) branches: Vec<Branch>,
}

impl SourceTree {
    /// Makes room for a tree in a network of `nodes` nodes.
    ///
    /// # Errors
    /// `AllocError` if there is no memory.
    pub(crate) fn new(alloc: Global, nodes: u32) -> Result<SourceTree, AllocError> {
        let slots = Slots::new(alloc, nodes)?;
        let branches = Vec::new(alloc);
        Ok(SourceTree { slots, branches })
    }

    /// Takes the branches of a source in place of those before. If a node has two, or there is no room for it, it takes none.
    ///
    /// # Errors
    /// `AllocError` if there is no memory.
    pub(crate) fn note(&mut self, branches: &[Branch]) -> Result<(), AllocError>
        ensures { OnOk result (IsNoted branches.now self.new) }
    {
        self.slots.clear();
        self.branches.clear();
        for branch in branches {
            if !self.slots.may_have(branch.node) {
                return Ok(());
            }
            self.slots.slot_or_next(branch.node)?;
        }
        if self.slots.count() as usize == branches.len() {
            self.branches.extend_from_slice(branches)?;
        }
        Ok(())
    }

    /// Returns the first meeting with the branches of a tree on the other side: by cost, and then by node.
    pub(crate) fn first_meeting(&self, branches: &[Branch]) -> Option<Meeting>
        ensures { AreInSlots self.now.slots.names self.now.branches.items → IsFirstMeeting self.now.branches.items branches.now result }
    {
        let mut first = None;
        for branch in branches {
            let Some(met) = self.meeting(*branch) else {
                continue;
            };
            put_first(&mut first, met);
        }
        first
    }

    /// Returns the meeting with a branch of such a tree, if there is one.
    #[inline]
    fn meeting(&self, branch: Branch) -> Option<Meeting>
        ensures { AreInSlots self.now.slots.names self.now.branches.items → IsFirstMeeting self.now.branches.items (branch ∷ []) result }
    {
        let Some(own) = self.branch(branch.node) else {
            return None;
        };
        let Some(cost) = own.cost.checked_plus(branch.cost) else {
            return None;
        };
        Some(Meeting {
            node: own.node,
            cost,
            sum: joined(own.sum, branch.sum),
        })
    }

    /// Returns the branch at a node, if there is one.
    #[inline]
    fn branch(&self, node: u32) -> Option<Branch>
        ensures some { AreInSlots self.now.slots.names self.now.branches.items → IfSome result (λ branch. Contains self.now.branches.items branch × (branch.node ≡ node)) }
        ensures all { AreInSlots self.now.slots.names self.now.branches.items → (a : AnyBranch) → Contains self.now.branches.items a → a.node ≡ node → result ≡ Some a }
    {
        let Some(slot) = self.slots.slot(node) else {
            return None;
        };
        if slot as usize >= self.branches.len() {
            return None;
        }
        Some(self.branches[slot as usize])
    }
}

//! The search trees of places, with the sums of values along their legs.
ghost use Rattle.std.specs.Prelude.{ℕ, List, slice_index, IfOk, MatchOption, ⊤};
ghost use Rattle.ch_hierarchy.specs.Hierarchy.{LevelsAndLegs};
ghost use Rattle.ch_hierarchy.specs.declared.side.Side.{Side as AnySide};
ghost use Rattle.ch_engine.specs.Lines.{Lines};
ghost use Rattle.ch_engine.specs.PlaceTrees.{AreTreesOf};
ghost use Rattle.ch_engine.specs.TableSums.{AreBranches};

use crate::sum_trees::Branch;
use ch_graph::Rows;
use std::alloc::{AllocError, Global};

/// The trees of the places in a list of nodes. That of a kept place is found when a near row with sums first has this place, and
/// serves all further rows, until the engine is given other places or other values.
#[derive(Drop)]
pub(crate) struct PlaceTrees {
    /// By place, the number of its tree, if it was found.
    numbers: Vec<Option<u32>>,
    /// By number, the branches of the tree.
    trees: Rows<Branch>,
}

impl PlaceTrees {
    /// Makes room for the trees of so many places.
    ///
    /// # Errors
    /// `AllocError` if there is no memory.
    pub(crate) fn new(alloc: Global, places: usize) -> Result<PlaceTrees, AllocError>
        ensures { IfOk result (λ trees. (side : AnySide) (H : LevelsAndLegs) (lines : Lines) (values nodes : List ℕ) → AreTreesOf side H lines values nodes trees) }
    {
        let numbers = vec![in alloc; None; places]?;
        let trees = Rows::with_room(alloc, 0, 0)?;
        Ok(PlaceTrees { numbers, trees })
    }

    /// Makes room for the trees of so many places, unless there is room already.
    ///
    /// # Errors
    /// `AllocError` if there is no memory. Then there is none.
    pub(crate) fn keep(
        alloc: Global,
        kept: &mut Option<PlaceTrees>,
        places: usize,
    ) -> Result<(), AllocError>
        ensures { (side : AnySide) (H : LevelsAndLegs) (lines : Lines) (values nodes : List ℕ) → MatchOption kept.old ⊤ (AreTreesOf side H lines values nodes) → MatchOption kept.new ⊤ (AreTreesOf side H lines values nodes) }
    {
        if kept.is_some() {
            return Ok(());
        }
        let trees = PlaceTrees::new(alloc, places)?;
        *kept = Some(trees);
        Ok(())
    }

    /// Returns the branches of the tree of a place, if it was found.
    pub(crate) fn branches(&self, place: usize) -> Option<&[Branch]>
        ensures { (side : AnySide) (H : LevelsAndLegs) (lines : Lines) (values nodes : List ℕ) → AreTreesOf side H lines values nodes self.now → MatchOption result ⊤ (λ branches. AreBranches side H lines values (slice_index nodes place) branches.now) }
    {
        if place >= self.numbers.len() {
            return None;
        }
        let Some(number) = self.numbers[place] else {
            return None;
        };
        if number >= self.trees.row_count() {
            return None;
        }
        Some(self.trees.row(number))
    }

    /// Keeps these branches as the tree of a place.
    ///
    /// # Errors
    /// `AllocError` if there is no memory. Then all is as before.
    pub(crate) fn push(&mut self, place: usize, branches: &[Branch]) -> Result<(), AllocError>
        ensures { (side : AnySide) (H : LevelsAndLegs) (lines : Lines) (values nodes : List ℕ) → AreBranches side H lines values (slice_index nodes place) branches.now → AreTreesOf side H lines values nodes self.old → AreTreesOf side H lines values nodes self.new }
    {
        let number = self.trees.row_count();
        if place >= self.numbers.len() || number == u32::MAX {
            return Ok(());
        }
        self.trees.push(branches)?;
        self.numbers[place] = Some(number);
        Ok(())
    }
}

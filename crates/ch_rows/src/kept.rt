//! Targets that are kept for one caller, who asks alone.
ghost use Rattle.std.specs.Prelude.{◌≡◌, ◌≢◌, ◌↔◌, ◌<◌, ◌≤◌, None, length, All, IfOk, IsTrue, OnOk};
ghost use Rattle.ch_graph.specs.declared.limits.TheConstants.{MOST_LISTED};
ghost use Rattle.ch_hierarchy.specs.Hierarchy.{nodes_of};
ghost use Rattle.ch_query.specs.Distance.{IsKeptForSome};
ghost use Rattle.ch_rows.specs.Kept.{AreCellsOf, AreKeptIn, IsRowOf, IsWhole, asked_by};

use crate::rows::{NearRoom, Nearest};
use crate::searched::Searched;
use crate::spaces::spaces_alone;
use ch_graph::Rows;
use ch_hierarchy::{Direction, Hierarchy};
use std::alloc::{AllocError, Global};

/// Targets that were searched from, kept apart from their hierarchy: a caller lends the same one with each question. One
/// worker answers, which is the caller: no thread is started and no gate is passed.
#[derive(Drop)]
pub struct KeptTargets {
    searched: Searched,
    /// What a search needs; none before the first one.
    room: Option<NearRoom>,
    /// By rank, the rows of all nodes; none before they are swept.
    rows: Option<Rows<(u64, u32)>>,
}

impl KeptTargets {
    /// Searches from each target, along its paths to higher nodes.
    ///
    /// # Errors
    /// `AllocError` where there is no memory.
    pub fn search(
        alloc: Global,
        hierarchy: &Hierarchy,
        direction: Direction,
        targets: &[u32],
        within: Option<u64>,
        count: Option<u32>,
    ) -> Result<KeptTargets, AllocError>
        requires kept { IsKeptForSome hierarchy.now }
        requires targets { All (λ t. t < nodes_of hierarchy.now) targets.now }
        requires listed { length targets.now ≤ MOST_LISTED }
        ensures kept { IfOk result (AreKeptIn hierarchy.now) }
        ensures asked { IfOk result (λ kept. asked_by kept ≡ record { direction = direction; targets = targets.now; limit = within; count = count }) }
    {
        let spaces = spaces_alone(alloc, hierarchy, direction, targets, within)?;
        let searched = Searched::of(alloc, hierarchy, direction, targets, within, count, spaces)?;
        Ok(KeptTargets {
            searched,
            room: None,
            rows: None,
        })
    }

    /// Makes the rows of all nodes by one sweep and keeps them, if it has none yet. Then no row takes a search.
    ///
    /// # Errors
    /// `AllocError` where there is no memory.
    pub fn sweep(&mut self, alloc: Global, hierarchy: &Hierarchy) -> Result<(), AllocError>
        requires { AreKeptIn hierarchy.now self.old }
        ensures kept { AreKeptIn hierarchy.now self.new }
        ensures asked { asked_by self.new ≡ asked_by self.old }
    {
        if self.rows.is_some() {
            return Ok(());
        }
        let nearest = Nearest {
            hierarchy,
            searched: &self.searched,
        };
        let rows = nearest.sweep(alloc)?;
        self.rows = Some(rows);
        Ok(())
    }

    /// Makes the row of a source: pairs of a distance and a place in the list of targets, in this order.
    ///
    /// # Errors
    /// `AllocError` where there is no memory. What is asked for next is answered as before.
    pub fn row(
        &mut self,
        alloc: Global,
        hierarchy: &Hierarchy,
        source: u32,
        row: &mut Vec<(u64, u32)>,
    ) -> Result<(), AllocError>
        requires kept { AreKeptIn hierarchy.now self.old }
        requires source { source < nodes_of hierarchy.now }
        ensures row { OnOk result (IsRowOf hierarchy.now (asked_by self.old) source row.new.items) }
        ensures kept { AreKeptIn hierarchy.now self.new }
        ensures asked { asked_by self.new ≡ asked_by self.old }
    {
        let Some(rows) = &self.rows else {
            return self.search_row(alloc, hierarchy, source, row);
        };
        row.clear();
        row.extend_from_slice(rows.row(hierarchy.rank(source)))
    }

    /// Makes the row of a source by a search.
    fn search_row(
        &mut self,
        alloc: Global,
        hierarchy: &Hierarchy,
        source: u32,
        row: &mut Vec<(u64, u32)>,
    ) -> Result<(), AllocError>
        requires kept { AreKeptIn hierarchy.now self.old }
        requires source { source < nodes_of hierarchy.now }
        ensures row { OnOk result (IsRowOf hierarchy.now (asked_by self.old) source row.new.items) }
        ensures kept { AreKeptIn hierarchy.now self.new }
        ensures asked { asked_by self.new ≡ asked_by self.old }
    {
        self.need_room(alloc, hierarchy)?;
        let nearest = Nearest {
            hierarchy,
            searched: &self.searched,
        };
        let Some(room) = &mut self.room else {
            unreachable!()
        };
        let written = nearest.write_row(alloc, room, source, row);
        // A search without memory may leave offers in the room, which are not the next source's.
        if written.is_err() {
            self.room = None;
        }
        written
    }

    /// Whether no row leaves a target out because of their number.
    pub fn is_whole(&self) -> bool
        ensures { IsTrue result ↔ IsWhole (asked_by self.now) }
    {
        match self.searched.count {
            Some(most) => self.searched.targets.len() <= most as usize,
            None => true,
        }
    }

    /// Writes the cells of a source by a search: for each target, in the order of the list, its distance, or `u64::MAX`
    /// if there is none within the limit. It is a row that is neither sorted nor cut.
    ///
    /// # Errors
    /// `AllocError` where there is no memory. What is asked for next is answered as before.
    pub fn write_cells(
        &mut self,
        alloc: Global,
        hierarchy: &Hierarchy,
        source: u32,
        cells: &mut Vec<u64>,
    ) -> Result<(), AllocError>
        requires kept { AreKeptIn hierarchy.now self.old }
        requires whole { IsWhole (asked_by self.old) }
        requires source { source < nodes_of hierarchy.now }
        ensures cells { OnOk result (AreCellsOf hierarchy.now (asked_by self.old) source cells.new.items) }
        ensures kept { AreKeptIn hierarchy.now self.new }
        ensures asked { asked_by self.new ≡ asked_by self.old }
    {
        self.need_room(alloc, hierarchy)?;
        let nearest = Nearest {
            hierarchy,
            searched: &self.searched,
        };
        let Some(mut room) = self.room.take() else {
            unreachable!()
        };
        // A search without memory may leave offers in the room, which is dropped then.
        nearest.write_cells(&mut room, source, cells)?;
        self.room = Some(room);
        Ok(())
    }

    /// Makes the room of a search, if there is none.
    fn need_room(&mut self, alloc: Global, hierarchy: &Hierarchy) -> Result<(), AllocError>
        requires { AreKeptIn hierarchy.now self.old }
        ensures room { OnOk result (self.new.room ≢ None) }
        ensures kept { AreKeptIn hierarchy.now self.new }
        ensures asked { asked_by self.new ≡ asked_by self.old }
    {
        if self.room.is_none() {
            let room = NearRoom::new(alloc, hierarchy.nodes(), self.searched.targets.len() as u32)?;
            self.room = Some(room);
        }
        Ok(())
    }
}

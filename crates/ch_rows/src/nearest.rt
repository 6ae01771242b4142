//! The nearest targets of many sources.
ghost use Rattle.std.specs.Prelude.{ℕ, ◌≡◌, ◌<◌, ◌≤◌, length, All, IfOk, OnOk};
ghost use Rattle.ch_graph.specs.declared.limits.TheConstants.{MOST_LISTED};
ghost use Rattle.ch_hierarchy.specs.Hierarchy.{nodes_of};
ghost use Rattle.ch_query.specs.Distance.{IsKeptForSome};
ghost use Rattle.ch_query.specs.Limits.{IsWithin};
ghost use Rattle.ch_hierarchy.specs.Direction.{facing};
ghost use Rattle.ch_rows.specs.Near.{IsNearRow};
ghost use Rattle.ch_rows.specs.Rooms.{IsNearRoomFor};

use crate::rows::{NearRoom, Nearest};
use crate::searched::Searched;
use crate::spaces::search_targets;
use ch_hierarchy::{Direction, Hierarchy};
use ch_work::{Crew, Gate};
use std::alloc::{AllocError, Global};
use std::marker::Model;
use std::thread::Threads;

/// Targets that were searched from, and can be asked for those nearest to sources. One search from each
/// target serves any number of sources, in any number of workers, each with a room of its own.
#[derive(Drop)]
pub struct NearTargets<'a> {
    pub(crate) hierarchy: &'a Hierarchy,
    searched: Searched,
}

impl<'a> Model for NearTargets<'a> {
    ghost use Rattle.ch_rows.specs.Near.{Wanted};
    ghost use Rattle.ch_rows.specs.Searched.{AreSearched, asked_of, wanted_in};

    ghost Value = { Wanted };

    ghost view = { λ t. wanted_in t.hierarchy.now (asked_of t.searched) };

    ghost invariant = { λ t. AreSearched t.hierarchy.now t.searched };
}

impl<'a> NearTargets<'a> {
    /// Searches from each target, along its paths to higher nodes. The workers share the targets.
    ///
    /// A row will have the first `count` targets in order of distance and then of place, or all targets without such
    /// a number. With a limit `within`, it has only targets whose distance is at most that. The distances are to the
    /// targets or from them.
    ///
    /// # Errors
    /// `AllocError` if there is no memory.
    pub fn search<R: Threads + Sync, G: Gate>(
        crew: &Crew<'_, R, G>,
        hierarchy: &'a Hierarchy,
        direction: Direction,
        targets: &[u32],
        within: Option<u64>,
        count: Option<u32>,
    ) -> Result<NearTargets<'a>, AllocError>
        requires kept { IsKeptForSome hierarchy.now }
        requires targets { All (λ t. t < nodes_of hierarchy.now) targets.now }
        requires listed { length targets.now ≤ MOST_LISTED }
        ensures { IfOk result (λ near. near ≡ record { hierarchy = facing direction hierarchy.now; targets = targets.now; limit = within; count = count }) }
    {
        let spaces = search_targets(crew, hierarchy, direction, targets, within)?;
        let searched = Searched::of(
            crew.alloc, hierarchy, direction, targets, within, count, spaces,
        )?;
        Ok(NearTargets {
            hierarchy,
            searched,
        })
    }

    /// Returns the targets, in order.
    pub fn targets(&self) -> &[u32]
        ensures { result.now ≡ self.now.targets }
    {
        &self.searched.targets
    }

    /// Makes a room for rows to these targets.
    ///
    /// # Errors
    /// `AllocError` if there is no memory.
    pub fn room(&self, alloc: Global) -> Result<NearRoom, AllocError>
        ensures { IfOk result (IsNearRoomFor self.now) }
    {
        NearRoom::new(
            alloc,
            self.hierarchy.nodes(),
            self.searched.targets.len() as u32,
        )
    }

    /// Makes the row of a source in this room, within a limit that is at most the one of the search, and holds for this
    /// row alone.
    ///
    /// The row has pairs of a distance and a place in the list of targets, in this order. A target that occurs more than
    /// once has each of its places.
    ///
    /// # Errors
    /// `AllocError` if there is no memory. The room can then no longer be used.
    pub fn make_row(
        &self,
        alloc: Global,
        room: &mut NearRoom,
        source: u32,
        within: Option<u64>,
    ) -> Result<(), AllocError>
        requires source { source < nodes_of self.now.hierarchy }
        requires within { (x : ℕ) → IsWithin within x → IsWithin self.now.limit x }
        requires room { IsNearRoomFor self.now room.old }
        ensures row { OnOk result (IsNearRow self.now.hierarchy within self.now.count self.now.targets source room.new.row.items) }
        ensures room { OnOk result (IsNearRoomFor self.now room.new) }
    {
        self.nearest().fill_by_guess(alloc, room, source, within)?;
        room.guess_by(self.searched.count);
        Ok(())
    }

    /// What makes the rows.
    pub(crate) fn nearest(&self) -> Nearest<'_>
        ensures { result ≡ self.now }
    {
        Nearest {
            hierarchy: self.hierarchy,
            searched: &self.searched,
        }
    }
}

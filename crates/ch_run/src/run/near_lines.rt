//! The jobs of workers that write near rows: those of searches from the sources, and those of a sweep.
use super::lines::LineJob;
use ch_rows::{NearRoom, NearTargets, NodeRows};
use ch_text::push_near_row;
use std::alloc::{AllocError, Global};
use std::marker::Model;

/// The job that writes the rows of sources within a limit that is at most the one of the search from the targets.
#[derive(Drop)]
pub(crate) struct SearchedLines<'n, 'a> {
    pub(crate) near: &'n NearTargets<'a>,
    pub(crate) within: Option<u64>,
}

impl<'n, 'a> Model for SearchedLines<'n, 'a> {
    ghost use Rattle.std.specs.Prelude.{ℕ};
    ghost use Rattle.ch_rows.specs.Near.{Wanted, wanted_within};
    ghost use Rattle.ch_query.specs.Limits.{IsWithin};

    ghost Value = { Wanted };

    ghost view = { λ job. wanted_within job.near.now job.within };

    ghost invariant = { λ job. (x : ℕ) → IsWithin job.within x → IsWithin job.near.now.limit x };
}

impl<'n, 'a> LineJob for SearchedLines<'n, 'a> {
    ghost use Rattle.std.specs.Prelude.{◌<◌};
    ghost use Rattle.ch_hierarchy.specs.Hierarchy.{nodes_of};
    ghost use Rattle.ch_rows.specs.Rooms.{IsNearRoomFor};
    ghost use Rattle.ch_run.specs.Lines.{AreNearLines};

    type Item = u32;

    type Room = NearRoom;

    ghost takes = { λ wanted s. s < nodes_of wanted.hierarchy };

    ghost lines = { λ wanted s lines. AreNearLines wanted s lines };

    ghost clean = { λ wanted room. IsNearRoomFor wanted room };

    fn room(&self, alloc: Global) -> Result<NearRoom, AllocError> {
        self.near.room(alloc)
    }

    fn push(
        &self,
        alloc: Global,
        room: &mut NearRoom,
        item: &u32,
        text: &mut Vec<u8>,
    ) -> Result<(), AllocError> {
        self.near.make_row(alloc, room, *item, self.within)?;
        push_near_row(text, *item, self.near.targets(), room.row())
    }
}

/// The job that writes the rows of sources which a sweep made.
#[derive(Drop)]
pub(crate) struct SweptLines<'n, 'a> {
    pub(crate) near: &'n NearTargets<'a>,
    pub(crate) rows: &'n NodeRows<'a>,
}

impl<'n, 'a> Model for SweptLines<'n, 'a> {
    ghost use Rattle.ch_rows.specs.Near.{Wanted};
    ghost use Rattle.ch_rows.specs.Sweep.{AreNodeRows};

    ghost Value = { Wanted };

    ghost view = { λ job. job.near.now };

    ghost invariant = { λ job. AreNodeRows job.near.now job.rows.now };
}

impl<'n, 'a> LineJob for SweptLines<'n, 'a> {
    ghost use Rattle.std.specs.Prelude.{◌<◌, ⊤};
    ghost use Rattle.ch_hierarchy.specs.Hierarchy.{nodes_of};
    ghost use Rattle.ch_run.specs.Lines.{AreNearLines};

    type Item = u32;

    type Room = ();

    ghost takes = { λ wanted s. s < nodes_of wanted.hierarchy };

    ghost lines = { λ wanted s lines. AreNearLines wanted s lines };

    ghost clean = { λ wanted room. ⊤ };

    fn room(&self, _alloc: Global) -> Result<(), AllocError> {
        Ok(())
    }

    fn push(
        &self,
        _alloc: Global,
        _room: &mut (),
        item: &u32,
        text: &mut Vec<u8>,
    ) -> Result<(), AllocError> {
        push_near_row(text, *item, self.near.targets(), self.rows.row(*item))
    }
}

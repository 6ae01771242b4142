//! Jobs that make a value of each item of a list.
ghost use Rattle.std.specs.Prelude.{◌^◌, ◌<◌, length, All, IfOk, OnOk, List};
ghost use Rattle.std.specs.List.{AllZip, slice_range};

use crate::crew::Crew;
use crate::gate::Gate;
use crate::job::RoomJob;
use crate::lists::joined;
use crate::pieces::run_pieces_in;
use std::alloc::{AllocError, Global};
use std::marker::Model;
use std::thread::Threads;

/// Work that makes a value of each item of a list. Each worker has a room, and lends it to one item after
/// the other.
pub trait ListJob: Sync {
    /// An item of the list.
    type Item: Sync;

    /// What a worker needs for its items. It goes to the worker's thread, and comes back when the worker
    /// has ended.
    type Room: Send + Drop;

    /// The value that is made of an item.
    type Out: Send + Drop;

    /// The items that the job takes.
    ghost takes: { Self → Self.Item → Type 0 };

    /// The meaning of an item's value.
    ghost meaning: { Self → Self.Item → Self.Out → Type 0 };

    /// The condition on a room before an item of this job.
    ghost clean: { Self → Self.Room → Type 0 };

    /// Makes a room for one worker.
    ///
    /// # Errors
    /// `AllocError` if there is no memory.
    fn room(&self, alloc: Global) -> Result<Self::Room, AllocError>
        ensures { IfOk result (λ room. clean self.now room) };

    /// Returns the value of an item. After `Ok` the room is clean again. After an error it is not used
    /// again.
    ///
    /// # Errors
    /// `AllocError` if there is no memory.
    fn value(
        &self,
        alloc: Global,
        room: &mut Self::Room,
        item: &Self::Item,
    ) -> Result<Self::Out, AllocError>
        requires item { takes self.now item.now }
        requires clean { clean self.now room.old }
        ensures value { IfOk result (λ x. meaning self.now item.now x) }
        ensures clean { OnOk result (clean self.now room.new) };
}

/// Returns the values of the items, in their order. Workers share the items as
/// [`run_pieces_in`] says for pieces, each with a room of its own.
///
/// # Errors
/// `AllocError` if the call, a room or any value is refused memory. All workers are joined before it
/// returns.
pub fn run_list<R: Threads + Sync, G: Gate, J: ListJob>(
    crew: &Crew<'_, R, G>,
    items: &[J::Item],
    job: &J,
) -> Result<Vec<J::Out>, AllocError>
    requires takes { All (J.takes job.now) items.now }
    requires length { length items.now < 2 ^ 32 }
    ensures { IfOk result (λ values. AllZip (J.meaning job.now) items.now values.items) }
{
    let mut rooms = Vec::new(crew.alloc);
    run_list_in(crew, items, &mut rooms, job)
}

/// Like [`run_list`], but the rooms stay for further calls, as in [`run_pieces_in`]. It is for callers that
/// have many lists.
///
/// # Errors
/// `AllocError` if the call, a room or any value is refused memory. All workers are joined before it
/// returns. Some rooms may be gone then; those that are left are clean.
pub fn run_list_in<R: Threads + Sync, G: Gate, J: ListJob>(
    crew: &Crew<'_, R, G>,
    items: &[J::Item],
    rooms: &mut Vec<J::Room>,
    job: &J,
) -> Result<Vec<J::Out>, AllocError>
    requires takes { All (J.takes job.now) items.now }
    requires length { length items.now < 2 ^ 32 }
    requires clean { All (J.clean job.now) rooms.old.items }
    ensures values { IfOk result (λ values. AllZip (J.meaning job.now) items.now values.items) }
    ensures clean { All (J.clean job.now) rooms.new.items }
{
    let pieces = ListPieces { job, items };
    let lists = run_pieces_in(crew, items.len() as u32, rooms, &pieces)?;
    joined(crew.alloc, lists)
}

/// The items of a list, as a job of ranges.
#[derive(Drop)]
struct ListPieces<'a, J: ListJob> {
    job: &'a J,
    items: &'a [J::Item],
}

impl<'a, J: ListJob> Model for ListPieces<'a, J> {
    ghost Value = { J × List J.Item };

    ghost view = { λ w. (w.job.now, w.items.now) };

    ghost invariant = { λ w. All (J.takes w.job.now) w.items.now };
}

impl<'a, J: ListJob> RoomJob for ListPieces<'a, J> {
    type Room = J::Room;

    type Out = Vec<J::Out>;

    ghost size = { λ w. length w.1 };

    ghost meaning = { λ w from to values. AllZip (J.meaning w.0) (slice_range w.1 from to) values.items };

    ghost clean = { λ w room. J.clean w.0 room };

    fn room(&self, alloc: Global) -> Result<J::Room, AllocError> {
        self.job.room(alloc)
    }

    fn piece(
        &self,
        alloc: Global,
        room: &mut J::Room,
        from: u32,
        to: u32,
    ) -> Result<Vec<J::Out>, AllocError> {
        let items = &self.items[from as usize..to as usize];
        let mut values = Vec::with_capacity(alloc, items.len())?;
        for item in items {
            values.push(self.job.value(alloc, room, item)?)?;
        }
        Ok(values)
    }
}

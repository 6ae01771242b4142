//! Texts with lines for each item of a list. Workers share the items, and the worker that finds what the lines of an item say
//! writes them.
ghost use Rattle.std.specs.Prelude.{◌≡◌, ◌++◌, ◌^◌, ◌<◌, ℕ, List, length, flat_map, All, IfOk, OnOk};
ghost use Rattle.ch_run.specs.Lines.{HasLines};

use crate::plan::{Crew, Gate, Stage};
use ch_work::{RoomJob, length_of, run_pieces_in};
use std::alloc::{AllocError, Global};
use std::marker::Model;
use std::thread::Threads;

/// Work that writes the lines of each item of a list. Each worker has a room, and lends it to one item after the other.
pub(crate) trait LineJob: Sync {
    /// An item of the list.
    type Item: Sync;

    /// What a worker needs for its items.
    type Room: Send + Drop;

    /// The items that the job takes.
    ghost takes: { Self → Self.Item → Type 0 };

    /// The lines of an item.
    ghost lines: { Self → Self.Item → List ℕ → Type 0 };

    /// The condition on a room before an item of this job.
    ghost clean: { Self → Self.Room → Type 0 };

    /// Makes a room for one worker.
    ///
    /// # Errors
    /// `AllocError` if there is no memory.
    fn room(&self, alloc: Global) -> Result<Self::Room, AllocError>
        ensures { IfOk result (λ room. clean self.now room) };

    /// Adds the lines of an item to a text. After `Ok` the room is clean again. After an error it is not used again.
    ///
    /// # Errors
    /// `AllocError` if there is no memory.
    fn push(
        &self,
        alloc: Global,
        room: &mut Self::Room,
        item: &Self::Item,
        text: &mut Vec<u8>,
    ) -> Result<(), AllocError>
        requires item { takes self.now item.now }
        requires clean { clean self.now room.old }
        ensures lines { OnOk result ((more : List ℕ) × lines self.now item.now more × (text.new.items ≡ text.old.items ++ more)) }
        ensures clean { OnOk result (clean self.now room.new) };
}

/// Reports to the gate that answering begins, with the pieces of `count` items.
pub(crate) fn begin_answering<R: Threads + Sync, G: Gate>(crew: &Crew<'_, R, G>, count: u32) {
    crew.gate
        .watch(Stage::Answering, 0, crew.plan.pieces(count));
}

/// Returns the lines of all items, in order, in parts: one of each piece. The workers share the pieces, and each takes one of the
/// rooms, as [`run_pieces_in`] says. The parts have fewer than 2^64 bytes.
///
/// # Errors
/// `AllocError` if there is no memory. Some rooms may be gone then; those that are left are clean.
pub(crate) fn lines_by<R: Threads + Sync, G: Gate, J: LineJob>(
    crew: &Crew<'_, R, G>,
    items: &[J::Item],
    rooms: &mut Vec<J::Room>,
    job: &J,
) -> Result<Vec<Vec<u8>>, AllocError>
    requires takes { All (J.takes job.now) items.now }
    requires count { length items.now < 2 ^ 32 }
    requires clean { All (J.clean job.now) rooms.old.items }
    ensures lines { IfOk result (λ parts. HasLines (J.lines job.now) items.now (flat_map (λ part. part.items) parts.items)) }
    ensures length { IfOk result (λ parts. length (flat_map (λ part. part.items) parts.items) < 2 ^ 64) }
    ensures clean { All (J.clean job.now) rooms.new.items }
{
    let count = items.len() as u32;
    let parts = run_pieces_in(crew, count, rooms, &LinePieces { job, items })?;
    checked_length(parts)
}

/// Returns these parts of a text if their length is less than 2^64 - 1 bytes.
///
/// # Errors
/// `AllocError` otherwise. No memory holds so many bytes.
pub(crate) fn checked_length(parts: Vec<Vec<u8>>) -> Result<Vec<Vec<u8>>, AllocError>
    ensures same { IfOk result (λ all. all.items ≡ parts.items) }
    ensures length { IfOk result (λ all. length (flat_map (λ part. part.items) all.items) < 2 ^ 64) }
{
    if length_of(&parts) == usize::MAX {
        return Err(AllocError);
    }
    Ok(parts)
}

/// Returns a whole text as its only part.
///
/// # Errors
/// `AllocError` if there is no memory.
pub(crate) fn one_part(alloc: Global, text: Vec<u8>) -> Result<Vec<Vec<u8>>, AllocError>
    ensures same { IfOk result (λ parts. flat_map (λ part. part.items) parts.items ≡ text.items) }
    ensures length { IfOk result (λ parts. length (flat_map (λ part. part.items) parts.items) < 2 ^ 64) }
{
    let mut parts = Vec::with_capacity(alloc, 1)?;
    parts.push(text)?;
    checked_length(parts)
}

/// The items of a list, as a job of ranges.
#[derive(Drop)]
struct LinePieces<'a, J: LineJob> {
    job: &'a J,
    items: &'a [J::Item],
}

impl<'a, J: LineJob> Model for LinePieces<'a, J> {
    ghost Value = { J × List J.Item };

    ghost view = { λ w. (w.job.now, w.items.now) };

    ghost invariant = { λ w. All (J.takes w.job.now) w.items.now };
}

impl<'a, J: LineJob> RoomJob for LinePieces<'a, J> {
    ghost use Rattle.std.specs.List.{slice_range};

    type Room = J::Room;

    type Out = Vec<u8>;

    ghost size = { λ w. length w.1 };

    ghost meaning = { λ w from to text. HasLines (J.lines w.0) (slice_range w.1 from to) text.items };

    ghost clean = { λ w room. J.clean w.0 room };

    fn room(&self, alloc: Global) -> Result<J::Room, AllocError> {
        self.job.room(alloc)
    }

    fn piece(
        &self,
        alloc: Global,
        room: &mut J::Room,
        from: u32,
        to: u32,
    ) -> Result<Vec<u8>, AllocError> {
        let items = &self.items[from as usize..to as usize];
        let mut text = Vec::new(alloc);
        for item in items {
            self.job.push(alloc, room, item, &mut text)?;
        }
        Ok(text)
    }
}

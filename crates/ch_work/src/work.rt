//! The work of one worker.
ghost use Rattle.std.specs.Prelude.{◌≡◌, ◌+◌, ◌*◌, ◌<◌, min, All, IfOk, IfSome, OnOk};
ghost use Rattle.ch_work.specs.Claims.{HasWorked};
ghost use Rattle.ch_work.specs.Passes.{view_of, IsPassOf};
ghost use Rattle.ch_work.specs.Pieces.{pieces_of, AreValues};
ghost use Rattle.ch_work.specs.Steps.{nothing_known};

use crate::board::{Board, Pass};
use crate::done::Done;
use crate::gate::Gate;
use crate::job::RoomJob;
use std::alloc::{AllocError, Global};

/// A job cut into pieces of `piece` items, and the gate that its workers pass.
#[derive(Drop)]
pub(crate) struct Work<'a, G, J: RoomJob> {
    pub(crate) gate: &'a G,
    pub(crate) job: &'a J,
    pub(crate) items: u32,
    pub(crate) piece: u32,
    ghost size: { items ≡ J.size job.now },
    ghost some_item: { 0 < piece },
}

impl<'a, G: Gate, J: RoomJob> Work<'a, G, J> {
    /// The number of pieces that cover the items.
    pub(crate) fn count(&self) -> u32
        ensures { result ≡ pieces_of self.now.items self.now.piece }
    {
        self.items.div_ceil(self.piece)
    }

    /// Returns the values of all pieces, made by one worker. It takes one of the rooms, or makes a new one
    /// if there is none. The room is in `rooms` afterwards.
    pub(crate) fn values(
        &self,
        alloc: Global,
        rooms: &mut Vec<J::Room>,
    ) -> Result<Vec<J::Out>, AllocError>
        requires { All (J.clean self.now.job.now) rooms.old.items }
        ensures values { IfOk result (λ v. AreValues (J.meaning self.now.job.now) self.now.items self.now.piece 0 (pieces_of self.now.items self.now.piece) v.items) }
        ensures clean { All (J.clean self.now.job.now) rooms.new.items }
    {
        let mut room = self.room(alloc, rooms.pop())?;
        let values = self.values_in(alloc, &mut room)?;
        rooms.push(room)?;
        Ok(values)
    }

    /// Returns the room that the worker was given, or makes a new one.
    fn room(&self, alloc: Global, given: Option<J::Room>) -> Result<J::Room, AllocError>
        requires { IfSome given (J.clean self.now.job.now) }
        ensures { IfOk result (J.clean self.now.job.now) }
    {
        match given {
            Some(room) => Ok(room),
            None => self.job.room(alloc),
        }
    }

    /// Returns the values of all pieces, made by one worker in this room.
    fn values_in(&self, alloc: Global, room: &mut J::Room) -> Result<Vec<J::Out>, AllocError>
        requires { J.clean self.now.job.now room.old }
        ensures values { IfOk result (λ v. AreValues (J.meaning self.now.job.now) self.now.items self.now.piece 0 (pieces_of self.now.items self.now.piece) v.items) }
        ensures clean { OnOk result (J.clean self.now.job.now room.new) }
    {
        let count = self.count();
        let mut values = Vec::with_capacity(alloc, count as usize)?;
        for number in 0..count {
            values.push(self.value(alloc, room, number)?)?;
        }
        Ok(values)
    }

    /// Claims pieces until none is left, and does them. Returns the room and the pieces.
    ///
    /// The worker uses the given room, or makes a new one.
    pub(crate) fn claimed(
        &self,
        alloc: Global,
        board: &Board,
        pass: &mut Pass,
        given: Option<J::Room>,
    ) -> Result<(J::Room, Vec<Done<J::Out>>), AllocError>
        requires board { IsPassOf board.now pass.old }
        requires fresh { view_of pass.old ≡ nothing_known (pieces_of self.now.items self.now.piece) 1 }
        requires room { IfSome given (J.clean self.now.job.now) }
        ensures { HasWorked (J.meaning self.now.job.now) (J.clean self.now.job.now) self.now.items self.now.piece board.now pass.new result }
    {
        let mut room = self.room(alloc, given)?;
        let mut done = Vec::new(alloc);
        // One more than the last claimed number, or 0. It rises, and that is why the loop ends.
        let mut next = 0;
        while let Some(number) = board.claim(pass) {
            let value = self.value(alloc, &mut room, number)?;
            done.push(Done { number, value })?;
            next = number + 1;
        }
        Ok((room, done))
    }

    /// Passes the gate, and then returns the value of the piece of this number.
    fn value(&self, alloc: Global, room: &mut J::Room, number: u32) -> Result<J::Out, AllocError>
        requires inside { number * self.now.piece < self.now.items }
        requires clean { J.clean self.now.job.now room.old }
        ensures value { IfOk result (λ x. J.meaning self.now.job.now (number * self.now.piece) (min (number * self.now.piece + self.now.piece) self.now.items) x) }
        ensures clean { OnOk result (J.clean self.now.job.now room.new) }
    {
        self.gate.pass(number);
        let from = number * self.piece;
        let to = from + self.piece.min(self.items - from);
        self.job.piece(alloc, room, from, to)
    }
}

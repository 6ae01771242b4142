//! Jobs: work on ranges of items.
ghost use Rattle.std.specs.Prelude.{ℕ, ◌≤◌, IfOk, OnOk};

use std::alloc::{AllocError, Global};

/// Work on ranges of items. Each range is done by itself, and that is why several workers can share it.
pub trait Job: Sync {
    /// The value that is made of a range.
    type Out: Send + Drop;

    /// The number of items.
    ghost size: { Self → ℕ };

    /// The meaning of a range's value: a relation between the range's first number, the number after its
    /// last, and the value.
    ghost meaning: { Self → ℕ → ℕ → Self.Out → Type 0 };

    /// Returns the value of the items `from..to`.
    ///
    /// # Errors
    /// `AllocError` if there is no memory.
    fn piece(&self, alloc: Global, from: u32, to: u32) -> Result<Self::Out, AllocError>
        requires order { from ≤ to }
        requires inside { to ≤ size self.now }
        ensures { IfOk result (λ x. meaning self.now from to x) };
}

/// Work on ranges of items that is done in a room, such as a search scratch that takes long to make.
///
/// Each worker has one room, and lends it to each of its pieces in turn. A piece leaves the room clean.
pub trait RoomJob: Sync {
    /// What a worker needs for its pieces. It goes to the worker's thread, and comes back when the worker
    /// has ended.
    type Room: Send + Drop;

    /// The value that is made of a range.
    type Out: Send + Drop;

    /// The number of items.
    ghost size: { Self → ℕ };

    /// The meaning of a range's value: a relation between the range's first number, the number after its
    /// last, and the value.
    ghost meaning: { Self → ℕ → ℕ → Self.Out → Type 0 };

    /// The condition on a room before a piece of this job.
    ghost clean: { Self → Self.Room → Type 0 };

    /// Makes a room for one worker.
    ///
    /// # Errors
    /// `AllocError` if there is no memory.
    fn room(&self, alloc: Global) -> Result<Self::Room, AllocError>
        ensures { IfOk result (λ room. clean self.now room) };

    /// Returns the value of the items `from..to`. After `Ok` the room is clean again. After an error it is
    /// not used again.
    ///
    /// # Errors
    /// `AllocError` if there is no memory.
    fn piece(
        &self,
        alloc: Global,
        room: &mut Self::Room,
        from: u32,
        to: u32,
    ) -> Result<Self::Out, AllocError>
        requires order { from ≤ to }
        requires inside { to ≤ size self.now }
        requires clean { clean self.now room.old }
        ensures value { IfOk result (λ x. meaning self.now from to x) }
        ensures clean { OnOk result (clean self.now room.new) };
}

/// A job that needs no room.
#[derive(Drop)]
pub(crate) struct WithoutRoom<'a, J> {
    pub(crate) job: &'a J,
}

impl<'a, J: Job> RoomJob for WithoutRoom<'a, J> {
    type Room = ();

    type Out = J::Out;

    ghost size = { λ w. J.size w.job.now };

    ghost meaning = { λ w from to x. J.meaning w.job.now from to x };

    ghost clean = { λ w room. Unit {0} };

    fn room(&self, _alloc: Global) -> Result<(), AllocError> {
        Ok(())
    }

    fn piece(
        &self,
        alloc: Global,
        _room: &mut (),
        from: u32,
        to: u32,
    ) -> Result<J::Out, AllocError> {
        self.job.piece(alloc, from, to)
    }
}

//! Finds the first of many items that is not right, with one worker or several.
ghost use Rattle.std.specs.Prelude.{ℕ, ◌≡◌, ◌<◌, ◌↔◌, IfOk, IfSome, IsTrue};
ghost use Rattle.ch_query.specs.Finding.{IsFirstWithout, IsWithoutBelow, first_some};

use ch_work::{Crew, Gate, RoomJob, run_pieces_in};
use std::alloc::{AllocError, Global};
use std::thread::Threads;

/// A check of numbered items, one item at a time. A worker checks items in a room, such as the room of a search.
pub(crate) trait ItemCheck: Sync {
    /// The room in which a worker checks its items.
    type Room: Send + Drop;

    /// The number of items.
    ghost size: { Self → ℕ };

    /// The property that makes an item right.
    ghost right: { Self → ℕ → Type 0 };

    /// The condition on a room before an item.
    ghost clean: { Self → Self.Room → Type 0 };

    /// Makes a room for one worker.
    ///
    /// # Errors
    /// `AllocError` if there is no memory.
    fn room(&self, alloc: Global) -> Result<Self::Room, AllocError>
        ensures { IfOk result (λ room. clean self.now room) };

    /// Returns whether the item is right. Leaves the room clean.
    fn is_right(&self, room: &mut Self::Room, item: u32) -> bool
        requires inside { item < size self.now }
        requires clean { clean self.now room.old }
        ensures right { IsTrue result ↔ right self.now item }
        ensures clean { clean self.now room.new };
}

/// A worker's room, and the wrong item that the worker found, if it found one.
#[derive(Drop)]
struct Finder<R> {
    room: R,
    found: Option<u32>,
}

/// The job that checks ranges of items.
///
/// A worker that has found a wrong item does not check the later ranges that it claims. It soon claims all ranges
/// that are left, and the other workers end after the ranges that they have. The value of a range is its first
/// wrong item, or an earlier wrong item.
#[derive(Drop)]
struct CheckRanges<'a, C> {
    check: &'a C,
}

impl<'a, C: ItemCheck> RoomJob for CheckRanges<'a, C> {
    type Room = Finder<C::Room>;

    type Out = Option<u32>;

    ghost size = { λ ranges. C.size ranges.check.now };

    ghost meaning = { λ ranges from to known. IsWithoutBelow (C.right ranges.check.now) from to known };

    ghost clean = { λ ranges finder. C.clean ranges.check.now finder.room × IfSome finder.found (λ v. C.right ranges.check.now v → ⊥) };

    fn room(&self, alloc: Global) -> Result<Finder<C::Room>, AllocError> {
        let room = self.check.room(alloc)?;
        Ok(Finder { room, found: None })
    }

    fn piece(
        &self,
        _alloc: Global,
        room: &mut Finder<C::Room>,
        from: u32,
        to: u32,
    ) -> Result<Option<u32>, AllocError> {
        if let Some(found) = room.found {
            if found < from {
                return Ok(Some(found));
            }
        }
        for item in from..to {
            if !self.check.is_right(&mut room.room, item) {
                room.found = Some(item);
                return Ok(Some(item));
            }
        }
        Ok(None)
    }
}

/// Returns the first number among the values of the ranges, or `None` if there is none.
fn first_of(known: &[Option<u32>]) -> Option<u32>
    ensures { result ≡ first_some known.now }
{
    for item in known {
        if item.is_some() {
            return *item;
        }
    }
    None
}

/// Returns the first item that is not right, or `None` if all items are right. Workers share the items as the
/// plan says. Each worker has a room of its own.
///
/// # Errors
/// `AllocError` if the call or a room is refused memory.
pub(crate) fn first_wrong<R: Threads + Sync, G: Gate, C: ItemCheck>(
    crew: &Crew<'_, R, G>,
    items: u32,
    check: &C,
) -> Result<Option<u32>, AllocError>
    requires { items ≡ C.size check.now }
    ensures { IfOk result (IsFirstWithout (C.right check.now) 0 items) }
{
    let mut finders = Vec::new(crew.alloc);
    let known = run_pieces_in(crew, items, &mut finders, &CheckRanges { check })?;
    Ok(first_of(&known))
}

/// Returns the same as [`first_wrong`]. The caller checks all items alone.
///
/// # Errors
/// `AllocError` if the room is refused memory.
pub(crate) fn first_wrong_alone<C: ItemCheck>(
    alloc: Global,
    items: u32,
    check: &C,
) -> Result<Option<u32>, AllocError>
    requires { items ≡ C.size check.now }
    ensures { IfOk result (IsFirstWithout (C.right check.now) 0 items) }
{
    let ranges = CheckRanges { check };
    let mut finder = ranges.room(alloc)?;
    ranges.piece(alloc, &mut finder, 0, items)
}

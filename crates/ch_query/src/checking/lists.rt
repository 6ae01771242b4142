//! Finds the first item of a list that is not right, by the caller alone or by workers.
ghost use Rattle.std.specs.Prelude.{◌≡◌, ◌<◌, ◌↔◌, ◌^◌, All, Contains, IfOk, IsTrue, MatchOption, length};
ghost use Rattle.ch_hierarchy.specs.Assembling.{IsFirstFailing};

use super::finding::{ItemCheck, first_wrong};
use ch_work::{Crew, Gate, Open, Plan};
use std::alloc::{AllocError, Global};
use std::marker::Model;
use std::thread::Threads;

/// The number of items that a worker takes at once.
const PIECE: u32 = 4096;

/// A check of the items of a list, one item at a time.
pub(crate) trait ListCheck: Sync {
    /// An item of the list.
    type Item: Sync;

    /// The items that the check takes.
    ghost takes: { Self → Self.Item → Type 0 };

    /// The property that makes an item right.
    ghost right: { Self → Self.Item → Type 0 };

    /// Returns whether the item is right.
    fn is_right(&self, item: &Self::Item) -> bool
        requires { takes self.now item.now }
        ensures { IsTrue result ↔ right self.now item.now };
}

/// Returns the place of the first item that is not right, or `None` if all items are right.
pub(crate) fn first_failing<C: ListCheck>(check: &C, items: &[C::Item]) -> Option<usize>
    requires { (x : _) → Contains items.now x → C.takes check.now x }
    ensures { MatchOption result (All (C.right check.now) items.now) (IsFirstFailing (C.right check.now) items.now) }
{
    for (place, item) in items.iter().enumerate() {
        if !check.is_right(item) {
            return Some(place);
        }
    }
    None
}

/// Returns the same as [`first_failing`]. The workers of a crew share the items. They pass no gate of the
/// caller, who counts nodes.
///
/// # Errors
/// `AllocError` if there is no memory.
pub(crate) fn first_failing_by<R: Threads + Sync, G: Gate, C: ListCheck>(
    crew: &Crew<'_, R, G>,
    check: &C,
    items: &[C::Item],
) -> Result<Option<usize>, AllocError>
    requires takes { (x : _) → Contains items.now x → C.takes check.now x }
    requires length { length items.now < 2 ^ 32 }
    ensures { IfOk result (λ found. MatchOption found (All (C.right check.now) items.now) (IsFirstFailing (C.right check.now) items.now)) }
{
    let by_pieces = Crew {
        rt: crew.rt,
        alloc: crew.alloc,
        plan: Plan::new(crew.plan.workers(), PIECE, crew.plan.wide()),
        gate: &Open,
    };
    let numbered = Numbered { check, items };
    let first = first_wrong(&by_pieces, items.len() as u32, &numbered)?;
    Ok(place_of(first))
}

/// Returns the item as a place in a list.
fn place_of(item: Option<u32>) -> Option<usize>
    ensures { result ≡ item }
{
    match item {
        Some(item) => Some(item as usize),
        None => None,
    }
}

/// The items of a list, each by the number of its place.
#[derive(Drop)]
struct Numbered<'a, C: ListCheck> {
    check: &'a C,
    items: &'a [C::Item],
}

impl<'a, C: ListCheck> Model for Numbered<'a, C> {
    ghost use Rattle.std.specs.Prelude.{Contains, List};

    ghost Value = { C × List C.Item };

    ghost view = { λ w. (w.check.now, w.items.now) };

    ghost invariant = { λ w. (x : _) → Contains w.items.now x → C.takes w.check.now x };
}

impl<'a, C: ListCheck> ItemCheck for Numbered<'a, C> {
    ghost use Rattle.std.specs.Prelude.{length, slice_index_or};

    type Room = ();

    ghost size = { λ w. length w.1 };

    ghost right = { λ w place. (d : _) → C.right w.0 (slice_index_or w.1 place d) };

    ghost clean = { λ w room. Unit {0} };

    fn room(&self, _alloc: Global) -> Result<(), AllocError> {
        Ok(())
    }

    fn is_right(&self, _room: &mut (), place: u32) -> bool {
        self.check.is_right(&self.items[place as usize])
    }
}

//! Lists moved together in their array by sliding compaction, as garbage collectors do it.
//!
//! The lists move in the order of their places. Each moves to the end of the list before it.
ghost use Rattle.std.specs.Prelude.{◌≡◌, ◌^◌, ◌<◌, ◌≤◌, length, map, take, IfOk, OnOk, OnErr};
ghost use Rattle.ch_lists.specs.Places.{ArePlaces};
ghost use Rattle.ch_lists.specs.Packing.{closed, AreListed, AreInOrder, IsReady, ArePacked};

use crate::place::{self, Place};
use std::alloc::{AllocError, Global};

/// Returns the lists that are not empty: where each starts, and its number.
fn listed(alloc: Global, places: &[Place]) -> Result<Vec<(u32, u32)>, AllocError>
    requires { length places.now < 2 ^ 32 }
    ensures { IfOk result (λ entries. AreListed places.now (length places.now) entries.items) }
{
    let mut entries = Vec::with_capacity(alloc, places.len())?;
    for list in 0..places.len() {
        let place = places[list];
        if place.len > 0 {
            entries.push_reserved((place.start, list as u32));
        }
    }
    Ok(entries)
}

/// Returns the lists that are not empty, in the order of their places.
fn in_order(alloc: Global, places: &[Place]) -> Result<Vec<(u32, u32)>, AllocError>
    requires { length places.now < 2 ^ 32 }
    ensures { IfOk result (λ entries. AreInOrder places.now entries.items) }
{
    let mut entries = listed(alloc, places)?;
    entries.sort_unstable();
    Ok(entries)
}

/// Gives each empty list the place without room.
fn close_empty(places: &mut [Place])
    ensures { places.new ≡ map closed places.old }
{
    for place in places.iter_mut() {
        if place.len == 0 {
            *place = place::NOWHERE;
        }
    }
}

/// Moves the lists to the front of the array, each to the end of the list before it. Returns how many
/// values they have together.
///
/// A list only moves towards the front, so no list is overwritten before it has moved.
fn move_together<T: Copy>(values: &mut Vec<T>, places: &mut [Place], order: &[(u32, u32)]) -> usize
    requires ready { IsReady places.old (length values.old.items) order.now }
    ensures within { result ≤ length values.new.items }
    ensures packed { ArePacked values.old.items (take result values.new.items) places.old places.new }
{
    let mut end = 0;
    for entry in order {
        let list = entry.1 as usize;
        let place = places[list];
        let start = place.start as usize;
        let len = place.len as usize;
        values.copy_within(start..start + len, end);
        places[list] = Place {
            start: end as u32,
            len: place.len,
            room: place.len,
        };
        end += len;
    }
    end
}

/// Moves the lists together and frees the rest of the array. Afterwards each value of the array belongs to
/// a list.
pub(crate) fn pack<T: Copy>(values: &mut Vec<T>, places: &mut [Place]) -> Result<(), AllocError>
    requires { ArePlaces places.old (length values.old.items) }
    ensures ok { OnOk result (ArePacked values.old.items values.new.items places.old places.new) }
    ensures err { OnErr result ((values.new.items ≡ values.old.items) × (places.new ≡ places.old)) }
{
    let order = in_order(*values.allocator(), places)?;
    close_empty(places);
    let end = move_together(values, places, &order);
    values.truncate(end);
    values.shrink_to_fit();
    Ok(())
}

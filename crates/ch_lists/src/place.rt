//! Where the lists are in the array that holds the values of all lists.
ghost use Rattle.std.specs.Prelude.{◌≡◌, ◌+◌, ◌^◌, ◌<◌, ◌≤◌, length, slice_set, vec_len, IfOk, MatchOption, OnErr, sum};
ghost use Rattle.std.specs.List.{insert, remove};
ghost use Rattle.ch_lists.specs.Places.{values_at, AreEmptyPlaces, HasInserted, HasRemoved, HasRoom, HasEdited};

use std::alloc::{AllocError, Global};

/// Where a list is in the array: it has `len` values from `start` on, and room for `room` values.
#[derive(Clone, Copy)]
pub(crate) struct Place {
    pub(crate) start: u32,
    pub(crate) len: u32,
    pub(crate) room: u32,
}

/// The place of an empty list that has no room.
pub(crate) const NOWHERE: Place = Place {
    start: 0,
    len: 0,
    room: 0,
};

/// Returns the sum of the rooms, or `None` if it is not below 2^32.
pub(crate) fn total_room(rooms: &[u32]) -> Option<u32>
    ensures { MatchOption result (2 ^ 32 ≤ sum rooms.now) (λ total. total ≡ sum rooms.now) }
{
    let mut total: u32 = 0;
    for room in rooms {
        total = total.checked_add(*room)?;
    }
    Some(total)
}

/// Returns a place for an empty list for each of these rooms, one after the other.
pub(crate) fn empty_places(alloc: Global, rooms: &[u32]) -> Result<Vec<Place>, AllocError>
    requires count { length rooms.now < 2 ^ 32 }
    requires size { sum rooms.now < 2 ^ 32 }
    ensures { IfOk result (λ places. AreEmptyPlaces (length rooms.now) (sum rooms.now) places.items) }
{
    let mut places = Vec::with_capacity(alloc, rooms.len())?;
    let mut start = 0;
    for room in rooms {
        places.push_reserved(Place {
            start,
            len: 0,
            room: *room,
        });
        start += *room;
    }
    Ok(places)
}

/// Moves the values from `at` up to `end` on by one, over the value at `end`, and writes `value` at `at`.
fn insert_value<T: Copy>(values: &mut [T], at: usize, end: usize, value: T)
    requires at { at ≤ end }
    requires end { end < length values.old }
    ensures { HasInserted values.old values.new at end value }
{
    values.copy_within(at..end, at + 1);
    values[at] = value;
}

/// Moves the values after `at` and below `end` back by one, over the value at `at`.
fn remove_value<T: Copy>(values: &mut [T], at: usize, end: usize)
    requires at { at < end }
    requires end { end ≤ length values.old }
    ensures { HasRemoved values.old values.new at end }
{
    values.copy_within(at + 1..end, at);
}

/// Returns a place with room for one more value for the list at `place`. This is `place` itself if it has
/// room.
///
/// Otherwise the list is copied behind all values, to a new room that is filled with `blank`.
fn place_with_room<T: Copy>(
    values: &mut Vec<T>,
    place: Place,
    blank: T,
) -> Result<Place, AllocError>
    requires fits { place.len ≤ place.room }
    requires within { place.start + place.room ≤ vec_len values.old }
    requires small { vec_len values.old < 2 ^ 32 }
    ensures ok { IfOk result (HasRoom values.old.items values.new.items place) }
    ensures err { OnErr result (values.new.items ≡ values.old.items) }
{
    if place.len < place.room {
        return Ok(place);
    }
    move_behind(values, place, blank)
}

/// Copies the list at `place` behind all values, to a place with room for more values.
fn move_behind<T: Copy>(values: &mut Vec<T>, place: Place, blank: T) -> Result<Place, AllocError>
    requires within { place.start + place.len ≤ vec_len values.old }
    requires small { vec_len values.old < 2 ^ 32 }
    ensures ok { IfOk result (HasRoom values.old.items values.new.items place) }
    ensures err { OnErr result (values.new.items ≡ values.old.items) }
{
    let start = values.len();
    let len = place.len as usize;
    let room = len + len / 2 + 2;
    if start + room > u32::MAX as usize {
        return Err(AllocError);
    }
    values.resize(start + room, blank)?;
    let from = place.start as usize;
    values.copy_within(from..from + len, start);
    Ok(Place {
        start: start as u32,
        len: place.len,
        room: room as u32,
    })
}

/// Inserts `value` at `index` into the list at `place`. Returns the new place of the list.
pub(crate) fn insert_at<T: Copy>(
    values: &mut Vec<T>,
    place: Place,
    index: usize,
    value: T,
) -> Result<Place, AllocError>
    requires index { index ≤ place.len }
    requires fits { place.len ≤ place.room }
    requires within { place.start + place.room ≤ vec_len values.old }
    requires small { vec_len values.old < 2 ^ 32 }
    ensures ok { IfOk result (λ now. HasEdited values.old.items values.new.items place now
        (insert (values_at values.old.items place) index value)) }
    ensures err { OnErr result (values.new.items ≡ values.old.items) }
{
    let now = place_with_room(values, place, value)?;
    let start = now.start as usize;
    insert_value(values, start + index, start + now.len as usize, value);
    Ok(Place {
        len: now.len + 1,
        ..now
    })
}

/// Removes the value at `index` from the list at `place`. Returns the new place of the list.
pub(crate) fn remove_at<T: Copy>(values: &mut [T], place: Place, index: usize) -> Place
    requires index { index < place.len }
    requires fits { place.len ≤ place.room }
    requires within { place.start + place.room ≤ length values.old }
    requires small { length values.old < 2 ^ 32 }
    ensures { HasEdited values.old values.new place result
        (remove (values_at values.old place) index) }
{
    let start = place.start as usize;
    remove_value(values, start + index, start + place.len as usize);
    Place {
        len: place.len - 1,
        ..place
    }
}

/// Writes `value` over the value at `index` of the list at `place`.
pub(crate) fn set_at<T: Copy>(values: &mut [T], place: Place, index: usize, value: T)
    requires index { index < place.len }
    requires fits { place.len ≤ place.room }
    requires within { place.start + place.room ≤ length values.old }
    requires small { length values.old < 2 ^ 32 }
    ensures { HasEdited values.old values.new place place (slice_set (values_at values.old place) index value) }
{
    values[place.start as usize + index] = value;
}

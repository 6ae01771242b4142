//! Lists of values in one array.
ghost use Rattle.std.specs.Prelude.{◌≡◌, ◌≢◌, ◌^◌, ◌<◌, ◌≤◌, [], drop, length, replicate, IfOk, OnOk, OnErr, slice_index_or, slice_set};
ghost use Rattle.std.specs.List.{insert, remove, sum_by};

use crate::packing;
use crate::place::{self, Place};
use std::alloc::{AllocError, Global};
use std::marker::Model;

/// Lists of values that grow and shrink, numbered from 0.
///
/// All values are in one array, and each list has a room there. So a list is lent as a slice, and has no
/// memory of its own.
///
/// A list of n values that has filled its room moves behind all other lists, to a room for n + n / 2 + 2
/// values. Its old room stays unused until [`Lists::pack`].
///
/// An insert or a removal moves the later values of the list by one, and `set` moves none. `with_rooms`, `skip` and `pack` take
/// more steps; the other methods take O(1).
#[derive(Drop)]
pub struct Lists<T: Copy> {
    values: Vec<T>,
    /// Where each list is in `values`.
    places: Vec<Place>,
}

impl<T: Copy> Model for Lists<T> {
    ghost use Rattle.std.specs.Prelude.{List, length};
    ghost use Rattle.ch_lists.specs.Places.{lists_at, ArePlaces};

    ghost Value = { List (List T) };

    ghost view = { λ l. lists_at l.values.items l.places.items };

    ghost invariant = { λ l. ArePlaces l.places.items (length l.values.items) };
}

impl<T: Copy> Lists<T> {
    /// Makes an empty list for each of these rooms. A room is the number of values that its list can take
    /// before it has to move. The rooms are filled with `blank`, which no caller sees.
    ///
    /// # Errors
    /// `AllocError` if there is no memory for one of the two arrays that it makes: the values and the
    /// places. Also if the rooms have 2^32 values or more together.
    pub fn with_rooms(alloc: Global, rooms: &[u32], blank: T) -> Result<Lists<T>, AllocError>
        requires { length rooms.now < 2 ^ 32 }
        ensures { IfOk result (λ lists. lists ≡ replicate (length rooms.now) []) }
    {
        let total = place::total_room(rooms).ok_or(AllocError)?;
        let values = vec![in alloc; blank; total as usize]?;
        let places = place::empty_places(alloc, rooms)?;
        Ok(Lists { values, places })
    }

    /// The number of values in the array: those of all lists, and those of unused room. Unused room stays
    /// until `pack`.
    pub fn room(&self) -> usize
        ensures holds { sum_by length self.now ≤ result }
        ensures small { result < 2 ^ 32 }
    {
        self.values.len()
    }

    /// The values of a list. `list` is below the number of lists.
    #[inline]
    pub fn at(&self, list: u32) -> &[T]
        requires { list < length self.now }
        ensures { result.now ≡ slice_index_or self.now list [] }
    {
        let place = self.places[list as usize];
        let start = place.start as usize;
        &self.values[start..start + place.len as usize]
    }

    /// Inserts `value` into a list, before the value at `place`, or at the end if `place` is the length of
    /// the list.
    ///
    /// # Errors
    /// `AllocError` if the list has to move and there is no memory, or the array would have 2^32 values or
    /// more. The lists then stay as they were.
    pub fn insert(&mut self, list: u32, place: usize, value: T) -> Result<(), AllocError>
        requires list { list < length self.old }
        requires place { place ≤ length (slice_index_or self.old list []) }
        ensures ok { OnOk result (self.new ≡ slice_set self.old list (insert (slice_index_or self.old list []) place value)) }
        ensures err { OnErr result (self.new ≡ self.old) }
    {
        let old = self.places[list as usize];
        let new = place::insert_at(&mut self.values, old, place, value)?;
        self.places[list as usize] = new;
        Ok(())
    }

    /// Removes the value at `place` from a list.
    pub fn remove(&mut self, list: u32, place: usize)
        requires list { list < length self.old }
        requires place { place < length (slice_index_or self.old list []) }
        ensures { self.new ≡ slice_set self.old list (remove (slice_index_or self.old list []) place) }
    {
        let old = self.places[list as usize];
        let new = place::remove_at(&mut self.values, old, place);
        self.places[list as usize] = new;
    }

    /// Writes `value` over the value at `place` of a list.
    pub fn set(&mut self, list: u32, place: usize, value: T)
        requires list { list < length self.old }
        requires place { place < length (slice_index_or self.old list []) }
        ensures { self.new ≡ slice_set self.old list (slice_set (slice_index_or self.old list []) place value) }
    {
        let at = self.places[list as usize];
        place::set_at(&mut self.values, at, place, value);
    }

    /// Moves the values of all lists together, in the order of their places in the array, and frees the
    /// rest of the array. Afterwards no list has room for one more value, so the next insert into a list
    /// moves it.
    ///
    /// It takes O(n log n + v) steps for n lists of v values together, and 8 bytes for each list while it runs.
    ///
    /// # Errors
    /// `AllocError` if there is no memory for the order of the lists.
    pub fn pack(&mut self) -> Result<(), AllocError>
        ensures { self.new ≡ self.old }
    {
        packing::pack(&mut self.values, &mut self.places)
    }

    /// Hands the values of the list `from` over to the list `to`, and leaves `from` empty. The list `to`
    /// loses the values that it had. No value is copied.
    pub fn hand_over(&mut self, from: u32, to: u32)
        requires from { from < length self.old }
        requires to { to < length self.old }
        requires two { from ≢ to }
        ensures { self.new ≡ slice_set (slice_set self.old to (slice_index_or self.old from [])) from [] }
    {
        let place = self.places[from as usize];
        self.places[from as usize] = place::NOWHERE;
        self.places[to as usize] = place;
    }

    /// Leaves the first `count` lists out, and numbers the others from 0 again. No value is copied, and the
    /// room of the lists that are left out stays unused. It takes a step for each list.
    pub fn skip(self, count: u32) -> Lists<T>
        requires { count ≤ length self }
        ensures { result ≡ drop count self }
    {
        let Lists { values, mut places } = self;
        places.copy_within(count as usize.., 0);
        places.truncate(places.len() - count as usize);
        places.shrink_to_fit();
        Lists { values, places }
    }
}

//! The rows of sources by searches, one from each source.
ghost use Rattle.std.specs.Prelude.{◌≡◌, ◌<◌, ◌≤◌, ℕ, true, Some, length, IfOk, OnOk};
ghost use Rattle.ch_hierarchy.specs.Hierarchy.{nodes_of};
ghost use Rattle.ch_query.specs.Limits.{IsWithin};
ghost use Rattle.ch_rows.specs.Cells.{AreCells};
ghost use Rattle.ch_rows.specs.LeastSums.{AreLeastSums};
ghost use Rattle.ch_rows.specs.Near.{IsNearRow};
ghost use Rattle.ch_rows.specs.Offers.{AreUnoffered};
ghost use Rattle.ch_rows.specs.Rooms.{IsNearRoomFor};

use crate::first::sort_and_cut;
use crate::offers::Offers;
use crate::searched::Searched;
use crate::sums::SumsWithin;
use ch_graph::limits::MOST_WEIGHT;
use ch_hierarchy::Hierarchy;
use ch_query::{Scratch, Start, lower_by_search};
use std::alloc::{AllocError, Global};
use std::marker::Model;

/// What makes the rows of sources. Each row is made of the source's search space and the buckets of the
/// targets.
#[derive(Drop)]
pub(crate) struct Nearest<'a> {
    pub(crate) hierarchy: &'a Hierarchy,
    pub(crate) searched: &'a Searched,
}

impl<'a> Model for Nearest<'a> {
    ghost use Rattle.ch_rows.specs.Near.{Wanted};
    ghost use Rattle.ch_rows.specs.Searched.{AreSearched, asked_of, wanted_in};

    ghost Value = { Wanted };

    ghost view = { λ t. wanted_in t.hierarchy.now (asked_of t.searched.now) };

    ghost invariant = { λ t. AreSearched t.hierarchy.now t.searched.now };
}

impl<'a> Nearest<'a> {
    /// Offers to each place the sums of the source's search space and the buckets, within a bound that is at most the limit.
    fn offer_sums(
        &self,
        room: &mut NearRoom,
        source: u32,
        bound: Option<u64>,
    ) -> Result<(), AllocError>
        requires source { source < nodes_of self.now.hierarchy }
        requires bound { (x : ℕ) → IsWithin bound x → IsWithin self.now.limit x }
        requires room { IsNearRoomFor self.now room.old }
        ensures sums { OnOk result (AreLeastSums self.now bound source room.new.offers) }
        ensures scratch { OnOk result (room.new.scratch ≡ nodes_of self.now.hierarchy) }
    {
        let NearRoom {
            scratch,
            offers,
            ..
        } = room;
        let start = Start {
            source,
            side: self.searched.direction.side(),
            within: bound,
        };
        lower_by_search(
            self.hierarchy,
            scratch,
            start,
            &SumsWithin { limit: bound },
            &self.searched.buckets,
            offers,
        )?;
        Ok(())
    }

    /// Makes the row of a source within a bound that is at most the limit.
    fn fill(
        &self,
        alloc: Global,
        room: &mut NearRoom,
        source: u32,
        bound: Option<u64>,
    ) -> Result<(), AllocError>
        requires source { source < nodes_of self.now.hierarchy }
        requires bound { (x : ℕ) → IsWithin bound x → IsWithin self.now.limit x }
        requires room { IsNearRoomFor self.now room.old }
        ensures row { OnOk result (IsNearRow self.now.hierarchy bound self.now.count self.now.targets source room.new.row.items) }
        ensures room { OnOk result (IsNearRoomFor self.now room.new) }
    {
        self.offer_sums(room, source, bound)?;
        let NearRoom { offers, row, .. } = room;
        offers.take(row)?;
        sort_and_cut(row, self.searched.count);
        Ok(())
    }

    /// Makes the row of a source within a limit of its own. If the guess is less than this limit, it tries the
    /// guess as the bound first. If the row is not full then, it makes the row within the limit.
    pub(crate) fn fill_by_guess(
        &self,
        alloc: Global,
        room: &mut NearRoom,
        source: u32,
        within: Option<u64>,
    ) -> Result<(), AllocError>
        requires source { source < nodes_of self.now.hierarchy }
        requires within { (x : ℕ) → IsWithin within x → IsWithin self.now.limit x }
        requires room { IsNearRoomFor self.now room.old }
        ensures row { OnOk result (IsNearRow self.now.hierarchy within self.now.count self.now.targets source room.new.row.items) }
        ensures room { OnOk result (IsNearRoomFor self.now room.new) }
    {
        let guess = room.guess;
        if is_lesser(guess, within) {
            self.fill(alloc, room, source, Some(guess))?;
            if room.is_full(self.searched.count) {
                return Ok(());
            }
        }
        self.fill(alloc, room, source, within)
    }

    /// Writes the row of a source, within the limit of the search from the targets.
    pub(crate) fn write_row(
        &self,
        alloc: Global,
        room: &mut NearRoom,
        source: u32,
        row: &mut Vec<(u64, u32)>,
    ) -> Result<(), AllocError>
        requires source { source < nodes_of self.now.hierarchy }
        requires room { IsNearRoomFor self.now room.old }
        ensures row { OnOk result (IsNearRow self.now.hierarchy self.now.limit self.now.count self.now.targets source row.new.items) }
        ensures room { OnOk result (IsNearRoomFor self.now room.new) }
    {
        self.fill_by_guess(alloc, room, source, self.searched.within)?;
        row.clear();
        row.extend_from_slice(&room.row)?;
        room.guess_by(self.searched.count);
        Ok(())
    }

    /// Writes the cells of a source, within the limit of the search from the targets.
    pub(crate) fn write_cells(
        &self,
        room: &mut NearRoom,
        source: u32,
        cells: &mut Vec<u64>,
    ) -> Result<(), AllocError>
        requires whole { IsWithin self.now.count (length self.now.targets) }
        requires source { source < nodes_of self.now.hierarchy }
        requires room { IsNearRoomFor self.now room.old }
        ensures cells { OnOk result (AreCells self.now source cells.new.items) }
        ensures room { OnOk result (IsNearRoomFor self.now room.new) }
    {
        self.offer_sums(room, source, self.searched.within)?;
        let NearRoom {
            offers,
            row: rest,
            ..
        } = room;
        cells.clear();
        cells.extend_from_slice(offers.words())?;
        // No offer is left for the next source.
        offers.take(rest)?;
        Ok(())
    }
}

/// What a worker has for the rows of sources. It serves one row after the other.
#[derive(Drop)]
pub struct NearRoom {
    pub(crate) scratch: Scratch,
    pub(crate) offers: Offers,
    pub(crate) row: Vec<(u64, u32)>,
    /// A guess from the last row how far the nearest targets are at most. It changes no row.
    guess: u64,
}

impl NearRoom {
    /// Makes the room for rows of nodes of a hierarchy of `nodes` nodes, to `targets` targets.
    pub(crate) fn new(alloc: Global, nodes: u32, targets: u32) -> Result<NearRoom, AllocError>
        ensures scratch { IfOk result (λ room. room.scratch ≡ nodes) }
        ensures offers { IfOk result (λ room. AreUnoffered targets room.offers) }
    {
        let offers = Offers::new(alloc, targets)?;
        let scratch = Scratch::new(alloc, nodes)?;
        Ok(NearRoom {
            scratch,
            offers,
            row: Vec::new(alloc),
            guess: MOST_WEIGHT,
        })
    }

    /// The row that was made last: pairs of a distance and a place in the list of targets, in this order.
    pub fn row(&self) -> &[(u64, u32)]
        ensures { result.now ≡ self.now.row.items }
    {
        &self.row
    }

    /// Whether the row has as many targets as are asked for.
    fn is_full(&self, count: Option<u32>) -> bool
        ensures { result ≡ true → count ≡ Some (length self.now.row.items) }
    {
        match count {
            Some(most) => self.row.len() == most as usize,
            None => false,
        }
    }

    /// Guesses that the nearest targets of the next source are at most twice as far as the last target of
    /// this row. If the row is not full, there is no such bound.
    pub(crate) fn guess_by(&mut self, count: Option<u32>)
        ensures scratch { self.new.scratch ≡ self.old.scratch }
        ensures offers { self.new.offers ≡ self.old.offers }
        ensures row { self.new.row.items ≡ self.old.row.items }
    {
        let last = match self.row.last() {
            Some((weight, _)) => *weight,
            None => MOST_WEIGHT,
        };
        self.guess = if self.is_full(count) {
            last.saturating_mul(2)
        } else {
            MOST_WEIGHT
        };
    }
}

/// Whether a guess is less than the limit, if there is one, and less than the greatest weight of a path.
fn is_lesser(guess: u64, within: Option<u64>) -> bool
    ensures { result ≡ true → (x : ℕ) → x ≤ guess → IsWithin within x }
{
    match within {
        Some(most) => guess < most && guess < MOST_WEIGHT,
        None => guess < MOST_WEIGHT,
    }
}

//! Weights that are offered to places, and the least weight of each place.
ghost use Rattle.std.specs.Prelude.{◌≡◌, ◌<◌, length, min, slice_index, slice_set, IfOk, OnOk};
ghost use Rattle.ch_rows.specs.Offers.{AreUnoffered, AreTaken};

use std::alloc::{AllocError, Global};
use std::marker::Model;

/// The weight of a place without an offer. It is more than any sum of two paths.
pub(crate) const UNOFFERED: u64 = u64::MAX;

/// The least weight that was offered to each place. Contracts see it as a list.
#[derive(Drop)]
pub(crate) struct Offers {
    /// The least weight by place.
    least: Vec<u64>,
    /// The places that have an offer, each once.
    places: Vec<u32>,
}

impl Model for Offers {
    ghost use Rattle.std.specs.Prelude.{ℕ, List};
    ghost use Rattle.ch_rows.specs.Offers.{AreListed};

    ghost Value = { List ℕ };

    ghost view = { λ o. o.least.items };

    ghost invariant = { λ o. AreListed o.least.items o.places.items };
}

impl Offers {
    /// Makes a list of `places` places without offers.
    pub(crate) fn new(alloc: Global, places: u32) -> Result<Offers, AllocError>
        ensures { IfOk result (AreUnoffered places) }
    {
        let least = vec![in alloc; UNOFFERED; places as usize]?;
        Ok(Offers {
            least,
            places: Vec::new(alloc),
        })
    }

    /// Offers a weight to a place.
    #[inline]
    pub(crate) fn offer(&mut self, place: u32, weight: u64) -> Result<(), AllocError>
        requires place { place < length self.old }
        requires weight { weight < UNOFFERED }
        ensures { OnOk result (self.new ≡ slice_set self.old place (min (slice_index self.old place) weight)) }
    {
        let least = self.least[place as usize];
        if weight < least {
            if least == UNOFFERED {
                self.places.push(place)?;
            }
            self.least[place as usize] = weight;
        }
        Ok(())
    }

    /// The least weight that was offered to each place, or [`UNOFFERED`].
    pub(crate) fn words(&self) -> &[u64]
        ensures { result.now ≡ self.now }
    {
        &self.least
    }

    /// Moves all offers into this row: the least weight of each place that has an offer.
    pub(crate) fn take(&mut self, row: &mut Vec<(u64, u32)>) -> Result<(), AllocError>
        ensures taken { OnOk result (AreTaken self.old row.new.items) }
        ensures none { OnOk result (AreUnoffered (length self.old) self.new) }
    {
        row.clear();
        while let Some(place) = self.places.pop() {
            let weight = self.least[place as usize];
            self.least[place as usize] = UNOFFERED;
            row.push((weight, place))?;
        }
        Ok(())
    }
}

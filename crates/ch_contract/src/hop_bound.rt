//! The bound on the legs of a witness.
ghost use Rattle.std.specs.Prelude.{◌≡◌, ◌↔◌, IfSome, IsSome};
ghost use Rattle.ch_contract.specs.Legs.{IsHopBound};

use ch_graph::limits::MOST_HOPS;

/// The most legs that a witness may have: a number from 1 to [`MOST_HOPS`].
#[derive(Clone, Copy, Debug, PartialEq, Eq)]
pub struct HopBound {
    pub number: u32,
    pub ghost in_range: { IsHopBound number },
}

impl HopBound {
    /// Returns the bound of this number, or `None` if no witness may have that bound.
    pub fn new(number: u32) -> Option<HopBound>
        ensures some { IsSome result ↔ IsHopBound number }
        ensures number { IfSome result (λ hops. hops.number ≡ number) }
    {
        if 1 <= number && number <= MOST_HOPS {
            Some(HopBound { number })
        } else {
            None
        }
    }
}

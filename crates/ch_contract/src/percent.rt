//! Per cents.
ghost use Rattle.std.specs.Prelude.{◌≡◌, ◌≤◌, ◌↔◌, IfSome, IsSome};

/// A number of per cent, from 0 to 100.
#[derive(Clone, Copy, Debug, PartialEq, Eq)]
pub struct Percent {
    pub number: u32,
    pub ghost in_range: { number ≤ 100 },
}

impl Percent {
    /// Returns this many per cent, or `None` if that is more than the whole.
    pub fn new(number: u32) -> Option<Percent>
        ensures some { IsSome result ↔ (number ≤ 100) }
        ensures number { IfSome result (λ percent. percent.number ≡ number) }
    {
        if number <= 100 {
            Some(Percent { number })
        } else {
            None
        }
    }
}
